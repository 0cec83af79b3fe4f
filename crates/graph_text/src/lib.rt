//! The text of a graph: one spelling for each well-formed graph, and for every other text the first faulty line with
//! its first cause. Text is read line by line.
#![tactic(auto)]

mod read;
mod refusal;
mod take;
mod write;

pub use read::read_graph;
pub use refusal::TextRefusal;
pub use term_text::TextCause;
pub use write::{write_function, write_graph};
