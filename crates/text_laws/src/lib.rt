//! The laws of the texts of terms, lines and graphs: what is written is read again, and one text is of one value. The
//! functions do nothing.
#![tactic(auto)]

mod graphs;
mod lines;
mod terms;

pub use graphs::graph_text_laws;
pub use lines::line_laws;
pub use terms::term_text_laws;
