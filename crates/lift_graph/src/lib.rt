//! The vertices and edges that a lifter has found of one function. It knows addresses alone, and nothing of what holds at a
//! vertex.
#![tactic(auto)]

mod components;
mod first;
mod graph;
mod heads;
mod links;
mod order;
mod parts;
mod search;
mod settled;
mod weave;

pub use graph::{Graph, Key, Place};
pub use links::{Stop, link};
pub use no_memory::NoMemory;
pub use settled::settle_edges;
