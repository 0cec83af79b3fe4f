//! A machine of seven instructions, with graphs of its code and a checker of their rules. The
//! simulation theorem holds for it, so a graph that `accept` takes has safe runs alone. It shows
//! that the theorem's premises can be met, and is no part of any program.
#![tactic(auto)]

mod check;
mod graph;
mod laws;
mod machine;
mod predicate;
mod runs;

pub use graph::{Function, Graph, Kind, Site, Vertex};
pub use machine::{Image, Instr};
pub use predicate::{Pred, Region, Term};
pub use runs::accept;
