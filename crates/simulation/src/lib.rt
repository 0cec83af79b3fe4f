//! The simulation theorem over any machine: a run of a valid graph that keeps what the graph
//! assumes is safe. It holds for each machine, predicate and step rule that meets a short list of
//! laws about one instruction; this crate supplies none of them.
#![tactic(auto)]

mod theorem;

pub use theorem::{Subject, simulation};
