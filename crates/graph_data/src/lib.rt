//! Hoare graphs as data: predicates as vertices, instructions as edges.
//! It looks functions and sites up; it never looks into the executable, and reads no text.
#![tactic(auto)]

mod graph;
mod limits;
mod lookup;

pub use graph::{Function, Graph, LiftRefusal, Policy, Refused, Site, Vertex};
pub use limits::{MOST_EDGES, MOST_FRAME, MOST_KEEPS, MOST_PAIRS, MOST_VERTICES};
pub use predicates::{Kind, Reason};
