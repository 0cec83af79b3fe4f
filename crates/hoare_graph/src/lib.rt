//! Hoare graphs under one name: their data, and what a checker says of them.
#![tactic(auto)]

pub use graph_data::{Function, Graph, Kind, LiftRefusal, Policy, Reason, Refused, Site, Vertex};
pub use graph_verdict::{Broken, Rule, Verdict};
