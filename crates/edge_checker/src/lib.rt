//! The checker of Hoare graphs: whether a graph breaks a rule against an executable, and which one first.
//! It trusts nothing that made the graph.
#![tactic(auto)]

mod checking;
mod edges;
mod entry;
mod kinds;
mod places;
mod sites;
mod vertices;

pub use checking::{check, check_function, verdict_laws};
pub use sym_terms::NoMemory;
