//! The jumps of a function opened one by one: a jump that its vertices resolve is opened, rounds go on with its edges, and where
//! one of them is lost all is put back. What a predicate is, and what a step makes of it, is the caller's.
#![tactic(auto)]

mod copies;
mod jumps;
mod lift;
mod openings;

pub use jumps::Jumps;
pub use lift::Lift;
pub use lift_rounds::{Case, Graph, Made, Steps};
pub use no_memory::NoMemory;
pub use openings::lift_from;
