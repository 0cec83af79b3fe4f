//! What is known after an instruction that goes on at the next one, by the rules of `step_rules`: what it moves, computes and
//! compares, what a condition says of a comparison, and which entry of a table it may load.
#![tactic(auto)]

mod bounds;
mod moves;
mod operations;
mod results;
mod steps;
mod tables;
mod terms;

pub use bounds::{bounds_where, opposite_of};
pub use moves::{below_top, push_address};
pub use operations::executed;
pub use sym_terms::NoMemory;
pub use tables::{chosen_targets, loaded_values, with_values};
