//! The step of the lifter: where an instruction leads and what is known there, by the rules of `step_rules`, on a predicate
//! that is changed in place. It runs nothing and reads no memory but the executable's fixed bytes.
#![tactic(auto)]

mod calls;
mod cases;
mod executed;
mod jumps;
mod moves;
mod site;
mod steps;

pub use calls::begin;
pub use cases::{Led, led_of};
pub use site::{Facts, facts_of};
pub use sym_terms::NoMemory;
