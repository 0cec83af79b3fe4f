//! The theorem over runs with the step of every instruction: every run of a graph that keeps the rules is safe. It has
//! no code.
#![tactic(auto)]

mod laws;

pub use laws::{rule_laws, runs_are_safe};
