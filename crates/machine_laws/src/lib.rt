//! What is true of every step of the machine.
#![tactic(auto)]

mod laws;

pub use laws::step_laws;
