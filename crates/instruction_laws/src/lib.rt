//! The law of a step: what is known after each ordinary instruction is true of the state after it. It has no code.
#![tactic(auto)]

mod laws;

pub use laws::instruction_laws;
