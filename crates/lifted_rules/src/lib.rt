//! The rules of a lifted function: the call does nothing, and its clauses are laws. It has no code.
#![tactic(auto)]

mod laws;

pub use laws::laws_of_lifting;
