//! What is true of symbolic terms: the call does nothing, and its clauses are laws of their order, their normal form
//! and their value.
#![tactic(auto)]

mod laws;

pub use laws::laws_of_terms;
