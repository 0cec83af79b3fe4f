//! What is true of entailment between predicates: the call does nothing, and its clauses are laws.
#![tactic(auto)]

mod laws;

pub use laws::laws_of_entailment;
