//! What is true of the operations on integers of `bits_core`: each call does nothing, and its clauses are laws.
#![tactic(auto)]

mod laws;

pub use laws::{arithmetic_laws, comparison_laws, low_bits_laws};
