//! What holds of the memory forest: every known answer of `relate` is true, and each rule keeps what a
//! forest says of a memory. It has no code.

#![tactic(auto)]

mod forest;

pub use forest::forest_laws;
