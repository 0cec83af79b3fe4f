//! The graph of a function that pushes keeps the rules of every instruction, so every run of it is
//! safe: the premises of the theorem can be met where memory is written. Laws, and no code.
#![tactic(auto)]

mod witness;

pub use witness::{push_is_safe, push_meets_the_premises};
