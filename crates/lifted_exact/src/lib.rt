//! What holds of a function that was lifted: it is exact, and in form. The crate has no code.
#![tactic(auto)]

mod laws;

pub use laws::laws_of_lifted;
