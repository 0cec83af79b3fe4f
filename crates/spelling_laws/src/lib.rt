//! What is true of every spelling.
#![tactic(auto)]

mod laws;

pub use laws::spelled_in_form;
