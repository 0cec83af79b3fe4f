//! What is true of the definitions of jump tables. It has no code.
#![tactic(auto)]

mod laws;

pub use laws::table_laws;
