//! The instruction at an address of an executable: the one that has the address and a spelling of
//! which is a prefix of the code there. It decodes, and keeps nothing.
#![tactic(auto)]

mod at;

pub use at::{instr_at, instr_at_laws, instr_in};
