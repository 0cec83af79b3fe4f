//! The laws of calls: what is known after a call or a system call is true, and where a call leads. It has no code.
#![tactic(auto)]

mod laws;

pub use laws::call_laws;
