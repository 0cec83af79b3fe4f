//! Want of memory, as every crate answers it. It does nothing.
#![tactic(auto)]

mod refusal;

pub use refusal::NoMemory;
