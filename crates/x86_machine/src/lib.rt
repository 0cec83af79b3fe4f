//! A machine of x86-64 and one step of it: what an instruction does to registers, flags and bytes. A refused growth
//! changes nothing.
#![tactic(auto)]

mod advance;
mod machine;
mod memory;
mod moves;
mod named;
mod steps;

pub use machine::{Machine, Outcome};
pub use named::{named_register, names_store};
pub use no_memory::NoMemory;
