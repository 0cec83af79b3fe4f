//! The text of an instruction, as it is listed.
#![tactic(auto)]

mod names;
mod text;

pub use no_memory::NoMemory;
pub use text::write_instr;
