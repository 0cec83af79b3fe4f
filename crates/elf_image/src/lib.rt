//! The executable: its entry and its loaded segments, read from an ELF-64 file, and what stands at an address.
//! Every file that is no executable for x86-64 of this form is refused by name. Nothing is run or relocated.
#![tactic(auto)]

mod checks;
mod header;
mod image;
mod loaded;
mod reading;
mod refusal;

pub use image::{Image, Segment};
pub use reading::read_elf;
pub use refusal::ElfRefusal;
