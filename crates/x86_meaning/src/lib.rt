//! What is known of the supported part of x86-64, under one name: instructions, their encodings, the machine and one
//! step of it, and their text.
#![tactic(auto)]

pub use x86_instr::{Class, Instr, Op, Operand, Place, RAX, RBP, RCX, RDX, RSP};
pub use x86_machine::{Machine, NoMemory, Outcome};
pub use x86_spelling::{Form, ImmSize, ModRm, Parts, PrefixRule, Row, Sib, Size};
pub use x86_text::write_instr;
