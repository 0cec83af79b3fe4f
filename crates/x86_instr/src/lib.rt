//! The instructions of the supported part of x86-64 as data, and which are in form. It does nothing.
#![tactic(auto)]

mod class;
mod instr;
mod registers;

pub use class::Class;
pub use instr::{Instr, Op, Operand, Place};
pub use registers::{RAX, RBP, RCX, RDX, RSP};
