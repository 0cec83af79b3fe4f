//! The fields of an encoding and the rows of the opcode map as data; in specs/, which bytes spell which instruction.
//! It reads no bytes.
#![tactic(auto)]

mod encoding;

pub use encoding::{Form, ImmSize, ModRm, Parts, PrefixRule, Row, Sib, Size};
