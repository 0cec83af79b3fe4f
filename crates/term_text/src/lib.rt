//! The one text of a symbolic term, its reading with the cause of a refusal, and the numbers and names
//! that stand in it.

#![tactic(auto)]

mod cause;
mod names;
mod numbers;
mod parser;
mod reading;
mod writing;

pub use cause::TextCause;
pub use names::register_name;
pub use numbers::{put_decimal, put_hex, put_number, read_decimal, read_hex, read_number};
pub use reading::read_term;
pub use writing::put_term;
