//! The decoder: the one instruction whose spelling begins the bytes at an address.
//! No call takes memory.
#![tactic(auto)]

mod decoding;
mod fields;
mod operands;
mod prefixes;
mod reading;
mod table;

pub use decoding::{decode, one_spelling, reading_laws};
