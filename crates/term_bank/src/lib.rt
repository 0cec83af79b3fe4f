//! Banks of terms: each term stands once and is known by its place. A bank only grows; what was put keeps its number.

#![tactic(auto)]

mod bank;
mod intern_bank;
mod plain_bank;

pub use bank::Bank;
pub use intern_bank::InternBank;
pub use plain_bank::PlainBank;
