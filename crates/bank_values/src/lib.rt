//! Predicates whose terms are numbers of a bank: their data, how they stand to predicates of terms, and how one is
//! weakened by another. It runs no instruction.
#![tactic(auto)]

mod equal;
mod known;
mod list;
mod node;
mod pred;
mod putting;
mod reading;
mod weakening;

pub use node::{BankNode, copy_nodes};
pub use pred::BankPred;
pub use putting::{renumber, to_bank};
pub use reading::{copy_at, from_bank, read_nodes};
