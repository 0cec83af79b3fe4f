//! Symbolic terms: sums of atoms with coefficients, modulo 2^64, in a normal form that decides what is
//! equal. Terms are made by calls alone, keep the normal form at every level, and have at most 32 nodes.

#![tactic(auto)]

mod atoms;
mod equality;
mod kinds;
mod linear;
mod numbers;
mod place;
mod sum;
mod term;

pub use kinds::{Fit, Pair, Sym};
pub use no_memory::NoMemory;
pub use sum::{Atom, PieceList, Sum};
pub use term::{MOST_NODES, Term, copy_known};
