//! Predicates over a state: what is known of registers, flags and memory, as terms over the entry state.
//! It holds the data, its form and its size, and decides which predicate entails which; it reads no memory
//! and runs nothing.

#![tactic(auto)]

mod bound;
mod conjunct;
mod entail;
mod pred;
mod site;
mod weaken;

pub use bound::{Bound, FlagFact, MOST_NUMBERS, Values};
pub use conjunct::Conjunct;
pub use entail::{check_nodes, holds_flags, missing_bound};
pub use pred::{MOST_BOUNDS, Pred, REGISTERS, entry_pred};
pub use site::{Kind, Reason, SiteView};
