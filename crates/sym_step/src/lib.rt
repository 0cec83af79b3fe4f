//! The symbolic step: where an instruction leads and what is known there, by the rules of `step_rules`. It borrows what
//! the instruction leaves as it is, runs nothing and reads no memory but the executable's fixed bytes.
#![tactic(auto)]

mod calls;
mod cases;
mod jumps;
mod lookup;
mod site;

pub use calls::{call_target, keeps_hold};
pub use cases::{Cases, case_addresses, holds_edge};
pub use site::{fork_holds, return_holds, store_region};
pub use sym_terms::NoMemory;
