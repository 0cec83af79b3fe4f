//! What is known after a part of a step, by the rules of `step_rules`: what the step didn't change is borrowed from the
//! predicate before it. It holds no machine, runs nothing and reads no memory but the executable's fixed bytes.
#![tactic(auto)]

mod access;
mod after;
mod bounds;
mod dropping;
mod fact;
mod memory;
mod missing;
mod names;
mod slot;
mod terms;

pub use access::{fixed, merged};
pub use after::After;
pub use bounds::Bounds;
pub use fact::Fact;
pub use memory::Memory;
pub use names::{cut_name, is_low_register, load_name, name, register_name, store_name};
pub use slot::Slot;
pub use terms::{cut, fitted, shifted};
