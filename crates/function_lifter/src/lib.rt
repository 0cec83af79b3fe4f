//! The lifter: from an executable and an entry to the Hoare graph of a function that is valid, without running it. What holds at a
//! vertex is made of the cases that lead to it, in rounds, until nothing changes.
#![tactic(auto)]

mod build;
mod entry;
mod forms;
mod functions;
mod numbers;

pub use entry::{lift_function, lift_with};
pub use functions::lift_all;
pub use graph_data::{Function, Graph, LiftRefusal, Policy};
pub use no_memory::NoMemory;
