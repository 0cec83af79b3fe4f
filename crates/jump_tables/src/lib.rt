//! Jump tables of an executable: the numbers in them, and where a jump by one of a list of numbers leads. Only bytes that
//! the program doesn't change are read, and nothing is run.
#![tactic(auto)]

mod order;
mod table;
mod target;

pub use no_memory::NoMemory;
pub use table::table_values;
pub use target::targets;
