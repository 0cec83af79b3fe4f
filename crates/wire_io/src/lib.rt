//! Files to read and streams to write, as traits whose ghost members say what they hold and how
//! often they failed, with implementations in memory, reading to the end and writing to the last
//! byte. It opens no real file and writes to no real stream.
#![tactic(auto)]

mod outside;
mod reading;
mod refusals;
mod shelves;
mod sinks;
mod writing;

pub use no_memory::NoMemory;
pub use outside::{Shelf, Sink};
pub use reading::read_whole;
pub use refusals::{Failed, ReadRefusal, WriteFailed};
pub use shelves::{MemShelf, QuietShelf};
pub use sinks::{MemSink, QuietSink};
pub use writing::put_all;
