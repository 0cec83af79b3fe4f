//! The commands of the program as functions over words, files and streams: the words, the order of
//! the work, the statuses and texts. The top call is `foxdec`. It reads each file once and writes
//! nothing before its output is complete; it opens no file and no stream itself.
#![tactic(auto)]

mod commands;
mod ending;
mod file_refusal;
mod graph_fault;
mod listing;
mod top;
mod verdict_line;
mod words;

pub use ending::say_out_of_memory;
pub use top::{foxdec, foxdec_quiet};
