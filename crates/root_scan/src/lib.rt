//! Scans of bytes, many at a time: the aligned words among them, the bits that are set, and the words of
//! an executable's data that are addresses of code. What is looked at is never changed.
#![tactic(auto)]

mod bits;
mod lanes;
mod roots;
mod words;

pub use bits::covered;
pub use roots::scan_roots;
pub use words::scan_words;
