//! A graph's report for those who read it: what it counts, what it assumes, where it ends. It is made of
//! any graph, valid or not, and judges nothing.
#![tactic(auto)]

mod counts;
mod coverage;
mod lines;
mod marks;
mod text;

pub use text::report;
