//! What a checker says of a graph: the first broken rule and its place. It checks nothing.
#![tactic(auto)]

mod verdict;

pub use verdict::{Broken, Rule, Verdict};
