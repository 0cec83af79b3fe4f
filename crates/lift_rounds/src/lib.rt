//! Rounds over the graph of a function: what holds at its vertices is made of the cases that lead to them, again and again,
//! until nothing changes. What a predicate is, and what a step makes of it, is the caller's.
#![tactic(auto)]

mod compare;
pub mod data;
mod first;
mod front;
mod gather;
mod one_round;
mod ready;
mod rounds;
mod steps;
mod visit;

pub use data::{Case, Change, Made};
pub use first::first_known;
pub use lift_graph::{Graph, Stop};
pub use one_round::round;
pub use rounds::{Ended, run_rounds, settle};
pub use steps::Steps;
