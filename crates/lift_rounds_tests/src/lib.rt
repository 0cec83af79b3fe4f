//! Tests of the public calls of `lift_rounds`, with steps of a small program. Expected values are worked by hand. It gives those
//! steps alone.
#![tactic(auto)]

#[cfg(test)]
mod lifted;
pub mod toy;
