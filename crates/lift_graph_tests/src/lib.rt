//! Tests of the public calls of `lift_graph`. Expected values are worked by hand. It gives nothing.
#![tactic(auto)]

#[cfg(test)]
mod graphs;
