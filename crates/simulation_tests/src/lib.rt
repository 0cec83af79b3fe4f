//! Tests of the example of the simulation theorem: which graphs it accepts.
#![tactic(auto)]

#[cfg(test)]
mod acceptance;
