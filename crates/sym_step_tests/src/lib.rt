//! Tests of the public calls of `sym_step`, by the rows of `step_rows`: where an instruction leads, what is known there, and
//! what is not.

#![tactic(auto)]

#[cfg(test)]
mod questions;
#[cfg(test)]
mod steps;
