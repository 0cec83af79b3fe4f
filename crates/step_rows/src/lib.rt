//! Rows that are worked by hand from docs/STEP.md, by which the steps of the checker and of the lifter are tried: tables of
//! instructions, sites and predicates in the graph text, and what they are read with.
#![tactic(auto)]

pub mod branches;
pub mod calls;
pub mod limits;
pub mod loads;
pub mod names;
pub mod questions;
pub mod results;
pub mod rows;
pub mod sample;
pub mod stack;
pub mod stores;
pub mod tables;
