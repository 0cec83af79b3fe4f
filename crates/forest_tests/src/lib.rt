//! Tests of the public calls of `memory_regions` and `mem_forest`, as tables.

#![tactic(auto)]

#[cfg(test)]
mod forms;
#[cfg(test)]
mod relations;
#[cfg(test)]
mod rules;
#[cfg(test)]
mod sample;
