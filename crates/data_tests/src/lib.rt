//! Tests of the public calls of `graph_data`. It gives nothing.
#![tactic(auto)]

#[cfg(test)]
mod graphs;
