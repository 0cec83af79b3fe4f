//! Tests of `check` on graphs of whole functions: of small programs and of a compiled one, as they are valid and with a change
//! that breaks one rule; and of `lift` on the same programs.
#![tactic(auto)]

#[cfg(test)]
mod compiled_graph;
#[cfg(test)]
mod graphs;
#[cfg(test)]
mod lifted_graphs;
#[cfg(test)]
mod whole_graphs;
