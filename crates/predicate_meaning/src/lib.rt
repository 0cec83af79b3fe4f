//! When a predicate is true of a state, and what the symbols of an activation are, as definitions.
#![tactic(auto)]
