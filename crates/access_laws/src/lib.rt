//! What is true of a predicate once a name is dropped and operands are read and written. It has no code.
#![tactic(auto)]
