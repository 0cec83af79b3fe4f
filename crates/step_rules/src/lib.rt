//! What is known after each instruction, as definitions: the twin of the machine's step on predicates. It has no code.
#![tactic(auto)]
