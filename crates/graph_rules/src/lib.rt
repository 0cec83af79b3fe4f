//! The rules of a graph as the theorem over runs has them, with the step of every instruction, as definitions. It has no
//! code.
#![tactic(auto)]
