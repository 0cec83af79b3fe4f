//! The world of the theorem over runs: x86-64 with an executable, predicates and graphs; and its
//! laws that depend on no rule of a step. No step rule stands here, and no code.
#![tactic(auto)]

mod laws;

pub use laws::world_laws;
