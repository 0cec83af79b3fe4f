//! What a site of a lifted graph says beside its vertices: its kind, the pairs of regions that are taken as separate, and the
//! regions that a callee is taken to leave as they were, of what is known at its vertices. It runs nothing.
#![tactic(auto)]

mod critical;
mod kinds;
mod lines;
mod pairs;
mod ranked;
mod saved;
mod subject;

pub use kinds::common_target;
pub use lines::{Lines, lines_at, view_with};
pub use subject::{FRAME_ABOVE, FRAME_BELOW, Program};
pub use sym_terms::NoMemory;
