//! Regions of memory, and how one lies to another by their addresses, the frame and listed pairs. It
//! reads no memory and takes none.

#![tactic(auto)]

mod region;
mod relating;

pub use region::{Context, Region, Relation};
pub use relating::{relate, relate_at};
