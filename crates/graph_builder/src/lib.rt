//! The builder of a graph from its lines: which line can come next, the first fault of a line, what it adds, and the
//! graph in the end. It looks at no bytes and copies nothing.
#![tactic(auto)]

mod builder;
mod close;
mod extend;
mod follow;
mod laws;
mod limits;
mod list_vec;
mod order;

pub use builder::Builder;
pub use laws::builder_laws;
