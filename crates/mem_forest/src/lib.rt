//! What a predicate knows of memory: a forest of named regions, in which siblings are separate and
//! children lie inside. It holds the data, the searches and the rules; it reads no memory and runs nothing.

#![tactic(auto)]

mod clearing;
mod forest;
mod forgetting;
mod holders;
mod levels;
mod loading;
mod mentioning;
mod naming;
mod node;
mod storing;

pub use forest::Forest;
pub use holders::{find_holder, holds_term};
pub use memory_regions::{Context, Region, Relation};
pub use node::{Node, remaining_after};
