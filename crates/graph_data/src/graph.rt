// The data of a graph.
use mem_forest::Region;
use predicates::{Kind, Pred};
use sqlite_items::Items;
use thiserror::Error;

/// A predicate, and its edges: for each case of the instruction, in the order of the cases, an address and the
/// number of a vertex there.
#[derive(Drop)]
pub struct Vertex {
    pub pred: Pred,
    pub out: Items<(u64, u32)>,
}

/// An address with an instruction, what is claimed of it, what is assumed there, and its vertices by number.
#[derive(Drop)]
pub struct Site {
    pub addr: u64,
    pub kind: Kind,
    /// Pairs of regions that are taken as separate.
    pub seps: Items<(Region, Region)>,
    /// A pair of regions of which three cases are told apart: one address, separate, or neither said.
    pub fork: Option<(Region, Region)>,
    /// Regions whose bytes a callee leaves as they were.
    pub keeps: Items<Region>,
    pub vertices: Items<Vertex>,
}

/// Why an entry has no graph.
#[derive(Clone, Copy, Debug, PartialEq, Eq)]
pub enum Refused {
    /// The entry is no code.
    NotCode,
}

/// A function by its entry. Its frame is `below` bytes below the entry's stack pointer and `above` bytes from it
/// on. One that is refused has no frame and no sites.
#[derive(Drop)]
pub struct Function {
    pub entry: u64,
    pub below: u64,
    pub above: u64,
    pub refused: Option<Refused>,
    pub sites: Items<Site>,
}

/// Functions, ascending by entry where the graph is well formed.
#[derive(Drop)]
pub struct Graph {
    pub functions: Items<Function>,
}

/// What a full graph has to hold: the functions to begin with, those outside, and whether sites may fork.
#[derive(Debug, Drop)]
pub struct Policy {
    pub roots: Items<u64>,
    pub externs: Items<u64>,
    pub fork: bool,
}

/// Why a function isn't lifted.
#[derive(Clone, Copy, Debug, PartialEq, Eq, Error)]
pub enum LiftRefusal {
    #[error("the entry is no code")]
    NotCode,
    #[error("out of memory")]
    NoMemory,
}
