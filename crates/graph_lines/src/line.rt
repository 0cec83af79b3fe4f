use mem_forest::{Node, Region};
use predicates::{Bound, FlagFact, Kind};
use sqlite_items::Items;
use sym_terms::Term;

/// A line of a graph's text after the head.
#[derive(Drop)]
pub enum Line {
    /// A function by its entry, with the bytes of its frame below and above.
    Function(u64, u64, u64),
    /// A function that is refused, since its entry is no code.
    Refused(u64),
    /// A site by its address.
    Site(u64, Kind),
    /// A vertex by its number.
    Vertex(u64),
    /// What is assumed at a site, before its first vertex.
    InSite(SiteLine),
    /// A part of a vertex.
    InVertex(VertexLine),
    End,
}

/// A line of a site before its first vertex.
#[derive(Drop)]
pub enum SiteLine {
    /// Two regions that are taken as separate.
    Pair(Region, Region),
    /// Two regions of which three cases are told apart.
    Fork(Region, Region),
    /// A region whose bytes a callee leaves as they were.
    Keep(Region),
}

/// A line of a vertex after its own.
#[derive(Drop)]
pub enum VertexLine {
    /// Registers by number with their terms, or that they are unknown.
    Registers(Items<(u8, Option<Term>)>),
    Flags(FlagFact),
    Bound(Bound),
    /// A node that many levels below the top, with none under it.
    Node(u64, Node),
    /// An address and the number of a vertex there, for each case.
    Edges(Items<(u64, u32)>),
}
