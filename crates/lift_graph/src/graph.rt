ghost use Rattle.std.specs.Prelude.{◌≡◌, ◌<◌, ◌≤◌, ◌+◌, ◌^◌, ◌⊎◌, ◌++◌, ◌∷◌, [], ℕ, Some, length, IfOk, OnOk, slice_get};
ghost use Rattle.lift_graph.specs.Graph.{IsListed, IsExtended, address_at, tag_at};
ghost use Rattle.lift_graph.specs.Sites.{IsSite, vertices_at};

use no_memory::NoMemory;
use std::alloc::{AllocError, Global};
use std::collections::BTreeMap;

/// What tells a vertex from the others of its function: its address, and a tag.
#[derive(Clone, Copy, Debug, PartialEq, Eq, PartialOrd, Ord)]
pub struct Key {
    pub address: u64,
    pub tag: u64,
}

/// An edge: its source, a vertex, and its place among the edges of the source.
#[derive(Clone, Copy, Debug, PartialEq, Eq)]
pub struct Place {
    pub vertex: usize,
    pub case: usize,
}

/// The vertices that were found so far, in order of discovery, with their edges. Vertex 0 is the entry vertex.
#[derive(Drop)]
pub struct Graph {
    pub keys: Vec<Key>,
    /// Where the edges of a vertex lead, in the order of its cases.
    pub targets: Vec<Vec<usize>>,
    /// The vertex of each key.
    pub index: BTreeMap<Key, usize>,
    /// A bound above each tag.
    pub tags: u64,
    /// The edges to a vertex.
    pub inward: Vec<Vec<Place>>,
    /// Whether a vertex stands at the entry's address or is a loop head.
    pub keeps: Vec<bool>,
}

impl Graph {
    /// The number of vertices.
    pub fn len(&self) -> usize
        ensures { result ≡ length self.now.keys.items }
    {
        self.keys.len()
    }

    /// The tag of a vertex.
    #[tactic(auto, using(crate::proofs::IndexLemmas::tag_at_read, crate::proofs::IndexLemmas::tag_at_below))]
    pub(crate) fn tag(&self, vertex: usize) -> u64
        requires listed { IsListed self.now }
        requires vertex { vertex < length self.now.keys.items }
        ensures value { result ≡ tag_at self.now.keys.items vertex }
        ensures fits { result + 1 < 2 ^ 64 }
    {
        let _top = self.tags;
        self.keys[vertex].tag
    }

    /// The address of a vertex.
    #[tactic(auto, using(crate::proofs::IndexLemmas::address_at_read))]
    pub fn address(&self, vertex: usize) -> u64
        requires { vertex < length self.now.keys.items }
        ensures { result ≡ address_at self.now.keys.items vertex }
    {
        self.keys[vertex].address
    }

    /// The vertices at an address, each once, by ascending tag; `NoMemory` where memory runs out.
    pub fn site(&self, alloc: Global, address: u64) -> Result<Vec<usize>, NoMemory>
        ensures found { IfOk result (λ vs. vs.items ≡ vertices_at self.now.index address self.now.tags) }
        ensures site { IfOk result (λ vs. IsListed self.now → IsSite self.now.keys.items address vs.items) }
    {
        let vertices = self.found_at(alloc, address)?;
        Ok(vertices)
    }

    /// What the index finds at an address, tag by tag.
    #[tactic(auto, using(crate::proofs::SiteLemmas::site_more))]
    fn found_at(&self, alloc: Global, address: u64) -> Result<Vec<usize>, AllocError>
        ensures { IfOk result (λ vs. vs.items ≡ vertices_at self.now.index address self.now.tags) }
    {
        let mut vertices = Vec::new(alloc);
        for tag in 0..self.tags {
            if let Some(vertex) = self.index.get(&Key { address, tag }) {
                vertices.push(*vertex)?;
            }
        }
        Ok(vertices)
    }
}

/// The vertex of a key, a new one without edges where there is none.
#[tactic(auto, using(crate::proofs::IndexLemmas::index_more, crate::proofs::IndexLemmas::tags_more, crate::proofs::IndexLemmas::key_kept, crate::proofs::IndexLemmas::key_last, crate::proofs::RowLemmas::items_at_push, crate::proofs::MarkLemmas::is_set_push_false))]
pub(crate) fn find_or_add(alloc: Global, graph: &mut Graph, key: Key) -> Result<usize, AllocError>
    requires listed { IsListed graph.old }
    requires fits { key.tag + 1 < 2 ^ 64 }
    ensures listed { OnOk result (IsListed graph.new) }
    ensures extended { OnOk result (IsExtended graph.old graph.new) }
    ensures found { IfOk result (λ v. slice_get graph.new.keys.items v ≡ Some key) }
    ensures fresh { IfOk result (λ v. (length graph.new.keys.items ≡ length graph.old.keys.items) ⊎ ((v ≡ length graph.old.keys.items) × (length graph.new.keys.items ≡ length graph.old.keys.items + 1))) }
{
    if let Some(vertex) = graph.index.get(&key) {
        return Ok(*vertex);
    }
    let vertex = graph.len();
    graph.index.insert(key, vertex)?;
    graph.keys.push(key)?;
    graph.targets.push(Vec::new(alloc))?;
    graph.inward.push(Vec::new(alloc))?;
    graph.keeps.push(false)?;
    graph.tags = graph.tags.max(key.tag + 1);
    Ok(vertex)
}
