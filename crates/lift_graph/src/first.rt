ghost use Rattle.std.specs.Prelude.{◌≡◌, [], ℕ, Some, length, slice_get, IfOk};
ghost use Rattle.lift_graph.specs.Graph.{IsGraph, IsListed};
ghost use Rattle.lift_graph.specs.Rows.{items_at};

use crate::graph::{Graph, Key, find_or_add};
use no_memory::NoMemory;
use std::alloc::Global;
use std::collections::BTreeMap;

impl Graph {
    /// The graph of an entry vertex alone, at an address and with tag 0; `NoMemory` where memory runs out.
    pub fn new(alloc: Global, entry: u64) -> Result<Graph, NoMemory>
        ensures graph { IfOk result (λ g. IsGraph g) }
        ensures entry { IfOk result (λ g. slice_get g.keys.items 0 ≡ Some (record { address = entry; tag = 0 })) }
        ensures alone { IfOk result (λ g. length g.keys.items ≡ 1) }
        ensures edges { IfOk result (λ g. (u : ℕ) → items_at g.targets.items u ≡ []) }
    {
        let mut graph = no_graph(alloc);
        let key = Key {
            address: entry,
            tag: 0,
        };
        let first = find_or_add(alloc, &mut graph, key)?;
        let _ = first;
        Ok(graph)
    }
}

/// A graph without vertices.
fn no_graph(alloc: Global) -> Graph
    ensures listed { IsListed result }
    ensures keys { result.keys.items ≡ [] }
    ensures targets { result.targets.items ≡ [] }
{
    Graph {
        keys: Vec::new(alloc),
        targets: Vec::new(alloc),
        index: BTreeMap::new(alloc),
        tags: 0,
        inward: Vec::new(alloc),
        keeps: Vec::new(alloc),
    }
}
