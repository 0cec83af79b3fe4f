ghost use Rattle.std.specs.Prelude.{◌≡◌, ◌<◌, ◌↔◌, [], ℕ, List, true, length, OnOk};
ghost use Rattle.lift_graph.specs.Edges.{IsWoven};
ghost use Rattle.lift_graph.specs.Graph.{HasSameEdges, IsGraph};
ghost use Rattle.lift_graph.specs.Heads.{IsKept, IsRooted};
ghost use Rattle.lift_graph.specs.Rows.{is_set, items_at};

use crate::graph::Graph;
use crate::heads::kept_vertices;
use crate::order::written_order;
use crate::weave::weave;
use no_memory::NoMemory;
use std::alloc::Global;

/// Puts the edges to each vertex in written order, by the address and the tag of the source and then by the case, and marks
/// the vertices that are kept. `NoMemory` where memory runs out.
pub fn settle_edges(alloc: Global, graph: &mut Graph) -> Result<(), NoMemory>
    requires { IsGraph graph.old }
    ensures graph { OnOk result (IsGraph graph.new) }
    ensures same { OnOk result (HasSameEdges graph.old graph.new) }
    ensures woven { OnOk result ((order : List ℕ) × IsWoven graph.new order) }
    ensures kept { OnOk result ((v : ℕ) → v < length graph.new.keys.items → (is_set graph.new.keeps.items v ≡ true) ↔ IsKept graph.new.keys.items graph.new.inward.items v) }
    ensures alone { OnOk result (items_at graph.new.inward.items 0 ≡ []) }
    ensures rooted { OnOk result (IsRooted graph.new.inward.items graph.new.keeps.items (length graph.new.keys.items)) }
{
    let n = graph.len();
    let order = written_order(alloc, graph.keys.as_slice())?;
    let inward = weave(alloc, graph.targets.as_slice(), order.as_slice(), n)?;
    let keeps = kept_vertices(
        alloc,
        graph.keys.as_slice(),
        graph.targets.as_slice(),
        inward.as_slice(),
    )?;
    graph.inward = inward;
    graph.keeps = keeps;
    Ok(())
}
