// The numbers of vertices at their addresses.
ghost use Rattle.std.specs.Prelude.{◌≡◌, ◌<◌, ◌≤◌, length, map, IfOk};
ghost use Rattle.graph_data.specs.Parts.{Each};
ghost use Rattle.graph_data.specs.WellFormed.{IsEdge};
ghost use Rattle.lift_graph.specs.Graph.{IsGraph};
ghost use Rattle.lift_graph.specs.Rows.{items_at};
ghost use Rattle.lifted_parts.specs.Built.{AreAddresses, edge_to, number_of};

use lift_graph::Key;
use lift_openings::Graph;
use no_memory::NoMemory;
use sqlite_items::Items;
use std::alloc::{AllocError, Global};

/// How many vertices stand at the address of a vertex with a lower tag.
#[tactic(auto, using(lifted_parts::proofs::NumberLemmas::number_more, crate::proofs::NumberLemmas::number_of_read))]
fn number_of(graph: &Graph, vertex: usize) -> u64
    requires { vertex < length graph.now.keys.items }
    ensures { result ≡ number_of graph.now vertex }
{
    let key = graph.keys[vertex];
    let mut number = 0;
    for tag in 0..key.tag {
        let other = Key {
            address: key.address,
            tag,
        };
        if graph.index.contains_key(&other) {
            number += 1;
        }
    }
    number
}

/// An edge to a vertex: its address, and its number there.
fn edge_to(graph: &Graph, vertex: usize) -> Result<(u64, u32), NoMemory>
    requires { vertex < length graph.now.keys.items }
    ensures value { IfOk result (λ edge. edge ≡ edge_to graph.now vertex) }
    ensures fits { IfOk result (λ edge. IsEdge edge) }
{
    // Each vertex takes memory, so there are fewer.
    let number = u32::try_from(number_of(graph, vertex)).map_err(|_| NoMemory)?;
    Ok((graph.address(vertex), number))
}

/// The edges of a vertex.
pub(crate) fn edges_of(
    alloc: Global,
    graph: &Graph,
    vertex: usize,
) -> Result<Items<(u64, u32)>, NoMemory>
    requires graph { IsGraph graph.now }
    requires vertex { vertex < length graph.now.keys.items }
    ensures value { IfOk result (λ out. out ≡ map (edge_to graph.now) (items_at graph.now.targets.items vertex)) }
    ensures fits { IfOk result (λ out. Each IsEdge out) }
{
    let mut out = Items::new(alloc);
    for target in graph.targets[vertex].as_slice() {
        out.push(edge_to(graph, *target)?)?;
    }
    Ok(out)
}

/// The addresses of the vertices, ascending, each once.
#[tactic(auto, using(crate::proofs::AddressLemmas::are_addresses))]
pub(crate) fn addresses_of(alloc: Global, graph: &Graph) -> Result<Vec<u64>, NoMemory>
    ensures { IfOk result (λ addresses. AreAddresses graph.now addresses.items) }
{
    let mut addresses = Vec::new(alloc);
    for vertex in 0..graph.len() {
        addresses
            .push(graph.address(vertex))
            .map_err(AllocError::from)?;
    }
    addresses.sort_unstable();
    addresses.dedup();
    Ok(addresses)
}
