ghost use Rattle.std.specs.Prelude.{IfOk};
ghost use Rattle.lift_graph.specs.Graph.{IsGraph};

use lift_graph::{Graph, Stop, link, settle_edges};
use std::alloc::Global;

/// The graph from address 0, in which these vertices, in order of discovery, lead to these addresses.
fn graph_of(alloc: Global, links: &[(usize, &[u64])]) -> Result<Graph, Stop>
    ensures { IfOk result (λ g. IsGraph g) }
{
    let mut graph = Graph::new(alloc, 0)?;
    for (vertex, addresses) in links {
        if *vertex < graph.len() {
            link(alloc, &mut graph, *vertex, false, addresses)?;
        }
    }
    settle_edges(alloc, &mut graph)?;
    Ok(graph)
}

/// A chain of so many vertices.
fn chain_of(alloc: Global, n: u64) -> Result<Graph, Stop>
    ensures { IfOk result (λ g. IsGraph g) }
{
    let mut graph = Graph::new(alloc, 0)?;
    for at in 1..n {
        let last = graph.len().saturating_sub(1);
        if last < graph.len() {
            link(alloc, &mut graph, last, false, &[at])?;
        }
    }
    settle_edges(alloc, &mut graph)?;
    Ok(graph)
}

static DIAMOND: [(usize, &[u64]); 3] = [(0, &[1, 2]), (1, &[3]), (2, &[3])];

static LOOP: [(usize, &[u64]); 3] = [(0, &[1]), (1, &[2, 3]), (2, &[1])];

static NESTED: [(usize, &[u64]); 5] = [(0, &[1]), (1, &[2]), (2, &[3]), (3, &[2, 4]), (4, &[1, 5])];

static SHARED: [(usize, &[u64]); 4] = [(0, &[1]), (1, &[2, 3, 4]), (2, &[1]), (3, &[1])];

static TO_ENTRY: [(usize, &[u64]); 3] = [(0, &[1]), (1, &[0]), (2, &[1])];

#[test]
fn the_kept_vertices_are_the_loop_heads(rt: HostRuntime) {
    let alloc = rt.alloc();
    let diamond = graph_of(alloc, &DIAMOND).expect(&rt, "memory");
    assert!(rt; diamond.keeps.as_slice() == [true, false, false, false].as_slice());
    let one = graph_of(alloc, &LOOP).expect(&rt, "memory");
    assert!(rt; one.keeps.as_slice() == [true, true, false, false].as_slice());
    let nested = graph_of(alloc, &NESTED).expect(&rt, "memory");
    assert!(rt; nested.keeps.as_slice() == [true, true, true, false, false, false].as_slice());
    let shared = graph_of(alloc, &SHARED).expect(&rt, "memory");
    assert!(rt; shared.keeps.as_slice() == [true, true, false, false, false].as_slice());
}

#[test]
fn a_jump_to_the_entry_address_has_a_vertex_of_its_own(rt: HostRuntime) {
    let alloc = rt.alloc();
    let graph = graph_of(alloc, &TO_ENTRY).expect(&rt, "memory");
    assert!(rt; graph.keeps.as_slice() == [true, true, true].as_slice());
    let site = graph.site(alloc, 0).expect(&rt, "memory");
    assert!(rt; site.as_slice() == [0, 2].as_slice());
}

#[test]
fn a_chain_has_no_loop_head(rt: HostRuntime) {
    let graph = chain_of(rt.alloc(), 1000).expect(&rt, "memory");
    assert!(rt; graph.len() == 1000);
    assert!(rt; graph.keeps.iter().filter(|kept| **kept).count() == 1);
}

#[test]
fn a_lost_edge_is_told(rt: HostRuntime) {
    let alloc = rt.alloc();
    let mut graph = Graph::new(alloc, 0).expect(&rt, "memory");
    assert!(rt; link(alloc, &mut graph, 0, false, &[1, 3]) == Ok(()));
    assert!(rt; link(alloc, &mut graph, 0, false, &[1, 2, 3]) == Ok(()));
    assert!(rt; link(alloc, &mut graph, 0, false, &[1, 2]) == Err(Stop::Lost));
}
