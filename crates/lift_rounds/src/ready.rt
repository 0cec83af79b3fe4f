ghost use Rattle.std.specs.Prelude.{◌≡◌, ◌<◌, ◌↔◌, ◌⊎◌, ℕ, Option, Some, None, true, false, length, IsTrue, IfSome, IfNone};
ghost use Rattle.std.specs.List.{All};
ghost use Rattle.lift_graph.specs.Rows.{is_set, items_at};
ghost use Rattle.lift_rounds.specs.Round.{IsReady};

use lift_graph::{Graph, Place};

/// Whether a vertex is marked.
pub(crate) fn is_marked(marks: &[bool], vertex: usize) -> bool
    ensures { result ≡ is_set marks.now vertex }
{
    vertex < marks.len() && marks[vertex]
}

/// Whether each of these edges comes from a vertex that is taken.
fn come_from_taken(places: &[Place], taken: &[bool]) -> bool
    ensures { IsTrue result ↔ All (λ p. is_set taken.now p.vertex ≡ true) places.now }
{
    places.iter().all(|place| is_marked(taken, place.vertex))
}

/// Whether a vertex can be taken: it is kept, or each edge to it comes from a vertex that is taken.
pub(crate) fn is_ready(graph: &Graph, taken: &[bool], vertex: usize) -> bool
    requires { vertex < length graph.now.inward.items }
    ensures { IsTrue result ↔ IsReady graph.now.keeps.items graph.now.inward.items taken.now vertex }
{
    is_marked(graph.keeps.as_slice(), vertex)
        || come_from_taken(graph.inward[vertex].as_slice(), taken)
}

/// The least vertex by address and tag that isn't taken and can be taken.
pub(crate) fn least_ready(graph: &Graph, taken: &[bool]) -> Option<usize>
    requires rows { length graph.now.inward.items ≡ length taken.now }
    ensures found { IfSome result (λ v. v < length taken.now) }
    ensures untaken { IfSome result (λ v. is_set taken.now v ≡ false) }
    ensures ready { IfSome result (λ v. IsReady graph.now.keeps.items graph.now.inward.items taken.now v) }
    ensures none { IfNone result ((v : ℕ) → v < length taken.now → IsReady graph.now.keeps.items graph.now.inward.items taken.now v → is_set taken.now v ≡ true) }
{
    let mut best: Option<usize> = None;
    for vertex in 0..taken.len() {
        if !is_marked(taken, vertex) && is_ready(graph, taken, vertex) {
            best = Some(lesser(graph, best, vertex));
        }
    }
    best
}

/// The lesser of two vertices by address and tag.
fn lesser(graph: &Graph, best: Option<usize>, vertex: usize) -> usize
    ensures { (result ≡ vertex) ⊎ (best ≡ Some result) }
{
    match best {
        None => vertex,
        Some(other) => {
            if graph.keys.get(vertex) < graph.keys.get(other) {
                vertex
            } else {
                other
            }
        }
    }
}
