ghost use Rattle.std.specs.Prelude.{◌≡◌, ◌<◌, ℕ, true, false, length, IfNone, IfSome, IsTrue};
ghost use Rattle.lift_graph.specs.Rows.{is_set};
ghost use Rattle.lift_rounds.specs.Round.{IsReady};

use crate::ready::{is_marked, is_ready, least_ready};
use lift_graph::{Graph, Key, Place};
use std::alloc::Global;
use std::collections::BTreeMap;

/// The vertices that may be ready, so that the least is found without a search through all. They are hints alone: a vertex is
/// tried before it is taken, and where none waits, or a hint found no memory, all vertices are looked at.
#[derive(Drop)]
pub(crate) struct Front {
    /// The vertices that wait, by their keys.
    waiting: BTreeMap<Key, usize>,
    /// How many of the edges to a vertex, from the first on, come from vertices that are taken.
    seen: Vec<usize>,
    /// The vertex that was found last.
    last: Option<usize>,
}

/// The place of the first of these edges, from a place on, that comes from a vertex that isn't taken.
fn first_untaken(places: &[Place], taken: &[bool], from: usize) -> usize {
    for at in from..places.len() {
        if !is_marked(taken, places[at].vertex) {
            return at;
        }
    }
    places.len().max(from)
}

/// Whether a vertex isn't taken and can be taken.
fn is_free(graph: &Graph, taken: &[bool], vertex: usize) -> bool
    requires rows { length graph.now.inward.items ≡ length taken.now }
    ensures found { IsTrue result → vertex < length taken.now }
    ensures untaken { IsTrue result → is_set taken.now vertex ≡ false }
    ensures ready { IsTrue result → IsReady graph.now.keeps.items graph.now.inward.items taken.now vertex }
{
    if taken.len() <= vertex {
        return false;
    }
    if is_marked(taken, vertex) {
        return false;
    }
    is_ready(graph, taken, vertex)
}

impl Front {
    /// The front of a round, at which the vertices that are kept wait.
    pub(crate) fn new(alloc: Global, graph: &Graph) -> Front {
        let mut front = Front {
            waiting: BTreeMap::new(alloc),
            seen: Vec::new(alloc),
            last: None,
        };
        for vertex in 0..graph.len() {
            if is_marked(graph.keeps.as_slice(), vertex) {
                front.wait(graph, vertex);
            }
        }
        front
    }

    /// A vertex may be ready.
    fn wait(&mut self, graph: &Graph, vertex: usize) {
        if let Some(key) = graph.keys.get(vertex) {
            let _waits = self.waiting.insert(*key, vertex);
        }
    }

    /// Whether all edges to a vertex seem to come from vertices that are taken.
    fn seems_ready(&mut self, graph: &Graph, taken: &[bool], vertex: usize) -> bool {
        let Some(row) = graph.inward.get(vertex) else {
            return false;
        };
        let Some(seen) = self.seen.get_mut(vertex) else {
            return false;
        };
        *seen = first_untaken(row.as_slice(), taken, *seen);
        row.len() <= *seen
    }

    /// A vertex was taken: those that became ready by it wait.
    fn note(&mut self, graph: &Graph, taken: &[bool], vertex: usize) {
        for _ in self.seen.len()..graph.len() {
            if self.seen.push(0).is_err() {
                return;
            }
        }
        let Some(row) = graph.targets.get(vertex) else {
            return;
        };
        for target in row {
            if self.seems_ready(graph, taken, *target) {
                self.wait(graph, *target);
            }
        }
    }

    /// The least vertex that waits and is ready; those before it don't wait any longer.
    fn least_waiting(&mut self, graph: &Graph, taken: &[bool]) -> Option<usize>
        requires rows { length graph.now.inward.items ≡ length taken.now }
        ensures found { IfSome result (λ v. v < length taken.now) }
        ensures untaken { IfSome result (λ v. is_set taken.now v ≡ false) }
        ensures ready { IfSome result (λ v. IsReady graph.now.keeps.items graph.now.inward.items taken.now v) }
    {
        'waits: while let Some((_, vertex)) = self.waiting.pop_first() {
            if is_free(graph, taken, vertex) {
                return Some(vertex);
            }
        }
        None
    }

    /// The least vertex that waits and is ready; where none is, the least of all that are ready.
    fn find(&mut self, graph: &Graph, taken: &[bool]) -> Option<usize>
        requires rows { length graph.now.inward.items ≡ length taken.now }
        ensures found { IfSome result (λ v. v < length taken.now) }
        ensures untaken { IfSome result (λ v. is_set taken.now v ≡ false) }
        ensures ready { IfSome result (λ v. IsReady graph.now.keeps.items graph.now.inward.items taken.now v) }
        ensures none { IfNone result ((v : ℕ) → v < length taken.now → IsReady graph.now.keeps.items graph.now.inward.items taken.now v → is_set taken.now v ≡ true) }
    {
        if let Some(vertex) = self.least_waiting(graph, taken) {
            return Some(vertex);
        }
        least_ready(graph, taken)
    }

    /// The next vertex that isn't taken and can be taken, where the one that was found before was taken since.
    pub(crate) fn next_ready(&mut self, graph: &Graph, taken: &[bool]) -> Option<usize>
        requires rows { length graph.now.inward.items ≡ length taken.now }
        ensures found { IfSome result (λ v. v < length taken.now) }
        ensures untaken { IfSome result (λ v. is_set taken.now v ≡ false) }
        ensures ready { IfSome result (λ v. IsReady graph.now.keeps.items graph.now.inward.items taken.now v) }
        ensures none { IfNone result ((v : ℕ) → v < length taken.now → IsReady graph.now.keeps.items graph.now.inward.items taken.now v → is_set taken.now v ≡ true) }
    {
        if let Some(vertex) = self.last {
            self.note(graph, taken, vertex);
        }
        let next = self.find(graph, taken);
        self.last = next;
        next
    }
}
