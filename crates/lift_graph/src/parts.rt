use crate::components::{Components, read};
use crate::graph::Place;
use crate::search::unmarked;
use std::alloc::{AllocError, Global};

/// A walk over a graph, depth first from vertex 0: the vertices in the order in which it left them, and, of each, the vertex
/// from which it came and how many steps it took.
#[derive(Drop)]
struct Walk {
    seen: Vec<bool>,
    left: Vec<usize>,
    before: Vec<usize>,
    depth: Vec<usize>,
}

/// No number of a component.
const NONE: usize = usize::MAX;

/// Writes a number, if there is such a place.
fn write(numbers: &mut Vec<usize>, at: usize, number: usize) {
    if at < numbers.len() {
        numbers[at] = number;
    }
}

/// The target of an edge, if there is such an edge.
fn target_of(targets: &[Vec<usize>], edge: Place) -> Option<usize> {
    let row = targets.get(edge.vertex)?;
    row.as_slice().get(edge.case).copied()
}

/// The number of vertices and edges.
fn size_of(targets: &[Vec<usize>]) -> usize {
    let mut size: usize = targets.len();
    for row in targets {
        size = size.saturating_add(row.len());
    }
    size
}

impl Walk {
    fn new(alloc: Global, n: usize) -> Result<Walk, AllocError> {
        let seen = unmarked(alloc, n)?;
        let before = vec![in alloc; 0usize; n]?;
        let depth = vec![in alloc; 0usize; n]?;
        Ok(Walk {
            seen,
            left: Vec::new(alloc),
            before,
            depth,
        })
    }

    /// Whether a vertex wasn't seen; from now on it was.
    fn is_new(&mut self, vertex: usize) -> bool {
        if vertex >= self.seen.len() || self.seen[vertex] {
            return false;
        }
        self.seen[vertex] = true;
        true
    }

    /// Comes to a vertex from another, where it wasn't there before.
    fn come(&mut self, way: &mut Vec<Place>, from: usize, vertex: usize) -> Result<(), AllocError> {
        if !self.is_new(vertex) {
            return Ok(());
        }
        let depth = read(self.depth.as_slice(), from).saturating_add(1);
        write(&mut self.before, vertex, from);
        write(&mut self.depth, vertex, depth);
        way.push(Place { vertex, case: 0 })?;
        Ok(())
    }
}

/// The next edge of the vertex at the end of the way, which counts as walked.
fn next_edge(way: &mut Vec<Place>) -> Option<Place> {
    let last = way.len().checked_sub(1)?;
    let edge = way[last];
    way[last].case = edge.case.saturating_add(1);
    Some(edge)
}

/// Walks the graph.
fn walk_graph(alloc: Global, targets: &[Vec<usize>]) -> Result<Walk, AllocError> {
    let mut walk = Walk::new(alloc, targets.len())?;
    let mut way = Vec::new(alloc);
    walk.come(&mut way, 0, 0)?;
    for _ in 0..size_of(targets) {
        let Some(edge) = next_edge(&mut way) else {
            break;
        };
        match target_of(targets, edge) {
            Some(target) => walk.come(&mut way, edge.vertex, target)?,
            None => {
                let _ = way.pop();
                walk.left.push(edge.vertex)?;
            }
        }
    }
    Ok(walk)
}

impl Components {
    fn new(alloc: Global, n: usize) -> Result<Components, AllocError> {
        let part = vec![in alloc; NONE; n]?;
        let root = vec![in alloc; 0usize; n]?;
        let up = vec![in alloc; 0usize; n]?;
        let next = vec![in alloc; 0usize; n]?;
        let at = vec![in alloc; 0usize; n]?;
        let down = vec![in alloc; 0usize; n]?;
        let last = vec![in alloc; 0usize; n]?;
        Ok(Components {
            part,
            root,
            up,
            next,
            at,
            down,
            last,
        })
    }

    /// Puts the source of an edge into a component, where it is in none.
    fn put(&mut self, part: usize, source: usize, next: usize, at: usize) -> bool {
        if self.part_of(source) != NONE {
            return false;
        }
        let up = read(self.up.as_slice(), next).saturating_add(1);
        write(&mut self.part, source, part);
        write(&mut self.up, source, up);
        write(&mut self.next, source, next);
        write(&mut self.at, source, at);
        true
    }

    /// Puts the sources of the edges to a vertex into its component.
    fn put_sources(
        &mut self,
        inward: &[Vec<Place>],
        part: usize,
        vertex: usize,
        waiting: &mut Vec<usize>,
    ) -> Result<(), AllocError> {
        let Some(row) = inward.get(vertex) else {
            return Ok(());
        };
        for (at, place) in row.iter().enumerate() {
            if self.put(part, place.vertex, vertex, at) {
                waiting.push(place.vertex)?;
            }
        }
        Ok(())
    }

    /// Makes the component of a root: what leads to it and is in no component.
    fn gather(
        &mut self,
        alloc: Global,
        inward: &[Vec<Place>],
        part: usize,
        root: usize,
    ) -> Result<(), AllocError> {
        let mut waiting = Vec::new(alloc);
        write(&mut self.part, root, part);
        write(&mut self.root, part, root);
        waiting.push(root)?;
        for _ in 0..inward.len() {
            let Some(vertex) = waiting.pop() else {
                break;
            };
            self.put_sources(inward, part, vertex, &mut waiting)?;
        }
        Ok(())
    }

    /// Notes how far a vertex lies from the root of its component.
    fn note_depth(&mut self, walk: &Walk, vertex: usize) {
        let root = read(self.root.as_slice(), self.part_of(vertex));
        let depth = read(walk.depth.as_slice(), vertex);
        let down = depth.saturating_sub(read(walk.depth.as_slice(), root));
        write(&mut self.down, vertex, down);
        write(&mut self.last, vertex, read(walk.before.as_slice(), vertex));
    }
}

/// The parts of a graph that lead back to themselves. The vertex that a walk leaves last is the root of a component from
/// which all others are reached; so the roots are taken from the last on, each with what leads to it and wasn't taken.
pub(crate) fn parts_of(
    alloc: Global,
    targets: &[Vec<usize>],
    inward: &[Vec<Place>],
) -> Result<Components, AllocError> {
    let walk = walk_graph(alloc, targets)?;
    let mut parts = Components::new(alloc, targets.len())?;
    let mut part = targets.len();
    for root in walk.left.iter().rev() {
        if parts.part_of(*root) == NONE {
            part = part.saturating_sub(1);
            parts.gather(alloc, inward, part, *root)?;
        }
    }
    for vertex in 0..targets.len() {
        parts.note_depth(&walk, vertex);
    }
    Ok(parts)
}
