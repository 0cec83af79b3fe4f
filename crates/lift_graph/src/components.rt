ghost use Rattle.std.specs.Prelude.{◌≡◌, ◌<◌, ◌≤◌, ◌↔◌, ℕ, length, slice_index, IsTrue};
ghost use Rattle.std.specs.List.{All};
ghost use Rattle.lift_graph.specs.Components.{ComesDown, IsParted, LeadsUp, part_of};
ghost use Rattle.lift_graph.specs.Heads.{IsSource, IsWithin};
ghost use Rattle.lift_graph.specs.Rows.{items_at};

use crate::graph::Place;

/// The parts of a graph that lead back to themselves, each with a number and a root, with ways to the root and from it.
#[derive(Drop)]
pub(crate) struct Components {
    /// The number of a vertex's component.
    pub part: Vec<usize>,
    /// The root of a component, by its number.
    pub root: Vec<usize>,
    /// The length of a way to the root, and the next vertex on it with the place of the edge among those to that vertex.
    pub up: Vec<usize>,
    pub next: Vec<usize>,
    pub at: Vec<usize>,
    /// The length of a way from the root, and the last vertex on it.
    pub down: Vec<usize>,
    pub last: Vec<usize>,
}

/// The number at a place; 0 past the end.
pub(crate) fn read(numbers: &[usize], at: usize) -> usize
    ensures { result ≡ slice_index numbers.now at }
{
    if at < numbers.len() { numbers[at] } else { 0 }
}

impl Components {
    /// The number of a vertex's component.
    pub(crate) fn part_of(&self, vertex: usize) -> usize
        ensures { result ≡ part_of self.now vertex }
    {
        read(self.part.as_slice(), vertex)
    }

    /// Whether a vertex is its component's root.
    fn is_root(&self, vertex: usize) -> bool
        ensures { IsTrue result → vertex ≡ slice_index self.now.root.items (part_of self.now vertex) }
    {
        vertex == read(self.root.as_slice(), self.part_of(vertex))
    }

    /// Whether these parts are as they should be.
    pub(crate) fn are_right(&self, inward: &[Vec<Place>]) -> bool
        requires { IsWithin inward.now (length inward.now) }
        ensures { IsTrue result → IsParted inward.now (length inward.now) self.now }
    {
        for vertex in 0..inward.len() {
            if !self.is_right(inward, vertex) {
                return false;
            }
        }
        true
    }

    /// Whether a vertex's part is as it should be.
    fn is_right(&self, inward: &[Vec<Place>], vertex: usize) -> bool
        requires within { IsWithin inward.now (length inward.now) }
        requires vertex { vertex < length inward.now }
        ensures falls { IsTrue result → All (λ p. part_of self.now vertex ≤ part_of self.now p.vertex) (items_at inward.now vertex) }
        ensures up { IsTrue result → LeadsUp inward.now (length inward.now) self.now vertex }
        ensures down { IsTrue result → ComesDown inward.now (length inward.now) self.now vertex }
    {
        if !self.fall(self.part_of(vertex), inward[vertex].as_slice()) {
            return false;
        }
        if self.is_root(vertex) {
            return true;
        }
        self.leads_up(inward, vertex) && self.comes_down(inward, vertex)
    }

    /// Whether these edges come from components whose numbers aren't smaller.
    fn fall(&self, part: usize, places: &[Place]) -> bool
        ensures { IsTrue result → All (λ p. part ≤ part_of self.now p.vertex) places.now }
    {
        places
            .iter()
            .all(|place| part <= self.part_of(place.vertex))
    }

    /// Whether an edge leads from a vertex to one nearer to the root.
    fn leads_up(&self, inward: &[Vec<Place>], vertex: usize) -> bool
        requires { vertex < length inward.now }
        ensures { IsTrue result → LeadsUp inward.now (length inward.now) self.now vertex }
    {
        let next = read(self.next.as_slice(), vertex);
        let at = read(self.at.as_slice(), vertex);
        if inward.len() <= next {
            return false;
        }
        if !is_source_at(vertex, inward[next].as_slice(), at) {
            return false;
        }
        if self.part_of(next) != self.part_of(vertex) {
            return false;
        }
        let up = read(self.up.as_slice(), next);
        let most = read(self.up.as_slice(), vertex);
        if most <= up {
            return false;
        }
        true
    }

    /// Whether an edge comes to a vertex from one nearer to the root.
    fn comes_down(&self, inward: &[Vec<Place>], vertex: usize) -> bool
        requires { vertex < length inward.now }
        ensures { IsTrue result → ComesDown inward.now (length inward.now) self.now vertex }
    {
        let last = read(self.last.as_slice(), vertex);
        if inward.len() <= last {
            return false;
        }
        if !is_source(last, inward[vertex].as_slice()) {
            return false;
        }
        if self.part_of(last) != self.part_of(vertex) {
            return false;
        }
        let down = read(self.down.as_slice(), last);
        let most = read(self.down.as_slice(), vertex);
        if most <= down {
            return false;
        }
        true
    }

    /// Whether one of these edges comes from a component.
    pub(crate) fn have_source_in(&self, part: usize, places: &[Place]) -> bool
        ensures found { IsTrue result → (u : ℕ) × IsSource u places.now × (part_of self.now u ≡ part) }
        ensures only { (u : ℕ) → IsSource u places.now → part_of self.now u ≡ part → IsTrue result }
    {
        for place in places {
            if self.part_of(place.vertex) == part {
                return true;
            }
        }
        false
    }
}

/// Whether the edge at a place comes from a vertex.
fn is_source_at(vertex: usize, places: &[Place], at: usize) -> bool
    ensures { IsTrue result → IsSource vertex places.now }
{
    if places.len() <= at {
        return false;
    }
    let place = places[at];
    if place.vertex != vertex {
        return false;
    }
    true
}

/// Whether one of these edges comes from a vertex.
fn is_source(vertex: usize, places: &[Place]) -> bool
    ensures { IsTrue result → IsSource vertex places.now }
{
    for at in 0..places.len() {
        if is_source_at(vertex, places, at) {
            return true;
        }
    }
    false
}
