//! Whether a line is within the limits, with those before it.
ghost use Rattle.std.specs.Prelude.{◌≡◌, ◌-◌, nat_le, nat_lt, Some, None, if◌then◌else◌};
ghost use Rattle.mem_forest.specs.Plain.{cells};
ghost use Rattle.mem_forest.specs.Shape.{left_after};
ghost use Rattle.graph_lines.specs.LineLimits.{is_within_number_limit};
ghost use Rattle.graph_builder.specs.Follow.{at_site, at_vertex};
ghost use Rattle.graph_builder.specs.Limits.{most_vertex_nodes, count_of, has_room_in_site, has_room_in_vertex, is_within};

use crate::builder::{PartialVertex, Position};
use crate::list_vec::ListVec;
use graph_data::{MOST_EDGES, MOST_FRAME, MOST_KEEPS, MOST_PAIRS, MOST_VERTICES, Site};
use graph_lines::{Line, SiteLine, VertexLine};
use mem_forest::{Node, remaining_after};
use predicates::{MOST_BOUNDS, MOST_NUMBERS, Values};

/// The most names of a node.
const MOST_NAMES: usize = 8;

/// The most nodes of a vertex that leave room for one more.
const NODES_BEFORE_LAST: u32 = 63;

/// What is left of `room` after a position for each node of the levels.
fn remaining_in_levels(levels: &[ListVec<Node>], room: u32) -> Option<u32>
    ensures { result ≡ (if nat_le (count_of levels.now) room then Some (room - count_of levels.now) else None) }
{
    let mut left = room;
    for nodes in levels {
        left = remaining_after(nodes.as_slice(), left)?;
    }
    Some(left)
}

fn is_within_number_limit(values: &Values) -> bool
    ensures { result ≡ is_within_number_limit values.now }
{
    match values {
        Values::Range(..) => true,
        Values::OneOf(numbers) => numbers.len() <= MOST_NUMBERS,
    }
}

fn has_room_in_site(line: &SiteLine, site: &Site) -> bool
    ensures { result ≡ has_room_in_site line.now site.now }
{
    match line {
        SiteLine::Pair(..) => site.seps.len() < MOST_PAIRS,
        SiteLine::Fork(..) => true,
        SiteLine::Keep(_) => site.keeps.len() < MOST_KEEPS,
    }
}

fn has_room_for_node(levels: &[ListVec<Node>]) -> bool
    ensures { result ≡ nat_lt (count_of levels.now) most_vertex_nodes }
{
    remaining_in_levels(levels, NODES_BEFORE_LAST).is_some()
}

fn has_room_in_vertex(line: &VertexLine, vertex: &PartialVertex) -> bool
    ensures { result ≡ has_room_in_vertex line.now vertex.now }
{
    match line {
        VertexLine::Registers(_) => true,
        VertexLine::Flags(_) => true,
        VertexLine::Bound(bound) => {
            is_within_number_limit(&bound.set) && vertex.bounds.len() < MOST_BOUNDS
        }
        VertexLine::Node(_, node) => {
            node.names.len() <= MOST_NAMES && has_room_for_node(vertex.levels.as_slice())
        }
        VertexLine::Edges(out) => out.len() <= MOST_EDGES,
    }
}

impl Position {
    fn has_room_at_site(&self, line: &SiteLine) -> bool
        ensures { result ≡ at_site (has_room_in_site line.now) self.now }
    {
        match self {
            Position::Site(_, site) => has_room_in_site(line, site),
            Position::Between | Position::Function(_) | Position::Vertex(..) | Position::Ended => {
                false
            }
        }
    }

    fn has_room_at_vertex(&self, line: &VertexLine) -> bool
        ensures { result ≡ at_vertex (λ s v. has_room_in_vertex line.now v) self.now }
    {
        match self {
            Position::Vertex(_, _, vertex) => has_room_in_vertex(line, vertex),
            Position::Between | Position::Function(_) | Position::Site(..) | Position::Ended => {
                false
            }
        }
    }

    /// Whether a line keeps the limits here.
    pub(crate) fn is_within(&self, line: &Line) -> bool
        ensures { result ≡ is_within self.now line.now }
    {
        match line {
            Line::Function(_, below, above) => *below <= MOST_FRAME && *above <= MOST_FRAME,
            Line::Refused(_) => true,
            Line::Site(..) => true,
            Line::Vertex(number) => *number < MOST_VERTICES as u64,
            Line::InSite(line) => self.has_room_at_site(line),
            Line::InVertex(line) => self.has_room_at_vertex(line),
            Line::End => true,
        }
    }
}
