ghost use Rattle.std.specs.Prelude.{◌≡◌, ◌<◌, ◌≤◌, ◌+◌, [], ◌∷◌, length, filter, position, slice_index_or, take, drop, vec_len, vec_capacity, IfOk};
ghost use Rattle.std.specs.List.{position_or_len};
ghost use Rattle.memory_regions.specs.Relate.{relate};
ghost use Rattle.memory_regions.specs.Context.{known};
ghost use Rattle.mem_forest.specs.Plain.{none, cells, PlainNode};
ghost use Rattle.mem_forest.specs.Shape.{comes_before};
ghost use Rattle.mem_forest.specs.Levels.{related, is_separate, is_inside, is_around, insert, inserted};

use crate::node::Node;
use memory_regions::{Context, Region, Relation, relate_at};
use std::alloc::{AllocError, Global};
use sym_terms::{NoMemory, Term};

fn is_inside(relation: Relation) -> bool
    ensures { result ≡ is_inside relation }
{
    matches!(relation, Relation::Inside)
}

pub(crate) fn is_separate(relation: Relation) -> bool
    ensures { result ≡ is_separate relation }
{
    matches!(relation, Relation::Separate)
}

pub(crate) fn is_around(relation: Relation) -> bool
    ensures { result ≡ is_around relation }
{
    matches!(relation, Relation::Around)
}

/// How a region lies to a node with these names, by the first that doesn't give `Unknown`.
fn related(region: &Region, names: &[Term], bytes: u8, context: &Context) -> Relation
    ensures { result ≡ related (relate (known context.now) region.now.at region.now.bytes) names.now bytes }
{
    for name in names {
        match relate_at(&region.at, region.bytes, name, bytes, context) {
            Relation::Unknown => {}
            answer => return answer,
        }
    }
    Relation::Unknown
}

impl Node {
    /// How a region lies to the node.
    pub(crate) fn relation(&self, region: &Region, context: &Context) -> Relation
        ensures { result ≡ related (relate (known context.now) region.now.at region.now.bytes) self.now.names self.now.bytes }
    {
        related(region, self.names.as_slice(), self.bytes, context)
    }
}

/// The place of the first node of a level that a region is Inside.
pub(crate) fn first_inside(nodes: &[Node], region: &Region, context: &Context) -> Option<usize>
    ensures { result ≡ position (λ n. is_inside (related (relate (known context.now) region.now.at region.now.bytes) n.names n.bytes)) nodes.now }
{
    nodes
        .iter()
        .position(|node| is_inside(node.relation(region, context)))
}

/// Only the nodes of a level that are Separate from a region stay.
pub(crate) fn keep_separate(nodes: &mut Vec<Node>, region: &Region, context: &Context)
    ensures kept { nodes.new.items ≡ filter (λ n. is_separate (related (relate (known context.now) region.now.at region.now.bytes) n.names n.bytes)) nodes.old.items }
    ensures room { vec_capacity nodes.new ≡ vec_capacity nodes.old }
    ensures fewer { vec_len nodes.new ≤ vec_len nodes.old }
{
    nodes.retain(|node| is_separate(node.relation(region, context)));
}

/// The node of one region with a value and no node under it.
pub(crate) fn leaf(alloc: Global, region: &Region, value: Option<Term>) -> Result<Node, NoMemory>
    ensures { IfOk result (λ n. n ≡ record { names = region.now.at ∷ []; bytes = region.now.bytes; value = value; under = none }) }
{
    let names = Vec::from_array(alloc, [region.at.copy(alloc)?]).map_err(AllocError::from)?;
    Ok(Node {
        names,
        bytes: region.bytes,
        value,
        under: Vec::new(alloc),
    })
}

/// The place of the first node of a level that a node stands before.
fn first_behind(nodes: &[Node], node: &Node) -> Option<usize>
    ensures { result ≡ position (λ n. comes_before node.now.names node.now.bytes n.names n.bytes) nodes.now }
{
    nodes.iter().position(|other| node.comes_before(other))
}

/// The place at which a node comes into a level: before the first node that it stands before, else at
/// the end.
pub(crate) fn place_of(nodes: &[Node], node: &Node) -> usize
    ensures { result ≡ position_or_len (λ n. comes_before node.now.names node.now.bytes n.names n.bytes) nodes.now }
{
    first_behind(nodes, node).unwrap_or(nodes.len())
}

/// A node is put in its place; there is room for it.
pub(crate) fn insert(nodes: &mut Vec<Node>, node: Node)
    requires { vec_len nodes.old < vec_capacity nodes.old }
    ensures { cells nodes.new.items ≡ insert node.names node.bytes node.value node.under (cells nodes.old.items) }
{
    let place = place_of(nodes.as_slice(), &node);
    nodes.insert(place, node).unwrap();
}

/// How many of the nodes after a node come before it, where those are in order.
fn places_behind(nodes: &[Node], at: usize) -> usize
    requires { at < length nodes.now }
    ensures { (d : PlainNode) → (
        let node = slice_index_or nodes.now at d in
        result ≡ position_or_len (λ n. comes_before node.names node.bytes n.names n.bytes) (drop (at + 1) nodes.now)) }
{
    let node = &nodes[at];
    let rest = &nodes[at + 1..];
    place_of(rest, node)
}

/// A node is moved to its place among those after it. Takes no memory.
pub(crate) fn settle(nodes: &mut Vec<Node>, at: usize)
    requires { at < vec_len nodes.old }
    ensures before { take at nodes.new.items ≡ take at nodes.old.items }
    ensures placed { (d : PlainNode) → (
        let node = slice_index_or nodes.old.items at d in
        cells (drop at nodes.new.items) ≡ insert node.names node.bytes node.value node.under (cells (drop (at + 1) nodes.old.items))) }
    ensures len { vec_len nodes.new ≡ vec_len nodes.old }
{
    let behind = places_behind(nodes.as_slice(), at);
    if behind > 0 {
        let node = nodes.remove(at);
        nodes.insert(at + behind, node).unwrap();
    }
}

/// Each of the first `n` nodes, the last first, is moved to its place among those after it. Takes no
/// memory.
pub(crate) fn settle_before(nodes: &mut Vec<Node>, n: usize)
    requires { n ≤ vec_len nodes.old }
    ensures { cells nodes.new.items ≡ inserted (take n nodes.old.items) (cells (drop n nodes.old.items)) }
{
    let mut left = n;
    while left > 0 {
        left -= 1;
        settle(nodes, left);
    }
}
