ghost use Rattle.std.specs.Prelude.{◌≡◌, ◌<◌, ◌≤◌, ◌+◌, ◌^◌, ◌↔◌, ◌∷◌, ℕ, List, Option, Some, map, drop, length, IfOk, OnOk, IsTrue, slice_get};
ghost use Rattle.std.specs.List.{All};
ghost use Rattle.lift_graph.specs.Graph.{IsGraph, IsListed, IsSquare, tag_at};
ghost use Rattle.lift_graph.specs.Links.{HasRow, IsLinked, IsRow, IsSublist, KeepsEdges, keys_after, tag_after};
ghost use Rattle.lift_graph.specs.Rows.{items_at};
ghost use Rattle.lift_graph.specs.declared.graph.Key.{Key as KeyValue};
ghost use Rattle.lift_graph.specs.declared.links.Stop.TheVariants.{NoMemory as OutOfMemory};

use crate::graph::{Graph, Key, Place, find_or_add};
use no_memory::NoMemory;
use std::alloc::{AllocError, Global};
use thiserror::Error;

/// Why edges aren't made.
#[derive(Clone, Copy, Debug, PartialEq, Eq, Error)]
pub enum Stop {
    #[error("an edge was lost")]
    Lost,
    #[error("out of memory")]
    NoMemory,
}

impl From<AllocError> for Stop {
    ghost from_gives = { λ _ e. e ≡ OutOfMemory };

    fn from(_: AllocError) -> Stop {
        Stop::NoMemory
    }
}

impl From<NoMemory> for Stop {
    ghost from_gives = { λ _ e. e ≡ OutOfMemory };

    fn from(_: NoMemory) -> Stop {
        Stop::NoMemory
    }
}

/// Makes the edges of a vertex anew, of the addresses of its cases: a new edge, and a new vertex where there is none, for each
/// case that has none yet. `Lost` where a case that has an edge isn't among them, in the same order: then nothing changed.
/// `NoMemory` where memory runs out: then nothing is known of the graph.
pub fn link(
    alloc: Global,
    graph: &mut Graph,
    vertex: usize,
    forks: bool,
    addresses: &[u64],
) -> Result<(), Stop>
    requires graph { IsGraph graph.old }
    requires vertex { vertex < length graph.old.keys.items }
    ensures graph { OnOk result (IsGraph graph.new) }
    ensures linked { OnOk result (IsLinked graph.old graph.new vertex (keys_after forks (tag_at graph.old.keys.items vertex) 0 addresses.now)) }
    ensures kept { OnOk result (KeepsEdges graph.old vertex (keys_after forks (tag_at graph.old.keys.items vertex) 0 addresses.now)) }
    ensures lost { result ≡ Err Stop.Lost → ¬ KeepsEdges graph.old vertex (keys_after forks (tag_at graph.old.keys.items vertex) 0 addresses.now) }
    ensures unchanged { result ≡ Err Stop.Lost → graph.new ≡ graph.old }
{
    let keys = wanted_keys(alloc, graph, vertex, forks, addresses)?;
    if !keeps_edges(graph, vertex, keys.as_slice()) {
        return Err(Stop::Lost);
    }
    make_edges(alloc, graph, vertex, keys.as_slice())?;
    Ok(())
}

/// The keys to which the cases of a vertex lead, by their addresses.
fn wanted_keys(
    alloc: Global,
    graph: &Graph,
    vertex: usize,
    forks: bool,
    addresses: &[u64],
) -> Result<Vec<Key>, AllocError>
    requires listed { IsListed graph.now }
    requires vertex { vertex < length graph.now.keys.items }
    ensures keys { IfOk result (λ keys. keys.items ≡ keys_after forks (tag_at graph.now.keys.items vertex) 0 addresses.now) }
    ensures tagged { IfOk result (λ keys. All (λ k. (0 < k.tag) × (k.tag + 1 < 2 ^ 64)) keys.items) }
{
    let tag = graph.tag(vertex);
    let keys = keys_of(alloc, tag, forks, addresses)?;
    Ok(keys)
}

/// Whether the edges of a vertex lead to some of these keys, in their order.
#[tactic(auto, using(crate::proofs::RowLemmas::items_at_read))]
fn keeps_edges(graph: &Graph, vertex: usize, keys: &[Key]) -> bool
    requires square { IsSquare graph.now }
    requires vertex { vertex < length graph.now.keys.items }
    requires within { All (λ v. v < length graph.now.keys.items) (items_at graph.now.targets.items vertex) }
    ensures { IsTrue result ↔ KeepsEdges graph.now vertex keys.now }
{
    let row = graph.targets[vertex].as_slice();
    are_kept(graph.keys.as_slice(), row, keys)
}

/// Gives a vertex edges to these keys.
fn make_edges(
    alloc: Global,
    graph: &mut Graph,
    vertex: usize,
    keys: &[Key],
) -> Result<(), AllocError>
    requires graph { IsGraph graph.old }
    requires vertex { vertex < length graph.old.keys.items }
    requires kept { KeepsEdges graph.old vertex keys.now }
    requires tagged { All (λ k. (0 < k.tag) × (k.tag + 1 < 2 ^ 64)) keys.now }
    ensures graph { OnOk result (IsGraph graph.new) }
    ensures linked { OnOk result (IsLinked graph.old graph.new vertex keys.now) }
{
    let row = row_of(alloc, graph, keys)?;
    put_row(graph, vertex, row)?;
    Ok(())
}

/// Gives a vertex its row of targets.
#[tactic(auto, using(crate::proofs::RowLemmas::items_at_set_same, crate::proofs::RowLemmas::items_at_set_other, crate::proofs::RowLemmas::items_at_read))]
fn put_row(graph: &mut Graph, vertex: usize, row: Vec<usize>) -> Result<(), AllocError>
    requires square { IsSquare graph.old }
    requires vertex { vertex < length graph.old.keys.items }
    requires within { All (λ v. (0 < v) × (v < length graph.old.keys.items)) row.items }
    requires before { All (λ v. (0 < v) × (v < length graph.old.keys.items)) (items_at graph.old.targets.items vertex) }
    ensures square { OnOk result (IsSquare graph.new) }
    ensures targets { OnOk result (HasRow graph.old graph.new vertex row.items) }
{
    note_edges(
        &mut graph.inward,
        vertex,
        graph.targets[vertex].as_slice(),
        row.as_slice(),
    )?;
    graph.targets[vertex] = row;
    Ok(())
}

/// Puts the edges of a vertex at their targets, behind those that are there.
#[tactic(auto, using(crate::proofs::RowLemmas::items_at_set_other))]
fn note_edges(
    inward: &mut Vec<Vec<Place>>,
    vertex: usize,
    before: &[usize],
    row: &[usize],
) -> Result<(), AllocError>
    requires before { All (λ v. (0 < v) × (v < length inward.old.items)) before.now }
    requires row { All (λ v. (0 < v) × (v < length inward.old.items)) row.now }
    ensures rows { OnOk result (length inward.new.items ≡ length inward.old.items) }
    ensures entry { OnOk result (items_at inward.new.items 0 ≡ items_at inward.old.items 0) }
{
    let mut first = before.len();
    if !row.starts_with(before) {
        drop_edges(inward, vertex, before);
        first = 0;
    }
    for case in first..row.len() {
        inward[row[case]].push(Place { vertex, case })?;
    }
    Ok(())
}

/// Takes the edges of a vertex from their targets.
#[tactic(auto, using(crate::proofs::RowLemmas::items_at_set_other))]
fn drop_edges(inward: &mut Vec<Vec<Place>>, vertex: usize, row: &[usize])
    requires { All (λ v. (0 < v) × (v < length inward.old.items)) row.now }
    ensures rows { length inward.new.items ≡ length inward.old.items }
    ensures entry { items_at inward.new.items 0 ≡ items_at inward.old.items 0 }
{
    for target in row {
        inward[*target].retain(|place| place.vertex != vertex);
    }
}

/// The tag after a case: that of the case where the site forks, the source's otherwise, and 1 after the entry vertex.
fn tag_of(forks: bool, tag: u64, case: u64) -> u64
    requires tag { tag + 1 < 2 ^ 64 }
    requires case { case + 3 < 2 ^ 64 }
    ensures value { result ≡ tag_after forks tag case }
    ensures tagged { (0 < result) × (result + 1 < 2 ^ 64) }
{
    if forks {
        case + 2
    } else if tag == 0 {
        1
    } else {
        tag
    }
}

/// The keys to which the cases of a vertex lead.
fn keys_of(alloc: Global, tag: u64, forks: bool, addresses: &[u64]) -> Result<Vec<Key>, AllocError>
    requires { tag + 1 < 2 ^ 64 }
    ensures keys { IfOk result (λ keys. keys.items ≡ keys_after forks tag 0 addresses.now) }
    ensures tagged { IfOk result (λ keys. All (λ k. (0 < k.tag) × (k.tag + 1 < 2 ^ 64)) keys.items) }
{
    let mut keys = Vec::new(alloc);
    for (case, address) in addresses.iter().enumerate() {
        keys.push(Key {
            address: *address,
            tag: tag_of(forks, tag, case as u64),
        })?;
    }
    Ok(keys)
}

/// Whether the edges of a row lead to some of these keys, in their order.
fn are_kept(keys: &[Key], row: &[usize], wanted: &[Key]) -> bool
    requires { All (λ v. v < length keys.now) row.now }
    ensures { IsTrue result ↔ IsSublist (map (slice_get keys.now) row.now) (map Some wanted.now) }
{
    let mut kept = 0;
    for key in wanted {
        kept = next_kept(keys, row, kept, *key);
    }
    kept == row.len()
}

/// How many edges of a row lead to some of the keys so far, after one more.
#[tactic(auto, using(crate::proofs::SublistLemmas::kept_end, crate::proofs::SublistLemmas::kept_other, crate::proofs::SublistLemmas::kept_same))]
fn next_kept(keys: &[Key], row: &[usize], kept: usize, key: Key) -> usize
    requires row { All (λ v. v < length keys.now) row.now }
    requires kept { kept ≤ length row.now }
    ensures within { result ≤ length row.now }
    ensures same { (more : List (Option KeyValue)) → IsSublist (map (slice_get keys.now) (drop kept row.now)) (Some key ∷ more) ↔ IsSublist (map (slice_get keys.now) (drop result row.now)) more }
{
    if row.len() <= kept {
        return kept;
    }
    let vertex = row[kept];
    let next = keys[vertex];
    if next.address != key.address {
        return kept;
    }
    if next.tag != key.tag {
        return kept;
    }
    kept + 1
}

/// The vertices of these keys, new ones where there are none.
#[tactic(auto, using(crate::proofs::LinkLemmas::row_none, crate::proofs::LinkLemmas::row_more))]
fn row_of(alloc: Global, graph: &mut Graph, keys: &[Key]) -> Result<Vec<usize>, AllocError>
    requires listed { IsListed graph.old }
    requires tagged { All (λ k. (0 < k.tag) × (k.tag + 1 < 2 ^ 64)) keys.now }
    ensures listed { OnOk result (IsListed graph.new) }
    ensures row { IfOk result (λ row. IsRow graph.old graph.new keys.now row.items) }
{
    let mut row = Vec::new(alloc);
    for key in keys {
        let vertex = find_or_add(alloc, graph, *key)?;
        row.push(vertex)?;
    }
    Ok(row)
}
