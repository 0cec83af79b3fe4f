ghost use Rattle.std.specs.Prelude.{◌≡◌, ◌≤◌, ◌+◌, ◌||◌, ◌++◌, true, not, filter, count_by, vec_len, vec_capacity, OnOk, OnErr};
ghost use Rattle.std.specs.List.{list_all};
ghost use Rattle.memory_regions.specs.Relate.{relate};
ghost use Rattle.memory_regions.specs.Context.{known};
ghost use Rattle.mem_forest.specs.Plain.{PlainNode, cells, count};
ghost use Rattle.mem_forest.specs.Levels.{related, is_separate, is_around, at_level};
ghost use Rattle.mem_forest.specs.Load.{filled, named};

use crate::forest::MOST_NODES;
use crate::levels::{first_inside, insert, is_around, is_separate, leaf};
use crate::node::{Node, count_nodes};
use crate::storing::write;
use memory_regions::{Context, Region};
use std::alloc::Global;
use sym_terms::{NoMemory, Term};

fn is_clear(nodes: &[Node], region: &Region, context: &Context) -> bool
    ensures { result ≡ list_all (λ n. is_separate (related (relate (known context.now) region.now.at region.now.bytes) n.names n.bytes) || is_around (related (relate (known context.now) region.now.at region.now.bytes) n.names n.bytes)) nodes.now }
{
    nodes.iter().all(|node| {
        let relation = node.relation(region, context);
        is_separate(relation) || is_around(relation)
    })
}

/// The number of nodes of a level that lie in a region.
fn count_inner(nodes: &[Node], region: &Region, context: &Context) -> usize
    ensures { result ≡ count_by (λ n. is_around (related (relate (known context.now) region.now.at region.now.bytes) n.names n.bytes)) nodes.now }
{
    nodes
        .iter()
        .filter(|node| is_around(node.relation(region, context)))
        .count()
}

/// The nodes of a level that lie in a region are moved behind others; there is room for them.
fn move_inner(nodes: &mut Vec<Node>, inner: &mut Vec<Node>, region: &Region, context: &Context)
    requires { vec_len inner.old + count_by (λ (n : PlainNode). is_around (related (relate (known context.now) region.now.at region.now.bytes) n.names n.bytes)) nodes.old.items ≤ vec_capacity inner.old }
    ensures moved { inner.new.items ≡ inner.old.items ++ filter (λ (n : PlainNode). is_around (related (relate (known context.now) region.now.at region.now.bytes) n.names n.bytes)) nodes.old.items }
    ensures left { nodes.new.items ≡ filter (λ (n : PlainNode). not (is_around (related (relate (known context.now) region.now.at region.now.bytes) n.names n.bytes))) nodes.old.items }
    ensures room { vec_capacity nodes.new ≡ vec_capacity nodes.old }
    ensures fewer { vec_len nodes.new ≤ vec_len nodes.old }
{
    let mut at = 0;
    'scan: while at < nodes.len() {
        let relation = nodes[at].relation(region, context);
        if is_around(relation) {
            let node = nodes.remove(at);
            inner.push_reserved(node);
        } else {
            at += 1;
        }
    }
}

/// The region comes to a level with a value, over the nodes that lie in it, where each other is Separate
/// from it.
fn fill_level(
    alloc: Global,
    nodes: &mut Vec<Node>,
    region: &Region,
    value: Term,
    context: &Context,
) -> Result<(), NoMemory>
    ensures ok { OnOk result (cells nodes.new.items ≡ filled (relate (known context.now) region.now.at region.now.bytes) region.now.at region.now.bytes value (cells nodes.old.items)) }
    ensures err { OnErr result (nodes.new.items ≡ nodes.old.items) }
{
    if !is_clear(nodes.as_slice(), region, context) {
        return Ok(());
    }
    let mut leaf = leaf(alloc, region, Some(value))?;
    let inner = count_inner(nodes.as_slice(), region, context);
    leaf.under.reserve(inner)?;
    nodes.reserve(1)?;
    move_inner(nodes, &mut leaf.under, region, context);
    insert(nodes, leaf);
    Ok(())
}

/// The level where a region belongs is filled with it and a value; no value is lost.
#[cycle(fill)]
pub(crate) fn fill(
    alloc: Global,
    nodes: &mut Vec<Node>,
    region: &Region,
    value: Term,
    context: &Context,
) -> Result<(), NoMemory>
    ensures ok { OnOk result (
        let rel = relate (known context.now) region.now.at region.now.bytes in
        cells nodes.new.items ≡ at_level true rel (filled rel region.now.at region.now.bytes value) (cells nodes.old.items)) }
    ensures err { OnErr result (nodes.new.items ≡ nodes.old.items) }
{
    match first_inside(nodes.as_slice(), region, context) {
        None => fill_level(alloc, nodes, region, value, context),
        Some(at) => {
            let node = &mut nodes[at];
            fill(alloc, &mut node.under, region, value, context)?;
            Ok(())
        }
    }
}

/// A node at a region takes the name as its value; else the level where the region belongs is filled with
/// it, where fewer than 64 nodes are there; no value is lost.
pub(crate) fn name_value(
    alloc: Global,
    nodes: &mut Vec<Node>,
    region: &Region,
    name: &Term,
    context: &Context,
) -> Result<(), NoMemory>
    requires { count (cells nodes.old.items) ≤ 64 }
    ensures ok { OnOk result (cells nodes.new.items ≡ named (relate (known context.now) region.now.at region.now.bytes) region.now.at region.now.bytes name.now (cells nodes.old.items)) }
    ensures err { OnErr result (nodes.new.items ≡ nodes.old.items) }
{
    let mut value = Some(name.copy(alloc)?);
    if write(nodes, region, &mut value, true) {
        return Ok(());
    }
    if count_nodes(nodes.as_slice()) < MOST_NODES
        && let Some(name) = value
    {
        fill(alloc, nodes, region, name, context)?;
    }
    Ok(())
}
