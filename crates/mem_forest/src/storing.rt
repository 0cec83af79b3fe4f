ghost use Rattle.std.specs.Prelude.{◌≡◌, ◌≤◌, ◌+◌, false, nat_lt, OnOk, OnErr};
ghost use Rattle.std.specs.Bool.{OnFalse};
ghost use Rattle.memory_regions.specs.Relate.{relate};
ghost use Rattle.memory_regions.specs.Context.{known};
ghost use Rattle.mem_forest.specs.Plain.{cells, count};
ghost use Rattle.mem_forest.specs.Search.{found};
ghost use Rattle.mem_forest.specs.Levels.{is_separate, selected, value_if, nodes_if, written};
ghost use Rattle.mem_forest.specs.Store.{renewed, placed};

use crate::forest::MOST_NODES;
use crate::levels::{first_inside, insert, keep_separate, leaf};
use crate::node::{Node, count_nodes};
use memory_regions::{Context, Region};
use std::alloc::Global;
use sym_terms::{NoMemory, Term};

impl Node {
    /// The node takes a value; the nodes under it stay or go.
    fn take_value(&mut self, value: Option<Term>, keep: bool)
        ensures { self.new ≡ record self.old { value = value; under = nodes_if keep self.old.under } }
    {
        self.value = value;
        if !keep {
            self.under.clear();
        }
    }

    /// The value of the node stays or goes.
    pub(crate) fn keep_value(&mut self, keep: bool)
        ensures { self.new ≡ record self.old { value = value_if keep self.old.value } }
    {
        if !keep {
            self.value = None;
        }
    }
}

/// The first node at a region takes the value; the nodes under it and the values above it stay or go.
/// Whether there is such a node; nothing changes where there is none.
#[cycle(write)]
pub(crate) fn write(
    nodes: &mut Vec<Node>,
    region: &Region,
    value: &mut Option<Term>,
    keep: bool,
) -> bool
    ensures found { result ≡ found region.now.at region.now.bytes (cells nodes.old.items) }
    ensures nodes { cells nodes.new.items ≡ written keep region.now.at region.now.bytes value.old (cells nodes.old.items) }
    ensures unchanged { OnFalse result (nodes.new.items ≡ nodes.old.items) }
    ensures kept { OnFalse result (value.new ≡ value.old) }
{
    for i in 0..nodes.len() {
        let node = &mut nodes[i];
        if node.is(&region.at, region.bytes) {
            node.take_value(value.take(), keep);
            return true;
        }
        if write(&mut node.under, region, value, keep) {
            node.keep_value(keep);
            return true;
        }
    }
    false
}

/// The nodes of a level that are Separate from a region stay, and the region comes where fewer than 64
/// nodes of the forest are left, which has `total`.
fn renew(
    alloc: Global,
    nodes: &mut Vec<Node>,
    region: &Region,
    value: Option<Term>,
    total: u32,
    context: &Context,
) -> Result<(), NoMemory>
    requires within { count (cells nodes.old.items) ≤ total }
    requires few { total ≤ 64 }
    ensures ok { OnOk result (
        let rel = relate (known context.now) region.now.at region.now.bytes in
        let f = cells nodes.old.items in
        let room = nat_lt (total + count (selected is_separate rel f)) (64 + count f) in
        cells nodes.new.items ≡ renewed rel region.now.at region.now.bytes value room f) }
    ensures err { OnErr result (nodes.new.items ≡ nodes.old.items) }
{
    let leaf = leaf(alloc, region, value)?;
    nodes.reserve(1)?;
    let before = count_nodes(nodes.as_slice());
    keep_separate(nodes, region, context);
    let after = count_nodes(nodes.as_slice());
    if total - before + after < MOST_NODES {
        insert(nodes, leaf);
    }
    Ok(())
}

/// The level where a region belongs is renewed, of a forest of `total` nodes; those above it lose their
/// values.
#[cycle(place)]
pub(crate) fn place(
    alloc: Global,
    nodes: &mut Vec<Node>,
    region: &Region,
    value: Option<Term>,
    total: u32,
    context: &Context,
) -> Result<(), NoMemory>
    requires within { count (cells nodes.old.items) ≤ total }
    requires few { total ≤ 64 }
    ensures ok { OnOk result (
        let rel = relate (known context.now) region.now.at region.now.bytes in
        let f = cells nodes.old.items in
        let room = nat_lt (total + count (placed rel region.now.at region.now.bytes value false f)) (64 + count f) in
        cells nodes.new.items ≡ placed rel region.now.at region.now.bytes value room f) }
    ensures err { OnErr result (nodes.new.items ≡ nodes.old.items) }
{
    match first_inside(nodes.as_slice(), region, context) {
        None => renew(alloc, nodes, region, value, total, context),
        Some(at) => {
            let node = &mut nodes[at];
            place(alloc, &mut node.under, region, value, total, context)?;
            node.value = None;
            Ok(())
        }
    }
}
