ghost use Rattle.std.specs.Prelude.{◌≡◌, ◌<◌, ◌≤◌, ◌^◌, ◌+◌, IfOk};
ghost use Rattle.std.specs.Int.{from_bool};
ghost use Rattle.std.specs.Option.{option_copied};
ghost use Rattle.mem_forest.specs.Plain.{cells, count};
ghost use Rattle.mem_forest.specs.Search.{has_name, is_here, find, count_at, value_at};
ghost use Rattle.mem_forest.specs.Shape.{is_size, ascending, are_names, is_formed, first_cmp, comes_before, precedes, shaped, left_after, is_unique, all_alone};

use memory_regions::Region;
use std::alloc::{AllocError, Global};
use std::cmp::Ordering;
use std::marker::Model;
use sym_terms::{NoMemory, Term};

/// The most names of a node.
pub(crate) const MOST_NAMES: usize = 8;

/// A region of memory: its addresses, which are equal, its size in bytes, the number in its bytes where
/// that is known, and the regions inside it.
#[derive(Drop)]
pub struct Node {
    pub names: Vec<Term>,
    pub bytes: u8,
    pub value: Option<Term>,
    pub under: Vec<Node>,
}

impl Model for Node {
    ghost use Rattle.mem_forest.specs.Plain.{PlainNode};
    ghost use Rattle.mem_forest.specs.Codes.{coded_cell};

    ghost Value = { PlainNode };

    ghost coded = { coded_cell };

    ghost use Rattle.mem_forest.specs.Plain.{cells, count};
    ghost use Rattle.std.specs.Prelude.{◌+◌};

    ghost view = { λ n. record { names = n.names.items; bytes = n.bytes; value = n.value; under = cells n.under.items } };

    ghost size = { λ c. count c.under + 1 };

    ghost use Rattle.std.proofs.Common.{arith};
    ghost use Rattle.mem_forest.specs.Falls.{most_le-count};

    ghost size_decreases = { λ n h. omega (arith, most_le-count n.under.items) };
}

impl Node {
    /// Whether a term is one of the names, that is at difference 0 from it.
    pub fn has_name(&self, at: &Term) -> bool
        ensures { result ≡ has_name at.now self.now.names }
    {
        self.names.iter().any(|name| name.compare(at).is_eq())
    }

    /// Whether each name is below the next, in the order of terms.
    pub fn names_ascend(&self) -> bool
        ensures { result ≡ ascending self.now.names }
    {
        ascend(self.names.as_slice())
    }

    pub(crate) fn is(&self, at: &Term, bytes: u8) -> bool
        ensures { result ≡ is_here at.now bytes self.now.names self.now.bytes }
    {
        self.bytes == bytes && self.has_name(at)
    }

    fn is_formed(&self) -> bool
        ensures { result ≡ is_formed self.now.names self.now.bytes }
    {
        is_size(self.bytes) && are_names(self.names.as_slice())
    }

    /// Whether the node stands before another of its level: by first name, then size.
    pub fn comes_before(&self, other: &Node) -> bool
        ensures { result ≡ comes_before self.now.names self.now.bytes other.now.names other.now.bytes }
    {
        compare_first(self.names.as_slice(), other.names.as_slice())
            .then(self.bytes.cmp(&other.bytes))
            .is_lt()
    }

    fn precedes(&self, rest: &[Node]) -> bool
        ensures { result ≡ precedes self.now.names self.now.bytes (cells rest.now) }
    {
        match rest.first() {
            Some(next) => self.comes_before(next),
            None => true,
        }
    }

    #[cycle(count_at)]
    fn count_at(&self, at: &Term, bytes: u8) -> u32
        requires { count self.now.under < 2 ^ 31 }
        ensures value { result ≡ count_at at.now bytes self.now.under + from_bool (is_here at.now bytes self.now.names self.now.bytes) }
        ensures within { result ≤ count self.now.under + 1 }
    {
        count_holders(self.under.as_slice(), at, bytes) + u32::from(self.is(at, bytes))
    }

    #[cycle(copy)]
    fn copy(&self, alloc: Global) -> Result<Node, NoMemory>
        ensures { IfOk result (λ n. n ≡ self.now) }
    {
        let names = copy_terms(alloc, self.names.as_slice())?;
        let value = copy_value(alloc, self.value.as_ref())?;
        let under = copy_nodes(alloc, self.under.as_slice())?;
        Ok(Node {
            names,
            bytes: self.bytes,
            value,
            under,
        })
    }
}

/// The sizes of a region.
fn is_size(bytes: u8) -> bool
    ensures { result ≡ is_size bytes }
{
    bytes == 1 || bytes == 2 || bytes == 4 || bytes == 8
}

fn compare_first(names: &[Term], others: &[Term]) -> Ordering
    ensures { result ≡ first_cmp names.now others.now }
{
    match (names.first(), others.first()) {
        (Some(name), Some(other)) => name.compare(other),
        _ => Ordering::Equal,
    }
}

fn ascend(names: &[Term]) -> bool
    ensures { result ≡ ascending names.now }
{
    for i in 1..names.len() {
        if !names[i - 1].compare(&names[i]).is_lt() {
            return false;
        }
    }
    true
}

fn are_names(names: &[Term]) -> bool
    ensures { result ≡ are_names names.now }
{
    !names.is_empty() && names.len() <= MOST_NAMES && ascend(names)
}

/// Whether each node has its form and stands before the next of its level, level by level.
#[cycle(shape)]
pub(crate) fn are_shaped(nodes: &[Node]) -> bool
    ensures { result ≡ shaped (cells nodes.now) }
{
    for i in 0..nodes.len() {
        let node = &nodes[i];
        if !(node.is_formed() && node.precedes(&nodes[i + 1..])) {
            return false;
        }
        if !are_shaped(node.under.as_slice()) {
            return false;
        }
    }
    true
}

/// What is left of `room` behind a place for each node, at all levels, and `None` exactly where there are
/// more nodes; it stops where none is left, however deep.
#[cycle(room)]
pub fn remaining_after(nodes: &[Node], room: u32) -> Option<u32>
    ensures { result ≡ left_after room (cells nodes.now) }
{
    let mut left = room;
    for node in nodes {
        if left == 0 {
            return None;
        }
        left = remaining_after(node.under.as_slice(), left - 1)?;
    }
    Some(left)
}

#[cycle(count)]
pub(crate) fn count_nodes(nodes: &[Node]) -> u32
    requires { count (cells nodes.now) < 2 ^ 32 }
    ensures { result ≡ count (cells nodes.now) }
{
    let mut total = 0;
    for node in nodes {
        total += count_nodes(node.under.as_slice()) + 1;
    }
    total
}

#[cycle(find)]
pub(crate) fn find_node<'a>(nodes: &'a [Node], region: &Region) -> Option<&'a Node>
    ensures { option_copied result ≡ find region.now.at region.now.bytes (cells nodes.now) }
{
    for node in nodes {
        if node.is(&region.at, region.bytes) {
            return Some(node);
        }
        if let Some(below) = find_node(node.under.as_slice(), region) {
            return Some(below);
        }
    }
    None
}

/// The value of the first node at a region.
pub(crate) fn find_value<'a>(nodes: &'a [Node], region: &Region) -> Option<&'a Term>
    ensures { option_copied result ≡ value_at region.now.at region.now.bytes (cells nodes.now) }
{
    match find_node(nodes, region) {
        Some(node) => node.value.as_ref(),
        None => None,
    }
}

/// The number of nodes that have the size and the name.
#[cycle(count_at)]
fn count_holders(nodes: &[Node], at: &Term, bytes: u8) -> u32
    requires { count (cells nodes.now) < 2 ^ 31 }
    ensures value { result ≡ count_at at.now bytes (cells nodes.now) }
    ensures within { result ≤ count (cells nodes.now) }
{
    let mut total = 0;
    for node in nodes {
        total += node.count_at(at, bytes);
    }
    total
}

fn is_alone(all: &[Node], names: &[Term], bytes: u8) -> bool
    requires { count (cells all.now) < 2 ^ 31 }
    ensures { result ≡ is_unique (cells all.now) bytes names.now }
{
    for name in names {
        if count_holders(all, name, bytes) > 1 {
            return false;
        }
    }
    true
}

/// Whether no other node of `all` has the size and a name of one of `nodes`.
#[cycle(is_unique)]
pub(crate) fn are_alone(all: &[Node], nodes: &[Node]) -> bool
    requires { count (cells all.now) < 2 ^ 31 }
    ensures { result ≡ all_alone (cells all.now) (cells nodes.now) }
{
    for node in nodes {
        if !is_alone(all, node.names.as_slice(), node.bytes) {
            return false;
        }
        if !are_alone(all, node.under.as_slice()) {
            return false;
        }
    }
    true
}

fn copy_terms(alloc: Global, terms: &[Term]) -> Result<Vec<Term>, NoMemory>
    ensures { IfOk result (λ copies. copies.items ≡ terms.now) }
{
    let mut copies = Vec::with_capacity(alloc, terms.len())?;
    for term in terms {
        copies.push(term.copy(alloc)?).map_err(AllocError::from)?;
    }
    Ok(copies)
}

pub(crate) fn copy_value(alloc: Global, value: Option<&Term>) -> Result<Option<Term>, NoMemory>
    ensures { IfOk result (λ copied. copied ≡ option_copied value.entry) }
{
    match value {
        Some(term) => Ok(Some(term.copy(alloc)?)),
        None => Ok(None),
    }
}

#[cycle(copy)]
pub(crate) fn copy_nodes(alloc: Global, nodes: &[Node]) -> Result<Vec<Node>, NoMemory>
    ensures { IfOk result (λ copies. copies.items ≡ nodes.now) }
{
    let mut copies = Vec::with_capacity(alloc, nodes.len())?;
    for node in nodes {
        copies.push(node.copy(alloc)?).map_err(AllocError::from)?;
    }
    Ok(copies)
}
