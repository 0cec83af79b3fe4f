ghost use Rattle.std.specs.Prelude.{◌≡◌, ◌↔◌, IsTrue};
ghost use Rattle.mem_forest.specs.Shape.{is_size};

use elf_image::{Image, Segment};
use mem_forest::{Context, Forest, Node, Region};
use sqlite_items::Items;
use std::alloc::Global;
use std::test::Fail;
use sym_terms::{Sym, Term};

/// An address: `offset` behind the entry value of a register, or the constant `offset`.
#[derive(Clone, Copy)]
pub enum At {
    Entry(u8, u64),
    Constant(u64),
}

/// A call, with the regions' addresses and sizes; a value is the entry value of a register.
#[derive(Clone, Copy)]
pub enum Step {
    Store(At, u8, Option<u8>),
    Load(At, u8, Option<u8>),
    Alias(At, At, u8),
    Forget(u8),
    KeepValue(At, u8),
    Clear,
}

/// A node that is wanted, in preorder: its level, the number of its names, the first, its size, and its
/// value.
#[derive(Clone, Copy)]
pub struct Row {
    pub level: u32,
    pub names: usize,
    pub at: At,
    pub bytes: u8,
    pub value: Option<u8>,
}

pub fn symbol(alloc: Global, register: u8) -> Result<Term, Fail> {
    Ok(Term::symbol(alloc, Sym::Entry(register % 16))?)
}

pub fn term(alloc: Global, at: At) -> Result<Term, Fail> {
    match at {
        At::Entry(register, offset) => {
            let offset = Term::constant(alloc, offset);
            Ok(
                symbol(alloc, register)?
                    .add(alloc, &offset)?
                    .ok_or("small")?,
            )
        }
        At::Constant(offset) => Ok(Term::constant(alloc, offset)),
    }
}

pub fn region(alloc: Global, at: At, bytes: u8) -> Result<Region, Fail> {
    let at = term(alloc, at)?;
    Ok(Region { at, bytes })
}

/// An executable with 4,096 bytes at 0x400000.
pub fn image(alloc: Global) -> Result<Image, Fail> {
    let mut segs = Items::new(alloc);
    segs.push(Segment {
        lo: 0x40_0000,
        size: 4096,
        bytes: Items::new(alloc),
        exec: false,
        write: true,
    })?;
    Ok(Image {
        entry: 0x40_0000,
        segs,
    })
}

fn value(alloc: Global, register: Option<u8>) -> Result<Option<Term>, Fail> {
    match register {
        Some(register) => Ok(Some(symbol(alloc, register)?)),
        None => Ok(None),
    }
}

fn is_value(value: Option<&Term>, wanted: Option<&Term>) -> bool {
    match (value, wanted) {
        (Some(value), Some(wanted)) => value.compare(wanted).is_eq(),
        (None, None) => true,
        _ => false,
    }
}

/// What a load must give, or whether an alias must be done, is told by the nodes after it.
pub fn apply(
    alloc: Global,
    forest: &mut Forest,
    step: Step,
    context: &Context,
) -> Result<(), Fail> {
    match step {
        Step::Store(at, bytes, stored) => {
            let stored = value(alloc, stored)?;
            store(forest, &region(alloc, at, bytes)?, stored.as_ref(), context)
        }
        Step::Load(at, bytes, name) => {
            let name = value(alloc, name)?;
            load(forest, &region(alloc, at, bytes)?, name.as_ref(), context)
        }
        Step::Alias(at, other, bytes) => {
            forest.alias(&region(alloc, at, bytes)?, &region(alloc, other, bytes)?)?;
            Ok(())
        }
        Step::Forget(register) => {
            forest.forget(Sym::Entry(register));
            Ok(())
        }
        Step::KeepValue(at, bytes) => {
            forest.clear_values(&[region(alloc, at, bytes)?]);
            Ok(())
        }
        Step::Clear => {
            forest.clear();
            Ok(())
        }
    }
}

fn is_size(bytes: u8) -> bool
    ensures { IsTrue result ↔ IsTrue (is_size bytes) }
{
    matches!(bytes, 1 | 2 | 4 | 8)
}

fn store(
    forest: &mut Forest,
    region: &Region,
    value: Option<&Term>,
    context: &Context,
) -> Result<(), Fail> {
    if is_size(region.bytes) {
        forest.store(region, value, context)?;
    }
    Ok(())
}

/// A load must give the value that `find` gives then.
fn load(
    forest: &mut Forest,
    region: &Region,
    name: Option<&Term>,
    context: &Context,
) -> Result<(), Fail> {
    if !is_size(region.bytes) {
        return Ok(());
    }
    let given = forest.load(region, name, context)?;
    let there = forest.find(region).and_then(|node| node.value.as_ref());
    if !is_value(given.as_ref(), there) {
        return Err("a load gives another value than stands there".into());
    }
    Ok(())
}

fn is_row(alloc: Global, node: &Node, row: Row, level: u32) -> Result<bool, Fail> {
    let first = term(alloc, row.at)?;
    let wanted = value(alloc, row.value)?;
    let named = match node.names.first() {
        Some(name) => name.compare(&first).is_eq() && node.names.len() == row.names,
        None => false,
    };
    let same = named && is_value(node.value.as_ref(), wanted.as_ref());
    Ok(same && row.level == level && node.bytes == row.bytes)
}

/// The rows that are left once each node has had its own.
pub fn rows_after<'r>(
    alloc: Global,
    nodes: &[Node],
    rows: &'r [Row],
    level: u32,
) -> Result<&'r [Row], Fail> {
    let mut rows = rows;
    for node in nodes {
        let (row, others) = rows.split_first().ok_or("more nodes than rows")?;
        if !is_row(alloc, node, *row, level)? {
            return Err("a node is another than its row".into());
        }
        rows = rows_after(
            alloc,
            node.under.as_slice(),
            others,
            level.saturating_add(1),
        )?;
    }
    Ok(rows)
}
