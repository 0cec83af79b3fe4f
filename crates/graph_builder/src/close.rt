//! Partial vertices, sites and functions, closed. Nothing is copied.
ghost use Rattle.std.specs.Prelude.{◌≡◌, ◌++◌, ◌≤◌, take, drop, length, IfOk};
ghost use Rattle.mem_forest.specs.Plain.{cells};
ghost use Rattle.predicates.specs.Entry.{entry_registers};
ghost use Rattle.graph_builder.specs.Partial.{registers_of, with_children, forest_of_levels, closed_site, closed_vertex, closed_function, with_vertex, with_site, closed_at, IsClosable, CanClose};
ghost use Rattle.graph_builder.specs.Levels.{fold_levels};

use crate::builder::{PartialVertex, Position};
use crate::list_vec::ListVec;
use graph_data::{Function, Site, Vertex};
use mem_forest::{Forest, Node};
use predicates::Pred;
use sqlite_items::Items;
use std::alloc::{AllocError, Global};
use sym_terms::{NoMemory, Sym, Term};

/// 16 registers, each with its entry symbol.
pub(crate) fn entry_registers(alloc: Global) -> Result<Vec<Option<Term>>, NoMemory>
    ensures { IfOk result (λ regs. regs.items ≡ entry_registers 16) }
{
    let mut regs = Vec::new(alloc);
    for number in 0..16 {
        regs.push(Some(Term::symbol(alloc, Sym::Entry(number))?))
            .map_err(AllocError::from)?;
    }
    Ok(regs)
}

/// A level with these nodes under its last one.
#[tactic(auto, using(crate::proofs::CloseLemmas::over_push))]
fn put_under(level: ListVec<Node>, nodes: Vec<Node>) -> Vec<Node>
    ensures { result.items ≡ with_children level (cells nodes.items) }
{
    let mut level = level.into_vec();
    match level.pop() {
        Some(last) => {
            let mut last = last;
            last.under = nodes;
            level.push_reserved(last);
            level
        }
        None => level,
    }
}

/// Takes the levels from a depth on, and gives them as one with these nodes below all.
#[tactic(auto, using(crate::proofs::CloseLemmas::closed_step, crate::proofs::CloseLemmas::left_step))]
pub(crate) fn fold_below(
    levels: &mut Vec<ListVec<Node>>,
    depth: usize,
    nodes: Vec<Node>,
) -> Vec<Node>
    ensures left { levels.new.items ≡ take depth levels.old.items }
    ensures nodes { result.items ≡ fold_levels (drop depth levels.old.items) nodes.items }
{
    let mut nodes = nodes;
    while levels.len() > depth {
        if let Some(level) = levels.pop() {
            nodes = put_under(level, nodes);
        }
    }
    nodes
}

/// The nodes of the top level, each level under the last node of the one above.
#[tactic(auto, using(crate::proofs::CloseLemmas::nested_push))]
fn nest(alloc: Global, levels: ListVec<ListVec<Node>>) -> Vec<Node>
    ensures { cells result.items ≡ forest_of_levels levels }
{
    let mut levels = levels.into_vec();
    match levels.pop() {
        Some(deepest) => fold_below(&mut levels, 0, deepest.into_vec()),
        None => Vec::new(alloc),
    }
}

fn close_registers(
    alloc: Global,
    regs: Option<ListVec<Option<Term>>>,
) -> Result<Vec<Option<Term>>, NoMemory>
    ensures { IfOk result (λ all. all.items ≡ registers_of regs) }
{
    match regs {
        Some(regs) => Ok(regs.into_vec()),
        None => Ok(entry_registers(alloc)?),
    }
}

fn close_vertex(alloc: Global, vertex: PartialVertex) -> Result<Vertex, NoMemory>
    requires { IsClosable vertex }
    ensures { IfOk result (λ v. v ≡ closed_vertex vertex) }
{
    let PartialVertex {
        regs,
        flags,
        bounds,
        levels,
        out,
    } = vertex;
    let regs = close_registers(alloc, regs)?;
    let forest = Forest::of_checked_nodes(nest(alloc, levels));
    let pred = Pred::of_checked_parts(regs, flags, bounds.into_vec(), forest);
    Ok(Vertex { pred, out })
}

/// A site with its last vertex.
pub(crate) fn close_site(alloc: Global, site: Site, vertex: PartialVertex) -> Result<Site, NoMemory>
    requires { IsClosable vertex }
    ensures { IfOk result (λ s. s ≡ closed_site site vertex) }
{
    let mut site = site;
    site.vertices.push(close_vertex(alloc, vertex)?)?;
    Ok(site)
}

/// A function with its last site, and the site with its last vertex.
pub(crate) fn close_function(
    alloc: Global,
    function: Function,
    site: Site,
    vertex: PartialVertex,
) -> Result<Function, NoMemory>
    requires { IsClosable vertex }
    ensures { IfOk result (λ f. f ≡ closed_function function site vertex) }
{
    let mut function = function;
    function.sites.push(close_site(alloc, site, vertex)?)?;
    Ok(function)
}

/// The functions with the one that a position leaves whole.
pub(crate) fn close_position(
    alloc: Global,
    functions: Items<Function>,
    position: Position,
) -> Result<Items<Function>, NoMemory>
    requires { CanClose position }
    ensures { IfOk result (λ all. all ≡ functions ++ closed_at position) }
{
    match position {
        Position::Vertex(function, site, vertex) => {
            let mut functions = functions;
            functions.push(close_function(alloc, function, site, vertex)?)?;
            Ok(functions)
        }
        Position::Between | Position::Function(_) | Position::Site(..) | Position::Ended => {
            Ok(functions)
        }
    }
}
