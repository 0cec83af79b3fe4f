//! What a line adds to what isn't whole yet. Terms are moved, and nothing is copied.
ghost use Rattle.std.specs.Prelude.{◌≡◌, ◌++◌, ◌∷◌, [], take, drop, slice_set, IfOk};
ghost use Rattle.graph_builder.specs.Partial.{filled, empty_vertex, CanClose};
ghost use Rattle.graph_builder.specs.Levels.{closed_level, with_node};
ghost use Rattle.graph_builder.specs.Extend.{new_function, refused_function, new_site, extend_site, extend_vertex, in_site_after, in_vertex_after, begin_site, begin_vertex};

use crate::builder::{PartialVertex, Position};
use crate::close::{close_site, entry_registers, fold_below};
use crate::list_vec::ListVec;
use graph_data::{Function, Refused, Site};
use graph_lines::{SiteLine, VertexLine};
use mem_forest::Node;
use predicates::Kind;
use sqlite_items::Items;
use std::alloc::{AllocError, Global};
use sym_terms::{NoMemory, Term};

pub(crate) fn new_function(alloc: Global, entry: u64, below: u64, above: u64) -> Function
    ensures { result ≡ new_function entry below above }
{
    Function {
        entry,
        below,
        above,
        refused: None,
        sites: Items::new(alloc),
    }
}

pub(crate) fn refused_function(alloc: Global, entry: u64) -> Function
    ensures { result ≡ refused_function entry }
{
    Function {
        entry,
        below: 0,
        above: 0,
        refused: Some(Refused::NotCode),
        sites: Items::new(alloc),
    }
}

fn new_site(alloc: Global, addr: u64, kind: Kind) -> Site
    ensures { result ≡ new_site addr kind }
{
    Site {
        addr,
        kind,
        seps: Items::new(alloc),
        fork: None,
        keeps: Items::new(alloc),
        vertices: Items::new(alloc),
    }
}

fn empty_vertex(alloc: Global) -> PartialVertex
    ensures { result ≡ empty_vertex }
{
    PartialVertex {
        regs: None,
        flags: None,
        bounds: ListVec::new(alloc),
        levels: ListVec::new(alloc),
        out: Items::new(alloc),
    }
}

fn set_register(regs: &mut Vec<Option<Term>>, register: u8, value: Option<Term>)
    ensures { regs.new.items ≡ slice_set regs.old.items register value }
{
    let at = register as usize;
    if at < regs.len() {
        regs[at] = value;
    }
}

/// The registers with those that are given; the others have their entry symbols.
#[tactic(auto, using(crate::proofs::CloseLemmas::filled_step, crate::proofs::CloseLemmas::filled_entry))]
fn fill(alloc: Global, given: Items<(u8, Option<Term>)>) -> Result<ListVec<Option<Term>>, NoMemory>
    ensures { IfOk result (λ regs. regs ≡ filled given) }
{
    let mut given = given;
    let mut regs = entry_registers(alloc)?;
    while let Some((register, value)) = given.pop() {
        set_register(&mut regs, register, value);
    }
    Ok(ListVec::from_vec(regs))
}

/// Takes the level of that number, those below it closed into it; a level that isn't there has no node.
#[tactic(auto, using(crate::proofs::CloseLemmas::left_step))]
fn take_level(alloc: Global, levels: &mut Vec<ListVec<Node>>, level: usize) -> Vec<Node>
    ensures left { levels.new.items ≡ take level levels.old.items }
    ensures nodes { result.items ≡ closed_level (drop level levels.old.items) }
{
    if level >= levels.len() {
        return Vec::new(alloc);
    }
    match levels.pop() {
        Some(deepest) => fold_below(levels, level, deepest.into_vec()),
        None => Vec::new(alloc),
    }
}

/// The levels with a node more, after the nodes of its level.
#[tactic(auto, using(crate::proofs::CloseLemmas::node_step))]
fn add_node(
    alloc: Global,
    levels: ListVec<ListVec<Node>>,
    level: u64,
    node: Node,
) -> Result<ListVec<ListVec<Node>>, NoMemory>
    ensures { IfOk result (λ all. all ≡ with_node level node levels) }
{
    let mut levels = levels.into_vec();
    let mut nodes = take_level(alloc, &mut levels, level as usize);
    nodes.push(node).map_err(AllocError::from)?;
    levels
        .push(ListVec::from_vec(nodes))
        .map_err(AllocError::from)?;
    Ok(ListVec::from_vec(levels))
}

/// A site with what a line of it adds.
fn extend_site(site: Site, line: SiteLine) -> Result<Site, NoMemory>
    ensures { IfOk result (λ s. s ≡ extend_site line site) }
{
    let mut site = site;
    match line {
        SiteLine::Pair(a, b) => {
            site.seps.push((a, b))?;
            Ok(site)
        }
        SiteLine::Fork(a, b) => {
            site.fork = Some((a, b));
            Ok(site)
        }
        SiteLine::Keep(region) => {
            site.keeps.push(region)?;
            Ok(site)
        }
    }
}

/// A vertex with what a line of it adds.
fn extend_vertex(
    alloc: Global,
    vertex: PartialVertex,
    line: VertexLine,
) -> Result<PartialVertex, NoMemory>
    ensures { IfOk result (λ v. v ≡ extend_vertex line vertex) }
{
    let mut vertex = vertex;
    match line {
        VertexLine::Registers(given) => {
            vertex.regs = Some(fill(alloc, given)?);
            Ok(vertex)
        }
        VertexLine::Flags(fact) => {
            vertex.flags = Some(fact);
            Ok(vertex)
        }
        VertexLine::Bound(bound) => {
            vertex.bounds.push(bound)?;
            Ok(vertex)
        }
        VertexLine::Node(level, node) => {
            vertex.levels = add_node(alloc, vertex.levels, level, node)?;
            Ok(vertex)
        }
        VertexLine::Edges(out) => {
            vertex.out = out;
            Ok(vertex)
        }
    }
}

impl Position {
    /// The site, where there is one before its first vertex, with a line more.
    pub(crate) fn in_site_after(self, line: SiteLine) -> Result<Position, NoMemory>
        ensures { IfOk result (λ p. p ≡ in_site_after line self) }
    {
        match self {
            Position::Site(function, site) => {
                Ok(Position::Site(function, extend_site(site, line)?))
            }
            other => Ok(other),
        }
    }

    /// The vertex, where there is one, with a line more.
    pub(crate) fn in_vertex_after(
        self,
        alloc: Global,
        line: VertexLine,
    ) -> Result<Position, NoMemory>
        ensures { IfOk result (λ p. p ≡ in_vertex_after line self) }
    {
        match self {
            Position::Vertex(function, site, vertex) => {
                let vertex = extend_vertex(alloc, vertex, line)?;
                Ok(Position::Vertex(function, site, vertex))
            }
            other => Ok(other),
        }
    }

    /// A new site of the function, where there is one, whose last vertex is closed.
    pub(crate) fn begin_site(
        self,
        alloc: Global,
        addr: u64,
        kind: Kind,
    ) -> Result<Position, NoMemory>
        requires { CanClose self }
        ensures { IfOk result (λ p. p ≡ begin_site addr kind self) }
    {
        match self {
            Position::Function(function) => {
                Ok(Position::Site(function, new_site(alloc, addr, kind)))
            }
            Position::Vertex(function, site, vertex) => {
                let mut function = function;
                function.sites.push(close_site(alloc, site, vertex)?)?;
                Ok(Position::Site(function, new_site(alloc, addr, kind)))
            }
            other => Ok(other),
        }
    }

    /// A new vertex of the site, where there is one, whose last vertex is closed.
    pub(crate) fn begin_vertex(self, alloc: Global) -> Result<Position, NoMemory>
        requires { CanClose self }
        ensures { IfOk result (λ p. p ≡ begin_vertex self) }
    {
        match self {
            Position::Site(function, site) => {
                Ok(Position::Vertex(function, site, empty_vertex(alloc)))
            }
            Position::Vertex(function, site, vertex) => {
                let site = close_site(alloc, site, vertex)?;
                Ok(Position::Vertex(function, site, empty_vertex(alloc)))
            }
            other => Ok(other),
        }
    }
}
