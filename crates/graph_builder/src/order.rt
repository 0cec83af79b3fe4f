//! Whether a line follows those before it in order, and its parts each other.
ghost use Rattle.std.specs.Prelude.{◌≡◌, nat_lt, length};
ghost use Rattle.std.specs.List.{list_any};
ghost use Rattle.mem_forest.specs.Plain.{cells};
ghost use Rattle.mem_forest.specs.Search.{has_name};
ghost use Rattle.mem_forest.specs.Shape.{ascending, first_cmp};
ghost use Rattle.predicates.specs.Bounds.{in_order, numbers_ascend, key_before, values_ascend};
ghost use Rattle.graph_data.specs.Order.{region_cmp, region_before, pair_cmp, pair_before};
ghost use Rattle.graph_builder.specs.Order.{extends_order, entry_extends, address_extends, entry_in_order, address_in_order, number_in_order, site_line_in_order, registers_ascend, level_at, aliases, collides, node_before, level_fits, node_fits, vertex_line_in_order, is_in_order};
ghost use Rattle.graph_builder.specs.Follow.{at_site, at_vertex};

use crate::builder::{Builder, PartialVertex, Position};
use crate::list_vec::ListVec;
use graph_data::{Function, Site};
use graph_lines::{Line, SiteLine, VertexLine};
use mem_forest::{Node, Region};
use predicates::Bound;
use sqlite_items::at;
use std::cmp::Ordering;
use sym_terms::Term;

fn compare_regions(region: &Region, other: &Region) -> Ordering
    ensures { result ≡ region_cmp region.now other.now }
{
    region
        .at
        .compare(&other.at)
        .then(region.bytes.cmp(&other.bytes))
}

/// Whether an entry is above that of the last function.
#[tactic(auto, using(crate::proofs::OrderLemmas::extends_last))]
fn entry_extends(functions: &[Function], entry: u64) -> bool
    ensures { result ≡ entry_extends functions.now entry }
{
    match functions.last() {
        Some(last) => last.entry < entry,
        None => true,
    }
}

/// Whether an address is above that of the last site.
#[tactic(auto, using(crate::proofs::OrderLemmas::extends_last))]
fn address_extends(sites: &[Site], addr: u64) -> bool
    ensures { result ≡ address_extends sites.now addr }
{
    match sites.last() {
        Some(last) => last.addr < addr,
        None => true,
    }
}

/// Whether a pair stands after the last one, by its first region, then its second.
#[tactic(auto, using(crate::proofs::OrderLemmas::extends_last))]
fn pair_extends(pairs: &[(Region, Region)], a: &Region, b: &Region) -> bool
    ensures { result ≡ extends_order pair_before pairs.now (a.now, b.now) }
{
    match pairs.last() {
        Some(last) => compare_regions(&last.0, a)
            .then(compare_regions(&last.1, b))
            .is_lt(),
        None => true,
    }
}

/// Whether a region stands after the last one, by its term, then its size.
#[tactic(auto, using(crate::proofs::OrderLemmas::extends_last))]
fn region_extends(regions: &[Region], region: &Region) -> bool
    ensures { result ≡ extends_order region_before regions.now region.now }
{
    match regions.last() {
        Some(last) => compare_regions(last, region).is_lt(),
        None => true,
    }
}

/// Whether a bound stands after the last one, by its key.
#[tactic(auto, using(crate::proofs::OrderLemmas::extends_last))]
fn bound_extends(bounds: &[Bound], bound: &Bound) -> bool
    ensures { result ≡ extends_order key_before bounds.now bound.now }
{
    match bounds.last() {
        Some(last) => last.key.compare(&bound.key).is_lt(),
        None => true,
    }
}

fn registers_ascend(given: &[(u8, Option<Term>)]) -> bool
    ensures { result ≡ registers_ascend given.now }
{
    for i in 1..given.len() {
        if given[i - 1].0 >= given[i].0 {
            return false;
        }
    }
    true
}

/// Whether a node stands after the last one of its level.
#[tactic(auto, using(crate::proofs::OrderLemmas::extends_last))]
fn node_extends(nodes: &[Node], node: &Node) -> bool
    ensures { result ≡ extends_order node_before nodes.now node.now }
{
    match nodes.last() {
        Some(last) => last.comes_before(node),
        None => true,
    }
}

fn share_name(names: &[Term], other: &Node) -> bool
    ensures { result ≡ list_any (λ name. has_name name other.now.names) names.now }
{
    names.iter().any(|name| other.has_name(name))
}

/// Whether two nodes have one size and a common name.
fn aliases(node: &Node, other: &Node) -> bool
    ensures { result ≡ aliases node.now other.now.names other.now.bytes }
{
    other.bytes == node.bytes && share_name(node.names.as_slice(), other)
}

/// Whether one of the nodes, at whatever level, has the size and a name of a node.
#[cycle(collides)]
fn collides(node: &Node, nodes: &[Node]) -> bool
    ensures { result ≡ collides node.now (cells nodes.now) }
{
    for other in nodes {
        if aliases(node, other) || collides(node, other.under.as_slice()) {
            return true;
        }
    }
    false
}

/// Whether a node comes after the last one of its level, where the level is there.
#[tactic(auto, using(crate::proofs::OrderLemmas::level_there, crate::proofs::OrderLemmas::level_past))]
fn level_fits(level: u64, node: &Node, levels: &[ListVec<Node>]) -> bool
    ensures { result ≡ level_fits level node.now levels.now }
{
    match at(levels, level as usize) {
        Some(nodes) => node_extends(nodes.as_slice(), node),
        None => true,
    }
}

fn collides_any(node: &Node, levels: &[ListVec<Node>]) -> bool
    ensures { result ≡ list_any (λ nodes. collides node.now (cells nodes)) levels.now }
{
    levels.iter().any(|nodes| collides(node, nodes.as_slice()))
}

/// Whether a node comes after the last one of its level, and no node has its size and one of its names.
fn node_fits(level: u64, node: &Node, levels: &[ListVec<Node>]) -> bool
    ensures { result ≡ node_fits level node.now levels.now }
{
    level_fits(level, node, levels) && !collides_any(node, levels)
}

/// Whether a line of a site is after those of its kind.
fn is_site_line_in_order(line: &SiteLine, site: &Site) -> bool
    ensures { result ≡ site_line_in_order line.now site.now }
{
    match line {
        SiteLine::Pair(a, b) => pair_extends(site.seps.as_slice(), a, b),
        SiteLine::Fork(..) => true,
        SiteLine::Keep(region) => region_extends(site.keeps.as_slice(), region),
    }
}

/// Whether a line of a vertex is in order, with its own parts and after those before it.
fn is_vertex_line_in_order(line: &VertexLine, vertex: &PartialVertex) -> bool
    ensures { result ≡ vertex_line_in_order line.now vertex.now }
{
    match line {
        VertexLine::Registers(given) => registers_ascend(given.as_slice()),
        VertexLine::Flags(_) => true,
        VertexLine::Bound(bound) => {
            bound.set.ascend() && bound_extends(vertex.bounds.as_slice(), bound)
        }
        VertexLine::Node(level, node) => {
            node.names_ascend() && node_fits(*level, node, vertex.levels.as_slice())
        }
        VertexLine::Edges(_) => true,
    }
}

impl Position {
    /// Whether there is a function, and an address is above that of its last site.
    fn is_address_in_order(&self, addr: u64) -> bool
        ensures { result ≡ address_in_order self.now addr }
    {
        match self {
            Position::Function(function) => address_extends(function.sites.as_slice(), addr),
            Position::Site(_, site) => site.addr < addr,
            Position::Vertex(_, site, _) => site.addr < addr,
            Position::Between | Position::Ended => false,
        }
    }

    /// Whether there is a site, and a number is that of its next vertex.
    fn is_number_in_order(&self, number: u64) -> bool
        ensures { result ≡ number_in_order self.now number }
    {
        match self {
            Position::Site(_, site) => number == site.vertices.len() as u64,
            Position::Vertex(_, site, _) => number > 0 && number - 1 == site.vertices.len() as u64,
            Position::Between | Position::Function(_) | Position::Ended => false,
        }
    }

    fn is_in_order_in_site(&self, line: &SiteLine) -> bool
        ensures { result ≡ at_site (site_line_in_order line.now) self.now }
    {
        match self {
            Position::Site(_, site) => is_site_line_in_order(line, site),
            Position::Between | Position::Function(_) | Position::Vertex(..) | Position::Ended => {
                false
            }
        }
    }

    fn is_in_order_in_vertex(&self, line: &VertexLine) -> bool
        ensures { result ≡ at_vertex (λ s v. vertex_line_in_order line.now v) self.now }
    {
        match self {
            Position::Vertex(_, _, vertex) => is_vertex_line_in_order(line, vertex),
            Position::Between | Position::Function(_) | Position::Site(..) | Position::Ended => {
                false
            }
        }
    }
}

impl Builder {
    /// Whether an entry is above that of the last function, which may not be whole yet.
    fn is_entry_in_order(&self, entry: u64) -> bool
        ensures { result ≡ entry_in_order self.now.functions self.now.position entry }
    {
        match &self.position {
            Position::Function(function) => function.entry < entry,
            Position::Site(function, _) => function.entry < entry,
            Position::Vertex(function, _, _) => function.entry < entry,
            Position::Between | Position::Ended => {
                entry_extends(self.functions.as_slice(), entry)
            }
        }
    }

    /// Whether a line is in order, with its own parts and after the lines before it.
    pub(crate) fn is_in_order(&self, line: &Line) -> bool
        ensures { result ≡ is_in_order self.now line.now }
    {
        match line {
            Line::Function(entry, _, _) => self.is_entry_in_order(*entry),
            Line::Refused(entry) => self.is_entry_in_order(*entry),
            Line::Site(addr, _) => self.position.is_address_in_order(*addr),
            Line::Vertex(number) => self.position.is_number_in_order(*number),
            Line::InSite(line) => self.position.is_in_order_in_site(line),
            Line::InVertex(line) => self.position.is_in_order_in_vertex(line),
            Line::End => true,
        }
    }
}
