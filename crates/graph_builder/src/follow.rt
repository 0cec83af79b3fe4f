//! Which kinds of lines can come next.
ghost use Rattle.std.specs.Prelude.{◌≡◌, ◌&&◌, is_none};
ghost use Rattle.graph_builder.specs.Follow.{is_empty, before_edges, before_nodes, before_bounds, before_flags, is_whole, follows_between, follows_function, can_assume, follows_site, can_say, follows_vertex, follows_at};

use crate::builder::{PartialVertex, Position};
use graph_data::Site;
use graph_lines::{LineKind, SiteLineKind, VertexLineKind};
use predicates::Kind;

/// Whether neither the fork of a site nor a kept region was read.
fn is_before_fork(site: &Site) -> bool
    ensures { result ≡ (is_none site.now.fork && is_empty site.now.keeps) }
{
    site.fork.is_none() && site.keeps.len() == 0
}

impl PartialVertex {
    fn is_before_edges(&self) -> bool
        ensures { result ≡ before_edges self.now }
    {
        self.out.len() == 0
    }

    fn is_before_nodes(&self) -> bool
        ensures { result ≡ before_nodes self.now }
    {
        self.is_before_edges() && self.levels.is_empty()
    }

    fn is_before_bounds(&self) -> bool
        ensures { result ≡ before_bounds self.now }
    {
        self.is_before_nodes() && self.bounds.is_empty()
    }

    fn is_before_flags(&self) -> bool
        ensures { result ≡ before_flags self.now }
    {
        self.is_before_bounds() && self.flags.is_none()
    }

    /// Whether nothing is missing: at the kinds that have edges there are some.
    fn is_whole(&self, kind: Kind) -> bool
        ensures { result ≡ is_whole kind self.now }
    {
        !(kind.has_edges() && self.is_before_edges())
    }

    fn can_say(&self, kind: Kind, line: VertexLineKind) -> bool
        ensures { result ≡ can_say kind self.now line }
    {
        match line {
            VertexLineKind::Registers => self.is_before_flags() && self.regs.is_none(),
            VertexLineKind::Flags => self.is_before_flags(),
            VertexLineKind::Bound => self.is_before_nodes(),
            VertexLineKind::Node(level) => {
                self.is_before_edges() && level <= self.levels.len() as u64
            }
            VertexLineKind::Edges => kind.has_edges() && self.is_before_edges(),
        }
    }

    fn can_follow(&self, kind: Kind, line: LineKind) -> bool
        ensures { result ≡ follows_vertex kind self.now line }
    {
        match line {
            LineKind::InVertex(line) => self.can_say(kind, line),
            LineKind::InSite(_) => false,
            LineKind::Function
            | LineKind::Refused
            | LineKind::Site
            | LineKind::Vertex
            | LineKind::End => self.is_whole(kind),
        }
    }
}

/// After the head or a refused function.
fn follows_between(kind: LineKind) -> bool
    ensures { result ≡ follows_between kind }
{
    match kind {
        LineKind::Function | LineKind::Refused | LineKind::End => true,
        LineKind::Site | LineKind::Vertex | LineKind::InSite(_) | LineKind::InVertex(_) => false,
    }
}

/// After a function's own line.
fn follows_function(kind: LineKind) -> bool
    ensures { result ≡ follows_function kind }
{
    match kind {
        LineKind::Site => true,
        LineKind::Function
        | LineKind::Refused
        | LineKind::Vertex
        | LineKind::InSite(_)
        | LineKind::InVertex(_)
        | LineKind::End => false,
    }
}

fn can_assume(site: &Site, kind: SiteLineKind) -> bool
    ensures { result ≡ can_assume site.now kind }
{
    match kind {
        SiteLineKind::Pair => site.kind.has_edges() && is_before_fork(site),
        SiteLineKind::Fork => site.kind.may_fork() && is_before_fork(site),
        SiteLineKind::Keep => site.kind.may_keep(),
    }
}

/// In a site before its first vertex.
fn follows_site(site: &Site, kind: LineKind) -> bool
    ensures { result ≡ follows_site site.now kind }
{
    match kind {
        LineKind::Vertex => true,
        LineKind::InSite(kind) => can_assume(site, kind),
        LineKind::Function
        | LineKind::Refused
        | LineKind::Site
        | LineKind::InVertex(_)
        | LineKind::End => false,
    }
}

impl Position {
    /// Whether a line of the kind can come next.
    pub(crate) fn can_follow(&self, kind: LineKind) -> bool
        ensures { result ≡ follows_at self.now kind }
    {
        match self {
            Position::Between => follows_between(kind),
            Position::Function(_) => follows_function(kind),
            Position::Site(_, site) => follows_site(site, kind),
            Position::Vertex(_, site, vertex) => vertex.can_follow(site.kind, kind),
            Position::Ended => false,
        }
    }
}
