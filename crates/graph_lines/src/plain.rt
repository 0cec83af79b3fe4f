//! The lines that hold no terms, after the letter and the space.
ghost use Rattle.std.specs.Prelude.{◌≡◌, ℕ, ◌++◌, ◌∷◌, [], Some, IfSome, IfOk, OnOk};
ghost use Rattle.std.specs.declared.result.Result.TheVariants.{Ok as is_ok};
ghost use Rattle.graph_data.specs.WellFormed.{IsKind, IsEdge};
ghost use Rattle.term_text.specs.Reading.{Gives};
ghost use Rattle.graph_lines.specs.Line.{IsLine};
ghost use Rattle.graph_lines.specs.Reading.{or_bad_line};
ghost use Rattle.graph_lines.specs.Syntax.{function_line as function_at, refused_line as refused_at, site_line as site_at, kind_at, long_kind as long_kind_at, reason_at, vertex_line as vertex_at, edge_at, edges_line as edges_at};

use crate::fields::first_field;
use crate::line::{Line, VertexLine};
use crate::words::split_at;
use predicates::{Kind, Reason};
use sqlite_items::Items;
use std::alloc::Global;
use term_text::{TextCause, read_decimal, read_hex};

/// `ENTRY BELOW ABOVE`.
#[tactic(auto, unfolding(crate::specs::Syntax::function_line))]
pub(crate) fn function_line(rest: &[u8]) -> Option<Line>
    ensures exact { result ≡ function_at rest.now }
    ensures line { IfSome result IsLine }
{
    let (entry, rest) = split_at(rest, b' ')?;
    let (below, above) = split_at(rest, b' ')?;
    let entry = read_hex(entry)?;
    let below = read_decimal(below)?;
    let above = read_decimal(above)?;
    Some(Line::Function(entry, below, above))
}

/// `ENTRY notcode`.
#[tactic(auto, unfolding(crate::specs::Syntax::refused_line))]
pub(crate) fn refused_line(rest: &[u8]) -> Option<Line>
    ensures exact { result ≡ refused_at rest.now }
    ensures line { IfSome result IsLine }
{
    let (entry, why) = split_at(rest, b' ')?;
    let entry = read_hex(entry)?;
    if why == b"notcode".as_slice() {
        Some(Line::Refused(entry))
    } else {
        None
    }
}

/// `ADDR KIND`.
#[tactic(auto, unfolding(crate::specs::Syntax::site_line))]
pub(crate) fn site_line(rest: &[u8]) -> Option<Line>
    ensures exact { result ≡ site_at rest.now }
    ensures line { IfSome result IsLine }
{
    let (addr, kind) = split_at(rest, b' ')?;
    let addr = read_hex(addr)?;
    let kind = read_kind(kind)?;
    Some(Line::Site(addr, kind))
}

#[tactic(auto, unfolding(crate::specs::Syntax::kind_at))]
fn read_kind(word: &[u8]) -> Option<Kind>
    ensures exact { result ≡ kind_at word.now }
    ensures kind { IfSome result IsKind }
{
    if word == b"step".as_slice() {
        Some(Kind::Step)
    } else if word == b"outside".as_slice() {
        Some(Kind::Outside)
    } else if word == b"ret".as_slice() {
        Some(Kind::Return)
    } else {
        let (name, rest) = split_at(word, b' ')?;
        long_kind(name, rest)
    }
}

fn long_kind(name: &[u8], rest: &[u8]) -> Option<Kind>
    ensures exact { result ≡ long_kind_at (name.now, rest.now) }
    ensures kind { IfSome result IsKind }
{
    if name == b"call".as_slice() {
        let entry = read_hex(rest)?;
        Some(Kind::Call(entry))
    } else if name == b"end".as_slice() {
        let reason = read_reason(rest)?;
        Some(Kind::End(reason))
    } else {
        None
    }
}

fn read_reason(word: &[u8]) -> Option<Reason>
    ensures { result ≡ reason_at word.now }
{
    if word == b"unresolved".as_slice() {
        Some(Reason::Unresolved)
    } else if word == b"badreturn".as_slice() {
        Some(Reason::BadReturn)
    } else if word == b"unsupported".as_slice() {
        Some(Reason::Unsupported)
    } else if word == b"stop".as_slice() {
        Some(Reason::Stop)
    } else if word == b"extern".as_slice() {
        Some(Reason::Extern)
    } else {
        None
    }
}

/// The number of a vertex.
#[tactic(auto, unfolding(crate::specs::Syntax::vertex_line))]
pub(crate) fn vertex_line(rest: &[u8]) -> Option<Line>
    ensures exact { result ≡ vertex_at rest.now }
    ensures line { IfSome result IsLine }
{
    let number = read_decimal(rest)?;
    Some(Line::Vertex(number))
}

#[tactic(auto, unfolding(crate::specs::Syntax::edge_at))]
fn read_edge(word: &[u8]) -> Option<(u64, u32)>
    ensures exact { result ≡ edge_at word.now }
    ensures edge { IfSome result IsEdge }
{
    let (addr, vertex) = split_at(word, b':')?;
    let addr = read_hex(addr)?;
    let vertex = read_decimal(vertex)?;
    if vertex < 4_294_967_296 {
        Some((addr, vertex as u32))
    } else {
        None
    }
}

/// One edge at least, with spaces between them.
#[tactic(auto, unfolding(crate::specs::Syntax::edges_line))]
pub(crate) fn edges_line(alloc: Global, rest: &[u8]) -> Result<Line, TextCause>
    ensures exact { Gives (λ l. l) result (or_bad_line (edges_at rest.now) is_ok) }
    ensures line { IfOk result IsLine }
{
    let mut edges = Items::new(alloc);
    let mut after = Some(rest);
    while let Some(bytes) = after {
        let (word, more) = first_field(bytes, b' ');
        let Some(edge) = read_edge(word) else {
            return Err(TextCause::BadLine);
        };
        edges.push(edge)?;
        after = more;
    }
    Ok(Line::InVertex(VertexLine::Edges(edges)))
}
