//! A line from its bytes.
ghost use Rattle.std.specs.Prelude.{◌≡◌, ◌&&◌, Some, false, not, IfOk};
ghost use Rattle.std.specs.Str.{bytes_eq};
ghost use Rattle.std.specs.declared.result.Result.TheVariants.{Ok as is_ok};
ghost use Rattle.term_text.specs.Reading.{Gives};
ghost use Rattle.graph_lines.specs.Line.{IsLine};
ghost use Rattle.graph_lines.specs.Text.{line_text};
ghost use Rattle.graph_lines.specs.Steps.{restates_entry_value as restates_value_of, loose_site_line, loose_vertex_line, loose_line as loose_at};
ghost use Rattle.graph_lines.specs.Reading.{or_bad_line as or_bad_line_as, line_of_kind, line_at};
ghost use Rattle.graph_lines.specs.LineKind.{kind_of_bytes};

use crate::entry_value::restates_entry_value;
use crate::line::Line;
use crate::line_kind::{LineKind, SiteLineKind, VertexLineKind, kind_of_bytes};
use crate::plain::{edges_line, function_line, refused_line, site_line, vertex_line};
use crate::term_reading::{
    bound_line, fact_line, fork_line, keep_line, node_line, pair_line, registers_line,
};
use crate::words::are_printable;
use crate::writing::put_line;
use std::alloc::{AllocError, Global};
use term_text::TextCause;

/// The line that the bytes are, without their line feed. `buffer` is written over; where it has room for the
/// text, it takes no memory.
///
/// The first cause that holds, in this order: `BadLine` where a byte is outside of 20 to 7E and where the bytes
/// have no line's form; then from the left, for the first place of a term at which there is none, its cause;
/// `NotCanonical` where a number has another spelling and where a register is given its own entry symbol.
#[tactic(auto, unfolding(crate::specs::Reading::line_at))]
pub fn read_line(alloc: Global, bytes: &[u8], buffer: &mut Vec<u8>) -> Result<Line, TextCause>
    // Which cause it is.
    ensures exact { Gives (λ l. l) result (line_at bytes.now) }
    // What is read has these bytes as its text.
    ensures found { IfOk result (λ l. IsLine l × (bytes.now ≡ line_text l)) }
{
    match kind_of_bytes(bytes) {
        Some(kind) => read_line_of_kind(alloc, kind, bytes, buffer),
        None => Err(TextCause::BadLine),
    }
}

/// The line that bytes of that kind are, as `read_line` gives it.
#[tactic(auto, using(crate::proofs::KindLemmas::kind_begins), unfolding(crate::specs::Reading::line_of_kind))]
pub fn read_line_of_kind(
    alloc: Global,
    kind: LineKind,
    bytes: &[u8],
    buffer: &mut Vec<u8>,
) -> Result<Line, TextCause>
    requires { kind_of_bytes bytes.now ≡ Some kind }
    // Which cause it is.
    ensures exact { Gives (λ l. l) result (line_of_kind kind bytes.now) }
    // What is read has these bytes as its text.
    ensures found { IfOk result (λ l. IsLine l × (bytes.now ≡ line_text l)) }
{
    if !are_printable(bytes) {
        return Err(TextCause::BadLine);
    }
    let line = loose_line(alloc, kind, &bytes[2..], buffer)?;
    if is_spelled(&line, bytes, buffer)? {
        Ok(line)
    } else {
        Err(TextCause::NotCanonical)
    }
}

#[tactic(auto, unfolding(crate::specs::Steps::loose_line))]
fn loose_line(
    alloc: Global,
    kind: LineKind,
    rest: &[u8],
    buffer: &mut Vec<u8>,
) -> Result<Line, TextCause>
    ensures exact { Gives (λ l. l) result (loose_at kind rest.now) }
    ensures line { IfOk result (λ l. restates_value_of l ≡ false → IsLine l) }
{
    match kind {
        LineKind::Function => or_bad_line(function_line(rest)),
        LineKind::Refused => or_bad_line(refused_line(rest)),
        LineKind::Site => or_bad_line(site_line(rest)),
        LineKind::Vertex => or_bad_line(vertex_line(rest)),
        LineKind::InSite(kind) => loose_site_line(alloc, kind, rest, buffer),
        LineKind::InVertex(kind) => loose_vertex_line(alloc, kind, rest, buffer),
        LineKind::End => Ok(Line::End),
    }
}

fn loose_site_line(
    alloc: Global,
    kind: SiteLineKind,
    rest: &[u8],
    buffer: &mut Vec<u8>,
) -> Result<Line, TextCause>
    ensures exact { Gives (λ l. l) result (loose_site_line kind rest.now) }
    ensures line { IfOk result IsLine }
{
    match kind {
        SiteLineKind::Pair => pair_line(alloc, rest, buffer),
        SiteLineKind::Fork => fork_line(alloc, rest, buffer),
        SiteLineKind::Keep => keep_line(alloc, rest, buffer),
    }
}

#[tactic(auto, unfolding(crate::specs::Steps::loose_vertex_line))]
fn loose_vertex_line(
    alloc: Global,
    kind: VertexLineKind,
    rest: &[u8],
    buffer: &mut Vec<u8>,
) -> Result<Line, TextCause>
    ensures exact { Gives (λ l. l) result (loose_vertex_line kind rest.now) }
    ensures line { IfOk result (λ l. restates_value_of l ≡ false → IsLine l) }
{
    match kind {
        VertexLineKind::Registers => registers_line(alloc, rest, buffer),
        VertexLineKind::Flags => fact_line(alloc, rest, buffer),
        VertexLineKind::Bound => bound_line(alloc, rest, buffer),
        VertexLineKind::Node(level) => node_line(alloc, level, rest, buffer),
        VertexLineKind::Edges => edges_line(alloc, rest),
    }
}

fn or_bad_line(line: Option<Line>) -> Result<Line, TextCause>
    ensures exact { Gives (λ l. l) result (or_bad_line_as line is_ok) }
    ensures line { IfOk result (λ l. line ≡ Some l) }
{
    match line {
        None => Err(TextCause::BadLine),
        Some(line) => Ok(line),
    }
}

// Whether the bytes are the text of the line, and no register is given its own entry symbol.
fn is_spelled(line: &Line, bytes: &[u8], buffer: &mut Vec<u8>) -> Result<bool, AllocError>
    ensures { IfOk result (λ b. b ≡ (bytes_eq (line_text line.now) bytes.now && not (restates_value_of line.now))) }
{
    buffer.clear();
    put_line(buffer, line)?;
    Ok(buffer.as_slice() == bytes && !restates_entry_value(line))
}
