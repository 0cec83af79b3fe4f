//! The lines that hold no terms, as they are written.
ghost use Rattle.std.specs.Prelude.{◌≡◌, ◌++◌, ◌∷◌, OnOk};
ghost use Rattle.graph_lines.specs.declared.line.Line.TheVariants as line;
ghost use Rattle.graph_lines.specs.declared.line.VertexLine.TheVariants as in_vertex;
ghost use Rattle.graph_lines.specs.Text.{reason_text as text_of_reason, kind_text, edge_text, line_text};

use crate::term_writing::put_separator;
use predicates::{Kind, Reason};
use std::alloc::AllocError;
use term_text::{put_decimal, put_hex};

/// Appends the line of a function, by its entry and the bytes of its frame below and above, without its
/// line feed.
pub fn put_function_line(
    out: &mut Vec<u8>,
    entry: u64,
    below: u64,
    above: u64,
) -> Result<(), AllocError>
    ensures ok { OnOk result (out.new.items ≡ out.old.items ++ line_text (line.Function entry below above)) }
{
    out.extend_from_slice(b"f ")?;
    put_hex(out, entry)?;
    out.push(b' ')?;
    put_decimal(out, below)?;
    out.push(b' ')?;
    put_decimal(out, above)
}

/// Appends the line of a function that is refused, by its entry, without its line feed.
pub fn put_refused_line(out: &mut Vec<u8>, entry: u64) -> Result<(), AllocError>
    ensures ok { OnOk result (out.new.items ≡ out.old.items ++ line_text (line.Refused entry)) }
{
    out.extend_from_slice(b"x ")?;
    put_hex(out, entry)?;
    out.extend_from_slice(b" notcode")
}

/// Appends the line of a site, by its address and its kind, without its line feed.
pub fn put_site_line(out: &mut Vec<u8>, addr: u64, kind: Kind) -> Result<(), AllocError>
    ensures ok { OnOk result (out.new.items ≡ out.old.items ++ line_text (line.Site addr kind)) }
{
    out.extend_from_slice(b"s ")?;
    put_hex(out, addr)?;
    out.push(b' ')?;
    put_kind(out, kind)
}

/// Appends the line of a vertex, by its number, without its line feed.
pub fn put_vertex_line(out: &mut Vec<u8>, number: u64) -> Result<(), AllocError>
    ensures ok { OnOk result (out.new.items ≡ out.old.items ++ line_text (line.Vertex number)) }
{
    out.extend_from_slice(b"v ")?;
    put_decimal(out, number)
}

/// Appends the line of edges, each an address and the number of a vertex there, without its line feed.
pub fn put_edges_line(out: &mut Vec<u8>, edges: &[(u64, u32)]) -> Result<(), AllocError>
    ensures ok { OnOk result (out.new.items ≡ out.old.items ++ line_text (line.InVertex (in_vertex.Edges edges.now))) }
{
    out.extend_from_slice(b"> ")?;
    let mut first = true;
    for (addr, vertex) in edges {
        put_separator(out, first, b' ')?;
        put_edge(out, *addr, *vertex)?;
        first = false;
    }
    Ok(())
}

/// Appends the last line, without its line feed.
pub fn put_end_line(out: &mut Vec<u8>) -> Result<(), AllocError>
    ensures ok { OnOk result (out.new.items ≡ out.old.items ++ line_text line.End) }
{
    out.extend_from_slice(b"end")
}

fn put_kind(out: &mut Vec<u8>, kind: Kind) -> Result<(), AllocError>
    ensures { OnOk result (out.new.items ≡ out.old.items ++ kind_text kind) }
{
    match kind {
        Kind::Step => out.extend_from_slice(b"step"),
        Kind::Call(entry) => {
            out.extend_from_slice(b"call ")?;
            put_hex(out, entry)
        }
        Kind::Outside => out.extend_from_slice(b"outside"),
        Kind::Return => out.extend_from_slice(b"ret"),
        Kind::End(reason) => {
            out.extend_from_slice(b"end ")?;
            out.extend_from_slice(reason_text(reason))
        }
    }
}

/// The word of a reason, as `unresolved`.
pub fn reason_text(reason: Reason) -> &'static [u8]
    ensures { result.now ≡ text_of_reason reason }
{
    match reason {
        Reason::Unresolved => b"unresolved",
        Reason::BadReturn => b"badreturn",
        Reason::Unsupported => b"unsupported",
        Reason::Stop => b"stop",
        Reason::Extern => b"extern",
    }
}

fn put_edge(out: &mut Vec<u8>, addr: u64, vertex: u32) -> Result<(), AllocError>
    ensures { OnOk result (out.new.items ≡ out.old.items ++ edge_text (addr, vertex)) }
{
    put_hex(out, addr)?;
    out.push(b':')?;
    put_decimal(out, vertex as u64)
}
