//! A line as bytes.
ghost use Rattle.std.specs.Prelude.{◌≡◌, ◌++◌, OnOk};
ghost use Rattle.graph_lines.specs.Text.{line_text, site_line_text, vertex_line_text};

use crate::line::{Line, SiteLine, VertexLine};
use crate::plain_writing::{
    put_edges_line, put_end_line, put_function_line, put_refused_line, put_site_line,
    put_vertex_line,
};
use crate::term_writing::{
    put_bound_line, put_fact_line, put_fork_line, put_keep_line, put_node_line, put_pair_line,
    put_registers_line,
};
use std::alloc::AllocError;

/// Appends the one text of the line, without its line feed.
pub fn put_line(out: &mut Vec<u8>, line: &Line) -> Result<(), AllocError>
    ensures ok { OnOk result (out.new.items ≡ out.old.items ++ line_text line.now) }
{
    match line {
        Line::Function(entry, below, above) => put_function_line(out, *entry, *below, *above),
        Line::Refused(entry) => put_refused_line(out, *entry),
        Line::Site(addr, kind) => put_site_line(out, *addr, *kind),
        Line::Vertex(number) => put_vertex_line(out, *number),
        Line::InSite(line) => put_in_site(out, line),
        Line::InVertex(line) => put_in_vertex(out, line),
        Line::End => put_end_line(out),
    }
}

fn put_in_site(out: &mut Vec<u8>, line: &SiteLine) -> Result<(), AllocError>
    ensures { OnOk result (out.new.items ≡ out.old.items ++ site_line_text line.now) }
{
    match line {
        SiteLine::Pair(a, b) => put_pair_line(out, a, b),
        SiteLine::Fork(a, b) => put_fork_line(out, a, b),
        SiteLine::Keep(region) => put_keep_line(out, region),
    }
}

fn put_in_vertex(out: &mut Vec<u8>, line: &VertexLine) -> Result<(), AllocError>
    ensures { OnOk result (out.new.items ≡ out.old.items ++ vertex_line_text line.now) }
{
    match line {
        VertexLine::Registers(given) => put_registers_line(out, given.as_slice()),
        VertexLine::Flags(fact) => put_fact_line(out, fact),
        VertexLine::Bound(bound) => put_bound_line(out, bound),
        VertexLine::Node(level, node) => put_node_line(out, *level, node),
        VertexLine::Edges(edges) => put_edges_line(out, edges.as_slice()),
    }
}
