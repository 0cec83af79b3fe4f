//! The text of a graph, line by line.
ghost use Rattle.std.specs.Prelude.{◌≡◌, ◌++◌, ◌+◌, ◌≤◌, ◌<◌, ◌^◌, codes, map, length, if◌then◌else◌, IfOk, OnOk};
ghost use Rattle.std.specs.List.{flat_map, enumerate_from};
ghost use Rattle.mem_forest.specs.Plain.{cells, count};
ghost use Rattle.graph_lines.specs.Line.{pair_line, keep_line, bound_line};
ghost use Rattle.graph_lines.specs.Text.{given_text};
ghost use Rattle.graph_builder.specs.Lines.{given_of, registers_lines, flags_lines, node_lines, edges_lines, pred_lines, vertex_lines, fork_lines, site_lines, function_lines};
ghost use Rattle.graph_text.specs.Text.{lines_text, function_text, graph_text};

use graph_data::{Function, Graph, Site, Vertex};
use graph_lines::{
    is_entry_value, put_bound_line, put_edges_line, put_end_line, put_fact_line, put_fork_line,
    put_function_line, put_given, put_keep_line, put_node_line, put_pair_line, put_refused_line,
    put_site_line, put_vertex_line,
};
use mem_forest::{Node, Region};
use predicates::{Bound, FlagFact, Pred};
use std::alloc::{AllocError, Global};
use sym_terms::{NoMemory, Term};

fn put_register(
    out: &mut Vec<u8>,
    first: bool,
    register: u8,
    value: &Option<Term>,
) -> Result<(), AllocError>
    ensures { OnOk result (out.new.items ≡ out.old.items ++ ((if first then codes "r " else codes " ") ++ given_text (register, value.now))) }
{
    if first {
        out.extend_from_slice(b"r ")?;
    } else {
        out.extend_from_slice(b" ")?;
    }
    put_given(out, register, value.as_ref())
}

/// The line of the registers that aren't their own entry symbol, if there are any.
fn put_registers(out: &mut Vec<u8>, regs: &[Option<Term>]) -> Result<(), AllocError>
    requires { length regs.now ≤ 16 }
    ensures { OnOk result (out.new.items ≡ out.old.items ++ lines_text (registers_lines (given_of regs.now))) }
{
    let mut first = true;
    for (register, value) in regs.iter().enumerate() {
        if !is_entry_value(register as u8, value) {
            put_register(out, first, register as u8, value)?;
            first = false;
        }
    }
    if !first {
        out.push(b'\n')?;
    }
    Ok(())
}

fn put_flags(out: &mut Vec<u8>, flags: &Option<FlagFact>) -> Result<(), AllocError>
    ensures { OnOk result (out.new.items ≡ out.old.items ++ lines_text (flags_lines flags.now)) }
{
    match flags {
        None => Ok(()),
        Some(fact) => {
            put_fact_line(out, fact)?;
            out.extend_from_slice(b"\n")
        }
    }
}

fn put_bounds(out: &mut Vec<u8>, bounds: &[Bound]) -> Result<(), AllocError>
    ensures { OnOk result (out.new.items ≡ out.old.items ++ lines_text (map bound_line bounds.now)) }
{
    for bound in bounds {
        put_bound_line(out, bound)?;
        out.extend_from_slice(b"\n")?;
    }
    Ok(())
}

/// Each node, those under it, and those beside it.
#[cycle(nodes)]
#[tactic(auto, using(crate::proofs::WriteLemmas::lines_append))]
fn put_nodes(out: &mut Vec<u8>, level: u64, nodes: &[Node]) -> Result<(), AllocError>
    requires { level + count (cells nodes.now) < 2 ^ 32 }
    ensures { OnOk result (out.new.items ≡ out.old.items ++ lines_text (node_lines level (cells nodes.now))) }
{
    for node in nodes {
        put_node_line(out, level, node)?;
        out.extend_from_slice(b"\n")?;
        put_nodes(out, level + 1, node.under.as_slice())?;
    }
    Ok(())
}

fn put_edges(out: &mut Vec<u8>, edges: &[(u64, u32)]) -> Result<(), AllocError>
    ensures { OnOk result (out.new.items ≡ out.old.items ++ lines_text (edges_lines edges.now)) }
{
    if edges.is_empty() {
        return Ok(());
    }
    put_edges_line(out, edges)?;
    out.extend_from_slice(b"\n")
}

#[tactic(auto, using(crate::proofs::WriteLemmas::lines_append))]
fn put_pred(out: &mut Vec<u8>, pred: &Pred) -> Result<(), AllocError>
    ensures { OnOk result (out.new.items ≡ out.old.items ++ lines_text (pred_lines pred.now)) }
{
    put_registers(out, pred.regs.as_slice())?;
    put_flags(out, &pred.flags)?;
    put_bounds(out, pred.bounds.as_slice())?;
    put_nodes(out, 0, pred.forest.nodes())
}

#[tactic(auto, using(crate::proofs::WriteLemmas::lines_append))]
fn put_vertex(out: &mut Vec<u8>, number: u64, vertex: &Vertex) -> Result<(), AllocError>
    ensures { OnOk result (out.new.items ≡ out.old.items ++ lines_text (vertex_lines (number, vertex.now))) }
{
    put_vertex_line(out, number)?;
    out.extend_from_slice(b"\n")?;
    put_pred(out, &vertex.pred)?;
    put_edges(out, vertex.out.as_slice())
}

fn put_pairs(out: &mut Vec<u8>, pairs: &[(Region, Region)]) -> Result<(), AllocError>
    ensures { OnOk result (out.new.items ≡ out.old.items ++ lines_text (map pair_line pairs.now)) }
{
    for (a, b) in pairs {
        put_pair_line(out, a, b)?;
        out.extend_from_slice(b"\n")?;
    }
    Ok(())
}

fn put_fork(out: &mut Vec<u8>, fork: &Option<(Region, Region)>) -> Result<(), AllocError>
    ensures { OnOk result (out.new.items ≡ out.old.items ++ lines_text (fork_lines fork.now)) }
{
    match fork {
        None => Ok(()),
        Some((a, b)) => {
            put_fork_line(out, a, b)?;
            out.extend_from_slice(b"\n")
        }
    }
}

fn put_keeps(out: &mut Vec<u8>, keeps: &[Region]) -> Result<(), AllocError>
    ensures { OnOk result (out.new.items ≡ out.old.items ++ lines_text (map keep_line keeps.now)) }
{
    for region in keeps {
        put_keep_line(out, region)?;
        out.extend_from_slice(b"\n")?;
    }
    Ok(())
}

#[tactic(auto, using(crate::proofs::WriteLemmas::lines_append))]
fn put_vertices(out: &mut Vec<u8>, vertices: &[Vertex]) -> Result<(), AllocError>
    ensures { OnOk result (out.new.items ≡ out.old.items ++ lines_text (flat_map vertex_lines (enumerate_from 0 vertices.now))) }
{
    for (number, vertex) in vertices.iter().enumerate() {
        put_vertex(out, number as u64, vertex)?;
    }
    Ok(())
}

#[tactic(auto, using(crate::proofs::WriteLemmas::lines_append))]
fn put_site(out: &mut Vec<u8>, site: &Site) -> Result<(), AllocError>
    ensures { OnOk result (out.new.items ≡ out.old.items ++ lines_text (site_lines site.now)) }
{
    put_site_line(out, site.addr, site.kind)?;
    out.extend_from_slice(b"\n")?;
    put_pairs(out, site.seps.as_slice())?;
    put_fork(out, &site.fork)?;
    put_keeps(out, site.keeps.as_slice())?;
    put_vertices(out, site.vertices.as_slice())
}

#[tactic(auto, using(crate::proofs::WriteLemmas::lines_append))]
fn put_sites(out: &mut Vec<u8>, sites: &[Site]) -> Result<(), AllocError>
    ensures { OnOk result (out.new.items ≡ out.old.items ++ lines_text (flat_map site_lines sites.now)) }
{
    for site in sites {
        put_site(out, site)?;
    }
    Ok(())
}

fn put_function(out: &mut Vec<u8>, function: &Function) -> Result<(), AllocError>
    ensures { OnOk result (out.new.items ≡ out.old.items ++ lines_text (function_lines function.now)) }
{
    match function.refused {
        None => {
            put_function_line(out, function.entry, function.below, function.above)?;
            out.extend_from_slice(b"\n")?;
            put_sites(out, function.sites.as_slice())
        }
        Some(_) => {
            put_refused_line(out, function.entry)?;
            out.extend_from_slice(b"\n")
        }
    }
}

#[tactic(auto, using(crate::proofs::WriteLemmas::lines_append))]
fn put_functions(out: &mut Vec<u8>, functions: &[Function]) -> Result<(), AllocError>
    ensures { OnOk result (out.new.items ≡ out.old.items ++ lines_text (flat_map function_lines functions.now)) }
{
    for function in functions {
        put_function(out, function)?;
    }
    Ok(())
}

/// The lines of a function, each with its line feed; `NoMemory` where memory runs out.
pub fn write_function(alloc: Global, f: &Function) -> Result<Vec<u8>, NoMemory>
    ensures { IfOk result (λ text. text.items ≡ function_text f.now) }
{
    let mut out = Vec::new(alloc);
    put_function(&mut out, f)?;
    Ok(out)
}

/// The one text of a graph; `NoMemory` where memory runs out.
#[tactic(auto, using(crate::proofs::WriteLemmas::lines_append))]
pub fn write_graph(alloc: Global, g: &Graph) -> Result<Vec<u8>, NoMemory>
    ensures { IfOk result (λ text. text.items ≡ graph_text g.now) }
{
    let mut out = Vec::new(alloc);
    out.extend_from_slice(b"foxdec graph 1\n")?;
    put_functions(&mut out, g.functions.as_slice())?;
    put_end_line(&mut out)?;
    out.extend_from_slice(b"\n")?;
    Ok(out)
}
