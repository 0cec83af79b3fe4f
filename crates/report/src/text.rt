// The text of a report.
ghost use Rattle.std.specs.Prelude.{◌≡◌, ◌++◌, OnOk, IfOk};
ghost use Rattle.std.specs.List.{flat_map};
ghost use Rattle.instr_at.specs.At.{instr_at};
ghost use Rattle.report.specs.Text.{number_line, entry_lines, covered_line, head_lines, function_line, refused_line, function_lines, site_lines, report_text};

use crate::counts::{
    code_bytes, covered_bytes, function_count, site_count, sites_of, vertex_count, vertices_of,
};
use crate::lines::put_site;
use elf_image::Image;
use graph_data::{Function, Graph, Site};
use no_memory::NoMemory;
use std::alloc::{AllocError, Global};
use term_text::{put_decimal, put_hex};

/// The report of a graph: the entry of the executable, what the graph counts, how many of the file bytes
/// of executable segments lie in the instruction at some site, and then, function by function and site
/// by site, the pairs and regions that are assumed, and where the graph leaves off. The graph may be any,
/// also one that doesn't fit the executable. Besides the text it takes one bit for each byte of code.
pub fn report(alloc: Global, image: &Image, graph: &Graph) -> Result<Vec<u8>, NoMemory>
    ensures { IfOk result (λ text. text.items ≡ report_text (instr_at image.now) image.now graph.now) }
{
    let mut out = Vec::new(alloc);
    put_head(alloc, &mut out, image, graph)?;
    put_functions(&mut out, image, graph.functions.as_slice())?;
    Ok(out)
}

// Appends the first six lines.
fn put_head(
    alloc: Global,
    out: &mut Vec<u8>,
    image: &Image,
    graph: &Graph,
) -> Result<(), AllocError>
    ensures { OnOk result (out.new.items ≡ out.old.items ++ head_lines (instr_at image.now) image.now graph.now) }
{
    let functions = graph.functions.as_slice();
    put_entry(out, image.entry)?;
    put_number(out, b"functions ", function_count(functions))?;
    put_number(out, b"sites ", site_count(functions))?;
    put_number(out, b"vertices ", vertex_count(functions))?;
    put_covered(
        out,
        covered_bytes(alloc, image, functions)?,
        code_bytes(image),
    )
}

// Appends the first two lines.
#[tactic(auto, unfolding(crate::specs::Text::entry_lines))]
fn put_entry(out: &mut Vec<u8>, entry: u64) -> Result<(), AllocError>
    ensures { OnOk result (out.new.items ≡ out.old.items ++ entry_lines entry) }
{
    out.extend_from_slice(b"foxdec report\nentry ")?;
    put_hex(out, entry)?;
    Ok(out.push(b'\n')?)
}

// Appends a number behind its name, and ends the line.
#[tactic(auto, unfolding(crate::specs::Text::number_line))]
fn put_number(out: &mut Vec<u8>, name: &[u8], number: u64) -> Result<(), AllocError>
    ensures { OnOk result (out.new.items ≡ out.old.items ++ number_line name.now number) }
{
    out.extend_from_slice(name)?;
    put_decimal(out, number)?;
    Ok(out.push(b'\n')?)
}

// Appends the line of the covered bytes.
#[tactic(auto, unfolding(crate::specs::Text::covered_line))]
fn put_covered(out: &mut Vec<u8>, covered: u64, code: u64) -> Result<(), AllocError>
    ensures { OnOk result (out.new.items ≡ out.old.items ++ covered_line covered code) }
{
    out.extend_from_slice(b"covered ")?;
    put_decimal(out, covered)?;
    put_number(out, b" of ", code)
}

// Appends the lines of functions.
fn put_functions(out: &mut Vec<u8>, image: &Image, functions: &[Function]) -> Result<(), AllocError>
    ensures { OnOk result (out.new.items ≡ out.old.items ++ flat_map (function_lines (instr_at image.now)) functions.now) }
{
    for function in functions {
        put_function(out, image, function)?;
    }
    Ok(())
}

// Appends the lines of a function.
fn put_function(out: &mut Vec<u8>, image: &Image, function: &Function) -> Result<(), AllocError>
    ensures { OnOk result (out.new.items ≡ out.old.items ++ function_lines (instr_at image.now) function.now) }
{
    if function.refused.is_some() {
        return put_refused(out, function.entry);
    }
    put_function_line(out, function)?;
    put_sites(out, image, function.sites.as_slice())
}

// Appends the line of a function that is refused.
fn put_refused(out: &mut Vec<u8>, entry: u64) -> Result<(), AllocError>
    ensures { OnOk result (out.new.items ≡ out.old.items ++ refused_line entry) }
{
    out.extend_from_slice(b"refused ")?;
    put_hex(out, entry)?;
    out.extend_from_slice(b" notcode\n")
}

// Appends the line of a function, by its frame and its counts.
fn put_function_line(out: &mut Vec<u8>, function: &Function) -> Result<(), AllocError>
    ensures { OnOk result (out.new.items ≡ out.old.items ++ function_line function.now) }
{
    out.extend_from_slice(b"function ")?;
    put_hex(out, function.entry)?;
    out.extend_from_slice(b" frame ")?;
    put_decimal(out, function.below)?;
    out.push(b' ')?;
    put_decimal(out, function.above)?;
    out.extend_from_slice(b" sites ")?;
    put_decimal(out, sites_of(function).len() as u64)?;
    put_number(out, b" vertices ", vertices_of(function))
}

// Appends the lines of sites.
fn put_sites(out: &mut Vec<u8>, image: &Image, sites: &[Site]) -> Result<(), AllocError>
    ensures { OnOk result (out.new.items ≡ out.old.items ++ flat_map (site_lines (instr_at image.now)) sites.now) }
{
    for site in sites {
        put_site(out, image, site)?;
    }
    Ok(())
}
