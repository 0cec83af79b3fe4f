// The lines that hold terms, as they are written.
ghost use Rattle.std.specs.Prelude.{◌≡◌, ◌++◌, ◌∷◌, [], codes, map, replicate, if◌then◌else◌, option_copied, OnOk};
ghost use Rattle.term_text.specs.Bytes.{space, dot, comma_byte, bar};
ghost use Rattle.term_text.specs.Numbers.{number_text};
ghost use Rattle.term_text.specs.Text.{sum_text};
ghost use Rattle.graph_lines.specs.declared.line.Line.TheVariants as line;
ghost use Rattle.graph_lines.specs.declared.line.SiteLine.TheVariants as in_site;
ghost use Rattle.graph_lines.specs.declared.line.VertexLine.TheVariants as in_vertex;
ghost use Rattle.graph_lines.specs.Words.{joined};
ghost use Rattle.graph_lines.specs.Text.{region_text, given_text, fact_text, values_text, bound_text, content_text, node_text, line_text};

use mem_forest::{Node, Region};
use predicates::{Bound, FlagFact, Values};
use std::alloc::AllocError;
use sym_terms::Term;
use term_text::{put_decimal, put_number, put_term, register_name};

/// Appends the line of two regions that are taken as separate, without its line feed.
pub fn put_pair_line(out: &mut Vec<u8>, a: &Region, b: &Region) -> Result<(), AllocError>
    ensures ok { OnOk result (out.new.items ≡ out.old.items ++ line_text (line.InSite (in_site.Pair a.now b.now))) }
{
    out.extend_from_slice(b"p ")?;
    put_regions(out, a, b)
}

/// Appends the line of two regions of which three cases are told apart, without its line feed.
pub fn put_fork_line(out: &mut Vec<u8>, a: &Region, b: &Region) -> Result<(), AllocError>
    ensures ok { OnOk result (out.new.items ≡ out.old.items ++ line_text (line.InSite (in_site.Fork a.now b.now))) }
{
    out.extend_from_slice(b"g ")?;
    put_regions(out, a, b)
}

/// Appends the line of a region whose bytes a callee leaves as they were, without its line feed.
pub fn put_keep_line(out: &mut Vec<u8>, region: &Region) -> Result<(), AllocError>
    ensures ok { OnOk result (out.new.items ≡ out.old.items ++ line_text (line.InSite (in_site.Keep region.now))) }
{
    out.extend_from_slice(b"k ")?;
    put_region(out, region)
}

/// Appends the line of a flag fact, without its line feed.
pub fn put_fact_line(out: &mut Vec<u8>, fact: &FlagFact) -> Result<(), AllocError>
    ensures ok { OnOk result (out.new.items ≡ out.old.items ++ line_text (line.InVertex (in_vertex.Flags fact.now))) }
{
    out.extend_from_slice(b"z ")?;
    put_decimal(out, fact.width.bits() as u64)?;
    out.push(b' ')?;
    put_term(out, &fact.left)?;
    out.push(b' ')?;
    put_term(out, &fact.right)
}

/// Appends the line of a bound, without its line feed.
pub fn put_bound_line(out: &mut Vec<u8>, bound: &Bound) -> Result<(), AllocError>
    ensures ok { OnOk result (out.new.items ≡ out.old.items ++ line_text (line.InVertex (in_vertex.Bound bound.now))) }
{
    out.extend_from_slice(b"b ")?;
    put_term(out, &bound.key)?;
    out.push(b' ')?;
    put_values(out, &bound.set)
}

/// Appends the line of a node `level` levels below the top, without its line feed: its names, its size
/// and its value. The nodes under it have lines of their own.
pub fn put_node_line(out: &mut Vec<u8>, level: u64, node: &Node) -> Result<(), AllocError>
    ensures ok { OnOk result (out.new.items ≡ out.old.items ++ line_text (line.InVertex (in_vertex.Node level node.now))) }
{
    out.extend_from_slice(b"c ")?;
    put_dots(out, level)?;
    put_node(out, node)
}

/// Appends the line of registers by number with their terms, or that they are unknown, without its line
/// feed.
pub(crate) fn put_registers_line(
    out: &mut Vec<u8>,
    given: &[(u8, Option<Term>)],
) -> Result<(), AllocError>
    ensures ok { OnOk result (out.new.items ≡ out.old.items ++ line_text (line.InVertex (in_vertex.Registers given.now))) }
{
    out.extend_from_slice(b"r ")?;
    let mut first = true;
    for (register, value) in given {
        put_separator(out, first, b' ')?;
        put_given(out, *register, value.as_ref())?;
        first = false;
    }
    Ok(())
}

/// Appends a register's name, `=` and its term, or `?` where it is unknown.
pub fn put_given(out: &mut Vec<u8>, register: u8, value: Option<&Term>) -> Result<(), AllocError>
    ensures ok { OnOk result (out.new.items ≡ out.old.items ++ given_text (register, option_copied value.entry)) }
{
    out.extend_from_slice(register_name(register))?;
    out.push(b'=')?;
    match value {
        Some(term) => put_term(out, term),
        None => {
            out.push(b'?')?;
            Ok(())
        }
    }
}

// A separator stands between two fields.
pub(crate) fn put_separator(out: &mut Vec<u8>, first: bool, separator: u8) -> Result<(), AllocError>
    ensures { OnOk result (out.new.items ≡ out.old.items ++ (if first then [] else separator ∷ [])) }
{
    if !first {
        out.push(separator)?;
    }
    Ok(())
}

fn put_regions(out: &mut Vec<u8>, a: &Region, b: &Region) -> Result<(), AllocError>
    ensures { OnOk result (out.new.items ≡ out.old.items ++ joined space (region_text a.now ∷ region_text b.now ∷ [])) }
{
    put_region(out, a)?;
    out.push(b' ')?;
    put_region(out, b)
}

/// Appends the text of a region, `[TERM;BYTES]`.
pub fn put_region(out: &mut Vec<u8>, region: &Region) -> Result<(), AllocError>
    ensures { OnOk result (out.new.items ≡ out.old.items ++ region_text region.now) }
{
    out.push(b'[')?;
    put_term(out, &region.at)?;
    out.push(b';')?;
    put_decimal(out, region.bytes as u64)?;
    out.push(b']')?;
    Ok(())
}

fn put_values(out: &mut Vec<u8>, values: &Values) -> Result<(), AllocError>
    ensures { OnOk result (out.new.items ≡ out.old.items ++ values_text values.now) }
{
    match values {
        Values::Range(low, high) => {
            put_number(out, *low)?;
            out.extend_from_slice(b"..")?;
            put_number(out, *high)
        }
        Values::OneOf(numbers) => {
            out.push(b'{')?;
            put_numbers(out, numbers.as_slice())?;
            out.push(b'}')?;
            Ok(())
        }
    }
}

fn put_numbers(out: &mut Vec<u8>, numbers: &[u64]) -> Result<(), AllocError>
    ensures { OnOk result (out.new.items ≡ out.old.items ++ joined comma_byte (map number_text numbers.now)) }
{
    let mut first = true;
    for number in numbers {
        put_separator(out, first, b',')?;
        put_number(out, *number)?;
        first = false;
    }
    Ok(())
}

fn put_dots(out: &mut Vec<u8>, level: u64) -> Result<(), AllocError>
    ensures { OnOk result (out.new.items ≡ out.old.items ++ replicate level dot) }
{
    for _ in 0..level {
        out.push(b'.')?;
    }
    Ok(())
}

fn put_names(out: &mut Vec<u8>, names: &[Term]) -> Result<(), AllocError>
    ensures { OnOk result (out.new.items ≡ out.old.items ++ joined bar (map sum_text names.now)) }
{
    let mut first = true;
    for name in names {
        put_separator(out, first, b'|')?;
        put_term(out, name)?;
        first = false;
    }
    Ok(())
}

fn put_node(out: &mut Vec<u8>, node: &Node) -> Result<(), AllocError>
    ensures { OnOk result (out.new.items ≡ out.old.items ++ node_text node.now) }
{
    out.push(b'[')?;
    put_names(out, node.names.as_slice())?;
    out.push(b';')?;
    put_decimal(out, node.bytes as u64)?;
    out.push(b']')?;
    put_content(out, node.value.as_ref())
}

fn put_content(out: &mut Vec<u8>, value: Option<&Term>) -> Result<(), AllocError>
    ensures { OnOk result (out.new.items ≡ out.old.items ++ content_text (option_copied value.entry)) }
{
    let Some(term) = value else {
        return Ok(());
    };
    out.push(b'=')?;
    put_term(out, term)
}
