//! The lines that hold terms, after the letter and the space: first the form of the whole line, then its terms
//! from the left.
ghost use Rattle.std.specs.Prelude.{◌≡◌, ◌<◌, false, length, IfOk, IsTrue};
ghost use Rattle.std.specs.Option.{option_map};
ghost use Rattle.mem_forest.specs.Shape.{is_size};
ghost use Rattle.graph_data.specs.WellFormed.{IsKnown, IsRegion};
ghost use Rattle.graph_data.specs.Parts.{Each};
ghost use Rattle.sym_terms.specs.Normal.{IsTerm};
ghost use Rattle.term_text.specs.Bytes.{space, bar};
ghost use Rattle.term_text.specs.Reading.{Gives, term_at};
ghost use Rattle.graph_lines.specs.declared.line.Line.TheVariants as line;
ghost use Rattle.graph_lines.specs.declared.line.VertexLine.TheVariants as in_vertex;
ghost use Rattle.std.specs.declared.result.Result.TheVariants.{Ok};
ghost use Rattle.graph_lines.specs.declared.line_kind.SiteLineKind.TheVariants as site_kind;
ghost use Rattle.graph_lines.specs.declared.line_kind.VertexLineKind.TheVariants as vertex_kind;
ghost use Rattle.graph_lines.specs.Line.{IsLine, IsEntry, IsNode};
ghost use Rattle.graph_lines.specs.Words.{fields};
ghost use Rattle.graph_lines.specs.Syntax.{regions_at as regions_of, node_at as node_at_of};
ghost use Rattle.graph_lines.specs.Steps.{region_of, pair_of, entry_of, each_read, restates_entry_value, value_of, node_of, loose_site_line, loose_vertex_line};
ghost use Rattle.graph_lines.specs.Reading.{and_then, or_bad_line};

use crate::fields::first_field;
use crate::line::{Line, SiteLine, VertexLine};
use crate::parts::{are_givens, bound_at, fact_at, given_at, node_at, region_at, regions_at};
use mem_forest::{Node, Region};
use predicates::{Bound, FlagFact};
use sqlite_items::Items;
use std::alloc::{AllocError, Global};
use sym_terms::Term;
use term_text::{TextCause, read_term};

fn read_region(
    alloc: Global,
    at: &[u8],
    bytes: u8,
    buffer: &mut Vec<u8>,
) -> Result<Region, TextCause>
    requires size { IsTrue (is_size bytes) }
    ensures exact { Gives (λ r. r) result (region_of (at.now, bytes)) }
    ensures region { IfOk result IsRegion }
{
    let at = read_term(alloc, at, buffer)?;
    Ok(Region { at, bytes })
}

fn read_regions(
    alloc: Global,
    rest: &[u8],
    buffer: &mut Vec<u8>,
) -> Result<(Region, Region), TextCause>
    ensures exact { Gives (λ p. p) result (or_bad_line (regions_of rest.now) pair_of) }
    ensures regions { IfOk result (λ p. IsRegion p.0 × IsRegion p.1) }
{
    let Some(((a, a_bytes), (b, b_bytes))) = regions_at(rest) else {
        return Err(TextCause::BadLine);
    };
    let a = read_region(alloc, a, a_bytes, buffer)?;
    let b = read_region(alloc, b, b_bytes, buffer)?;
    Ok((a, b))
}

/// `REGION REGION`, taken as separate.
#[tactic(auto, unfolding(crate::specs::Steps::loose_site_line))]
pub(crate) fn pair_line(alloc: Global, rest: &[u8], buffer: &mut Vec<u8>) -> Result<Line, TextCause>
    ensures exact { Gives (λ l. l) result (loose_site_line site_kind.Pair rest.now) }
    ensures line { IfOk result IsLine }
{
    let (a, b) = read_regions(alloc, rest, buffer)?;
    Ok(Line::InSite(SiteLine::Pair(a, b)))
}

/// `REGION REGION`, of which three cases are told apart.
#[tactic(auto, unfolding(crate::specs::Steps::loose_site_line))]
pub(crate) fn fork_line(alloc: Global, rest: &[u8], buffer: &mut Vec<u8>) -> Result<Line, TextCause>
    ensures exact { Gives (λ l. l) result (loose_site_line site_kind.Fork rest.now) }
    ensures line { IfOk result IsLine }
{
    let (a, b) = read_regions(alloc, rest, buffer)?;
    Ok(Line::InSite(SiteLine::Fork(a, b)))
}

/// `REGION`, whose bytes a callee leaves as they were.
#[tactic(auto, unfolding(crate::specs::Steps::loose_site_line))]
pub(crate) fn keep_line(alloc: Global, rest: &[u8], buffer: &mut Vec<u8>) -> Result<Line, TextCause>
    ensures exact { Gives (λ l. l) result (loose_site_line site_kind.Keep rest.now) }
    ensures line { IfOk result IsLine }
{
    let Some((at, bytes)) = region_at(rest) else {
        return Err(TextCause::BadLine);
    };
    let region = read_region(alloc, at, bytes, buffer)?;
    Ok(Line::InSite(SiteLine::Keep(region)))
}

/// `W TERM TERM`.
#[tactic(auto, unfolding(crate::specs::Steps::loose_vertex_line))]
pub(crate) fn fact_line(alloc: Global, rest: &[u8], buffer: &mut Vec<u8>) -> Result<Line, TextCause>
    ensures exact { Gives (λ l. l) result (loose_vertex_line vertex_kind.Flags rest.now) }
    ensures line { IfOk result IsLine }
{
    let Some((width, left, right)) = fact_at(rest) else {
        return Err(TextCause::BadLine);
    };
    let left = read_term(alloc, left, buffer)?;
    let right = read_term(alloc, right, buffer)?;
    Ok(Line::InVertex(VertexLine::Flags(FlagFact { width, left, right })))
}

/// `TERM LO..HI` or `TERM {N,N}`.
#[tactic(auto, unfolding(crate::specs::Steps::loose_vertex_line))]
pub(crate) fn bound_line(
    alloc: Global,
    rest: &[u8],
    buffer: &mut Vec<u8>,
) -> Result<Line, TextCause>
    ensures exact { Gives (λ l. l) result (loose_vertex_line vertex_kind.Bound rest.now) }
    ensures line { IfOk result IsLine }
{
    let Some((key, set)) = bound_at(alloc, rest)? else {
        return Err(TextCause::BadLine);
    };
    let key = read_term(alloc, key, buffer)?;
    Ok(Line::InVertex(VertexLine::Bound(Bound { key, set })))
}

type Given = (u8, Option<Term>);

fn read_given(alloc: Global, word: &[u8], buffer: &mut Vec<u8>) -> Result<Given, TextCause>
    ensures exact { Gives (λ g. g) result (entry_of word.now) }
    ensures entry { IfOk result IsEntry }
{
    let Some((register, bytes)) = given_at(word) else {
        return Err(TextCause::BadLine);
    };
    if bytes == b"?".as_slice() {
        return Ok((register, None));
    }
    let term = read_term(alloc, bytes, buffer)?;
    Ok((register, Some(term)))
}

#[tactic(auto, using(crate::proofs::EachLemmas::each_push))]
fn read_givens(alloc: Global, rest: &[u8], buffer: &mut Vec<u8>) -> Result<Items<Given>, TextCause>
    ensures exact { Gives (λ gs. gs) result (each_read entry_of (fields space rest.now)) }
    ensures entries { IfOk result (λ gs. Each IsEntry gs × (0 < length gs)) }
{
    let mut given = Items::new(alloc);
    let mut after = Some(rest);
    while let Some(bytes) = after {
        let (word, more) = first_field(bytes, b' ');
        let entry = read_given(alloc, word, buffer)?;
        given.push(entry)?;
        after = more;
    }
    Ok(given)
}

fn read_registers(alloc: Global, rest: &[u8], buffer: &mut Vec<u8>) -> Result<Line, TextCause>
    ensures exact { Gives (λ l. l) result (and_then (each_read entry_of (fields space rest.now)) (λ given. Ok (line.InVertex (in_vertex.Registers given)))) }
    ensures line { IfOk result (λ l. restates_entry_value l ≡ false → IsLine l) }
{
    let given = read_givens(alloc, rest, buffer)?;
    Ok(Line::InVertex(VertexLine::Registers(given)))
}

/// `REG=TERM ..`, where `?` stands for what is unknown.
pub(crate) fn registers_line(
    alloc: Global,
    rest: &[u8],
    buffer: &mut Vec<u8>,
) -> Result<Line, TextCause>
    ensures exact { Gives (λ l. l) result (loose_vertex_line vertex_kind.Registers rest.now) }
    ensures line { IfOk result (λ l. restates_entry_value l ≡ false → IsLine l) }
{
    if are_givens(rest) {
        read_registers(alloc, rest, buffer)
    } else {
        Err(TextCause::BadLine)
    }
}

#[tactic(auto, using(crate::proofs::EachLemmas::each_push))]
fn read_names(alloc: Global, names: &[u8], buffer: &mut Vec<u8>) -> Result<Vec<Term>, TextCause>
    ensures exact { Gives (λ v. v.items) result (each_read term_at (fields bar names.now)) }
    ensures terms { IfOk result (λ v. Each IsTerm v.items × (0 < length v.items)) }
{
    let mut terms = Vec::new(alloc);
    let mut after = Some(names);
    while let Some(bytes) = after {
        let (name, more) = first_field(bytes, b'|');
        let term = read_term(alloc, name, buffer)?;
        terms.push(term).map_err(AllocError::from)?;
        after = more;
    }
    Ok(terms)
}

fn read_node(alloc: Global, rest: &[u8], buffer: &mut Vec<u8>) -> Result<Node, TextCause>
    ensures exact { Gives (λ n. n) result (or_bad_line (node_at_of rest.now) node_of) }
    ensures node { IfOk result IsNode }
{
    let Some((names, bytes, value)) = node_at(rest) else {
        return Err(TextCause::BadLine);
    };
    let names = read_names(alloc, names, buffer)?;
    let value = read_content(alloc, value, buffer)?;
    let under = Vec::new(alloc);
    Ok(Node {
        names,
        bytes,
        value,
        under,
    })
}

fn read_content(
    alloc: Global,
    value: Option<&[u8]>,
    buffer: &mut Vec<u8>,
) -> Result<Option<Term>, TextCause>
    ensures exact { Gives (λ v. v) result (value_of (option_map (λ w. w.now) value.entry)) }
    ensures known { IfOk result IsKnown }
{
    let Some(word) = value else {
        return Ok(None);
    };
    let term = read_term(alloc, word, buffer)?;
    Ok(Some(term))
}

/// `[NAME|NAME;BYTES]=TERM` after a dot for each level below the top.
#[tactic(auto, unfolding(crate::specs::Steps::loose_vertex_line))]
pub(crate) fn node_line(
    alloc: Global,
    level: u64,
    rest: &[u8],
    buffer: &mut Vec<u8>,
) -> Result<Line, TextCause>
    ensures exact { Gives (λ l. l) result (loose_vertex_line (vertex_kind.Node level) rest.now) }
    ensures line { IfOk result IsLine }
{
    let after = rest.get(level as usize..).unwrap_or_default();
    let node = read_node(alloc, after, buffer)?;
    Ok(Line::InVertex(VertexLine::Node(level, node)))
}
