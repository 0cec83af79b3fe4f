// The first rule that a site or a function breaks.
ghost use Rattle.std.specs.Prelude.{◌≡◌, ◌<◌, ◌^◌, map, flat_map, length, IfOk};
ghost use Rattle.std.specs.List.{enumerate_from};
ghost use Rattle.graph_data.specs.Parts.{Ascends};
ghost use Rattle.graph_data.specs.WellFormed.{IsFunction, IsSite};
ghost use Rattle.instr_at.specs.At.{instr_at};
ghost use Rattle.x86_instr.specs.Fits.{InForm};
ghost use Rattle.edge_checker.specs.Breaks.{first, unless, callee_rules, fitting_breaks, breaks_at, site_breaks, vertex_breaks, function_breaks};

use crate::entry::begins;
use crate::kinds::{are_undecided, fits};
use crate::places::{broken_at, view_of};
use crate::vertices::vertex_break;
use elf_image::Image;
use graph_data::{Function, Kind, Site};
use graph_verdict::{Broken, Rule};
use instr_at::instr_at;
use std::alloc::Global;
use sym_terms::NoMemory;
use x86_instr::Instr;

/// The first break in the function, where the functions with these entries, which ascend, are not refused.
pub fn function_break(
    alloc: Global,
    image: &Image,
    f: &Function,
    entries: &[u64],
) -> Result<Option<Broken>, NoMemory>
    requires function { IsFunction f.now }
    requires entries { Ascends entries.now }
    ensures { IfOk result (λ b. b ≡ first (function_breaks image.now (instr_at image.now) entries.now f.now)) }
{
    if !begins(f) {
        return Ok(Some(Broken {
            function: f.entry,
            site: f.entry,
            vertex: 0,
            case: 0,
            rule: Rule::Entry,
        }));
    }
    for site in f.sites.as_slice() {
        let broken = site_break(alloc, image, f, entries, site)?;
        if broken.is_some() {
            return Ok(broken);
        }
    }
    Ok(None)
}

// The first break at the site.
fn site_break(
    alloc: Global,
    image: &Image,
    f: &Function,
    entries: &[u64],
    s: &Site,
) -> Result<Option<Broken>, NoMemory>
    requires sites { Ascends (map (λ s. s.addr) f.now.sites) }
    requires entries { Ascends entries.now }
    requires site { IsSite s.now }
    ensures { IfOk result (λ b. b ≡ first (site_breaks image.now (instr_at image.now) entries.now f.now s.now)) }
{
    match s.kind {
        Kind::End(_) => Ok(None),
        Kind::Step | Kind::Call(_) | Kind::Outside | Kind::Return => {
            break_at(alloc, image, f, entries, s)
        }
    }
}

// The same, where something is claimed of the instruction.
fn break_at(
    alloc: Global,
    image: &Image,
    f: &Function,
    entries: &[u64],
    s: &Site,
) -> Result<Option<Broken>, NoMemory>
    requires sites { Ascends (map (λ s. s.addr) f.now.sites) }
    requires entries { Ascends entries.now }
    requires site { IsSite s.now }
    ensures { IfOk result (λ b. b ≡ first (breaks_at image.now entries.now f.now s.now (instr_at image.now s.now.addr))) }
{
    match instr_at(image, s.addr) {
        Some(i) if fits(s.kind, i.op.class()) => fitting_break(alloc, image, f, entries, s, &i),
        _ => Ok(Some(broken_at(f, s, 0, 0, Rule::Kind))),
    }
}

// The first break at a site whose kind may stand at its instruction.
fn fitting_break(
    alloc: Global,
    image: &Image,
    f: &Function,
    entries: &[u64],
    s: &Site,
    i: &Instr,
) -> Result<Option<Broken>, NoMemory>
    requires sites { Ascends (map (λ s. s.addr) f.now.sites) }
    requires entries { Ascends entries.now }
    requires site { IsSite s.now }
    requires form { InForm i.now }
    ensures { IfOk result (λ b. b ≡ first (fitting_breaks image.now entries.now f.now s.now i.now)) }
{
    if !has_callee(entries, s.kind) {
        return Ok(Some(broken_at(f, s, 0, 0, Rule::Callee)));
    }
    if !are_undecided(&view_of(image, f, s)) {
        return Ok(Some(broken_at(f, s, 0, 0, Rule::Decided)));
    }
    first_vertex_break(alloc, image, f, s, i)
}

// The first break at the vertices of a site, at its instruction.
fn first_vertex_break(
    alloc: Global,
    image: &Image,
    f: &Function,
    s: &Site,
    i: &Instr,
) -> Result<Option<Broken>, NoMemory>
    requires sites { Ascends (map (λ s. s.addr) f.now.sites) }
    requires site { IsSite s.now }
    requires form { InForm i.now }
    ensures { IfOk result (λ b. b ≡ first (flat_map (vertex_breaks image.now f.now s.now i.now) (enumerate_from 0 s.now.vertices))) }
{
    for (number, vertex) in s.vertices.as_slice().iter().enumerate() {
        let broken = vertex_break(alloc, image, i, f, s, number as u32, vertex)?;
        if broken.is_some() {
            return Ok(broken);
        }
    }
    Ok(None)
}

// Whether a call names a function that is not refused; a site of another kind calls none.
fn has_callee(entries: &[u64], kind: Kind) -> bool
    requires { Ascends entries.now }
    ensures { callee_rules entries.now kind ≡ unless result Rule.Callee }
{
    match kind {
        Kind::Call(target) => entries.binary_search(&target).is_ok(),
        Kind::Step | Kind::Outside | Kind::Return | Kind::End(_) => true,
    }
}
