// The first rule that a vertex breaks.
ghost use Rattle.std.specs.Prelude.{◌≡◌, ◌<◌, ◌^◌, map, length, IfOk};
ghost use Rattle.graph_data.specs.Parts.{Ascends};
ghost use Rattle.x86_instr.specs.Fits.{InForm};
ghost use Rattle.step_values.specs.Views.{view_of as view};
ghost use Rattle.edge_checker.specs.Decisions.{goes_to};
ghost use Rattle.edge_checker.specs.Breaks.{first, unless, vertex_rules, case_breaks, vertex_breaks};

use crate::edges::edges_break;
use crate::places::{broken_at, view_of};
use elf_image::Image;
use graph_data::{Function, Site, Vertex};
use graph_verdict::{Broken, Rule};
use predicates::{Kind, Pred, SiteView};
use std::alloc::Global;
use sym_step::{Cases, call_target, fork_holds, keeps_hold, return_holds};
use sym_terms::NoMemory;
use x86_instr::Instr;

/// The first break at the vertex with the number, at a site and the instruction there.
pub fn vertex_break(
    alloc: Global,
    image: &Image,
    i: &Instr,
    f: &Function,
    s: &Site,
    number: u32,
    vertex: &Vertex,
) -> Result<Option<Broken>, NoMemory>
    requires form { InForm i.now }
    requires sites { Ascends (map (λ s. s.addr) f.now.sites) }
    requires few { length vertex.now.out < 2 ^ 32 }
    ensures { IfOk result (λ b. b ≡ first (vertex_breaks image.now f.now s.now i.now (number, vertex.now))) }
{
    match vertex_rule(alloc, &view_of(image, f, s), i, s.kind, &vertex.pred)? {
        Some(rule) => Ok(Some(broken_at(f, s, number, 0, rule))),
        None => case_break(alloc, image, i, f, s, number, vertex),
    }
}

// The first rule that a vertex breaks before its cases.
fn vertex_rule(
    alloc: Global,
    v: &SiteView,
    i: &Instr,
    kind: Kind,
    p: &Pred,
) -> Result<Option<Rule>, NoMemory>
    requires { InForm i.now }
    ensures { IfOk result (λ r. r ≡ first (vertex_rules kind (view v.now) i.now p.now)) }
{
    match kind {
        Kind::Step => Ok(unless(fork_holds(v, i, p), Rule::Fork)),
        Kind::Call(target) => {
            let found = call_target(alloc, v, i, p)?;
            if goes_to(target, found) {
                Ok(unless(keeps_hold(alloc, v, i, p)?, Rule::Keep))
            } else {
                Ok(Some(Rule::Target))
            }
        }
        Kind::Outside => Ok(unless(keeps_hold(alloc, v, i, p)?, Rule::Keep)),
        Kind::Return => Ok(unless(return_holds(p), Rule::Return)),
        Kind::End(_) => Ok(None),
    }
}

fn goes_to(target: u64, found: Option<u64>) -> bool
    ensures { result ≡ goes_to target found }
{
    match found {
        Some(address) => address == target,
        None => false,
    }
}

// The rule, where its test fails.
fn unless(holds: bool, rule: Rule) -> Option<Rule>
    ensures { result ≡ first (unless holds rule) }
{
    if holds { None } else { Some(rule) }
}

// The first break at the vertex's edges.
fn case_break(
    alloc: Global,
    image: &Image,
    i: &Instr,
    f: &Function,
    s: &Site,
    number: u32,
    vertex: &Vertex,
) -> Result<Option<Broken>, NoMemory>
    requires form { InForm i.now }
    requires sites { Ascends (map (λ s. s.addr) f.now.sites) }
    requires few { length vertex.now.out < 2 ^ 32 }
    ensures { IfOk result (λ b. b ≡ first (case_breaks image.now f.now s.now i.now (number, vertex.now))) }
{
    if !s.kind.has_edges() {
        return Ok(None);
    }
    let cases = Cases::of(alloc, &view_of(image, f, s), i, &vertex.pred)?;
    Ok(edges_break(f, s, number, cases.as_ref(), vertex))
}
