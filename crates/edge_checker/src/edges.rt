// The first rule that an edge breaks.
ghost use Rattle.std.specs.Prelude.{◌≡◌, ◌<◌, ◌≤◌, ◌^◌, map, length, flat_map, IfSome, slice_get};
ghost use Rattle.std.specs.List.{enumerate_from, zip};
ghost use Rattle.std.specs.Option.{option_copied};
ghost use Rattle.graph_data.specs.Parts.{Ascends};
ghost use Rattle.edge_checker.specs.Breaks.{first, edge_rules, edge_breaks, edges_break, rule_of};

use crate::places::{broken_at, vertex_there};
use graph_data::{Function, Site, Vertex};
use graph_verdict::{Broken, Rule};
use predicates::Conjunct;
use sym_step::Cases;

/// The first break at the edges of the vertex with the number, of which there are to be as many as there are cases. Takes no
/// memory.
pub fn edges_break(
    f: &Function,
    s: &Site,
    number: u32,
    cases: Option<&Cases>,
    v: &Vertex,
) -> Option<Broken>
    requires sites { Ascends (map (λ s. s.addr) f.now.sites) }
    requires few { length v.now.out < 2 ^ 32 }
    ensures { result ≡ first (edges_break f.now s.now number (option_copied cases.entry) v.now.out) }
{
    let Some(cases) = cases else {
        return Some(broken_at(f, s, number, 0, Rule::Cases));
    };
    if v.out.len() != cases.len() {
        return Some(broken_at(f, s, number, 0, Rule::Cases));
    }
    first_edge_break(f, s, number, cases, v.out.as_slice())
}

// The first break at edges that are as many as the cases.
fn first_edge_break(
    f: &Function,
    s: &Site,
    number: u32,
    cases: &Cases,
    out: &[(u64, u32)],
) -> Option<Broken>
    requires sites { Ascends (map (λ s. s.addr) f.now.sites) }
    requires few { length out.now < 2 ^ 32 }
    requires same { length out.now ≡ length cases.now }
    ensures { result ≡ first (flat_map (edge_breaks f.now s.now number) (enumerate_from 0 (zip cases.now out.now))) }
{
    for (case, edge) in out.iter().enumerate() {
        let broken = edge_break(f, s, number, cases, case, *edge);
        if broken.is_some() {
            return broken;
        }
    }
    None
}

// The first break at the edge of a case.
fn edge_break(
    f: &Function,
    s: &Site,
    number: u32,
    cases: &Cases,
    case: usize,
    edge: (u64, u32),
) -> Option<Broken>
    requires sites { Ascends (map (λ s. s.addr) f.now.sites) }
    requires case { case < length cases.now }
    requires few { case < 2 ^ 32 }
    ensures { IfSome (slice_get cases.now case) (λ c. result ≡ first (edge_breaks f.now s.now number (case, (c, edge)))) }
{
    match edge_rule(f, cases, case, edge) {
        Some(rule) => Some(broken_at(f, s, number, case as u32, rule)),
        None => None,
    }
}

// The first rule that the edge of a case breaks.
fn edge_rule(f: &Function, cases: &Cases, case: usize, edge: (u64, u32)) -> Option<Rule>
    requires sites { Ascends (map (λ s. s.addr) f.now.sites) }
    requires case { case < length cases.now }
    ensures { IfSome (slice_get cases.now case) (λ c. result ≡ first (edge_rules f.now (c, edge))) }
{
    if edge.0 != cases.address(case) {
        return Some(Rule::Address);
    }
    match vertex_there(f, edge.0, edge.1) {
        Some(target) => match cases.first_missing(case, &target.pred) {
            Some(conjunct) => Some(rule_of(conjunct)),
            None => None,
        },
        None => Some(Rule::Vertex),
    }
}

fn rule_of(conjunct: Conjunct) -> Rule
    ensures { result ≡ rule_of conjunct }
{
    match conjunct {
        Conjunct::Register(_) => Rule::Register,
        Conjunct::Flags => Rule::Flags,
        Conjunct::Bound(_) => Rule::Bound,
        Conjunct::Cell(_) => Rule::Cell,
    }
}
