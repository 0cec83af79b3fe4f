ghost use Rattle.std.specs.Prelude.{◌≡◌, ◌<◌, Some, length, map};
ghost use Rattle.std.specs.Option.{option_map, IsSomeAnd};
ghost use Rattle.step_rules.specs.Cases.{cases as cases_of};
ghost use Rattle.step_values.specs.Views.{view_of};
ghost use Rattle.x86_instr.specs.Fits.{InForm};

use predicates::{Conjunct, Pred, SiteView};
use std::alloc::Global;
use std::test::Fail;
use step_rows::rows::{Case, Row, with_more};
use step_rows::sample::{Facts, graph, image, instruction, site_of, site_view, vertex_of};
use step_rows::{branches, calls, limits, loads, names, results, stack, stores, tables};
use sym_step::{case_addresses, holds_edge};
use x86_instr::Instr;

/// The calls on one predicate at one site.
#[derive(Drop)]
struct Tried<'a> {
    view: &'a SiteView<'a>,
    instruction: &'a Instr,
    before: &'a Pred,
}

// The first conjunct that a case lacks.
fn missing(alloc: Global, tried: &Tried, case: u32, facts: Facts) -> Result<Option<Conjunct>, Fail>
    requires form { InForm tried.now.instruction.now }
    requires case { IsSomeAnd (cases_of (view_of tried.now.view.now) tried.now.instruction.now tried.now.before.now) (λ cs. case < length cs) }
{
    let graph = graph(alloc, "step", facts)?;
    let wanted = &vertex_of(&graph)?.pred;
    let lacking = holds_edge(
        alloc,
        tried.view,
        tried.instruction,
        tried.before,
        case,
        wanted,
    )?;
    Ok(lacking)
}

fn is_case(alloc: Global, tried: &Tried, place: u32, case: &Case) -> Result<bool, Fail>
    requires form { InForm tried.now.instruction.now }
    requires case { IsSomeAnd (cases_of (view_of tried.now.view.now) tried.now.instruction.now tried.now.before.now) (λ cs. place < length cs) }
{
    if missing(alloc, tried, place, case.known)?.is_some() {
        return Ok(false);
    }
    for more in case.unknown {
        let (facts, conjunct) = with_more(case.known, more);
        if missing(alloc, tried, place, facts)? != Some(conjunct) {
            return Ok(false);
        }
    }
    Ok(true)
}

#[tactic(auto, using(crate::proofs::CaseLemmas::case_within))]
fn are_cases(alloc: Global, tried: &Tried, addresses: &[u64], wanted: &[Case]) -> Result<bool, Fail>
    requires form { InForm tried.now.instruction.now }
    requires of { option_map (map (λ c. c.address)) (cases_of (view_of tried.now.view.now) tried.now.instruction.now tried.now.before.now) ≡ Some addresses.now }
{
    if addresses.len() != wanted.len() {
        return Ok(false);
    }
    for place in 0..addresses.len() {
        let Ok(number) = u32::try_from(place) else {
            return Ok(false);
        };
        let case = &wanted[place];
        if addresses[place] != case.address || !is_case(alloc, tried, number, case)? {
            return Ok(false);
        }
    }
    Ok(true)
}

fn is_row(alloc: Global, tried: &Tried, row: &Row) -> Result<bool, Fail>
    requires { InForm tried.now.instruction.now }
{
    let found = case_addresses(alloc, tried.view, tried.instruction, tried.before)?;
    match (found, row.cases) {
        (Some(addresses), Some(wanted)) => are_cases(alloc, tried, addresses.as_slice(), wanted),
        (None, None) => Ok(true),
        _ => Ok(false),
    }
}

// Tries each row.
fn expect_rows(alloc: Global, rows: &[Row]) -> Result<(), Fail> {
    let image = image(alloc)?;
    for row in rows {
        let graph = graph(alloc, row.site, row.before)?;
        let view = site_view(&image, site_of(&graph)?);
        let tried = Tried {
            view: &view,
            instruction: &instruction(row.code)?,
            before: &vertex_of(&graph)?.pred,
        };
        if !is_row(alloc, &tried, row)? {
            return Err(row.what.into());
        }
    }
    Ok(())
}

#[test]
fn a_condition_bounds_what_was_compared_with_a_number(rt: HostRuntime) -> Result<(), Fail> {
    expect_rows(rt.alloc(), &branches::CONDITIONS)?;
    expect_rows(rt.alloc(), &branches::ENDS)?;
    expect_rows(rt.alloc(), &branches::OTHERS)
}

#[test]
fn what_is_known_after_a_call_and_a_system_call(rt: HostRuntime) -> Result<(), Fail> {
    expect_rows(rt.alloc(), &calls::CALLS)?;
    expect_rows(rt.alloc(), &calls::SYSTEM)
}

#[test]
fn a_term_over_32_nodes_is_unknown(rt: HostRuntime) -> Result<(), Fail> {
    expect_rows(rt.alloc(), &limits::NODES)
}

#[test]
fn there_are_at_most_16_bounds(rt: HostRuntime) -> Result<(), Fail> {
    expect_rows(rt.alloc(), &limits::BOUNDS)
}

#[test]
fn there_are_at_most_64_cells(rt: HostRuntime) -> Result<(), Fail> {
    expect_rows(rt.alloc(), &limits::CELLS)
}

#[test]
fn a_load_is_fixed_bytes_or_a_cells_value_or_the_name(rt: HostRuntime) -> Result<(), Fail> {
    expect_rows(rt.alloc(), &loads::NAMED)?;
    expect_rows(rt.alloc(), &loads::FIXED)?;
    expect_rows(rt.alloc(), &loads::OTHERS)
}

#[test]
fn each_fact_that_mentions_the_sites_name_goes(rt: HostRuntime) -> Result<(), Fail> {
    expect_rows(rt.alloc(), &names::ROWS)
}

#[test]
fn results_and_flags_of_arithmetic(rt: HostRuntime) -> Result<(), Fail> {
    expect_rows(rt.alloc(), &results::SUMS)?;
    expect_rows(rt.alloc(), &results::BITS)?;
    expect_rows(rt.alloc(), &results::PRODUCTS)?;
    expect_rows(rt.alloc(), &results::SHIFTS)
}

#[test]
fn moves_of_registers_memory_and_the_stack(rt: HostRuntime) -> Result<(), Fail> {
    expect_rows(rt.alloc(), &results::MOVES)?;
    expect_rows(rt.alloc(), &results::MORE_MOVES)
}

#[test]
fn exchanges_at_each_width(rt: HostRuntime) -> Result<(), Fail> {
    expect_rows(rt.alloc(), &results::EXCHANGES)
}

#[test]
fn push_pop_and_leave(rt: HostRuntime) -> Result<(), Fail> {
    expect_rows(rt.alloc(), &stack::PUSHES)?;
    expect_rows(rt.alloc(), &stack::POPS)
}

#[test]
fn a_store_gives_its_cell_a_value_and_takes_what_may_overlap(rt: HostRuntime) -> Result<(), Fail> {
    expect_rows(rt.alloc(), &stores::STORES)?;
    expect_rows(rt.alloc(), &stores::CHANGES)
}

#[test]
fn a_pair_told_apart_has_three_cases(rt: HostRuntime) -> Result<(), Fail> {
    expect_rows(rt.alloc(), &stores::PAIRS)
}

#[test]
fn a_load_of_a_tables_entry_bounds_the_name(rt: HostRuntime) -> Result<(), Fail> {
    expect_rows(rt.alloc(), &tables::LOADS)
}

#[test]
fn a_jump_leads_where_a_number_a_table_or_a_list_says(rt: HostRuntime) -> Result<(), Fail> {
    expect_rows(rt.alloc(), &tables::JUMPS)
}
