ghost use Rattle.std.specs.Prelude.{◌<◌, All, length};
ghost use Rattle.x86_instr.specs.Fits.{InForm};
ghost use Rattle.bank_step.specs.CasesAt.{IsCasePred};

use bank_step::{BankPred, cases, from_bank, to_bank};
use elf_image::Image;
use predicates::{Conjunct, Pred};
use std::alloc::Global;
use std::test::Fail;
use step_rows::rows::{Case, Row, with_more};
use step_rows::sample::{Facts, graph, image, instruction, site_of, site_view, vertex_of};
use step_rows::{branches, calls, limits, loads, names, results, stack, stores, tables};
use sym_step::Cases;
use term_bank::{Bank, InternBank, PlainBank};

// The first conjunct that a predicate lacks.
fn missing(alloc: Global, pred: &Pred, facts: Facts) -> Result<Option<Conjunct>, Fail> {
    let graph = graph(alloc, "step", facts)?;
    Ok(pred.first_missing(&vertex_of(&graph)?.pred))
}

// Whether a predicate has what is known at a case, and not what isn't.
fn is_known(alloc: Global, pred: &Pred, case: &Case) -> Result<bool, Fail> {
    if missing(alloc, pred, case.known)?.is_some() {
        return Ok(false);
    }
    for more in case.unknown {
        let (facts, conjunct) = with_more(case.known, more);
        if missing(alloc, pred, facts)? != Some(conjunct) {
            return Ok(false);
        }
    }
    Ok(true)
}

// Whether a case is the one of the row, and the checker's stands at its address and says no less.
fn is_case<B: Bank>(
    alloc: Global,
    bank: &B,
    found: &(u64, BankPred),
    by_terms: &Cases,
    place: usize,
    case: &Case,
) -> Result<bool, Fail>
    requires formed { IsCasePred (B.terms bank.now) found.now }
    requires place { place < length by_terms.now }
{
    let pred = from_bank(alloc, bank, &found.1)?;
    let is_there = found.0 == case.address && by_terms.address(place) == case.address;
    let is_implied = by_terms.first_missing(place, &pred).is_none();
    Ok(is_known(alloc, &pred, case)? && is_there && is_implied)
}

fn are_cases<B: Bank>(
    alloc: Global,
    bank: &B,
    found: &[(u64, BankPred)],
    by_terms: &Cases,
    wanted: &[Case],
) -> Result<bool, Fail>
    requires { All (IsCasePred (B.terms bank.now)) found.now }
{
    if found.len() != wanted.len() || by_terms.len() != wanted.len() {
        return Ok(false);
    }
    for place in 0..found.len() {
        if !is_case(alloc, bank, &found[place], by_terms, place, &wanted[place])? {
            return Ok(false);
        }
    }
    Ok(true)
}

// Whether both steps give the row's cases.
fn is_row<B: Bank>(alloc: Global, bank: &mut B, image: &Image, row: &Row) -> Result<bool, Fail> {
    let graph = graph(alloc, row.site, row.before)?;
    let view = site_view(image, site_of(&graph)?);
    let i = instruction(row.code)?;
    let p = &vertex_of(&graph)?.pred;
    let numbered = to_bank(alloc, bank, p)?;
    let found = cases(alloc, bank, &view, &i, &numbered)?;
    let by_terms = Cases::of(alloc, &view, &i, p)?;
    match (found, by_terms, row.cases) {
        (Some(found), Some(by_terms), Some(wanted)) => {
            are_cases(alloc, bank, found.as_slice(), &by_terms, wanted)
        }
        (None, None, None) => Ok(true),
        _ => Ok(false),
    }
}

fn expect_rows<B: Bank>(
    alloc: Global,
    bank: &mut B,
    image: &Image,
    rows: &[Row],
) -> Result<(), Fail> {
    for row in rows {
        if !is_row(alloc, bank, image, row)? {
            return Err(row.what.into());
        }
    }
    Ok(())
}

// Jumps, calls and tables.
fn expect_control<B: Bank>(alloc: Global, bank: &mut B, image: &Image) -> Result<(), Fail> {
    expect_rows(alloc, bank, image, &branches::CONDITIONS)?;
    expect_rows(alloc, bank, image, &branches::ENDS)?;
    expect_rows(alloc, bank, image, &branches::OTHERS)?;
    expect_rows(alloc, bank, image, &calls::CALLS)?;
    expect_rows(alloc, bank, image, &calls::SYSTEM)?;
    expect_rows(alloc, bank, image, &tables::LOADS)?;
    expect_rows(alloc, bank, image, &tables::JUMPS)
}

// Loads, stores and pairs.
fn expect_memory<B: Bank>(alloc: Global, bank: &mut B, image: &Image) -> Result<(), Fail> {
    expect_rows(alloc, bank, image, &loads::NAMED)?;
    expect_rows(alloc, bank, image, &loads::FIXED)?;
    expect_rows(alloc, bank, image, &loads::OTHERS)?;
    expect_rows(alloc, bank, image, &stack::PUSHES)?;
    expect_rows(alloc, bank, image, &stack::POPS)?;
    expect_rows(alloc, bank, image, &stores::STORES)?;
    expect_rows(alloc, bank, image, &stores::CHANGES)?;
    expect_rows(alloc, bank, image, &stores::PAIRS)
}

// Results of operations.
fn expect_results<B: Bank>(alloc: Global, bank: &mut B, image: &Image) -> Result<(), Fail> {
    expect_rows(alloc, bank, image, &results::SUMS)?;
    expect_rows(alloc, bank, image, &results::BITS)?;
    expect_rows(alloc, bank, image, &results::PRODUCTS)?;
    expect_rows(alloc, bank, image, &results::SHIFTS)?;
    expect_rows(alloc, bank, image, &results::MOVES)?;
    expect_rows(alloc, bank, image, &results::MORE_MOVES)?;
    expect_rows(alloc, bank, image, &results::EXCHANGES)
}

// Names, and what is just too much.
fn expect_limits<B: Bank>(alloc: Global, bank: &mut B, image: &Image) -> Result<(), Fail> {
    expect_rows(alloc, bank, image, &names::ROWS)?;
    expect_rows(alloc, bank, image, &limits::NODES)?;
    expect_rows(alloc, bank, image, &limits::BOUNDS)?;
    expect_rows(alloc, bank, image, &limits::CELLS)
}

// All rows, over one bank.
fn expect_tables<B: Bank>(alloc: Global, bank: &mut B) -> Result<(), Fail> {
    let image = image(alloc)?;
    expect_control(alloc, bank, &image)?;
    expect_memory(alloc, bank, &image)?;
    expect_results(alloc, bank, &image)?;
    expect_limits(alloc, bank, &image)
}

#[test]
fn both_steps_agree_over_a_bank_that_is_searched(rt: HostRuntime) -> Result<(), Fail> {
    let alloc = rt.alloc();
    expect_tables(alloc, &mut PlainBank::new(alloc))
}

#[test]
fn both_steps_agree_over_a_bank_that_finds_by_hash(rt: HostRuntime) -> Result<(), Fail> {
    let alloc = rt.alloc();
    expect_tables(alloc, &mut InternBank::new(alloc))
}
