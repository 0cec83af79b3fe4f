ghost use Rattle.x86_instr.specs.Fits.{InForm};

use bank_step::{Facts, site_facts, to_bank};
use elf_image::Image;
use predicates::{Pred, SiteView};
use std::alloc::Global;
use std::test::Fail;
use step_rows::questions::{CALLS, PAIRS, Question, RETURNS, STORES, is_region};
use step_rows::sample::{graph, image, instruction, site_of, site_view, vertex_of};
use sym_step::{call_target, return_holds, store_region};
use term_bank::{Bank, InternBank, PlainBank};
use x86_instr::Instr;

// Whether what is known of a site is what the question says, and what the checker finds.
fn is_answered(
    alloc: Global,
    view: &SiteView,
    i: &Instr,
    p: &Pred,
    question: &Question,
    facts: &Facts,
) -> Result<bool, Fail>
    requires { InForm i.now }
{
    let stored = store_region(alloc, i, p)?;
    let is_stored = is_region(alloc, stored.as_ref(), question.store)?
        && is_region(alloc, facts.store.as_ref(), question.store)?;
    let is_called = facts.target == question.target
        && call_target(alloc, view, i, p)? == question.target;
    let is_returned = facts.returns == question.returns && return_holds(p) == question.returns;
    Ok(is_stored && is_called && is_returned)
}

fn is_question<B: Bank>(
    alloc: Global,
    bank: &mut B,
    image: &Image,
    question: &Question,
) -> Result<bool, Fail> {
    let graph = graph(alloc, question.site, question.before)?;
    let view = site_view(image, site_of(&graph)?);
    let i = instruction(question.code)?;
    let p = &vertex_of(&graph)?.pred;
    let numbered = to_bank(alloc, bank, p)?;
    let facts = site_facts(alloc, bank, &view, &i, &numbered)?;
    is_answered(alloc, &view, &i, p, question, &facts)
}

fn expect<B: Bank>(
    alloc: Global,
    bank: &mut B,
    image: &Image,
    questions: &[Question],
) -> Result<(), Fail> {
    for question in questions {
        if !is_question(alloc, bank, image, question)? {
            return Err(question.what.into());
        }
    }
    Ok(())
}

// All questions, over one bank.
fn expect_tables<B: Bank>(alloc: Global, bank: &mut B) -> Result<(), Fail> {
    let image = image(alloc)?;
    for questions in [
        STORES.as_slice(),
        CALLS.as_slice(),
        PAIRS.as_slice(),
        RETURNS.as_slice(),
    ] {
        expect(alloc, bank, &image, questions)?;
    }
    Ok(())
}

#[test]
fn what_is_known_of_a_site_is_what_the_checker_finds(rt: HostRuntime) -> Result<(), Fail> {
    let alloc = rt.alloc();
    expect_tables(alloc, &mut PlainBank::new(alloc))?;
    expect_tables(alloc, &mut InternBank::new(alloc))
}
