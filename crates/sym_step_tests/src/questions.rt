ghost use Rattle.x86_instr.specs.Fits.{InForm};

use predicates::{Pred, SiteView};
use std::alloc::Global;
use std::test::Fail;
use step_rows::questions::{CALLS, PAIRS, Question, RETURNS, STORES, is_region};
use step_rows::sample::{graph, image, instruction, site_of, site_view, vertex_of};
use sym_step::{call_target, fork_holds, keeps_hold, return_holds, store_region};
use x86_instr::Instr;

fn is_answered(
    alloc: Global,
    view: &SiteView,
    i: &Instr,
    before: &Pred,
    question: &Question,
) -> Result<bool, Fail>
    requires { InForm i.now }
{
    let stored = store_region(alloc, i, before)?;
    let right = is_region(alloc, stored.as_ref(), question.store)?
        && call_target(alloc, view, i, before)? == question.target
        && keeps_hold(alloc, view, i, before)? == question.keeps
        && fork_holds(view, i, before) == question.fork
        && return_holds(before) == question.returns;
    Ok(right)
}

fn expect(alloc: Global, questions: &[Question]) -> Result<(), Fail> {
    let image = image(alloc)?;
    for question in questions {
        let graph = graph(alloc, question.site, question.before)?;
        let view = site_view(&image, site_of(&graph)?);
        let i = instruction(question.code)?;
        if !is_answered(alloc, &view, &i, &vertex_of(&graph)?.pred, question)? {
            return Err(question.what.into());
        }
    }
    Ok(())
}

#[test]
fn the_region_of_a_store(rt: HostRuntime) -> Result<(), Fail> {
    expect(rt.alloc(), &STORES)
}

#[test]
fn a_calls_target_and_what_it_keeps(rt: HostRuntime) -> Result<(), Fail> {
    expect(rt.alloc(), &CALLS)
}

#[test]
fn whether_a_pair_may_be_told_apart(rt: HostRuntime) -> Result<(), Fail> {
    expect(rt.alloc(), &PAIRS)
}

#[test]
fn whether_a_return_is_verified(rt: HostRuntime) -> Result<(), Fail> {
    expect(rt.alloc(), &RETURNS)
}
