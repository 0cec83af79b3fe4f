ghost use Rattle.std.specs.Option.{IsSomeAnd};
ghost use Rattle.std.specs.Prelude.{◌<◌, ◌≤◌, IfOk, length};
ghost use Rattle.step_rules.specs.Cases.{cases};
ghost use Rattle.step_values.specs.Views.{view_of};
ghost use Rattle.x86_instr.specs.Fits.{InForm};

use elf_image::{Image, Segment};
use mem_forest::Context;
use predicates::{Pred, SiteView};
use sqlite_items::Items;
use std::alloc::Global;
use sym_step::{case_addresses, holds_edge};
use sym_terms::NoMemory;
use x86_instr::Instr;

// An executable with 4,096 bytes at 0x400000.
fn image(alloc: Global) -> Result<Image, NoMemory> {
    let mut segs = Items::new(alloc);
    segs.push(Segment {
        lo: 0x40_0000,
        size: 4096,
        bytes: Items::new(alloc),
        exec: false,
        write: true,
    })?;
    Ok(Image {
        entry: 0x40_0000,
        segs,
    })
}

// How often the first case entails the predicate.
fn count_first(
    alloc: Global,
    view: &SiteView,
    i: &Instr,
    before: &Pred,
    after: &Pred,
    count: u64,
) -> Result<u64, NoMemory>
    requires form { InForm i.now }
    requires case { IsSomeAnd (cases (view_of view.now) i.now before.now) (λ cs. 0 < length cs) }
    ensures { IfOk result (λ n. n ≤ count) }
{
    let mut holding = 0;
    for _ in 0..count {
        if holds_edge(alloc, view, i, before, 0, after)?.is_none() {
            holding += 1;
        }
    }
    Ok(holding)
}

/// Steps by an instruction and compares its first case with a predicate so often; how often that was entailed.
#[tactic(auto, using(crate::proofs::CaseLemmas::some_case))]
pub fn count_holding(
    alloc: Global,
    i: &Instr,
    before: &Pred,
    after: &Pred,
    count: u64,
) -> Result<u64, NoMemory>
    requires { InForm i.now }
    ensures { IfOk result (λ n. n ≤ count) }
{
    let image = image(alloc)?;
    let view = SiteView {
        context: Context {
            image: &image,
            below: 65_536,
            above: 4096,
            seps: &[],
        },
        fork: None,
        keeps: &[],
    };
    match case_addresses(alloc, &view, i, before)? {
        Some(addresses) if addresses.len() > 0 => {
            count_first(alloc, &view, i, before, after, count)
        }
        _ => Ok(0),
    }
}

/// Copies a predicate so often; the number of its copies.
pub fn copy_often(alloc: Global, pred: &Pred, count: u64) -> Result<u64, NoMemory>
    ensures { IfOk result (λ n. n ≤ count) }
{
    let mut copies = 0;
    for _ in 0..count {
        let copy = pred.copy(alloc)?;
        if copy.weight() == pred.weight() {
            copies += 1;
        }
    }
    Ok(copies)
}
