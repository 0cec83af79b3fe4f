ghost use Rattle.std.specs.Prelude.{length};
ghost use Rattle.term_bank.specs.Terms.{Grows};
ghost use Rattle.bank_values.specs.ReadBack.{predicate_at, IsPred, IsBelow};

use bank_step::{BankPred, cases};
use elf_image::{Image, Segment};
use mem_forest::Context;
use predicates::SiteView;
use sqlite_items::Items;
use std::alloc::Global;
use sym_terms::{NoMemory, Term};
use term_bank::Bank;
use x86_instr::Instr;

/// Puts so many different constants.
pub fn fill<B: Bank>(alloc: Global, bank: &mut B, size: u64) -> Result<(), NoMemory> {
    for k in 0..size {
        bank.put(Term::constant(alloc, k.wrapping_add(0x100_0000_0000)))?;
    }
    Ok(())
}

// An executable with 4,096 bytes at 0x400000.
fn image(alloc: Global) -> Result<Image, NoMemory> {
    let mut segs = Items::new(alloc);
    segs.push(Segment {
        lo: 0x40_0000,
        size: 4096,
        bytes: Items::new(alloc),
        exec: true,
        write: false,
    })?;
    Ok(Image {
        entry: 0x40_0000,
        segs,
    })
}

// Steps by an instruction; how many cases there are.
fn step<B: Bank>(
    alloc: Global,
    bank: &mut B,
    view: &SiteView,
    i: &Instr,
    p: &BankPred,
) -> Result<u64, NoMemory>
    requires within { IsBelow (length (B.terms bank.old)) p.now }
    requires formed { IsPred (predicate_at (B.terms bank.old) p.now) }
    ensures { Grows (B.terms bank.old) (B.terms bank.new) }
{
    match cases(alloc, bank, view, i, p)? {
        Some(cases) => Ok(cases.len() as u64),
        None => Ok(0),
    }
}

// By each instruction once.
#[tactic(auto, using(bank_values::proofs::GrowLemmas::grows_refl, bank_values::proofs::GrowLemmas::grows_trans))]
fn step_each<B: Bank>(
    alloc: Global,
    bank: &mut B,
    view: &SiteView,
    instructions: &[Instr],
    p: &BankPred,
) -> Result<u64, NoMemory>
    requires within { IsBelow (length (B.terms bank.old)) p.now }
    requires formed { IsPred (predicate_at (B.terms bank.old) p.now) }
    ensures { Grows (B.terms bank.old) (B.terms bank.new) }
{
    let mut made: u64 = 0;
    for i in instructions {
        made = made.wrapping_add(step(alloc, bank, view, i, p)?);
    }
    Ok(made)
}

/// Steps from a predicate so often by each of the instructions; how many cases there were, modulo 2^64.
#[tactic(auto, using(bank_values::proofs::GrowLemmas::grows_refl, bank_values::proofs::GrowLemmas::grows_trans))]
pub fn steps<B: Bank>(
    alloc: Global,
    bank: &mut B,
    instructions: &[Instr],
    p: &BankPred,
    count: u64,
) -> Result<u64, NoMemory>
    requires within { IsBelow (length (B.terms bank.old)) p.now }
    requires formed { IsPred (predicate_at (B.terms bank.old) p.now) }
{
    let image = image(alloc)?;
    let view = SiteView {
        context: Context {
            image: &image,
            below: 65_536,
            above: 4096,
            seps: &[],
        },
        fork: None,
        keeps: &[],
    };
    let mut made: u64 = 0;
    'turns: for _ in 0..count {
        made = made.wrapping_add(step_each(alloc, bank, &view, instructions, p)?);
    }
    Ok(made)
}
