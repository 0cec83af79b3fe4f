// A function from its entry.
ghost use Rattle.std.specs.Prelude.{◌≡◌, ◌↔◌, [], false, IfOk, Err, None};
ghost use Rattle.elf_image.specs.Image.{is_code_at};
ghost use Rattle.term_bank.specs.Terms.{Grows};
ghost use Rattle.predicates.specs.Entry.{entry_predicate};
ghost use Rattle.bank_values.specs.ReadBack.{predicate_at};
ghost use Rattle.graph_data.specs.WellFormed.{IsFunction};
ghost use Rattle.lift_rounds.specs.Known.{reading};
ghost use Rattle.lift_openings.specs.Lifted.{IsLifted};
ghost use Rattle.image_steps.specs.Meant.{meaning_of};
ghost use Rattle.image_steps.specs.Walks.{GoesOn, IsNumbered, subject_at};
ghost use Rattle.lifted_parts.specs.Exact.{IsExact};
ghost use Rattle.lifted_parts.specs.Rest.{IsAtRest};
ghost use Rattle.lifted_parts.specs.Whole.{IsValidFunction};
ghost use Rattle.function_lifter.specs.Well.{IsBuiltWell};

use crate::build::{Built, build};
use elf_image::Image;
use graph_data::{Function, LiftRefusal, Policy};
use image_steps::{BankPred, Walk, to_bank};
use lift_openings::{Lift, lift_from};
use lifted_exact::laws_of_lifted;
use lifted_rules::laws_of_lifting;
use no_memory::NoMemory;
use predicates::entry_pred;
use std::alloc::Global;
use term_bank::{Bank, InternBank};

/// What is known where a function begins.
fn start_of<B: Bank>(alloc: Global, bank: &mut B) -> Result<BankPred, NoMemory>
    ensures grows { Grows (B.terms bank.old) (B.terms bank.new) }
    ensures inside { IfOk result (IsNumbered (B.terms bank.new)) }
    ensures value { IfOk result (λ p. predicate_at (B.terms bank.new) p ≡ entry_predicate) }
{
    let start = entry_pred(alloc)?;
    to_bank(alloc, bank, &start)
}

/// What is found and known where no round changes anything any more.
fn lift_walk<B: Bank>(
    alloc: Global,
    walk: &mut Walk<'_, B>,
    entry: u64,
    start: BankPred,
) -> Result<Lift<BankPred>, NoMemory>
    requires inside { IsNumbered (B.terms walk.old.bank.now) start }
    requires start { predicate_at (B.terms walk.old.bank.now) start ≡ entry_predicate }
    requires shut { walk.old.opened.now.items ≡ [] }
    ensures continues { GoesOn B.terms walk.old walk.new }
    ensures same_reference { walk.new.bank.ghost_name ≡ walk.old.bank.ghost_name }
    ensures lifted { IfOk result (λ l. IsLifted (meaning_of (subject_at walk.new)) (IsNumbered (B.terms walk.new.bank.now)) (predicate_at (B.terms walk.new.bank.now)) l) }
    ensures rest { IfOk result (λ l. IsAtRest (subject_at walk.new) l.graph (reading (predicate_at (B.terms walk.new.bank.now)) l.made.items) entry) }
{
    let lift = lift_from(alloc, walk, entry, start)?;
    Ok(lift)
}

/// A function of what is found and known, with its laws.
fn build_lifted<B: Bank>(
    alloc: Global,
    walk: &Walk<'_, B>,
    lift: &Lift<BankPred>,
    entry: u64,
) -> Result<Built, NoMemory>
    requires lifted { IsLifted (meaning_of (subject_at walk.now)) (IsNumbered (B.terms walk.now.bank.now)) (predicate_at (B.terms walk.now.bank.now)) lift.now }
    requires rest { IsAtRest (subject_at walk.now) lift.now.graph (reading (predicate_at (B.terms walk.now.bank.now)) lift.now.made.items) entry }
    ensures ok { IfOk result (λ b. IsBuiltWell walk.now.image.now walk.now.externs.now entry b) }
{
    laws_of_lifting();
    laws_of_lifted();
    let built = build(alloc, walk, lift, entry)?;
    Ok(built)
}

/// The function of a walk from an entry, and the constants that are called in it.
fn walk_from<B: Bank>(
    alloc: Global,
    walk: &mut Walk<'_, B>,
    entry: u64,
    start: BankPred,
) -> Result<Built, NoMemory>
    requires inside { IsNumbered (B.terms walk.old.bank.now) start }
    requires start { predicate_at (B.terms walk.old.bank.now) start ≡ entry_predicate }
    requires shut { walk.old.opened.now.items ≡ [] }
    ensures grows { Grows (B.terms walk.old.bank.now) (B.terms walk.new.bank.now) }
    ensures same_reference { walk.new.bank.ghost_name ≡ walk.old.bank.ghost_name }
    ensures ok { IfOk result (λ b. IsBuiltWell walk.old.image.now walk.old.externs.now entry b) }
{
    let lift = lift_walk(alloc, walk, entry, start)?;
    build_lifted(alloc, walk, &lift, entry)
}

/// The function at an entry where this is known, and the constants that are called in it.
fn lift_started<B: Bank>(
    alloc: Global,
    bank: &mut B,
    image: &Image,
    entry: u64,
    externs: &[u64],
    start: BankPred,
) -> Result<Built, NoMemory>
    requires inside { IsNumbered (B.terms bank.old) start }
    requires start { predicate_at (B.terms bank.old) start ≡ entry_predicate }
    ensures ok { IfOk result (λ b. IsBuiltWell image.now externs.now entry b) }
    ensures grows { Grows (B.terms bank.old) (B.terms bank.new) }
{
    let mut opened = Vec::new(alloc);
    let mut walk = Walk {
        bank,
        image,
        externs,
        opened: &mut opened,
    };
    walk_from(alloc, &mut walk, entry, start)
}

/// The function at an entry that is code, and the constants that are called in it.
#[tactic(auto, using(bank_values::proofs::GrowLemmas::grows_trans))]
pub(crate) fn lift_code<B: Bank>(
    alloc: Global,
    bank: &mut B,
    image: &Image,
    entry: u64,
    externs: &[u64],
) -> Result<Built, NoMemory>
    ensures ok { IfOk result (λ b. IsBuiltWell image.now externs.now entry b) }
    ensures grows { Grows (B.terms bank.old) (B.terms bank.new) }
{
    let start = start_of(alloc, bank)?;
    lift_started(alloc, bank, image, entry, externs, start)
}

/// Lifts the function at an entry over a bank, whose terms keep their numbers, also without memory. `NotCode` exactly where the
/// entry is no code. Addresses of `externs` are taken to lie outside; what `policy` has beside them isn't looked at.
pub fn lift_with<B: Bank>(
    alloc: Global,
    bank: &mut B,
    image: &Image,
    entry: u64,
    policy: &Policy,
) -> Result<Function, LiftRefusal>
    ensures formed { IfOk result (λ f. IsFunction f) }
    ensures entry { IfOk result (λ f. f.entry ≡ entry) }
    ensures unrefused { IfOk result (λ f. f.refused ≡ None) }
    ensures valid { IfOk result (λ f. IsValidFunction image.now f) }
    ensures exact { IfOk result (λ f. IsExact image.now f) }

    // The entry is no code; and what stays.
    ensures not_code { (result ≡ Err LiftRefusal.NotCode) ↔ (is_code_at image.now entry ≡ false) }
    ensures grows { Grows (B.terms bank.old) (B.terms bank.new) }
{
    if !image.is_code(entry) {
        return Err(LiftRefusal::NotCode);
    }
    match lift_code(alloc, bank, image, entry, policy.externs.as_slice()) {
        Ok(built) => Ok(built.function),
        Err(_) => Err(LiftRefusal::NoMemory),
    }
}

/// Lifts the function at an entry, as `lift_with` does.
pub fn lift_function(
    alloc: Global,
    image: &Image,
    entry: u64,
    policy: &Policy,
) -> Result<Function, LiftRefusal>
    ensures formed { IfOk result (λ f. IsFunction f) }
    ensures entry { IfOk result (λ f. f.entry ≡ entry) }
    ensures unrefused { IfOk result (λ f. f.refused ≡ None) }
    ensures valid { IfOk result (λ f. IsValidFunction image.now f) }
    ensures exact { IfOk result (λ f. IsExact image.now f) }
    ensures not_code { (result ≡ Err LiftRefusal.NotCode) ↔ (is_code_at image.now entry ≡ false) }
{
    let mut bank = InternBank::new(alloc);
    lift_with(alloc, &mut bank, image, entry, policy)
}
