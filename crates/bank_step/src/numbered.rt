// The step over predicates whose terms are numbers of a bank.
ghost use Rattle.std.specs.Prelude.{◌≡◌, ◌↔◌, ◌++◌, ◌∷◌, [], IfOk, IfSome, OnOk, IsTrue, All, length, map};
ghost use Rattle.std.specs.Option.{option_copied, option_map};
ghost use Rattle.term_bank.specs.Terms.{Grows};
ghost use Rattle.bank_values.specs.ReadBack.{predicate_at, IsPred, IsBelow};
ghost use Rattle.predicate_meaning.specs.Returns.{Returns};
ghost use Rattle.step_rules.specs.Cases.{case, cases};
ghost use Rattle.step_rules.specs.Site.{store_region};
ghost use Rattle.step_rules.specs.Calls.{call_target};
ghost use Rattle.pred_moves.specs.Views.{view_of};
ghost use Rattle.pred_step.specs.Led.{led_cases};
ghost use Rattle.bank_step.specs.CasesAt.{pair_at, case_at, IsCaseBelow, IsCasePred, AreAlike};

use bank_values::{BankPred, from_bank, renumber};
use pred_step::{Facts, Led, facts_of, led_of};
use predicates::{Pred, SiteView};
use std::alloc::{AllocError, Global};
use sym_terms::NoMemory;
use term_bank::Bank;
use x86_instr::Instr;

fn push(out: &mut Vec<(u64, BankPred)>, address: u64, p: BankPred) -> Result<(), NoMemory>
    ensures { OnOk result (out.new.items ≡ out.old.items ++ (address, p) ∷ []) }
{
    out.push((address, p)).map_err(AllocError::from)?;
    Ok(())
}

// ---- a predicate at each address

#[tactic(auto, using(bank_values::proofs::GrowLemmas::grows_trans, bank_values::proofs::GrowLemmas::put_none))]
fn put_apart<B: Bank>(
    alloc: Global,
    bank: &mut B,
    before: &BankPred,
    cases: &[(u64, Pred)],
) -> Result<Vec<(u64, BankPred)>, NoMemory>
    ensures grows { Grows (B.terms bank.old) (B.terms bank.new) }
    ensures within { IfOk result (λ out. All (IsCaseBelow (length (B.terms bank.new))) out.items) }
    ensures value { IfOk result (λ out. map (pair_at (B.terms bank.new)) out.items ≡ cases.now) }
    ensures formed { IfOk result (λ out. All (λ c. IsPred c.1) cases.now) }
{
    let mut out = Vec::with_capacity(alloc, cases.len())?;
    for (address, p) in cases {
        let numbered = renumber(alloc, bank, before, p)?;
        push(&mut out, *address, numbered)?;
    }
    Ok(out)
}

// ---- one predicate at all addresses

#[tactic(auto, using(crate::proofs::CaseLemmas::alike_none))]
fn copies(alloc: Global, addresses: &[u64], p: &BankPred) -> Result<Vec<(u64, BankPred)>, NoMemory>
    ensures { IfOk result (λ out. AreAlike p.now addresses.now out.items) }
{
    let mut out = Vec::with_capacity(alloc, addresses.len())?;
    for address in addresses {
        let same = p.copy(alloc)?;
        push(&mut out, *address, same)?;
    }
    Ok(out)
}

#[tactic(auto, using(crate::proofs::CaseLemmas::alike_nowhere))]
fn at_each(alloc: Global, addresses: &[u64], p: BankPred) -> Result<Vec<(u64, BankPred)>, NoMemory>
    ensures { IfOk result (λ out. AreAlike p addresses.now out.items) }
{
    let Some((last, others)) = addresses.split_last() else {
        return Ok(Vec::new(alloc));
    };
    let mut out = copies(alloc, others, &p)?;
    push(&mut out, *last, p)?;
    Ok(out)
}

fn put_alike<B: Bank>(
    alloc: Global,
    bank: &mut B,
    before: &BankPred,
    addresses: &[u64],
    p: &Pred,
) -> Result<Vec<(u64, BankPred)>, NoMemory>
    ensures grows { Grows (B.terms bank.old) (B.terms bank.new) }
    ensures within { IfOk result (λ out. All (IsCaseBelow (length (B.terms bank.new))) out.items) }
    ensures value { IfOk result (λ out. map (case_at (B.terms bank.new)) out.items ≡ map (λ a. case a p.now) addresses.now) }
    ensures formed { IfOk result (λ out. All (IsCasePred (B.terms bank.new)) out.items) }
{
    let numbered = renumber(alloc, bank, before, p)?;
    let out = at_each(alloc, addresses, numbered)?;
    Ok(out)
}

// ---- every instruction

#[tactic(auto, using(crate::proofs::CaseLemmas::pairs_value, crate::proofs::CaseLemmas::pairs_formed))]
fn put_led<B: Bank>(
    alloc: Global,
    bank: &mut B,
    before: &BankPred,
    led: &Led,
    p: &Pred,
) -> Result<Vec<(u64, BankPred)>, NoMemory>
    ensures grows { Grows (B.terms bank.old) (B.terms bank.new) }
    ensures within { IfOk result (λ out. All (IsCaseBelow (length (B.terms bank.new))) out.items) }
    ensures value { IfOk result (λ out. map (case_at (B.terms bank.new)) out.items ≡ led_cases p.now led.now) }
    ensures formed { IfOk result (λ out. All (IsCasePred (B.terms bank.new)) out.items) }
{
    match led {
        Led::Apart(cases) => {
            let out = put_apart(alloc, bank, before, cases.as_slice())?;
            Ok(out)
        }
        Led::Alike(addresses) => {
            let out = put_alike(alloc, bank, before, addresses.as_slice(), p)?;
            Ok(out)
        }
    }
}

// What was found, where anything was.
fn put_found<B: Bank>(
    alloc: Global,
    bank: &mut B,
    before: &BankPred,
    led: Option<&Led>,
    p: &Pred,
) -> Result<Option<Vec<(u64, BankPred)>>, NoMemory>
    ensures grows { Grows (B.terms bank.old) (B.terms bank.new) }
    ensures within { IfOk result (λ r. IfSome r (λ out. All (IsCaseBelow (length (B.terms bank.new))) out.items)) }
    ensures value { IfOk result (λ r. option_map (λ out. map (case_at (B.terms bank.new)) out.items) r ≡ option_map (led_cases p.now) (option_copied led.entry)) }
    ensures formed { IfOk result (λ r. IfSome r (λ out. All (IsCasePred (B.terms bank.new)) out.items)) }
{
    match led {
        Some(led) => Ok(Some(put_led(alloc, bank, before, led, p)?)),
        None => Ok(None),
    }
}

/// Where an instruction leads, and what is known there: terms that were known before keep their numbers, and the others are
/// put into the bank. `None` exactly where it is an indirect jump of which isn't known where it leads. A return and a stop
/// have no case.
pub fn cases<B: Bank>(
    alloc: Global,
    bank: &mut B,
    v: &SiteView,
    i: &Instr,
    p: &BankPred,
) -> Result<Option<Vec<(u64, BankPred)>>, NoMemory>
    requires within { IsBelow (length (B.terms bank.old)) p.now }
    requires formed { IsPred (predicate_at (B.terms bank.old) p.now) }
    ensures value { IfOk result (λ r. option_map (λ out. map (case_at (B.terms bank.new)) out.items) r ≡ cases (view_of v.now) i.now (predicate_at (B.terms bank.old) p.now)) }
    ensures within { IfOk result (λ r. IfSome r (λ out. All (IsCaseBelow (length (B.terms bank.new))) out.items)) }
    ensures formed { IfOk result (λ r. IfSome r (λ out. All (IsCasePred (B.terms bank.new)) out.items)) }
    ensures grows { Grows (B.terms bank.old) (B.terms bank.new) }
{
    let mut known = from_bank(alloc, bank, p)?;
    let led = led_of(&mut known, alloc, v, i)?;
    put_found(alloc, bank, p, led.as_ref(), &known)
}

/// What is known of a site beside its cases; the bank stays as it is.
pub fn site_facts<B: Bank>(
    alloc: Global,
    bank: &mut B,
    v: &SiteView,
    i: &Instr,
    p: &BankPred,
) -> Result<Facts, NoMemory>
    requires within { IsBelow (length (B.terms bank.old)) p.now }
    requires formed { IsPred (predicate_at (B.terms bank.old) p.now) }
    ensures store { IfOk result (λ f. f.store ≡ store_region i.now (predicate_at (B.terms bank.old) p.now)) }
    ensures target { IfOk result (λ f. f.target ≡ call_target (view_of v.now) i.now (predicate_at (B.terms bank.old) p.now)) }
    ensures returns { IfOk result (λ f. IsTrue f.returns ↔ Returns (predicate_at (B.terms bank.old) p.now)) }
    ensures unchanged { B.terms bank.new ≡ B.terms bank.old }
{
    let mut known = from_bank(alloc, bank, p)?;
    facts_of(&mut known, alloc, v, i)
}
