// What is known at vertices, read back.
ghost use Rattle.std.specs.Prelude.{◌≡◌, ◌++◌, ◌∷◌, [], map, IfOk, IfSome, OnOk};
ghost use Rattle.std.specs.Option.{option_map};
ghost use Rattle.std.specs.List.{All};
ghost use Rattle.bank_values.specs.ReadBack.{predicate_at};
ghost use Rattle.lift_rounds.specs.Known.{IsHeld, pred_at, reading};
ghost use Rattle.image_steps.specs.Meant.{known_among};
ghost use Rattle.image_steps.specs.Walks.{IsNumbered};

use bank_step::{BankPred, from_bank};
use lift_rounds::Made;
use no_memory::NoMemory;
use predicates::Pred;
use std::alloc::{AllocError, Global};
use term_bank::Bank;

// A predicate, where there is one.
fn read_known<B: Bank>(
    alloc: Global,
    bank: &B,
    known: &Option<BankPred>,
) -> Result<Option<Pred>, NoMemory>
    requires { IfSome known.now (IsNumbered (B.terms bank.now)) }
    ensures { IfOk result (λ p. p ≡ option_map (predicate_at (B.terms bank.now)) known.now) }
{
    match known {
        None => Ok(None),
        Some(pred) => Ok(Some(from_bank(alloc, bank, pred)?)),
    }
}

/// The predicate of a vertex, where it has one.
#[tactic(auto, using(lift_rounds::proofs::ReadingLemmas::pred_at_read, crate::proofs::KnownLemmas::pred_past))]
pub fn pred_at<B: Bank>(
    alloc: Global,
    bank: &B,
    made: &[Made<BankPred>],
    vertex: usize,
) -> Result<Option<Pred>, NoMemory>
    requires { All (λ m. IsHeld (IsNumbered (B.terms bank.now)) m) made.now }
    ensures { IfOk result (λ p. p ≡ pred_at (reading (predicate_at (B.terms bank.now)) made.now) vertex) }
{
    if made.len() <= vertex {
        return Ok(None);
    }
    let known = &made[vertex].pred;
    let pred = read_known(alloc, bank, known)?;
    Ok(pred)
}

// One more predicate, where there is one.
fn add_known(preds: &mut Vec<Pred>, known: Option<Pred>) -> Result<(), NoMemory>
    ensures { OnOk result (preds.new.items ≡ preds.old.items ++ known_among (known ∷ [])) }
{
    if let Some(pred) = known {
        preds.push(pred).map_err(AllocError::from)?;
    }
    Ok(())
}

/// The predicates of vertices, of those that have one.
#[tactic(auto, using(crate::proofs::KnownLemmas::known_next))]
pub fn preds_at<B: Bank>(
    alloc: Global,
    bank: &B,
    made: &[Made<BankPred>],
    site: &[usize],
) -> Result<Vec<Pred>, NoMemory>
    requires { All (λ m. IsHeld (IsNumbered (B.terms bank.now)) m) made.now }
    ensures { IfOk result (λ ps. ps.items ≡ known_among (map (pred_at (reading (predicate_at (B.terms bank.now)) made.now)) site.now)) }
{
    let mut preds = Vec::new(alloc);
    for vertex in site {
        let known = pred_at(alloc, bank, made, *vertex)?;
        add_known(&mut preds, known)?;
    }
    Ok(preds)
}
