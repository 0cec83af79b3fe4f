// Operations on terms that may be unknown. A term that stands elsewhere is not copied.
ghost use Rattle.std.specs.Prelude.{◌≡◌, IfOk};
ghost use Rattle.std.specs.Option.{option_copied};
ghost use Rattle.sym_terms.specs.Normal.{pair, plus, minus, times};
ghost use Rattle.step_rules.specs.Terms.{apply, apply_both, sext_term, plus_number, minus_number};
ghost use Rattle.step_rules.specs.Results.{whole_term};

use bits_core::{Alu, Width};
use std::alloc::Global;
use step_values::{Slot, fitted};
use sym_terms::{Fit, NoMemory, Pair, Term, copy_known};

/// A pair of two terms.
pub(crate) fn paired(
    alloc: Global,
    kind: Pair,
    left: Option<&Term>,
    right: Option<&Term>,
) -> Result<Option<Term>, NoMemory>
    ensures { IfOk result (λ t. t ≡ apply_both (pair kind) (option_copied left.entry) (option_copied right.entry)) }
{
    match (left, right) {
        (Some(left), Some(right)) => left.pair(alloc, kind, right),
        _ => Ok(None),
    }
}

/// A multiple of a term.
pub(crate) fn multiple(alloc: Global, k: u64, term: Option<&Term>) -> Result<Option<Term>, NoMemory>
    ensures { IfOk result (λ t. t ≡ apply (times k) (option_copied term.entry)) }
{
    match term {
        Some(term) => term.scale(alloc, k),
        None => Ok(None),
    }
}

/// The sum of a term and a number.
pub(crate) fn plus_number(
    alloc: Global,
    n: u64,
    term: Option<&Term>,
) -> Result<Option<Term>, NoMemory>
    ensures { IfOk result (λ t. t ≡ plus_number n (option_copied term.entry)) }
{
    match term {
        Some(term) => term.add(alloc, &Term::constant(alloc, n)),
        None => Ok(None),
    }
}

/// A term less a number.
pub(crate) fn minus_number(
    alloc: Global,
    n: u64,
    term: Option<&Term>,
) -> Result<Option<Term>, NoMemory>
    ensures { IfOk result (λ t. t ≡ minus_number n (option_copied term.entry)) }
{
    match term {
        Some(term) => term.sub(alloc, &Term::constant(alloc, n)),
        None => Ok(None),
    }
}

/// The sum of two terms.
fn sum(alloc: Global, left: Option<&Term>, right: Option<&Term>) -> Result<Option<Term>, NoMemory>
    ensures { IfOk result (λ t. t ≡ apply_both plus (option_copied left.entry) (option_copied right.entry)) }
{
    match (left, right) {
        (Some(left), Some(right)) => left.add(alloc, right),
        _ => Ok(None),
    }
}

/// The difference of two terms.
fn difference(
    alloc: Global,
    left: Option<&Term>,
    right: Option<&Term>,
) -> Result<Option<Term>, NoMemory>
    ensures { IfOk result (λ t. t ≡ apply_both minus (option_copied left.entry) (option_copied right.entry)) }
{
    match (left, right) {
        (Some(left), Some(right)) => left.sub(alloc, right),
        _ => Ok(None),
    }
}

// The low bits of a term, extended by their sign, as a term of its own.
#[tactic(auto, using(step_values::proofs::TermLemmas::whole_term_stays))]
fn signed_bits<'q>(alloc: Global, width: Width, term: Option<&Term>) -> Result<Slot<'q>, NoMemory>
    ensures { IfOk result (λ t. t ≡ sext_term width (option_copied term.entry)) }
{
    match width {
        Width::W8 => Ok(Slot::made(fitted(alloc, Fit::Sx8, term)?)),
        Width::W16 => Ok(Slot::made(fitted(alloc, Fit::Sx16, term)?)),
        Width::W32 => Ok(Slot::made(fitted(alloc, Fit::Sx32, term)?)),
        Width::W64 => {
            Slot::kept(term).is_term();
            Ok(Slot::made(copy_known(alloc, term)?))
        }
    }
}

/// The low bits of a term, extended by their sign; one of 64 bits stays as it is.
#[tactic(auto, using(step_values::proofs::TermLemmas::whole_term_stays))]
pub(crate) fn sext<'p>(alloc: Global, width: Width, term: Slot<'p>) -> Result<Slot<'p>, NoMemory>
    ensures { IfOk result (λ t. t ≡ sext_term width term.entry) }
{
    match width {
        Width::W8 | Width::W16 | Width::W32 => signed_bits(alloc, width, term.get()),
        Width::W64 => {
            term.is_term();
            Ok(term)
        }
    }
}

/// A sum, a difference, or a combination bit by bit, before it is cut; adc and sbb give nothing known.
#[tactic(auto, unfolding(step_rules::specs::Results::whole_term))]
pub(crate) fn whole(
    alloc: Global,
    alu: Alu,
    left: Option<&Term>,
    right: Option<&Term>,
) -> Result<Option<Term>, NoMemory>
    ensures { IfOk result (λ t. t ≡ whole_term alu (option_copied left.entry) (option_copied right.entry)) }
{
    match alu {
        Alu::Add => sum(alloc, left, right),
        Alu::Sub => difference(alloc, left, right),
        Alu::And => paired(alloc, Pair::And, left, right),
        Alu::Or => paired(alloc, Pair::Or, left, right),
        Alu::Xor => paired(alloc, Pair::Xor, left, right),
        Alu::Adc | Alu::Sbb => Ok(None),
    }
}
