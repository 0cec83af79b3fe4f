// Operations on terms that may be unknown. A term that stands elsewhere is not copied.
ghost use Rattle.std.specs.Prelude.{◌≡◌, IfOk};
ghost use Rattle.std.specs.Option.{option_copied};
ghost use Rattle.sym_terms.specs.Normal.{fit, pair};
ghost use Rattle.step_rules.specs.Terms.{number, apply, cut_term};

use crate::slot::Slot;
use bits_core::Width;
use std::alloc::Global;
use sym_terms::{Fit, NoMemory, Pair, Term, copy_known};

/// A fit of a term.
pub fn fitted(alloc: Global, kind: Fit, term: Option<&Term>) -> Result<Option<Term>, NoMemory>
    ensures { IfOk result (λ t. t ≡ apply (fit kind) (option_copied term.entry)) }
{
    match term {
        Some(term) => term.fit(alloc, kind),
        None => Ok(None),
    }
}

/// A pair of a term and a number.
pub fn shifted(
    alloc: Global,
    kind: Pair,
    term: Option<&Term>,
    n: u64,
) -> Result<Option<Term>, NoMemory>
    ensures { IfOk result (λ t. t ≡ apply (λ a. pair kind a (number n)) (option_copied term.entry)) }
{
    match term {
        Some(term) => term.pair(alloc, kind, &Term::constant(alloc, n)),
        None => Ok(None),
    }
}

// The low bits of a term, extended by zeros, as a term of its own.
#[tactic(auto, using(crate::proofs::TermLemmas::whole_term_stays))]
fn low_bits<'q>(alloc: Global, width: Width, term: Option<&Term>) -> Result<Slot<'q>, NoMemory>
    ensures { IfOk result (λ t. t ≡ cut_term width (option_copied term.entry)) }
{
    match width {
        Width::W8 => Ok(Slot::made(fitted(alloc, Fit::Zx8, term)?)),
        Width::W16 => Ok(Slot::made(fitted(alloc, Fit::Zx16, term)?)),
        Width::W32 => Ok(Slot::made(fitted(alloc, Fit::Zx32, term)?)),
        Width::W64 => {
            Slot::kept(term).is_term();
            Ok(Slot::made(copy_known(alloc, term)?))
        }
    }
}

/// The low bits of a term, extended by zeros; one of 64 bits stays as it is.
#[tactic(auto, using(crate::proofs::TermLemmas::whole_term_stays))]
pub fn cut<'p>(alloc: Global, width: Width, term: Slot<'p>) -> Result<Slot<'p>, NoMemory>
    ensures { IfOk result (λ t. t ≡ cut_term width term.entry) }
{
    match width {
        Width::W8 | Width::W16 | Width::W32 => low_bits(alloc, width, term.get()),
        Width::W64 => {
            term.is_term();
            Ok(term)
        }
    }
}
