// Operations on terms that may be unknown.
ghost use Rattle.std.specs.Prelude.{◌≡◌, IfOk, None, Some};
ghost use Rattle.std.specs.Option.{option_copied};
ghost use Rattle.sym_terms.specs.Normal.{times, pair, within_node_limit};
ghost use Rattle.step_rules.specs.Terms.{number, apply, zeros_term, sign_term, cut_term, sext_term, plus_number, minus_number};

use bits_core::Width;
use std::alloc::Global;
use sym_terms::{Fit, NoMemory, Pair, Term};

#[tactic(auto, using(crate::proofs::TermLemmas::within_itself))]
fn cut_known(alloc: Global, w: Width, term: &Term) -> Result<Option<Term>, NoMemory>
    ensures { IfOk result (λ t. t ≡ within_node_limit (zeros_term w term.now)) }
{
    match w {
        Width::W8 => term.fit(alloc, Fit::Zx8),
        Width::W16 => term.fit(alloc, Fit::Zx16),
        Width::W32 => term.fit(alloc, Fit::Zx32),
        Width::W64 => {
            term.as_sum();
            Ok(Some(term.copy(alloc)?))
        }
    }
}

/// The low bits of a term, extended by zeros.
pub fn cut(alloc: Global, w: Width, term: Option<&Term>) -> Result<Option<Term>, NoMemory>
    ensures { IfOk result (λ t. t ≡ cut_term w (option_copied term.entry)) }
{
    match term {
        Some(term) => cut_known(alloc, w, term),
        None => Ok(None),
    }
}

#[tactic(auto, using(crate::proofs::TermLemmas::within_itself))]
fn sext_known(alloc: Global, w: Width, term: &Term) -> Result<Option<Term>, NoMemory>
    ensures { IfOk result (λ t. t ≡ within_node_limit (sign_term w term.now)) }
{
    match w {
        Width::W8 => term.fit(alloc, Fit::Sx8),
        Width::W16 => term.fit(alloc, Fit::Sx16),
        Width::W32 => term.fit(alloc, Fit::Sx32),
        Width::W64 => {
            term.as_sum();
            Ok(Some(term.copy(alloc)?))
        }
    }
}

/// The low bits of a term, extended by their sign.
pub fn sext(alloc: Global, w: Width, term: Option<&Term>) -> Result<Option<Term>, NoMemory>
    ensures { IfOk result (λ t. t ≡ sext_term w (option_copied term.entry)) }
{
    match term {
        Some(term) => sext_known(alloc, w, term),
        None => Ok(None),
    }
}

/// The sum of a term and a number.
pub fn plus_number(alloc: Global, term: Option<&Term>, n: u64) -> Result<Option<Term>, NoMemory>
    ensures { IfOk result (λ t. t ≡ plus_number n (option_copied term.entry)) }
{
    let Some(term) = term else {
        return Ok(None);
    };
    term.add(alloc, &Term::constant(alloc, n))
}

/// A term less a number.
pub fn minus_number(alloc: Global, term: Option<&Term>, n: u64) -> Result<Option<Term>, NoMemory>
    ensures { IfOk result (λ t. t ≡ minus_number n (option_copied term.entry)) }
{
    let Some(term) = term else {
        return Ok(None);
    };
    term.sub(alloc, &Term::constant(alloc, n))
}

/// A multiple of a term.
pub(crate) fn times_number(
    alloc: Global,
    term: Option<&Term>,
    k: u64,
) -> Result<Option<Term>, NoMemory>
    ensures { IfOk result (λ t. t ≡ apply (times k) (option_copied term.entry)) }
{
    let Some(term) = term else {
        return Ok(None);
    };
    term.scale(alloc, k)
}

/// A term that is shifted by a number.
pub(crate) fn shifted_by(
    alloc: Global,
    term: Option<&Term>,
    kind: Pair,
    n: u64,
) -> Result<Option<Term>, NoMemory>
    ensures { IfOk result (λ t. t ≡ apply (λ a. pair kind a (number n)) (option_copied term.entry)) }
{
    let Some(term) = term else {
        return Ok(None);
    };
    term.pair(alloc, kind, &Term::constant(alloc, n))
}
