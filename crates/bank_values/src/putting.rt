ghost use Rattle.std.specs.Prelude.{◌≡◌, ◌<◌, IfOk, IfSome, All, map, length};
ghost use Rattle.std.specs.Option.{option_copied, option_map};
ghost use Rattle.term_bank.specs.Terms.{term_at, Grows};
ghost use Rattle.bank_values.specs.ReadBack.{known_at, fact_at, bound_at, node_at, predicate_at, IsPred, IsKnownBelow, IsNodeBelow, IsBelow};

use crate::known::Known;
use crate::list::push;
use crate::node::BankNode;
use crate::pred::BankPred;
use bits_core::Width;
use mem_forest::Node;
use predicates::{Bound, FlagFact, Pred, Values};
use std::alloc::Global;
use sym_terms::{NoMemory, Term};
use term_bank::Bank;

/// The predicate with numbers for its terms, of which each is put into the bank.
pub fn to_bank<B: Bank>(alloc: Global, bank: &mut B, p: &Pred) -> Result<BankPred, NoMemory>
    ensures grows { Grows (B.terms bank.old) (B.terms bank.new) }
    ensures within { IfOk result (λ q. IsBelow (length (B.terms bank.new)) q) }
    ensures value { IfOk result (λ q. predicate_at (B.terms bank.new) q ≡ p.now) }
    ensures formed { IfOk result (λ q. IsPred (predicate_at (B.terms bank.new) q)) }
{
    put_pred(alloc, bank, &mut Known::none(alloc), p)
}

/// The predicate with numbers for its terms. Of those, the terms of another predicate, as of the one before a step, keep
/// their numbers and aren't looked up; each of the others is put into the bank.
pub fn renumber<B: Bank>(
    alloc: Global,
    bank: &mut B,
    before: &BankPred,
    p: &Pred,
) -> Result<BankPred, NoMemory>
    ensures grows { Grows (B.terms bank.old) (B.terms bank.new) }
    ensures within { IfOk result (λ q. IsBelow (length (B.terms bank.new)) q) }
    ensures value { IfOk result (λ q. predicate_at (B.terms bank.new) q ≡ p.now) }
    ensures formed { IfOk result (λ q. IsPred (predicate_at (B.terms bank.new) q)) }
{
    let mut known = Known::of(alloc, before)?;
    put_pred(alloc, bank, &mut known, p)
}

fn put_pred<B: Bank>(
    alloc: Global,
    bank: &mut B,
    known: &mut Known,
    p: &Pred,
) -> Result<BankPred, NoMemory>
    ensures grows { Grows (B.terms bank.old) (B.terms bank.new) }
    ensures within { IfOk result (λ q. IsBelow (length (B.terms bank.new)) q) }
    ensures value { IfOk result (λ q. predicate_at (B.terms bank.new) q ≡ p.now) }
    ensures formed { IfOk result (λ q. IsPred (predicate_at (B.terms bank.new) q)) }
{
    let regs = put_registers(alloc, bank, known, p.regs.as_slice())?;
    let flags = put_fact(alloc, bank, known, p.flags.as_ref())?;
    let bounds = put_bounds(alloc, bank, known, p.bounds.as_slice())?;
    let nodes = put_nodes(alloc, bank, known, p.forest.nodes())?;
    Ok(BankPred {
        regs,
        flags,
        bounds,
        nodes,
    })
}

// The number of a term, which is put into the bank where it isn't known.
fn put_term<B: Bank>(
    alloc: Global,
    bank: &mut B,
    known: &mut Known,
    term: &Term,
) -> Result<u64, NoMemory>
    ensures grows { Grows (B.terms bank.old) (B.terms bank.new) }
    ensures within { IfOk result (λ n. n < length (B.terms bank.new)) }
    ensures value { IfOk result (λ n. term_at (B.terms bank.new) n ≡ term.now) }
{
    if let Some(n) = known.number_of(bank, term) {
        return Ok(n);
    }
    bank.put(term.copy(alloc)?)
}

fn put_held<B: Bank>(
    alloc: Global,
    bank: &mut B,
    known: &mut Known,
    term: Option<&Term>,
) -> Result<Option<u64>, NoMemory>
    ensures grows { Grows (B.terms bank.old) (B.terms bank.new) }
    ensures within { IfOk result (λ n. IsKnownBelow (length (B.terms bank.new)) n) }
    ensures value { IfOk result (λ n. known_at (B.terms bank.new) n ≡ option_copied term.entry) }
{
    match term {
        Some(term) => Ok(Some(put_term(alloc, bank, known, term)?)),
        None => Ok(None),
    }
}

#[tactic(auto, using(crate::proofs::GrowLemmas::grows_trans, crate::proofs::GrowLemmas::put_none))]
fn put_registers<B: Bank>(
    alloc: Global,
    bank: &mut B,
    known: &mut Known,
    regs: &[Option<Term>],
) -> Result<Vec<Option<u64>>, NoMemory>
    ensures grows { Grows (B.terms bank.old) (B.terms bank.new) }
    ensures within { IfOk result (λ out. All (IsKnownBelow (length (B.terms bank.new))) out.items) }
    ensures value { IfOk result (λ out. map (known_at (B.terms bank.new)) out.items ≡ regs.now) }
{
    let mut out = Vec::with_capacity(alloc, regs.len())?;
    for term in regs {
        push(&mut out, put_held(alloc, bank, known, term.as_ref())?)?;
    }
    Ok(out)
}

fn put_fact<B: Bank>(
    alloc: Global,
    bank: &mut B,
    known: &mut Known,
    fact: Option<&FlagFact>,
) -> Result<Option<(Width, u64, u64)>, NoMemory>
    ensures grows { Grows (B.terms bank.old) (B.terms bank.new) }
    ensures within { IfOk result (λ o. IfSome o (λ f. (f.1 < length (B.terms bank.new)) × (f.2 < length (B.terms bank.new)))) }
    ensures value { IfOk result (λ o. option_map (fact_at (B.terms bank.new)) o ≡ option_copied fact.entry) }
{
    let Some(fact) = fact else {
        return Ok(None);
    };
    let left = put_term(alloc, bank, known, &fact.left)?;
    let right = put_term(alloc, bank, known, &fact.right)?;
    Ok(Some((fact.width, left, right)))
}

fn put_bound<B: Bank>(
    alloc: Global,
    bank: &mut B,
    known: &mut Known,
    bound: &Bound,
) -> Result<(u64, Values), NoMemory>
    ensures grows { Grows (B.terms bank.old) (B.terms bank.new) }
    ensures within { IfOk result (λ b. b.0 < length (B.terms bank.new)) }
    ensures value { IfOk result (λ b. bound_at (B.terms bank.new) b ≡ bound.now) }
{
    let set = bound.set.copy(alloc)?;
    let key = put_term(alloc, bank, known, &bound.key)?;
    Ok((key, set))
}

#[tactic(auto, using(crate::proofs::GrowLemmas::grows_trans, crate::proofs::GrowLemmas::put_none))]
fn put_bounds<B: Bank>(
    alloc: Global,
    bank: &mut B,
    known: &mut Known,
    bounds: &[Bound],
) -> Result<Vec<(u64, Values)>, NoMemory>
    ensures grows { Grows (B.terms bank.old) (B.terms bank.new) }
    ensures within { IfOk result (λ out. All (λ b. b.0 < length (B.terms bank.new)) out.items) }
    ensures value { IfOk result (λ out. map (bound_at (B.terms bank.new)) out.items ≡ bounds.now) }
{
    let mut out = Vec::with_capacity(alloc, bounds.len())?;
    for bound in bounds {
        push(&mut out, put_bound(alloc, bank, known, bound)?)?;
    }
    Ok(out)
}

#[tactic(auto, using(crate::proofs::GrowLemmas::grows_trans, crate::proofs::GrowLemmas::put_none))]
fn put_names<B: Bank>(
    alloc: Global,
    bank: &mut B,
    known: &mut Known,
    names: &[Term],
) -> Result<Vec<u64>, NoMemory>
    ensures grows { Grows (B.terms bank.old) (B.terms bank.new) }
    ensures within { IfOk result (λ out. All (λ n. n < length (B.terms bank.new)) out.items) }
    ensures value { IfOk result (λ out. map (term_at (B.terms bank.new)) out.items ≡ names.now) }
{
    let mut out = Vec::with_capacity(alloc, names.len())?;
    for name in names {
        push(&mut out, put_term(alloc, bank, known, name)?)?;
    }
    Ok(out)
}

#[cycle(putting)]
fn put_node<B: Bank>(
    alloc: Global,
    bank: &mut B,
    known: &mut Known,
    node: &Node,
) -> Result<BankNode, NoMemory>
    ensures grows { Grows (B.terms bank.old) (B.terms bank.new) }
    ensures within { IfOk result (λ n. IsNodeBelow (length (B.terms bank.new)) n) }
    ensures value { IfOk result (λ n. node_at (B.terms bank.new) n ≡ node.now) }
{
    let names = put_names(alloc, bank, known, node.names.as_slice())?;
    let value = put_held(alloc, bank, known, node.value.as_ref())?;
    let under = put_nodes(alloc, bank, known, node.under.as_slice())?;
    Ok(BankNode {
        names,
        bytes: node.bytes,
        value,
        under,
    })
}

#[tactic(auto, using(crate::proofs::GrowLemmas::grows_trans, crate::proofs::GrowLemmas::put_none))]
#[cycle(putting)]
fn put_nodes<B: Bank>(
    alloc: Global,
    bank: &mut B,
    known: &mut Known,
    nodes: &[Node],
) -> Result<Vec<BankNode>, NoMemory>
    ensures grows { Grows (B.terms bank.old) (B.terms bank.new) }
    ensures within { IfOk result (λ out. All (IsNodeBelow (length (B.terms bank.new))) out.items) }
    ensures value { IfOk result (λ out. map (node_at (B.terms bank.new)) out.items ≡ nodes.now) }
{
    let mut out = Vec::with_capacity(alloc, nodes.len())?;
    for node in nodes {
        push(&mut out, put_node(alloc, bank, known, node)?)?;
    }
    Ok(out)
}
