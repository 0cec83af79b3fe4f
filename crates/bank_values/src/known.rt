ghost use Rattle.std.specs.Prelude.{◌≡◌, ◌<◌, ◌↔◌, IfSome, IsTrue, length};
ghost use Rattle.term_bank.specs.Terms.{term_at};

use crate::list::push;
use crate::node::BankNode;
use crate::pred::BankPred;
use bits_core::Width;
use predicates::Values;
use std::alloc::Global;
use sym_terms::{NoMemory, Term};
use term_bank::Bank;

/// Numbers in an order, and the place of the one that is tried first.
#[derive(Drop)]
pub(crate) struct Known {
    numbers: Vec<u64>,
    next: usize,
}

impl Known {
    /// No number.
    pub(crate) fn none(alloc: Global) -> Known {
        Known {
            numbers: Vec::new(alloc),
            next: 0,
        }
    }

    /// The numbers of a predicate, in the order in which its terms are put.
    pub(crate) fn of(alloc: Global, p: &BankPred) -> Result<Known, NoMemory> {
        let mut numbers = Vec::new(alloc);
        push_all(&mut numbers, p)?;
        Ok(Known { numbers, next: 0 })
    }

    /// The number of a term, where it is among them; the one after the last that was found is tried first.
    pub(crate) fn number_of<B: Bank>(&mut self, bank: &B, term: &Term) -> Option<u64>
        ensures within { IfSome result (λ n. n < length (B.terms bank.now)) }
        ensures value { IfSome result (λ n. term_at (B.terms bank.now) n ≡ term.now) }
    {
        let (place, n) = find_from(bank, self.numbers.as_slice(), self.next, term)?;
        self.next = place.wrapping_add(1);
        Some(n)
    }
}

#[tactic(auto, using(crate::proofs::FoundLemmas::same_exactly))]
fn is_number_of<B: Bank>(bank: &B, n: u64, term: &Term) -> bool
    ensures { IsTrue result ↔ (n < length (B.terms bank.now)) × (term_at (B.terms bank.now) n ≡ term.now) }
{
    if bank.len() <= n {
        return false;
    }
    bank.get(n).compare(term).is_eq()
}

// The first place of a term's number among some, with that number.
fn find_between<B: Bank>(
    bank: &B,
    numbers: &[u64],
    first: usize,
    end: usize,
    term: &Term,
) -> Option<(usize, u64)>
    ensures within { IfSome result (λ found. found.1 < length (B.terms bank.now)) }
    ensures value { IfSome result (λ found. term_at (B.terms bank.now) found.1 ≡ term.now) }
{
    for place in first..end {
        let n = *numbers.get(place)?;
        if is_number_of(bank, n, term) {
            return Some((place, n));
        }
    }
    None
}

// The same from a place on, and then before it.
fn find_from<B: Bank>(bank: &B, numbers: &[u64], first: usize, term: &Term) -> Option<(usize, u64)>
    ensures within { IfSome result (λ found. found.1 < length (B.terms bank.now)) }
    ensures value { IfSome result (λ found. term_at (B.terms bank.now) found.1 ≡ term.now) }
{
    match find_between(bank, numbers, first, numbers.len(), term) {
        Some(found) => Some(found),
        None => find_between(bank, numbers, 0, first, term),
    }
}

// ---- the numbers of a predicate

fn push_known(numbers: &mut Vec<u64>, number: Option<u64>) -> Result<(), NoMemory> {
    match number {
        Some(n) => push(numbers, n),
        None => Ok(()),
    }
}

fn push_registers(numbers: &mut Vec<u64>, regs: &[Option<u64>]) -> Result<(), NoMemory> {
    for number in regs {
        push_known(numbers, *number)?;
    }
    Ok(())
}

fn push_fact(numbers: &mut Vec<u64>, fact: Option<(Width, u64, u64)>) -> Result<(), NoMemory> {
    let Some((_, left, right)) = fact else {
        return Ok(());
    };
    push(numbers, left)?;
    push(numbers, right)
}

fn push_keys(numbers: &mut Vec<u64>, bounds: &[(u64, Values)]) -> Result<(), NoMemory> {
    for (key, _) in bounds {
        push(numbers, *key)?;
    }
    Ok(())
}

fn push_names(numbers: &mut Vec<u64>, names: &[u64]) -> Result<(), NoMemory> {
    for name in names {
        push(numbers, *name)?;
    }
    Ok(())
}

fn push_nodes(numbers: &mut Vec<u64>, nodes: &[BankNode]) -> Result<(), NoMemory> {
    for node in nodes {
        push_names(numbers, node.names.as_slice())?;
        push_known(numbers, node.value)?;
        push_nodes(numbers, node.under.as_slice())?;
    }
    Ok(())
}

fn push_all(numbers: &mut Vec<u64>, p: &BankPred) -> Result<(), NoMemory> {
    push_registers(numbers, p.regs.as_slice())?;
    push_fact(numbers, p.flags)?;
    push_keys(numbers, p.bounds.as_slice())?;
    push_nodes(numbers, p.nodes.as_slice())
}
