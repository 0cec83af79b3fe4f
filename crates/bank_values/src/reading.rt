ghost use Rattle.std.specs.Prelude.{◌≡◌, IfOk, map, length};
ghost use Rattle.std.specs.Option.{option_map};
ghost use Rattle.mem_forest.specs.Plain.{cells};
ghost use Rattle.bank_values.specs.Numbered.{level};
ghost use Rattle.bank_values.specs.ReadBack.{known_at, fact_at, bound_at, node_at, forest_at, predicate_at, IsPred};
ghost use Rattle.term_bank.specs.Terms.{term_at};

use crate::list::push;
use crate::node::BankNode;
use crate::pred::BankPred;
use bits_core::Width;
use mem_forest::{Forest, Node};
use predicates::{Bound, FlagFact, Pred, Values};
use std::alloc::Global;
use sym_terms::{NoMemory, Term};
use term_bank::Bank;

/// The term of a number, copied; 0 where it is the number of none.
pub fn copy_at<B: Bank>(alloc: Global, bank: &B, n: u64) -> Result<Term, NoMemory>
    ensures { IfOk result (λ t. t ≡ term_at (B.terms bank.now) n) }
{
    if n < bank.len() {
        bank.get(n).copy(alloc)
    } else {
        Ok(Term::constant(alloc, 0))
    }
}

fn copy_known<B: Bank>(alloc: Global, bank: &B, n: Option<u64>) -> Result<Option<Term>, NoMemory>
    ensures { IfOk result (λ t. t ≡ known_at (B.terms bank.now) n) }
{
    match n {
        Some(n) => Ok(Some(copy_at(alloc, bank, n)?)),
        None => Ok(None),
    }
}

fn read_registers<B: Bank>(
    alloc: Global,
    bank: &B,
    regs: &[Option<u64>],
) -> Result<Vec<Option<Term>>, NoMemory>
    ensures { IfOk result (λ out. out.items ≡ map (known_at (B.terms bank.now)) regs.now) }
{
    let mut out = Vec::with_capacity(alloc, regs.len())?;
    for number in regs {
        push(&mut out, copy_known(alloc, bank, *number)?)?;
    }
    Ok(out)
}

fn read_fact<B: Bank>(
    alloc: Global,
    bank: &B,
    fact: Option<&(Width, u64, u64)>,
) -> Result<Option<FlagFact>, NoMemory>
    ensures { IfOk result (λ f. f ≡ option_map (λ f. fact_at (B.terms bank.now) f.now) fact.entry) }
{
    let Some((width, left, right)) = fact else {
        return Ok(None);
    };
    let left = copy_at(alloc, bank, *left)?;
    let right = copy_at(alloc, bank, *right)?;
    Ok(Some(FlagFact {
        width: *width,
        left,
        right,
    }))
}

fn read_bounds<B: Bank>(
    alloc: Global,
    bank: &B,
    bounds: &[(u64, Values)],
) -> Result<Vec<Bound>, NoMemory>
    ensures { IfOk result (λ out. out.items ≡ map (bound_at (B.terms bank.now)) bounds.now) }
{
    let mut out = Vec::with_capacity(alloc, bounds.len())?;
    for (key, set) in bounds {
        let key = copy_at(alloc, bank, *key)?;
        let set = set.copy(alloc)?;
        push(&mut out, Bound { key, set })?;
    }
    Ok(out)
}

fn read_names<B: Bank>(alloc: Global, bank: &B, names: &[u64]) -> Result<Vec<Term>, NoMemory>
    ensures { IfOk result (λ out. out.items ≡ map (term_at (B.terms bank.now)) names.now) }
{
    let mut out = Vec::with_capacity(alloc, names.len())?;
    for name in names {
        push(&mut out, copy_at(alloc, bank, *name)?)?;
    }
    Ok(out)
}

#[tactic(auto, using(crate::proofs::LevelLemmas::level_at))]
#[cycle(reading)]
fn read_node<B: Bank>(alloc: Global, bank: &B, node: &BankNode) -> Result<Node, NoMemory>
    ensures { IfOk result (λ n. n ≡ node_at (B.terms bank.now) node.now) }
{
    let names = read_names(alloc, bank, node.names.as_slice())?;
    let value = copy_known(alloc, bank, node.value)?;
    let under = read_nodes(alloc, bank, node.under.as_slice())?;
    Ok(Node {
        names,
        bytes: node.bytes,
        value,
        under,
    })
}

/// The nodes with their terms, copied.
#[cycle(reading)]
pub fn read_nodes<B: Bank>(
    alloc: Global,
    bank: &B,
    nodes: &[BankNode],
) -> Result<Vec<Node>, NoMemory>
    ensures { IfOk result (λ out. out.items ≡ map (node_at (B.terms bank.now)) nodes.now) }
{
    let mut out = Vec::with_capacity(alloc, nodes.len())?;
    for node in nodes {
        push(&mut out, read_node(alloc, bank, node)?)?;
    }
    Ok(out)
}

/// The predicate with its terms, copied.
#[tactic(auto, using(crate::proofs::LevelLemmas::level_at))]
pub fn from_bank<B: Bank>(alloc: Global, bank: &B, p: &BankPred) -> Result<Pred, NoMemory>
    requires formed { IsPred (predicate_at (B.terms bank.now) p.now) }
    ensures { IfOk result (λ q. q ≡ predicate_at (B.terms bank.now) p.now) }
{
    let regs = read_registers(alloc, bank, p.regs.as_slice())?;
    let flags = read_fact(alloc, bank, p.flags.as_ref())?;
    let bounds = read_bounds(alloc, bank, p.bounds.as_slice())?;
    let nodes = read_nodes(alloc, bank, p.nodes.as_slice())?;
    Ok(Pred::of_checked_parts(regs, flags, bounds, Forest::of_checked_nodes(nodes)))
}
