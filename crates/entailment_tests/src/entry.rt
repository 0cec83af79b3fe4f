use crate::facts::{Unmade, follow_from, made, nothing};
use mem_forest::{Node, Region};
use predicates::{Conjunct, Pred, entry_pred};
use std::alloc::Global;
use sym_terms::{NoMemory, Sym, Term};

fn entry_copy(alloc: Global) -> Result<Pred, NoMemory> {
    let entry = entry_pred(alloc)?;
    entry.copy(alloc)
}

fn value_mentions(node: &Node, symbol: Sym) -> bool {
    match &node.value {
        Some(value) => value.mentions(symbol),
        None => false,
    }
}

/// Whether the eight bytes at the entry's stack pointer are known to have this symbol in them.
fn top_mentions(alloc: Global, pred: &Pred, symbol: Sym) -> Result<bool, NoMemory> {
    let at = Term::symbol(alloc, Sym::Entry(4))?;
    match pred.forest.find(&Region { at, bytes: 8 }) {
        Some(node) => Ok(value_mentions(node, symbol)),
        None => Ok(false),
    }
}

/// The number of the entry's conjuncts, and whether the top of its stack has the return address.
fn looked_at(alloc: Global) -> Result<(u64, bool), NoMemory> {
    let entry = entry_copy(alloc)?;
    Ok((entry.weight(), top_mentions(alloc, &entry, Sym::Ra)?))
}

#[test]
fn at_the_entry_the_stack_holds_the_return_address(rt: HostRuntime) {
    assert_eq!(rt; looked_at(rt.alloc()), Ok((17, true)));
}

/// Whether the entry entails itself, and what says nothing.
fn entails_both(alloc: Global) -> Result<(bool, bool), Unmade> {
    let entry = entry_pred(alloc)?;
    let is_less = follow_from(alloc, &entry, &nothing())?;
    Ok((entry.entails(&entry), is_less))
}

fn missing_of_entry(alloc: Global, held: &Pred) -> Result<Option<Conjunct>, NoMemory> {
    let entry = entry_pred(alloc)?;
    Ok(held.first_missing(&entry))
}

/// The first conjunct of the entry where nothing is known.
fn missing_from_nothing(alloc: Global) -> Result<Option<Conjunct>, Unmade> {
    let nothing = made(alloc, &nothing())?;
    Ok(missing_of_entry(alloc, &nothing)?)
}

#[test]
fn the_entry_entails_itself_and_what_says_nothing(rt: HostRuntime) {
    assert_eq!(rt; entails_both(rt.alloc()), Ok((true, true)));
    let missing = missing_from_nothing(rt.alloc());
    assert_eq!(rt; missing, Ok(Some(Conjunct::Register(0))));
}
