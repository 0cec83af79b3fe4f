ghost use Rattle.std.specs.Prelude.{◌≡◌, ◌≤◌, ◌↔◌, [], length, IfOk, IfSome, IsSome, IsTrue};
ghost use Rattle.std.specs.Option.{option_copied};
ghost use Rattle.predicates.specs.Limits.{registers};
ghost use Rattle.predicates.specs.Bounds.{are_bounds};
ghost use Rattle.predicates.specs.Registers.{known_among};
ghost use Rattle.predicates.specs.Entry.{entry_forest, entry_predicate};

use crate::bound::{Bound, FlagFact, ascend_by_key, copy_bounds, have_values};
use mem_forest::{Forest, Node};
use sqlite_items::Items;
use std::alloc::{AllocError, Global};
use std::marker::Model;
use sym_terms::{NoMemory, Sym, Term, copy_known};

/// The number of registers.
pub const REGISTERS: usize = 16;

/// The most bounds of a predicate.
pub const MOST_BOUNDS: usize = 16;

/// What is known of a state: the term of each of 16 registers, numbered as in machine code, where it is
/// known; the flags; bounds of terms, at most 16 with ascending keys, each with its values in form; and
/// memory.
#[derive(Drop)]
pub struct Pred {
    pub regs: Items<Option<Term>>,
    pub flags: Option<FlagFact>,
    pub bounds: Items<Bound>,
    pub forest: Forest,
}

impl Model for Pred {
    ghost use Rattle.predicates.specs.Predicate.{Predicate, IsPredicate};
    ghost use Rattle.predicates.specs.Codes.{coded_predicate};

    ghost Value = { Predicate };

    ghost coded = { coded_predicate };

    ghost view = { λ p. record { regs = p.regs; flags = p.flags; bounds = p.bounds; forest = p.forest } };

    ghost invariant = { λ p. IsPredicate (record { regs = p.regs; flags = p.flags; bounds = p.bounds; forest = p.forest }) };
}

impl Pred {
    ghost use Rattle.predicates.specs.Weight.{weight_of};

    /// The predicate with these parts, and `None` exactly where there aren't 16 registers, there are over
    /// 16 bounds, their keys don't ascend, a range has its low end over its high end, or a list is empty,
    /// doesn't ascend or has over 1,024 numbers. Takes no memory.
    pub fn of_parts(
        regs: Vec<Option<Term>>,
        flags: Option<FlagFact>,
        bounds: Vec<Bound>,
        forest: Forest,
    ) -> Option<Pred>
        ensures value { IfSome result (λ p. p ≡ record { regs = regs.items; flags = flags; bounds = bounds.items; forest = forest }) }
        ensures exact { IsSome result ↔ ((length regs.items ≡ registers) × IsTrue (are_bounds bounds.items)) }
    {
        if regs.len() != REGISTERS || !in_form(bounds.as_slice()) {
            return None;
        }
        Some(Pred::of_checked_parts(regs, flags, bounds, forest))
    }

    /// The predicate with these parts, of which the caller knows that they are in form. Takes no memory.
    pub fn of_checked_parts(
        regs: Vec<Option<Term>>,
        flags: Option<FlagFact>,
        bounds: Vec<Bound>,
        forest: Forest,
    ) -> Pred
        requires sixteen { length regs.items ≡ registers }
        requires formed { IsTrue (are_bounds bounds.items) }
        ensures { result ≡ record { regs = regs.items; flags = flags; bounds = bounds.items; forest = forest } }
    {
        Pred {
            regs: Items::from_vec(regs),
            flags,
            bounds: Items::from_vec(bounds),
            forest,
        }
    }

    /// The number of conjuncts: known registers, the flag fact, bounds, and nodes of the forest.
    pub fn weight(&self) -> u64
        ensures { result ≡ weight_of self.now }
    {
        let registers = count_known(self.regs.as_slice());
        let flags = u64::from(self.flags.is_some());
        registers + flags + self.bounds.len() as u64 + u64::from(self.forest.count())
    }

    /// An equal predicate.
    pub fn copy(&self, alloc: Global) -> Result<Pred, NoMemory>
        ensures { IfOk result (λ p. p ≡ self.now) }
    {
        let regs = copy_registers(alloc, self.regs.as_slice())?;
        let flags = copy_flags(alloc, self.flags.as_ref())?;
        let bounds = copy_bounds(alloc, self.bounds.as_slice())?;
        let forest = self.forest.copy(alloc)?;
        Ok(Pred {
            regs,
            flags,
            bounds,
            forest,
        })
    }
}

fn in_form(bounds: &[Bound]) -> bool
    ensures { result ≡ are_bounds bounds.now }
{
    bounds.len() <= MOST_BOUNDS && ascend_by_key(bounds) && have_values(bounds)
}

fn count_known(regs: &[Option<Term>]) -> u64
    ensures value { result ≡ known_among regs.now }
    ensures within { result ≤ length regs.now }
{
    let mut known = 0;
    for reg in regs {
        if reg.is_some() {
            known += 1;
        }
    }
    known
}

fn copy_registers(alloc: Global, regs: &[Option<Term>]) -> Result<Items<Option<Term>>, NoMemory>
    ensures { IfOk result (λ copies. copies ≡ regs.now) }
{
    let mut copies = Items::from_vec(Vec::with_capacity(alloc, regs.len())?);
    for register in regs {
        copies.push(copy_known(alloc, register.as_ref())?)?;
    }
    Ok(copies)
}

fn copy_flags(alloc: Global, flags: Option<&FlagFact>) -> Result<Option<FlagFact>, NoMemory>
    ensures { IfOk result (λ copied. copied ≡ option_copied flags.entry) }
{
    match flags {
        Some(fact) => Ok(Some(fact.copy(alloc)?)),
        None => Ok(None),
    }
}

/// What holds where a function begins: each register has its entry symbol, and the 8 bytes at the entry's
/// stack pointer hold the return address (System V x86-64 psABI, section 3.2.2); nothing else is known.
#[tactic(auto, using(crate::proofs::EntryLemmas::entry_step))]
pub fn entry_pred(alloc: Global) -> Result<Pred, NoMemory>
    ensures { IfOk result (λ p. p ≡ entry_predicate) }
{
    let mut regs = Items::from_vec(Vec::with_capacity(alloc, REGISTERS)?);
    for number in 0..16 {
        regs.push(Some(Term::symbol(alloc, Sym::Entry(number))?))?;
    }
    let forest = return_cell(alloc)?;
    Ok(Pred {
        regs,
        flags: None,
        bounds: Items::new(alloc),
        forest,
    })
}

/// The forest in which the 8 bytes at the entry's stack pointer hold the return address.
fn return_cell(alloc: Global) -> Result<Forest, NoMemory>
    ensures { IfOk result (λ f. f ≡ entry_forest) }
{
    let at = Term::symbol(alloc, Sym::Entry(4))?;
    let value = Term::symbol(alloc, Sym::Ra)?;
    let names = Vec::from_array(alloc, [at]).map_err(AllocError::from)?;
    let node = Node {
        names,
        bytes: 8,
        value: Some(value),
        under: Vec::new(alloc),
    };
    let nodes = Vec::from_array(alloc, [node]).map_err(AllocError::from)?;
    Ok(Forest::of_checked_nodes(nodes))
}
