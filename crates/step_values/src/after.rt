ghost use Rattle.std.specs.Prelude.{◌≡◌, ◌↔◌, IfOk, IfSome, IsSome, OnOk, IsTrue, length};
ghost use Rattle.std.specs.Option.{option_copied};
ghost use Rattle.bits_core.specs.Width.{bytes_of};
ghost use Rattle.memory_regions.specs.Relate.{relate};
ghost use Rattle.memory_regions.specs.Context.{known};
ghost use Rattle.mem_forest.specs.Plain.{none};
ghost use Rattle.mem_forest.specs.Search.{value_at};
ghost use Rattle.mem_forest.specs.Store.{store};
ghost use Rattle.mem_forest.specs.Load.{load};
ghost use Rattle.mem_forest.specs.Alias.{alias};
ghost use Rattle.mem_forest.specs.Clear.{clear_values};
ghost use Rattle.predicates.specs.Bounds.{are_bounds};
ghost use Rattle.step_rules.specs.Access.{register, with_register};
ghost use Rattle.step_rules.specs.Drop.{without};
ghost use Rattle.step_rules.specs.Names.{load_name};
ghost use Rattle.step_rules.specs.Steps.{with_flags};
ghost use Rattle.step_values.specs.Ordered.{are_ordered};
ghost use Rattle.step_values.specs.Parts.{with_forest, with_bounds};

use crate::bounds::Bounds;
use crate::dropping::forget_terms;
use crate::fact::Fact;
use crate::memory::Memory;
use crate::names::load_name;
use crate::slot::Slot;
use bits_core::Width;
use mem_forest::{Forest, Region};
use predicates::{Bound, FlagFact, Pred, SiteView};
use sqlite_items::Items;
use std::alloc::{AllocError, Global};
use std::marker::Model;
use sym_terms::{NoMemory, Sym, Term};
use x86_instr::Instr;

/// What is known after a part of a step; what the step didn't change is borrowed. Contracts see the predicate.
#[derive(Drop)]
pub struct After<'p> {
    regs: Vec<Slot<'p>>,
    flags: Fact<'p>,
    bounds: Bounds<'p>,
    memory: Memory<'p>,
}

impl<'p> Model for After<'p> {
    ghost use Rattle.std.specs.Prelude.{◌≡◌, length};
    ghost use Rattle.predicates.specs.Predicate.{Predicate};
    ghost use Rattle.predicates.specs.Codes.{coded_predicate};

    ghost Value = { Predicate };

    ghost coded = { coded_predicate };

    ghost view = { λ a. record { regs = a.regs.items; flags = a.flags; bounds = a.bounds; forest = a.memory } };

    ghost invariant = { λ a. length a.regs.items ≡ 16 };
}

fn kept_registers<'p>(alloc: Global, regs: &'p [Option<Term>]) -> Result<Vec<Slot<'p>>, NoMemory>
    ensures { IfOk result (λ out. out.items ≡ regs.now) }
{
    let mut out = Vec::with_capacity(alloc, regs.len())?;
    for register in regs {
        out.push(Slot::kept(register.as_ref()))
            .map_err(AllocError::from)?;
    }
    Ok(out)
}

#[tactic(auto, using(crate::proofs::BoundLemmas::bounds_ordered))]
fn kept_bounds(bounds: &[Bound]) -> Bounds<'_>
    requires { IsTrue (are_bounds bounds.now) }
    ensures { result ≡ bounds.now }
{
    Bounds::kept(bounds)
}

impl<'p> After<'p> {
    /// What a predicate knows; nothing of it is copied.
    pub fn kept(alloc: Global, p: &'p Pred) -> Result<After<'p>, NoMemory>
        ensures { IfOk result (λ a. a ≡ p.now) }
    {
        let regs = kept_registers(alloc, p.regs.as_slice())?;
        Ok(After {
            regs,
            flags: Fact::kept(p.flags.as_ref()),
            bounds: kept_bounds(p.bounds.as_slice()),
            memory: Memory::kept(&p.forest),
        })
    }

    /// The terms of the registers, to be read.
    pub(crate) fn registers(&self) -> &[Slot<'p>]
        ensures value { result.now ≡ self.now.regs }
        ensures sixteen { length self.now.regs ≡ 16 }
    {
        self.regs.as_slice()
    }

    /// What doesn't mention a symbol.
    pub fn forget(&mut self, alloc: Global, s: Sym) -> Result<(), NoMemory>
        ensures { OnOk result (self.new ≡ without s self.old) }
    {
        forget_terms(&mut self.regs, s);
        self.flags.forget(s);
        self.bounds.forget(alloc, s)?;
        self.memory.forget(alloc, s)
    }

    /// The term of a register, to be read.
    #[tactic(auto, unfolding(predicate_meaning::specs::Sat::register), using(std::proofs::lemmas::List::get_or_past))]
    pub fn peek(&self, r: u8) -> Option<&Term>
        ensures { option_copied result ≡ register self.now r }
    {
        let at = usize::from(r);
        if at < self.regs.len() {
            let slot = &self.regs[at];
            slot.get()
        } else {
            None
        }
    }

    /// The term of a register, copied only where it was made.
    #[tactic(auto, unfolding(predicate_meaning::specs::Sat::register), using(std::proofs::lemmas::List::get_or_past))]
    pub fn register(&self, alloc: Global, r: u8) -> Result<Slot<'p>, NoMemory>
        ensures { IfOk result (λ t. t ≡ register self.now r) }
    {
        let at = usize::from(r);
        if at < self.regs.len() {
            let slot = &self.regs[at];
            slot.share(alloc)
        } else {
            Ok(Slot::unknown())
        }
    }

    /// Another term for a register.
    #[tactic(auto, unfolding(step_rules::specs::Access::with_register))]
    pub fn set_register(&mut self, r: u8, term: Slot<'p>)
        ensures { self.new ≡ with_register self.old r term.entry }
    {
        let at = usize::from(r);
        if at < self.regs.len() {
            self.regs[at] = term;
        }
    }

    /// The flag fact, to be read.
    pub fn fact(&self) -> Option<&FlagFact>
        ensures { option_copied result ≡ self.now.flags }
    {
        self.flags.get()
    }

    /// Another flag fact, or none.
    #[tactic(auto, unfolding(step_rules::specs::Steps::with_flags))]
    pub fn set_fact(&mut self, fact: Fact<'p>)
        ensures { self.new ≡ with_flags self.old fact.entry }
    {
        self.flags = fact;
    }

    /// The bounds, to be read.
    pub fn bounds(&self) -> &[Bound]
        ensures value { result.now ≡ self.now.bounds }
        ensures ordered { IsTrue (are_ordered self.now.bounds) }
    {
        self.bounds.as_slice()
    }

    /// Other bounds.
    pub fn set_bounds(&mut self, bounds: Items<Bound>)
        requires { IsTrue (are_ordered bounds) }
        ensures { self.new ≡ with_bounds self.old bounds }
    {
        self.bounds = Bounds::made(bounds);
    }

    /// What is known of memory, to be read.
    pub fn memory(&self) -> &Memory<'p>
        ensures { result.now ≡ self.now.forest }
    {
        &self.memory
    }

    /// Nothing is known of memory.
    pub fn empty_memory(&mut self, alloc: Global)
        ensures { self.new ≡ with_forest self.old none }
    {
        self.memory = Memory::empty(alloc);
    }

    /// After a store of a width to a region.
    #[tactic(auto, using(crate::proofs::MemoryLemmas::is_size_of))]
    pub fn put(
        &mut self,
        alloc: Global,
        v: &SiteView,
        w: Width,
        region: &Region,
        value: Option<&Term>,
    ) -> Result<(), NoMemory>
        requires { region.now.bytes ≡ bytes_of w }
        ensures { OnOk result (
            let rel = relate (known v.now.context) region.now.at region.now.bytes in
            self.new ≡ with_forest self.old (store rel region.now.at region.now.bytes (option_copied value.entry) self.old.forest)) }
    {
        self.memory.store(alloc, region, value, &v.context)
    }

    /// After a load of a width from a region, which may get the site's name as its value.
    #[tactic(auto, using(crate::proofs::MemoryLemmas::is_size_of, crate::proofs::MemoryLemmas::load_known, crate::proofs::MemoryLemmas::load_unnamed))]
    pub fn fill(
        &mut self,
        alloc: Global,
        v: &SiteView,
        i: &Instr,
        w: Width,
        region: &Region,
    ) -> Result<(), NoMemory>
        requires { region.now.bytes ≡ bytes_of w }
        ensures { OnOk result (
            let rel = relate (known v.now.context) region.now.at region.now.bytes in
            self.new ≡ with_forest self.old (load rel region.now.at region.now.bytes (load_name i.now w) self.old.forest)) }
    {
        if self.memory.has_value(region) {
            return Ok(());
        }
        match load_name(alloc, i, w)? {
            Some(name) => self.memory.load(alloc, region, Some(&name), &v.context),
            None => Ok(()),
        }
    }

    /// The first region's address becomes one more name of the second's cell, where it can.
    pub fn alias(&mut self, alloc: Global, region: &Region, other: &Region) -> Result<(), NoMemory>
        ensures { OnOk result (self.new ≡ with_forest self.old (alias region.now.at region.now.bytes other.now.at other.now.bytes self.old.forest)) }
    {
        self.memory.alias(alloc, region, other)
    }

    /// Only the values of cells at these regions stay.
    pub fn clear_values(&mut self, alloc: Global, keeps: &[Region]) -> Result<(), NoMemory>
        ensures { OnOk result (self.new ≡ with_forest self.old (clear_values keeps.now self.old.forest)) }
    {
        self.memory.clear_values(alloc, keeps)
    }

    /// The predicate as its own, copied where it stands elsewhere; `None` exactly where the bounds aren't those of a
    /// predicate.
    pub fn into_pred(self, alloc: Global) -> Result<Option<Pred>, NoMemory>
        ensures value { IfOk result (λ o. IfSome o (λ p. p ≡ self.entry)) }
        ensures exact { IfOk result (λ o. IsSome o ↔ IsTrue (are_bounds self.entry.bounds)) }
    {
        let After {
            regs,
            flags,
            bounds,
            memory,
        } = self;
        let (regs, flags) = own_terms(alloc, regs, flags)?;
        let (bounds, forest) = own_rest(alloc, bounds, memory)?;
        Ok(Pred::of_parts(regs, flags, bounds, forest))
    }
}

fn own_terms(
    alloc: Global,
    regs: Vec<Slot>,
    flags: Fact,
) -> Result<(Vec<Option<Term>>, Option<FlagFact>), NoMemory>
    ensures regs { IfOk result (λ out. out.0.items ≡ regs.entry.items) }
    ensures flags { IfOk result (λ out. out.1 ≡ flags.entry) }
{
    let regs = own_registers(alloc, regs)?;
    let flags = flags.into_fact(alloc)?;
    Ok((regs, flags))
}

fn own_rest(alloc: Global, bounds: Bounds, memory: Memory) -> Result<(Vec<Bound>, Forest), NoMemory>
    ensures bounds { IfOk result (λ out. out.0.items ≡ bounds.entry) }
    ensures memory { IfOk result (λ out. out.1 ≡ memory.entry) }
{
    let forest = memory.into_forest(alloc)?;
    let bounds = bounds.copy(alloc)?;
    Ok((bounds, forest))
}

fn own_registers(alloc: Global, regs: Vec<Slot>) -> Result<Vec<Option<Term>>, NoMemory>
    ensures { IfOk result (λ out. out.items ≡ regs.entry.items) }
{
    let mut out = Vec::with_capacity(alloc, regs.len())?;
    for register in regs {
        out.push(register.into_term(alloc)?)
            .map_err(AllocError::from)?;
    }
    Ok(out)
}
