ghost use Rattle.std.specs.Prelude.{◌≡◌, IfOk, OnOk, IsTrue, is_some, Some};
ghost use Rattle.std.specs.Option.{option_copied};
ghost use Rattle.memory_regions.specs.Relate.{relate};
ghost use Rattle.memory_regions.specs.Context.{known};
ghost use Rattle.mem_forest.specs.Plain.{none};
ghost use Rattle.mem_forest.specs.Shape.{is_size, IsForest};
ghost use Rattle.mem_forest.specs.Mentioned.{forest_mentions};
ghost use Rattle.step_values.specs.Held.{held_forest};
ghost use Rattle.mem_forest.specs.Search.{value_at};
ghost use Rattle.mem_forest.specs.Store.{store};
ghost use Rattle.mem_forest.specs.Load.{load};
ghost use Rattle.mem_forest.specs.Alias.{alias};
ghost use Rattle.mem_forest.specs.Clear.{clear_values};
ghost use Rattle.mem_forest.specs.Forget.{forget};

use crate::slot::Slot;
use mem_forest::{Context, Forest, Region};
use std::alloc::Global;
use std::marker::Model;
use std::mem;
use sym_terms::{NoMemory, Sym, Term};

/// A forest that stands elsewhere, or one that was made.
#[derive(Drop)]
pub enum HeldForest<'p> {
    Kept(&'p Forest),
    Made(Forest),
}

/// What is known of memory. Contracts see the forest, wherever it stands; it is copied once it changes.
#[derive(Drop)]
pub struct Memory<'p> {
    held: HeldForest<'p>,
}

impl<'p> Model for Memory<'p> {
    ghost use Rattle.mem_forest.specs.Plain.{PlainForest};
    ghost use Rattle.mem_forest.specs.Codes.{coded_cells};

    ghost Value = { PlainForest };

    ghost coded = { coded_cells };

    ghost use Rattle.step_values.specs.Held.{held_forest};

    ghost view = { λ m. held_forest m.held };
}

impl<'p> Memory<'p> {
    /// A forest that stands elsewhere.
    pub fn kept(forest: &'p Forest) -> Memory<'p>
        ensures { result ≡ forest.now }
    {
        Memory {
            held: HeldForest::Kept(forest),
        }
    }

    /// Nothing is known of memory.
    pub fn empty(alloc: Global) -> Memory<'p>
        ensures { result ≡ none }
    {
        Memory {
            held: HeldForest::Made(Forest::empty(alloc)),
        }
    }

    /// The forest, to be read.
    pub fn forest(&self) -> &Forest
        ensures { result.now ≡ self.now }
    {
        match &self.held {
            HeldForest::Kept(forest) => *forest,
            HeldForest::Made(forest) => forest,
        }
    }

    /// The value of the cell of a region; it is copied only where the forest was made.
    pub fn value(&self, alloc: Global, region: &Region) -> Result<Slot<'p>, NoMemory>
        ensures { IfOk result (λ t. t ≡ value_at region.now.at region.now.bytes self.now) }
    {
        match &self.held {
            HeldForest::Kept(forest) => Ok(Slot::kept(value_of(*forest, region))),
            HeldForest::Made(forest) => Slot::kept(value_of(forest, region)).copy(alloc),
        }
    }

    /// Whether the cell of a region has a value.
    pub fn has_value(&self, region: &Region) -> bool
        ensures { result ≡ is_some (value_at region.now.at region.now.bytes self.now) }
    {
        value_of(self.forest(), region).is_some()
    }

    // The forest as its own, which leaves nothing.
    fn take(&mut self, alloc: Global) -> Result<Forest, NoMemory>
        ensures { IfOk result (λ f. f ≡ self.old) }
    {
        let held = mem::replace(&mut self.held, HeldForest::Made(Forest::empty(alloc)));
        owned(alloc, held)
    }

    /// The forest as its own, copied only where it stands elsewhere.
    pub fn into_forest(self, alloc: Global) -> Result<Forest, NoMemory>
        ensures { IfOk result (λ f. f ≡ self.entry) }
    {
        let Memory { held } = self;
        owned(alloc, held)
    }

    /// After a store to a region.
    pub fn store(
        &mut self,
        alloc: Global,
        region: &Region,
        value: Option<&Term>,
        context: &Context,
    ) -> Result<(), NoMemory>
        requires { IsTrue (is_size region.now.bytes) }
        ensures { OnOk result (
            let rel = relate (known context.now) region.now.at region.now.bytes in
            self.new ≡ store rel region.now.at region.now.bytes (option_copied value.entry) self.old) }
    {
        let mut forest = self.take(alloc)?;
        forest.store(region, value, context)?;
        self.held = HeldForest::Made(forest);
        Ok(())
    }

    /// After a load from a region, which may get the name as its value.
    pub fn load(
        &mut self,
        alloc: Global,
        region: &Region,
        name: Option<&Term>,
        context: &Context,
    ) -> Result<(), NoMemory>
        requires { IsTrue (is_size region.now.bytes) }
        ensures { OnOk result (
            let rel = relate (known context.now) region.now.at region.now.bytes in
            self.new ≡ load rel region.now.at region.now.bytes (option_copied name.entry) self.old) }
    {
        let mut forest = self.take(alloc)?;
        forest.load(region, name, context)?;
        self.held = HeldForest::Made(forest);
        Ok(())
    }

    /// The address of a region becomes one more name of another's cell, where it can.
    pub fn alias(&mut self, alloc: Global, region: &Region, other: &Region) -> Result<(), NoMemory>
        ensures { OnOk result (self.new ≡ alias region.now.at region.now.bytes other.now.at other.now.bytes self.old) }
    {
        let mut forest = self.take(alloc)?;
        forest.alias(region, other)?;
        self.held = HeldForest::Made(forest);
        Ok(())
    }

    /// Only the values of cells at these regions stay.
    pub fn clear_values(&mut self, alloc: Global, keeps: &[Region]) -> Result<(), NoMemory>
        ensures { OnOk result (self.new ≡ clear_values keeps.now self.old) }
    {
        let mut forest = self.take(alloc)?;
        forest.clear_values(keeps);
        self.held = HeldForest::Made(forest);
        Ok(())
    }

    /// The names and values go that mention a symbol; nothing is copied where none does.
    #[tactic(auto, using(crate::proofs::MemoryLemmas::unmentioned_same))]
    pub fn forget(&mut self, alloc: Global, s: Sym) -> Result<(), NoMemory>
        ensures { OnOk result (self.new ≡ forget s self.old) }
    {
        if !is_mentioned(self.forest(), s) {
            return Ok(());
        }
        let mut forest = self.take(alloc)?;
        forest.forget(s);
        self.held = HeldForest::Made(forest);
        Ok(())
    }
}

fn owned(alloc: Global, held: HeldForest) -> Result<Forest, NoMemory>
    ensures { IfOk result (λ f. f ≡ held_forest held.entry) }
{
    match held {
        HeldForest::Kept(forest) => forest.copy(alloc),
        HeldForest::Made(forest) => Ok(forest),
    }
}

fn value_of<'a>(forest: &'a Forest, region: &Region) -> Option<&'a Term>
    ensures { option_copied result ≡ value_at region.now.at region.now.bytes forest.now }
{
    match forest.find(region) {
        Some(node) => node.value.as_ref(),
        None => None,
    }
}

fn is_mentioned(forest: &Forest, s: Sym) -> bool
    ensures value { result ≡ forest_mentions s forest.now }
    ensures forest { IsForest forest.now }
{
    let _nodes = forest.nodes();
    forest.mentions(s)
}
