ghost use Rattle.std.specs.Prelude.{◌≡◌, ◌++◌, IfOk, OnOk, IsTrue, filter, not};
ghost use Rattle.std.specs.List.{list_any};
ghost use Rattle.sym_terms.specs.Mentions.{mentions};
ghost use Rattle.step_values.specs.Ordered.{are_ordered};

use predicates::Bound;
use sqlite_items::Items;
use std::alloc::{AllocError, Global};
use std::marker::Model;
use sym_terms::{NoMemory, Sym};

/// Bounds that stand elsewhere, or that were made.
#[derive(Drop)]
pub enum HeldBounds<'p> {
    Kept(&'p [Bound]),
    Made(Items<Bound>),
}

/// Bounds, of which each range has its low end at most at its high end. Contracts see the bounds, wherever they stand.
#[derive(Drop)]
pub struct Bounds<'p> {
    held: HeldBounds<'p>,
}

impl<'p> Model for Bounds<'p> {
    ghost use Rattle.std.specs.Prelude.{List, IsTrue};
    ghost use Rattle.std.specs.Coded.{coded_list};
    ghost use Rattle.predicates.specs.declared.bound.Bound.{Bound};
    ghost use Rattle.predicates.specs.Codes.{coded_bound};

    ghost Value = { List Bound };

    ghost coded = { coded_list coded_bound };

    ghost use Rattle.step_values.specs.Held.{held_bounds};
    ghost use Rattle.step_values.specs.Ordered.{are_ordered};

    ghost view = { λ b. held_bounds b.held };

    ghost invariant = { λ b. IsTrue (are_ordered (held_bounds b.held)) };
}

impl<'p> Bounds<'p> {
    /// Bounds that stand elsewhere.
    pub fn kept(bounds: &'p [Bound]) -> Bounds<'p>
        requires { IsTrue (are_ordered bounds.now) }
        ensures { result ≡ bounds.now }
    {
        Bounds {
            held: HeldBounds::Kept(bounds),
        }
    }

    /// Bounds that were made.
    pub fn made(bounds: Items<Bound>) -> Bounds<'p>
        requires { IsTrue (are_ordered bounds) }
        ensures { result ≡ bounds }
    {
        Bounds {
            held: HeldBounds::Made(bounds),
        }
    }

    /// The bounds, to be read.
    pub fn as_slice(&self) -> &[Bound]
        ensures value { result.now ≡ self.now }
        ensures ordered { IsTrue (are_ordered self.now) }
    {
        match &self.held {
            HeldBounds::Kept(bounds) => *bounds,
            HeldBounds::Made(bounds) => bounds.as_slice(),
        }
    }

    /// The bounds go whose key mentions a symbol; none is copied where none goes.
    #[tactic(auto, using(crate::proofs::BoundLemmas::filter_same))]
    pub fn forget(&mut self, alloc: Global, s: Sym) -> Result<(), NoMemory>
        ensures { OnOk result (self.new ≡ filter (λ b. not (mentions s b.key)) self.old) }
    {
        if is_any_key(s, self.as_slice()) {
            let others = ordered_without(alloc, s, self.as_slice())?;
            *self = Bounds::made(others);
        }
        Ok(())
    }

    /// The bounds, copied.
    pub fn copy(&self, alloc: Global) -> Result<Vec<Bound>, NoMemory>
        ensures { IfOk result (λ bounds. bounds.items ≡ self.now) }
    {
        copies(alloc, self.as_slice())
    }
}

fn is_any_key(s: Sym, bounds: &[Bound]) -> bool
    ensures { result ≡ list_any (λ b. mentions s b.key) bounds.now }
{
    bounds.iter().any(|bound| bound.key.mentions(s))
}

#[tactic(auto, using(crate::proofs::BoundLemmas::filter_ordered))]
fn ordered_without(alloc: Global, s: Sym, bounds: &[Bound]) -> Result<Items<Bound>, NoMemory>
    requires { IsTrue (are_ordered bounds.now) }
    ensures value { IfOk result (λ out. out ≡ filter (λ b. not (mentions s b.key)) bounds.now) }
    ensures ordered { IfOk result (λ out. IsTrue (are_ordered out)) }
{
    without(alloc, s, bounds)
}

fn without(alloc: Global, s: Sym, bounds: &[Bound]) -> Result<Items<Bound>, NoMemory>
    ensures { IfOk result (λ out. out ≡ filter (λ b. not (mentions s b.key)) bounds.now) }
{
    let mut out = Items::new(alloc);
    for bound in bounds {
        if !bound.key.mentions(s) {
            out.push(bound.copy(alloc)?)?;
        }
    }
    Ok(out)
}

fn copies(alloc: Global, bounds: &[Bound]) -> Result<Vec<Bound>, NoMemory>
    ensures { IfOk result (λ out. out.items ≡ bounds.now) }
{
    let mut out = Vec::new(alloc);
    for bound in bounds {
        out.push(bound.copy(alloc)?).map_err(AllocError::from)?;
    }
    Ok(out)
}
