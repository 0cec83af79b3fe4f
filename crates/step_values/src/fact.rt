ghost use Rattle.std.specs.Prelude.{◌≡◌, IfOk, None, Some};
ghost use Rattle.std.specs.Option.{option_copied};
ghost use Rattle.step_rules.specs.Drop.{fact_without};

use predicates::FlagFact;
use std::alloc::Global;
use std::marker::Model;
use sym_terms::{NoMemory, Sym};

/// No flag fact, one that stands elsewhere, or one that was made.
#[derive(Drop)]
pub enum HeldFact<'p> {
    Unknown,
    Kept(&'p FlagFact),
    Made(FlagFact),
}

/// A flag fact, or none. Contracts see the fact, wherever it stands.
#[derive(Drop)]
pub struct Fact<'p> {
    held: HeldFact<'p>,
}

impl<'p> Model for Fact<'p> {
    ghost use Rattle.std.specs.Prelude.{Option};
    ghost use Rattle.std.specs.Coded.{coded_option};
    ghost use Rattle.predicates.specs.declared.bound.FlagFact.{FlagFact};
    ghost use Rattle.predicates.specs.Codes.{coded_flag_fact};

    ghost Value = { Option FlagFact };

    ghost coded = { coded_option coded_flag_fact };

    ghost use Rattle.step_values.specs.Held.{held_fact};

    ghost view = { λ f. held_fact f.held };
}

impl<'p> Fact<'p> {
    /// Nothing is known of the flags.
    pub fn unknown() -> Fact<'p>
        ensures { result ≡ None }
    {
        Fact {
            held: HeldFact::Unknown,
        }
    }

    /// A fact that stands elsewhere, or none.
    pub fn kept(fact: Option<&'p FlagFact>) -> Fact<'p>
        ensures { result ≡ option_copied fact.entry }
    {
        match fact {
            Some(fact) => Fact {
                held: HeldFact::Kept(fact),
            },
            None => Fact {
                held: HeldFact::Unknown,
            },
        }
    }

    /// A fact that was made.
    pub fn made(fact: FlagFact) -> Fact<'p>
        ensures { result ≡ Some fact }
    {
        Fact {
            held: HeldFact::Made(fact),
        }
    }

    /// The fact, to be read.
    pub fn get(&self) -> Option<&FlagFact>
        ensures { option_copied result ≡ self.now }
    {
        match &self.held {
            HeldFact::Unknown => None,
            HeldFact::Kept(fact) => Some(*fact),
            HeldFact::Made(fact) => Some(fact),
        }
    }

    /// The fact goes where one of its terms mentions a symbol.
    pub fn forget(&mut self, s: Sym)
        ensures { self.new ≡ fact_without s self.old }
    {
        let is_mentioned = match self.get() {
            Some(fact) => fact.left.mentions(s) || fact.right.mentions(s),
            None => false,
        };
        if is_mentioned {
            self.held = HeldFact::Unknown;
        }
    }

    /// The fact as its own, copied only where it stands elsewhere.
    pub fn into_fact(self, alloc: Global) -> Result<Option<FlagFact>, NoMemory>
        ensures { IfOk result (λ f. f ≡ self.entry) }
    {
        let Fact { held } = self;
        match held {
            HeldFact::Unknown => Ok(None),
            HeldFact::Kept(fact) => Ok(Some(fact.copy(alloc)?)),
            HeldFact::Made(fact) => Ok(Some(fact)),
        }
    }
}
