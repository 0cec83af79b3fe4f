ghost use Rattle.std.specs.Prelude.{◌≡◌, IfOk, IfSome, None, Some};
ghost use Rattle.std.specs.Option.{option_copied};
ghost use Rattle.sym_terms.specs.Normal.{IsTerm};
ghost use Rattle.mem_forest.specs.Mentioned.{value_mentions};

use std::alloc::Global;
use std::marker::Model;
use sym_terms::{NoMemory, Sym, Term};

/// Nothing, a term that stands elsewhere, or one that was made.
#[derive(Drop)]
pub enum HeldTerm<'p> {
    Unknown,
    Kept(&'p Term),
    Made(Term),
}

/// A term that may be unknown. Contracts see the term, wherever it stands.
#[derive(Drop)]
pub struct Slot<'p> {
    held: HeldTerm<'p>,
}

impl<'p> Model for Slot<'p> {
    ghost use Rattle.std.specs.Prelude.{Option};
    ghost use Rattle.std.specs.Coded.{coded_option};
    ghost use Rattle.sym_terms.specs.Plain.{PlainSum};
    ghost use Rattle.sym_terms.specs.Codes.{coded_sum};

    ghost Value = { Option PlainSum };

    ghost coded = { coded_option coded_sum };

    ghost use Rattle.step_values.specs.Held.{held_term};

    ghost view = { λ s. held_term s.held };
}

impl<'p> Slot<'p> {
    /// Nothing is known.
    pub fn unknown() -> Slot<'p>
        ensures { result ≡ None }
    {
        Slot {
            held: HeldTerm::Unknown,
        }
    }

    /// A term that stands elsewhere, or none.
    pub fn kept(term: Option<&'p Term>) -> Slot<'p>
        ensures { result ≡ option_copied term.entry }
    {
        match term {
            Some(term) => Slot {
                held: HeldTerm::Kept(term),
            },
            None => Slot {
                held: HeldTerm::Unknown,
            },
        }
    }

    /// A term that was made, or none.
    pub fn made(term: Option<Term>) -> Slot<'p>
        ensures { result ≡ term }
    {
        match term {
            Some(term) => Slot {
                held: HeldTerm::Made(term),
            },
            None => Slot {
                held: HeldTerm::Unknown,
            },
        }
    }

    /// The term, to be read.
    pub fn get(&self) -> Option<&Term>
        ensures { option_copied result ≡ self.now }
    {
        match &self.held {
            HeldTerm::Unknown => None,
            HeldTerm::Kept(term) => Some(*term),
            HeldTerm::Made(term) => Some(term),
        }
    }

    /// A known term is a term of the program; the call does nothing.
    pub fn is_term(&self)
        ensures { IfSome self.now IsTerm }
    {
        if let Some(term) = self.get() {
            term.as_sum();
        }
    }

    /// Whether a known term mentions a symbol.
    pub fn mentions(&self, s: Sym) -> bool
        ensures { result ≡ value_mentions s self.now }
    {
        match self.get() {
            Some(term) => term.mentions(s),
            None => false,
        }
    }

    /// The same term once more, copied only where it was made.
    pub fn share(&self, alloc: Global) -> Result<Slot<'p>, NoMemory>
        ensures { IfOk result (λ s. s ≡ self.now) }
    {
        match &self.held {
            HeldTerm::Unknown => Ok(Slot {
                held: HeldTerm::Unknown,
            }),
            HeldTerm::Kept(term) => Ok(Slot {
                held: HeldTerm::Kept(*term),
            }),
            HeldTerm::Made(term) => Ok(Slot {
                held: HeldTerm::Made(term.copy(alloc)?),
            }),
        }
    }

    /// The same term, copied.
    pub fn copy<'q>(&self, alloc: Global) -> Result<Slot<'q>, NoMemory>
        ensures { IfOk result (λ s. s ≡ self.now) }
    {
        match self.get() {
            Some(term) => Ok(Slot {
                held: HeldTerm::Made(term.copy(alloc)?),
            }),
            None => Ok(Slot {
                held: HeldTerm::Unknown,
            }),
        }
    }

    /// The term as its own, copied only where it stands elsewhere.
    pub fn into_term(self, alloc: Global) -> Result<Option<Term>, NoMemory>
        ensures { IfOk result (λ t. t ≡ self.entry) }
    {
        let Slot { held } = self;
        match held {
            HeldTerm::Unknown => Ok(None),
            HeldTerm::Kept(term) => Ok(Some(term.copy(alloc)?)),
            HeldTerm::Made(term) => Ok(Some(term)),
        }
    }
}
