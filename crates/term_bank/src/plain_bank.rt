ghost use Rattle.std.specs.Prelude.{◌≡◌, [], position, IfOk, OnOk, OnErr};
ghost use Rattle.sym_terms.specs.Equality.{equals};
ghost use Rattle.term_bank.specs.Terms.{AreApart, place_of, with_term};

use crate::bank::Bank;
use sqlite_items::Items;
use std::alloc::Global;
use sym_terms::{NoMemory, Term};

/// A bank that is searched from its first term on.
#[derive(Drop)]
pub struct PlainBank {
    terms: Items<Term>,
    pub ghost apart: { AreApart terms },
}

impl PlainBank {
    /// The bank without a term; takes no memory.
    pub fn new(alloc: Global) -> PlainBank
        ensures { result.terms ≡ [] }
    {
        PlainBank {
            terms: Items::new(alloc),
        }
    }
}

impl Bank for PlainBank {
    ghost terms = { λ b. b.terms };

    ghost apart = { λ b. b.apart };

    fn put(&mut self, t: Term) -> Result<u64, NoMemory> {
        let place = insert(&mut self.terms, t)?;
        Ok(place)
    }

    fn get(&self, n: u64) -> &Term {
        &self.terms.as_slice()[n as usize]
    }

    fn len(&self) -> u64 {
        self.terms.len() as u64
    }
}

// The place of a term, which is added last where it doesn't stand there.
fn insert(terms: &mut Items<Term>, t: Term) -> Result<u64, NoMemory>
    ensures place { IfOk result (λ n. n ≡ place_of terms.old t) }
    ensures ok { OnOk result (terms.new ≡ with_term terms.old t) }
    ensures err { OnErr result (terms.new ≡ terms.old) }
{
    if let Some(place) = place_among(terms, &t) {
        return Ok(place as u64);
    }
    let place = terms.len();
    terms.push(t)?;
    Ok(place as u64)
}

// The first place of a term.
fn place_among(terms: &Items<Term>, t: &Term) -> Option<usize>
    ensures { result ≡ position (equals t.now) terms.now }
{
    terms
        .as_slice()
        .iter()
        .position(|term| t.compare(term).is_eq())
}
