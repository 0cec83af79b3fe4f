ghost use Rattle.std.specs.Prelude.{◌≡◌, [], IfOk, OnOk, OnErr};
ghost use Rattle.term_bank.specs.Terms.{AreApart, place_of, with_term};

use crate::bank::Bank;
use indexmap::IndexSet;
use std::alloc::Global;
use sym_terms::{NoMemory, Term};

/// A bank whose terms stand in an ordered set, so that a term is found by its hash.
#[derive(Drop)]
pub struct InternBank {
    terms: IndexSet<Term>,
    pub ghost apart: { AreApart terms.keys },
}

impl InternBank {
    /// The bank without a term; takes no memory.
    pub fn new(alloc: Global) -> InternBank
        ensures { result.terms.keys ≡ [] }
    {
        InternBank {
            terms: IndexSet::new(alloc),
        }
    }
}

impl Bank for InternBank {
    ghost terms = { λ b. b.terms.keys };

    ghost apart = { λ b. b.apart };

    fn put(&mut self, t: Term) -> Result<u64, NoMemory> {
        let place = insert(&mut self.terms, t)?;
        Ok(place)
    }

    fn get(&self, n: u64) -> &Term {
        &self.terms.as_slice()[n as usize]
    }

    fn len(&self) -> u64 {
        self.terms.len() as u64
    }
}

// The place of a term, which is added last where it doesn't stand there.
fn insert(terms: &mut IndexSet<Term>, t: Term) -> Result<u64, NoMemory>
    ensures place { IfOk result (λ n. n ≡ place_of terms.old.keys t) }
    ensures ok { OnOk result (terms.new.keys ≡ with_term terms.old.keys t) }
    ensures err { OnErr result (terms.new.keys ≡ terms.old.keys) }
{
    match terms.insert_full(t) {
        Ok((place, _)) => Ok(place as u64),
        Err(_) => Err(NoMemory),
    }
}
