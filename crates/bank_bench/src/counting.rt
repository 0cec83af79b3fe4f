use sym_terms::{NoMemory, Term};
use term_bank::Bank;

/// A bank that counts how often a term is put, modulo 2^64.
#[derive(Drop)]
pub struct Counting<B> {
    pub bank: B,
    pub puts: u64,
}

impl<B> Counting<B> {
    pub fn of(bank: B) -> Counting<B> {
        Counting { bank, puts: 0 }
    }
}

impl<B: Bank> Bank for Counting<B> {
    ghost terms = { λ c. B.terms c.bank };

    ghost apart = { λ c. B.apart c.bank };

    fn put(&mut self, t: Term) -> Result<u64, NoMemory> {
        self.puts = self.puts.wrapping_add(1);
        self.bank.put(t)
    }

    fn get(&self, n: u64) -> &Term {
        self.bank.get(n)
    }

    fn len(&self) -> u64 {
        self.bank.len()
    }
}
