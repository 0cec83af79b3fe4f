ghost use Rattle.std.specs.Prelude.{◌≡◌, ◌<◌, length, IfOk, OnOk, OnErr};

use sym_terms::{NoMemory, Term};

/// A list of different terms, each known by its place, counted from 0.
pub trait Bank {
    ghost use Rattle.std.specs.Prelude.{List};
    ghost use Rattle.sym_terms.specs.Plain.{PlainSum};
    ghost use Rattle.term_bank.specs.Terms.{term_at, place_of, with_term, AreApart, Grows};

    // The terms in order.
    ghost terms: { Self → List PlainSum };

    /// The place of a term, which is added last where it doesn't stand there.
    fn put(&mut self, t: Term) -> Result<u64, NoMemory>
        ensures place { IfOk result (λ n. n ≡ place_of (terms self.old) t) }
        ensures ok { OnOk result (terms self.new ≡ with_term (terms self.old) t) }
        ensures err { OnErr result (terms self.new ≡ terms self.old) }

        // What follows: the number is that of the term, and earlier terms keep theirs.
        ensures within { IfOk result (λ n. n < length (terms self.new)) }
        ensures found { IfOk result (λ n. term_at (terms self.new) n ≡ t) }
        ensures grows { Grows (terms self.old) (terms self.new) };

    /// The term of a number.
    fn get(&self, n: u64) -> &Term
        requires { n < length (terms self.now) }
        ensures { result.now ≡ term_at (terms self.now) n };

    /// How many terms there are.
    fn len(&self) -> u64
        ensures { result ≡ length (terms self.now) };

    // Two numbers are equal exactly where their terms are.
    ghost apart: { (b : Self) → AreApart (terms b) };
}
