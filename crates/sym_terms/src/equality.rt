ghost use Rattle.std.specs.Prelude.{◌≡◌};
ghost use Rattle.std.specs.Cmp.{partial_equiv_from_equiv};
ghost use Rattle.std.specs.Hash as fed;
ghost use Rattle.sym_terms.specs.View.{plain, pieces};
ghost use Rattle.sym_terms.specs.Order.{sym_rank, sym_number};
ghost use Rattle.sym_terms.specs.Digest.{mixed, digest, digest_after, digest_of_atom};
ghost use Rattle.sym_terms.specs.Equality.{equals, equals_equiv, equals_alike};

use crate::kinds::Sym;
use crate::sum::{Atom, Sum};
use crate::term::Term;
use std::hash::{Hash, Hasher};

impl PartialEq for Term {
    ghost eq = { equals };

    ghost laws = { partial_equiv_from_equiv equals_equiv };

    fn eq(&self, other: &Term) -> bool {
        self.compare(other).is_eq()
    }
}

impl Eq for Term {
    ghost laws = { equals_equiv };
}

impl Hash for Term {
    ghost hash_input = { λ t. fed.u64 (digest t) };

    ghost respects_eq = { equals_alike };

    fn hash<H: Hasher>(&self, state: &mut H) {
        state.write_u64(digest(self.as_sum()));
    }
}

/// One more number after those that were mixed; the factor is odd and has bits all over.
fn mixed(before: u64, number: u64) -> u64
    ensures { result ≡ mixed before number }
{
    before
        .wrapping_add(number)
        .wrapping_mul(0x9E37_79B9_7F4A_7C15)
}

#[cycle(digest)]
fn digest(sum: &Sum) -> u64
    ensures { result ≡ digest sum.now }
{
    digest_after(sum.constant, sum.atoms.as_slice())
}

#[cycle(digest)]
fn digest_after(before: u64, atoms: &[(Atom, u64)]) -> u64
    ensures { result ≡ digest_after before (pieces atoms.now) }
{
    let mut number = before;
    for (atom, coefficient) in atoms {
        let of_atom = digest_of_atom(atom);
        number = mixed(mixed(number, of_atom), *coefficient);
    }
    number
}

#[cycle(digest)]
fn digest_of_atom(atom: &Atom) -> u64
    ensures { result ≡ digest_of_atom (plain atom.now) }
{
    match atom {
        Atom::Sym(symbol) => digest_of_symbol(*symbol),
        Atom::Fit(kind, argument) => mixed(4 + u64::from(kind.rank()), digest(argument.get())),
        Atom::Pair(kind, left, right) => {
            let first = mixed(10 + u64::from(kind.rank()), digest(left.get()));
            mixed(first, digest(right.get()))
        }
    }
}

fn digest_of_symbol(symbol: Sym) -> u64
    ensures { result ≡ mixed (sym_rank symbol) (sym_number symbol) }
{
    mixed(u64::from(symbol.rank()), symbol.number())
}
