ghost use Rattle.std.specs.Prelude.{◌≡◌, ◌<◌, ◌^◌, IfOk};
ghost use Rattle.std.specs.Option.{option_copied};
ghost use Rattle.sym_terms.specs.Plain.{sum, none, symbol, constant_alone, symbol_alone, single_atom, IsSymbol};
ghost use Rattle.sym_terms.specs.Nodes.{nodes};
ghost use Rattle.sym_terms.specs.Order.{sum_cmp};
ghost use Rattle.sym_terms.specs.Mentions.{mentions};
ghost use Rattle.sym_terms.specs.Normal.{plus, minus, times, fit, pair, within_node_limit, IsNormal, IsTerm};
ghost use Rattle.sym_terms.specs.Place.{place_of};

use crate::atoms::{atom_alone, fit_sum, pair_sums};
use crate::kinds::{Fit, Pair, Sym};
use crate::linear::add_scaled;
use crate::place::place_sum;
use crate::sum::{Atom, Sum, compare_pieces};
use no_memory::NoMemory;
use std::alloc::Global;
use std::cmp::Ordering;
use std::marker::Model;

/// The most nodes of a term: 1 for the term, and for each atom 1 and the nodes of its arguments.
pub const MOST_NODES: u32 = 32;

/// A symbolic term: a sum in normal form at every level, of at most 32 nodes. Contracts see it as plain
/// data, and two terms are equal exactly where their normal forms are.
#[derive(Drop)]
pub struct Term {
    sum: Sum,
}

impl Model for Term {
    ghost use Rattle.sym_terms.specs.Plain.{PlainSum};
    ghost use Rattle.sym_terms.specs.Codes.{coded_sum};

    ghost Value = { PlainSum };

    ghost coded = { coded_sum };

    ghost use Rattle.sym_terms.specs.Normal.{IsTerm};

    ghost view = { λ t. t.sum };

    ghost invariant = { λ t. IsTerm t.sum };
}

impl Term {
    /// The constant `c`; takes no memory.
    pub fn constant(alloc: Global, c: u64) -> Term
        ensures { result ≡ sum c none }
    {
        Term {
            sum: Sum::constant(c),
        }
    }

    /// The symbol `s`. The number of an entry register is below 16.
    pub fn symbol(alloc: Global, s: Sym) -> Result<Term, NoMemory>
        requires { IsSymbol s }
        ensures { IfOk result (λ t. t ≡ single_atom (symbol s)) }
    {
        Ok(Term {
            sum: atom_alone(Atom::Sym(s)),
        })
    }

    /// `self + other` modulo 2^64, and `None` exactly where that has over 32 nodes.
    pub fn add(&self, alloc: Global, other: &Term) -> Result<Option<Term>, NoMemory>
        ensures { IfOk result (λ t. t ≡ within_node_limit (plus self.now other.now)) }
    {
        let sum = add_scaled(alloc, &self.sum, 1, &other.sum)?;
        Ok(small(sum))
    }

    /// `self + c` modulo 2^64; takes no memory.
    pub fn add_constant(self, c: u64) -> Term
        ensures { result ≡ plus self (sum c none) }
    {
        let Term { sum } = self;
        Term {
            sum: sum.add_constant(c),
        }
    }

    /// `self - other` modulo 2^64, and `None` exactly where that has over 32 nodes.
    pub fn sub(&self, alloc: Global, other: &Term) -> Result<Option<Term>, NoMemory>
        ensures { IfOk result (λ t. t ≡ within_node_limit (minus self.now other.now)) }
    {
        let sum = add_scaled(alloc, &self.sum, u64::MAX, &other.sum)?;
        Ok(small(sum))
    }

    /// `k * self` modulo 2^64, and `None` exactly where that has over 32 nodes.
    pub fn scale(&self, alloc: Global, k: u64) -> Result<Option<Term>, NoMemory>
        ensures { IfOk result (λ t. t ≡ within_node_limit (times k self.now)) }
    {
        let sum = add_scaled(alloc, &Sum::constant(0), k, &self.sum)?;
        Ok(small(sum))
    }

    /// `self + k * index + disp`, and the FS base where `fs`, modulo 2^64, and `None` exactly where that has
    /// over 32 nodes: the parts of the sum have no limit of their own.
    pub fn place(
        &self,
        alloc: Global,
        k: u64,
        index: &Term,
        disp: u64,
        fs: bool,
    ) -> Result<Option<Term>, NoMemory>
        ensures { IfOk result (λ t. t ≡ within_node_limit (place_of self.now k index.now disp fs)) }
    {
        let sum = place_sum(alloc, &self.sum, k, &index.sum, disp, fs)?;
        Ok(small(sum))
    }

    /// The low bits of `self`, extended to 64 bits, and `None` exactly where that has over 32 nodes.
    pub fn fit(&self, alloc: Global, f: Fit) -> Result<Option<Term>, NoMemory>
        ensures { IfOk result (λ t. t ≡ within_node_limit (fit f self.now)) }
    {
        let sum = fit_sum(alloc, f, &self.sum)?;
        Ok(small(sum))
    }

    /// `self` and `other`, combined, and `None` exactly where that has over 32 nodes.
    pub fn pair(&self, alloc: Global, p: Pair, other: &Term) -> Result<Option<Term>, NoMemory>
        ensures { IfOk result (λ t. t ≡ within_node_limit (pair p self.now other.now)) }
    {
        let sum = pair_sums(alloc, p, &self.sum, &other.sum)?;
        Ok(small(sum))
    }

    /// An equal term.
    pub fn copy(&self, alloc: Global) -> Result<Term, NoMemory>
        ensures { IfOk result (λ t. t ≡ self.now) }
    {
        let sum = self.sum.copy(alloc)?;
        Ok(Term { sum })
    }

    /// `Some(d)` exactly where `self - other` is the constant `d`, modulo 2^64; takes no memory.
    pub fn offset_from(&self, other: &Term) -> Option<u64>
        ensures { result ≡ constant_alone (minus self.now other.now) }
    {
        let (left, right) = (&self.sum, &other.sum);
        if compare_pieces(left.atoms.as_slice(), right.atoms.as_slice()).is_eq() {
            Some(left.constant.wrapping_sub(right.constant))
        } else {
            None
        }
    }

    /// `Some(c)` exactly where the term is the constant `c`.
    pub fn as_constant(&self) -> Option<u64>
        ensures { result ≡ constant_alone self.now }
    {
        self.sum.as_constant()
    }

    /// `Some(s)` exactly where the term is the symbol `s` alone.
    pub fn as_symbol(&self) -> Option<Sym>
        ensures { result ≡ symbol_alone self.now }
    {
        self.sum.as_symbol()
    }

    /// Whether `s` stands in the term, at whatever depth.
    pub fn mentions(&self, s: Sym) -> bool
        ensures { result ≡ mentions s self.now }
    {
        self.sum.mentions(s)
    }

    /// The nodes of the term, 1 to 32.
    pub fn size(&self) -> u32
        ensures { result ≡ nodes self.now }
    {
        self.sum.size()
    }

    /// The order by constant, unsigned, then by the list of atoms and coefficients, a prefix first.
    pub fn compare(&self, other: &Term) -> Ordering
        ensures { result ≡ sum_cmp self.now other.now }
    {
        self.sum.compare(&other.sum)
    }

    /// The sum inside, to be read.
    pub fn as_sum(&self) -> &Sum
        ensures value { result.now ≡ self.now }
        ensures term { IsTerm self.now }
    {
        &self.sum
    }
}

/// An equal term where one is known.
pub fn copy_known(alloc: Global, known: Option<&Term>) -> Result<Option<Term>, NoMemory>
    ensures { IfOk result (λ copied. copied ≡ option_copied known.entry) }
{
    match known {
        Some(term) => Ok(Some(term.copy(alloc)?)),
        None => Ok(None),
    }
}

#[tactic(auto, unfolding(crate::specs::Normal::within_node_limit))]
fn small(sum: Sum) -> Option<Term>
    requires normal { IsNormal sum }
    requires counts { nodes sum < 2 ^ 32 }
    ensures { result ≡ within_node_limit sum }
{
    if sum.size() <= MOST_NODES {
        Some(Term { sum })
    } else {
        None
    }
}
