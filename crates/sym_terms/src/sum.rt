ghost use Rattle.std.specs.Prelude.{◌≡◌, ◌<◌, ◌^◌, [], ◌∷◌, ◌++◌, ◌↔◌, length, IsTrue, IfOk, OnOk};
ghost use Rattle.sym_terms.specs.Plain.{sum, none, constant_alone, symbol_alone, symbol_of};
ghost use Rattle.sym_terms.specs.View.{plain, pieces};
ghost use Rattle.sym_terms.specs.Nodes.{nodes, nodes_of_pieces, nodes_of_atom};
ghost use Rattle.sym_terms.specs.Order.{sum_cmp, pieces_cmp, atom_cmp};
ghost use Rattle.sym_terms.specs.Mentions.{mentions, mentions_in_pieces, mentions_in_atom};

use crate::kinds::{Fit, Pair, Sym};
use no_memory::NoMemory;
use sqlite_items::{Boxed, Items};
use std::alloc::Global;
use std::array::from_ref;
use std::cmp::Ordering;
use std::marker::Model;

/// What a coefficient of a sum multiplies.
#[cycle(terms)]
#[derive(Drop)]
pub enum Atom {
    Sym(Sym),
    Fit(Fit, Boxed<Sum>),
    Pair(Pair, Boxed<Sum>, Boxed<Sum>),
}

#[cycle(terms)]
#[derive(Drop)]
enum HeldPieces {
    Nothing,
    One((Atom, u64)),
    Several(Items<(Atom, u64)>),
}

/// Atoms with their coefficients. Up to one of them takes no memory of its own.
#[cycle(terms)]
#[derive(Drop)]
pub struct PieceList {
    held: HeldPieces,
}

impl Model for PieceList {
    ghost use Rattle.std.specs.Prelude.{List, ℕ};
    ghost use Rattle.sym_terms.specs.declared.sum.Atom.{Atom};
    ghost use Rattle.sym_terms.specs.PieceCodes.{coded_pieces};

    ghost Value = { List (Atom × ℕ) };

    ghost coded = { coded_pieces };

    ghost use Rattle.sym_terms.specs.Held.{listed};
    ghost use Rattle.sym_terms.specs.Nodes.{nodes_of_pieces};
    ghost use Rattle.sym_terms.specs.View.{pieces};

    ghost view = { λ p. listed p.held };

    ghost size = { λ xs. nodes_of_pieces (pieces xs) };

    ghost use Rattle.std.proofs.Common.{arith};
    ghost use Rattle.sym_terms.specs.Falls.{held_le-nodes};

    ghost size_decreases = { λ p h. omega (arith, held_le-nodes p.held) };
}

/// A constant and atoms with their coefficients, all modulo 2^64. A sum alone keeps no form: `Term` does.
#[cycle(terms)]
#[derive(Drop)]
pub struct Sum {
    pub constant: u64,
    pub atoms: PieceList,
}

impl Model for Sum {
    ghost use Rattle.sym_terms.specs.Plain.{PlainSum};
    ghost use Rattle.sym_terms.specs.Codes.{coded_sum};

    ghost Value = { PlainSum };

    ghost coded = { coded_sum };

    ghost use Rattle.sym_terms.specs.Plain.{sum};
    ghost use Rattle.sym_terms.specs.Nodes.{nodes};
    ghost use Rattle.sym_terms.specs.View.{pieces};

    ghost view = { λ s. sum s.constant (pieces s.atoms) };

    ghost size = { nodes };

    ghost use Rattle.std.proofs.Common.{arith};

    ghost size_decreases = { λ s h. omega arith };
}

impl PieceList {
    /// No pieces; takes no memory.
    pub(crate) fn new() -> PieceList
        ensures { result ≡ [] }
    {
        PieceList {
            held: HeldPieces::Nothing,
        }
    }

    /// One piece; takes no memory.
    pub(crate) fn one(atom: Atom, coefficient: u64) -> PieceList
        ensures { result ≡ (atom, coefficient) ∷ [] }
    {
        PieceList {
            held: HeldPieces::One((atom, coefficient)),
        }
    }

    fn several(pieces: Items<(Atom, u64)>) -> PieceList
        ensures { result ≡ pieces }
    {
        PieceList {
            held: HeldPieces::Several(pieces),
        }
    }

    /// The pieces, by ascending atoms where the sum is in normal form.
    pub fn as_slice(&self) -> &[(Atom, u64)]
        ensures { result.now ≡ self.now }
    {
        match &self.held {
            HeldPieces::Nothing => &[],
            HeldPieces::One(piece) => from_ref(piece),
            HeldPieces::Several(pieces) => pieces.as_slice(),
        }
    }

    /// The number of pieces.
    pub fn len(&self) -> usize
        ensures { result ≡ length self.now }
    {
        self.as_slice().len()
    }

    /// Whether there are no pieces.
    pub fn is_empty(&self) -> bool
        ensures { IsTrue result ↔ (self.now ≡ []) }
    {
        self.as_slice().is_empty()
    }

    /// Adds a piece at the end. The second one takes memory, at once for as many pieces as `room`.
    pub(crate) fn push(
        self,
        alloc: Global,
        room: usize,
        piece: (Atom, u64),
    ) -> Result<PieceList, NoMemory>
        ensures { IfOk result (λ all. all ≡ self ++ piece ∷ []) }
    {
        let PieceList { held } = self;
        match held {
            HeldPieces::Nothing => Ok(PieceList {
                held: HeldPieces::One(piece),
            }),
            HeldPieces::One(first) => {
                let mut pieces = with_room(alloc, room)?;
                pieces.push(first)?;
                pieces.push(piece)?;
                Ok(PieceList::several(pieces))
            }
            HeldPieces::Several(pieces) => {
                let mut pieces = pieces;
                pieces.push(piece)?;
                Ok(PieceList::several(pieces))
            }
        }
    }
}

impl Sum {
    pub(crate) fn constant(constant: u64) -> Sum
        ensures { result ≡ sum constant none }
    {
        Sum {
            constant,
            atoms: PieceList::new(),
        }
    }

    /// The constant, where there is no atom.
    pub fn as_constant(&self) -> Option<u64>
        ensures { result ≡ constant_alone self.now }
    {
        if self.atoms.is_empty() {
            Some(self.constant)
        } else {
            None
        }
    }

    /// The symbol, where the sum is that symbol alone: one atom, with coefficient 1 and constant 0.
    pub fn as_symbol(&self) -> Option<Sym>
        ensures { result ≡ symbol_alone self.now }
    {
        match self.atoms.as_slice() {
            [(atom, coefficient)] if self.constant == 0 && *coefficient == 1 => atom.as_symbol(),
            _ => None,
        }
    }

    #[cycle(size)]
    pub(crate) fn size(&self) -> u32
        requires { nodes self.now < 2 ^ 32 }
        ensures { result ≡ nodes self.now }
    {
        size_of_pieces(self.atoms.as_slice()) + 1
    }

    #[cycle(mentions)]
    pub(crate) fn mentions(&self, symbol: Sym) -> bool
        ensures { result ≡ mentions symbol self.now }
    {
        mentions_in_pieces(self.atoms.as_slice(), symbol)
    }

    /// The order by constant, then by atoms and coefficients, a prefix first.
    #[cycle(compare)]
    pub fn compare(&self, other: &Sum) -> Ordering
        ensures { result ≡ sum_cmp self.now other.now }
    {
        let order = self.constant.cmp(&other.constant);
        if order.is_ne() {
            return order;
        }
        compare_pieces(self.atoms.as_slice(), other.atoms.as_slice())
    }

    #[cycle(copy)]
    pub(crate) fn copy(&self, alloc: Global) -> Result<Sum, NoMemory>
        ensures { IfOk result (λ s. s ≡ self.now) }
    {
        let atoms = copy_pieces(alloc, self.atoms.as_slice())?;
        Ok(Sum {
            constant: self.constant,
            atoms,
        })
    }
}

impl Atom {
    fn as_symbol(&self) -> Option<Sym>
        ensures { result ≡ symbol_of (plain self.now) }
    {
        match self {
            Atom::Sym(symbol) => Some(*symbol),
            Atom::Fit(_, _) | Atom::Pair(_, _, _) => None,
        }
    }

    #[cycle(size)]
    fn size(&self) -> u32
        requires { nodes_of_atom (plain self.now) < 2 ^ 32 }
        ensures { result ≡ nodes_of_atom (plain self.now) }
    {
        match self {
            Atom::Sym(_) => 1,
            Atom::Fit(_, argument) => argument.get().size() + 1,
            Atom::Pair(_, left, right) => left.get().size() + right.get().size() + 1,
        }
    }

    #[cycle(mentions)]
    fn mentions(&self, symbol: Sym) -> bool
        ensures { result ≡ mentions_in_atom symbol (plain self.now) }
    {
        match self {
            Atom::Sym(this) => symbol.compare(*this).is_eq(),
            Atom::Fit(_, argument) => argument.get().mentions(symbol),
            Atom::Pair(_, left, right) => {
                left.get().mentions(symbol) || right.get().mentions(symbol)
            }
        }
    }

    /// Symbols, then fits by kind and argument, then pairs by kind and arguments.
    #[cycle(compare)]
    pub fn compare(&self, other: &Atom) -> Ordering
        ensures { result ≡ atom_cmp (plain self.now) (plain other.now) }
    {
        match (self, other) {
            (Atom::Sym(s), Atom::Sym(t)) => s.compare(*t),
            (Atom::Fit(f, a), Atom::Fit(g, c)) => {
                let order = f.rank().cmp(&g.rank());
                if order.is_ne() {
                    return order;
                }
                a.get().compare(c.get())
            }
            (Atom::Pair(p, a, b), Atom::Pair(q, c, d)) => {
                let order = p.rank().cmp(&q.rank());
                if order.is_ne() {
                    return order;
                }
                let order = a.get().compare(c.get());
                if order.is_ne() {
                    return order;
                }
                b.get().compare(d.get())
            }
            (Atom::Sym(_), _) | (Atom::Fit(_, _), Atom::Pair(_, _, _)) => Ordering::Less,
            _ => Ordering::Greater,
        }
    }

    #[cycle(copy)]
    pub(crate) fn copy(&self, alloc: Global) -> Result<Atom, NoMemory>
        ensures { IfOk result (λ a. a ≡ self.now) }
    {
        match self {
            Atom::Sym(symbol) => Ok(Atom::Sym(*symbol)),
            Atom::Fit(kind, argument) => {
                let argument = Boxed::new(alloc, argument.get().copy(alloc)?)?;
                Ok(Atom::Fit(*kind, argument))
            }
            Atom::Pair(kind, left, right) => {
                let left = Boxed::new(alloc, left.get().copy(alloc)?)?;
                let right = Boxed::new(alloc, right.get().copy(alloc)?)?;
                Ok(Atom::Pair(*kind, left, right))
            }
        }
    }
}

#[cycle(size)]
fn size_of_pieces(atoms: &[(Atom, u64)]) -> u32
    requires { nodes_of_pieces (pieces atoms.now) < 2 ^ 32 }
    ensures { result ≡ nodes_of_pieces (pieces atoms.now) }
{
    let mut total = 0;
    for (atom, _) in atoms {
        total += atom.size();
    }
    total
}

#[cycle(mentions)]
fn mentions_in_pieces(atoms: &[(Atom, u64)], symbol: Sym) -> bool
    ensures { result ≡ mentions_in_pieces symbol (pieces atoms.now) }
{
    for (atom, _) in atoms {
        if atom.mentions(symbol) {
            return true;
        }
    }
    false
}

/// The order by atoms and coefficients, a prefix first; it stops at the first that differ.
#[cycle(compare)]
pub(crate) fn compare_pieces(left: &[(Atom, u64)], right: &[(Atom, u64)]) -> Ordering
    ensures { result ≡ pieces_cmp (pieces left.now) (pieces right.now) }
{
    for ((a, k), (b, l)) in left.iter().zip(right) {
        let order = a.compare(b).then(k.cmp(l));
        if order.is_ne() {
            return order;
        }
    }
    left.len().cmp(&right.len())
}

#[cycle(copy)]
fn copy_pieces(alloc: Global, atoms: &[(Atom, u64)]) -> Result<PieceList, NoMemory>
    ensures { IfOk result (λ copies. copies ≡ atoms.now) }
{
    match atoms {
        [] => Ok(PieceList::new()),
        [(atom, coefficient)] => Ok(PieceList::one(atom.copy(alloc)?, *coefficient)),
        _ => Ok(PieceList::several(copy_items(alloc, atoms)?)),
    }
}

#[cycle(copy)]
fn copy_items(alloc: Global, atoms: &[(Atom, u64)]) -> Result<Items<(Atom, u64)>, NoMemory>
    ensures { IfOk result (λ copies. copies ≡ atoms.now) }
{
    let mut copies = with_room(alloc, atoms.len())?;
    for (atom, coefficient) in atoms {
        copies.push((atom.copy(alloc)?, *coefficient))?;
    }
    Ok(copies)
}

/// No pieces, with room for this many.
fn with_room(alloc: Global, room: usize) -> Result<Items<(Atom, u64)>, NoMemory>
    ensures { IfOk result (λ pieces. pieces ≡ []) }
{
    let pieces = Vec::with_capacity(alloc, room)?;
    Ok(Items::from_vec(pieces))
}
