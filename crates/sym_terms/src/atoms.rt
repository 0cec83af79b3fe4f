ghost use Rattle.std.specs.Prelude.{◌≡◌, IfOk};
ghost use Rattle.sym_terms.specs.Plain.{single_atom};
ghost use Rattle.sym_terms.specs.View.{plain};
ghost use Rattle.sym_terms.specs.Normal.{fit_bits, kept_bits, atom_bits, fit_is_identity, fit, pair, pair_alone};

use crate::kinds::{Fit, Pair};
use crate::linear::add_scaled;
use crate::numbers::{fit_number, pair_number};
use crate::sum::{Atom, PieceList, Sum};
use no_memory::NoMemory;
use sqlite_items::Boxed;
use std::alloc::Global;

pub fn atom_alone(atom: Atom) -> Sum
    ensures { result ≡ single_atom (plain atom) }
{
    Sum {
        constant: 0,
        atoms: PieceList::one(atom, 1),
    }
}

/// The fit of a sum in normal form, whatever the nodes of the result.
#[tactic(auto, unfolding(crate::specs::Normal::fit))]
pub fn fit_sum(alloc: Global, kind: Fit, argument: &Sum) -> Result<Sum, NoMemory>
    ensures { IfOk result (λ s. s ≡ fit kind argument.now) }
{
    if let Some(constant) = argument.as_constant() {
        return Ok(Sum::constant(fit_number(kind, constant)));
    }
    if is_kept(kind, argument) {
        return argument.copy(alloc);
    }
    let argument = Boxed::new(alloc, argument.copy(alloc)?)?;
    Ok(atom_alone(Atom::Fit(kind, argument)))
}

fn is_kept(kind: Fit, argument: &Sum) -> bool
    ensures { result ≡ fit_is_identity kind argument.now }
{
    match argument.atoms.as_slice() {
        [(atom, coefficient)] => {
            argument.constant == 0 && *coefficient == 1 && bits_of_atom(atom) <= bits_kept(kind)
        }
        _ => false,
    }
}

fn bits_of_atom(atom: &Atom) -> u8
    ensures { result ≡ atom_bits (plain atom.now) }
{
    match atom {
        Atom::Sym(_) | Atom::Pair(_, _, _) => 64,
        Atom::Fit(kind, _) => bits_of_fit(*kind),
    }
}

fn bits_of_fit(kind: Fit) -> u8
    ensures { result ≡ fit_bits kind }
{
    match kind {
        Fit::Zx8 => 8,
        Fit::Zx16 => 16,
        Fit::Zx32 => 32,
        Fit::Sx8 | Fit::Sx16 | Fit::Sx32 => 64,
    }
}

fn bits_kept(kind: Fit) -> u8
    ensures { result ≡ kept_bits kind }
{
    match kind {
        Fit::Zx8 => 8,
        Fit::Zx16 => 16,
        Fit::Zx32 => 32,
        Fit::Sx8 => 7,
        Fit::Sx16 => 15,
        Fit::Sx32 => 31,
    }
}

/// The pair of two sums in normal form, whatever the nodes of the result.
#[tactic(auto, unfolding(crate::specs::Normal::pair))]
pub fn pair_sums(alloc: Global, kind: Pair, left: &Sum, right: &Sum) -> Result<Sum, NoMemory>
    ensures { IfOk result (λ s. s ≡ pair kind left.now right.now) }
{
    match (kind, left.as_constant(), right.as_constant()) {
        (_, Some(x), Some(y)) => Ok(Sum::constant(pair_number(kind, x, y))),
        (Pair::Mul, Some(x), None) => add_scaled(alloc, &Sum::constant(0), x, right),
        (Pair::Mul, None, Some(y)) => add_scaled(alloc, &Sum::constant(0), y, left),
        _ => pair_atom(alloc, kind, left, right),
    }
}

fn pair_atom(alloc: Global, kind: Pair, left: &Sum, right: &Sum) -> Result<Sum, NoMemory>
    ensures { IfOk result (λ s. s ≡ pair_alone kind left.now right.now) }
{
    match kind {
        Pair::And | Pair::Or if left.compare(right).is_eq() => left.copy(alloc),
        Pair::Xor if left.compare(right).is_eq() => Ok(Sum::constant(0)),
        _ => {
            let left = Boxed::new(alloc, left.copy(alloc)?)?;
            let right = Boxed::new(alloc, right.copy(alloc)?)?;
            Ok(atom_alone(Atom::Pair(kind, left, right)))
        }
    }
}
