ghost use Rattle.std.specs.Prelude.{◌≡◌, ◌++◌, IfOk};
ghost use Rattle.sym_terms.specs.View.{pieces, piece_or_none, multiples};
ghost use Rattle.sym_terms.specs.Plain.{sum, none};
ghost use Rattle.sym_terms.specs.Normal.{plus, plus_times, plus_times_pieces};

use crate::sum::{Atom, PieceList, Sum};
use no_memory::NoMemory;
use std::alloc::Global;
use std::cmp::Ordering;

/// `left + factor * right` of sums in normal form, by one merge, whatever the nodes of the result.
#[tactic(auto, unfolding(crate::specs::Normal::plus_times))]
pub fn add_scaled(alloc: Global, left: &Sum, factor: u64, right: &Sum) -> Result<Sum, NoMemory>
    ensures { IfOk result (λ s. s ≡ plus_times left.now factor right.now) }
{
    let atoms = merge(alloc, left.atoms.as_slice(), factor, right.atoms.as_slice())?;
    Ok(Sum {
        constant: left
            .constant
            .wrapping_add(factor.wrapping_mul(right.constant)),
        atoms,
    })
}

impl Sum {
    /// `self + constant`, with the same atoms.
    #[tactic(auto, unfolding(crate::specs::Normal::plus_times), using(crate::proofs::SumLemmas::plus_nothing))]
    pub(crate) fn add_constant(self, constant: u64) -> Sum
        ensures { result ≡ plus self (sum constant none) }
    {
        let Sum {
            constant: own,
            atoms,
        } = self;
        Sum {
            constant: own.wrapping_add(constant),
            atoms,
        }
    }
}

fn merge(
    alloc: Global,
    left: &[(Atom, u64)],
    factor: u64,
    right: &[(Atom, u64)],
) -> Result<PieceList, NoMemory>
    ensures { IfOk result (λ out. pieces out ≡ plus_times_pieces (pieces left.now) factor (pieces right.now)) }
{
    let room = left.len().saturating_add(right.len());
    let mut out = PieceList::new();
    let mut i = 0;
    let mut j = 0;
    while i < left.len() && j < right.len() {
        let (a, k) = &left[i];
        let (b, l) = &right[j];
        match a.compare(b) {
            Ordering::Less => {
                out = out.push(alloc, room, (a.copy(alloc)?, *k))?;
                i += 1;
            }
            Ordering::Equal => {
                let coefficient = k.wrapping_add(factor.wrapping_mul(*l));
                out = push_piece(alloc, out, room, a, coefficient)?;
                i += 1;
                j += 1;
            }
            Ordering::Greater => {
                out = push_piece(alloc, out, room, b, factor.wrapping_mul(*l))?;
                j += 1;
            }
        }
    }
    let kept = push_copies(alloc, out, room, &left[i..])?;
    let all = push_multiples(alloc, kept, room, factor, &right[j..])?;
    Ok(all)
}

// A coefficient of 0 leaves no piece.
fn push_piece(
    alloc: Global,
    out: PieceList,
    room: usize,
    atom: &Atom,
    coefficient: u64,
) -> Result<PieceList, NoMemory>
    ensures { IfOk result (λ all. all ≡ out ++ piece_or_none atom.now coefficient) }
{
    if coefficient == 0 {
        return Ok(out);
    }
    out.push(alloc, room, (atom.copy(alloc)?, coefficient))
}

fn push_copies(
    alloc: Global,
    out: PieceList,
    room: usize,
    atoms: &[(Atom, u64)],
) -> Result<PieceList, NoMemory>
    ensures { IfOk result (λ all. all ≡ out ++ atoms.now) }
{
    let mut out = out;
    for (atom, coefficient) in atoms {
        out = out.push(alloc, room, (atom.copy(alloc)?, *coefficient))?;
    }
    Ok(out)
}

fn push_multiples(
    alloc: Global,
    out: PieceList,
    room: usize,
    factor: u64,
    atoms: &[(Atom, u64)],
) -> Result<PieceList, NoMemory>
    ensures { IfOk result (λ all. all ≡ out ++ multiples factor atoms.now) }
{
    let mut out = out;
    for (atom, coefficient) in atoms {
        out = push_piece(alloc, out, room, atom, factor.wrapping_mul(*coefficient))?;
    }
    Ok(out)
}
