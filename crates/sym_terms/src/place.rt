ghost use Rattle.std.specs.Prelude.{◌≡◌, IfOk};
ghost use Rattle.sym_terms.specs.Normal.{plus};
ghost use Rattle.sym_terms.specs.Place.{segment_of, place_of};

use crate::atoms::atom_alone;
use crate::kinds::Sym;
use crate::linear::add_scaled;
use crate::sum::{Atom, Sum};
use no_memory::NoMemory;
use std::alloc::Global;

/// The address of a place in normal form, whatever the nodes of the result.
pub(crate) fn place_sum(
    alloc: Global,
    base: &Sum,
    k: u64,
    index: &Sum,
    disp: u64,
    fs: bool,
) -> Result<Sum, NoMemory>
    ensures { IfOk result (λ s. s ≡ place_of base.now k index.now disp fs) }
{
    let scaled = add_scaled(alloc, &Sum::constant(0), k, index)?;
    let sum = add_scaled(alloc, base, 1, &scaled)?;
    add_segment(alloc, sum.add_constant(disp), fs)
}

// Outside FS the base of the segment is 0.
fn add_segment(alloc: Global, sum: Sum, fs: bool) -> Result<Sum, NoMemory>
    ensures { IfOk result (λ s. s ≡ plus sum (segment_of fs)) }
{
    if fs {
        let segment = atom_alone(Atom::Sym(Sym::FsBase));
        add_scaled(alloc, &sum, 1, &segment)
    } else {
        Ok(sum.add_constant(0))
    }
}
