ghost use Rattle.std.specs.Prelude.{◌≡◌, ◌%◌, ◌^◌, ◌<◌, ◌≤◌};
ghost use Rattle.bits_core.specs.Width.{bits_of};
ghost use Rattle.bits_core.specs.Shifts.{count_modulus, shift_of, turned_left};

use crate::integers::{halves, integer, residue};
use crate::low_bits::cut;
use crate::operations::Shift;
use crate::width::Width;

/// A number of the width after a shift or rotation. The count is masked to its low 6 bits at 64 bits, else to its
/// low 5. Shl and Shr by the width or more give 0, Sar fills with the sign, and Rol and Ror turn by the masked count
/// modulo the width (Intel SDM volume 2, RCL/RCR/ROL/ROR and SAL/SAR/SHL/SHR).
pub fn shift(op: Shift, w: Width, a: u64, count: u8) -> u64
    ensures { result ≡ shift_of op w a count }
{
    let by = masked(w, count);
    match op {
        Shift::Rol => turned(w, cut(w, a), by % w.bits()),
        Shift::Ror => turned(w, cut(w, a), w.bits() - by % w.bits()),
        Shift::Shl => cut(w, a << by),
        Shift::Shr => cut(w, a) >> by,
        Shift::Sar => residue(w, integer(w, true, a) >> by),
    }
}

// The count that the processor takes.
fn masked(w: Width, count: u8) -> u32
    ensures value { result ≡ count % count_modulus w }
    ensures small { result < 64 }
{
    match w {
        Width::W64 => u32::from(count % 64),
        _ => u32::from(count % 32),
    }
}

// A number of the width turned left by at most the width.
fn turned(w: Width, x: u64, by: u32) -> u64
    requires number { x < 2 ^ bits_of w }
    requires turns { by ≤ bits_of w }
    ensures { result ≡ turned_left w x by }
{
    let (low, high) = halves(w, u128::from(x) << by);
    low | high
}
