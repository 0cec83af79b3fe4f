ghost use Rattle.std.specs.Prelude.{◌≡◌, ◌/◌, ◌%◌, ◌^◌, neg_ℤ, pos, ◌≤ℤ◌, ◌<ℤ◌};
ghost use Rattle.bits_core.specs.Width.{bits_of};
ghost use Rattle.bits_core.specs.Integers.{integer_of, is_in_range, residue_of};

use crate::low_bits::cut;
use crate::width::Width;

// The integer that the low bits of `x` stand for.
pub fn integer(w: Width, signed: bool, x: u64) -> i128
    ensures value { result ≡ integer_of w signed x }
    ensures least { neg_ℤ (pos (2 ^ 63)) ≤ℤ result }
    ensures most { result <ℤ pos (2 ^ 64) }
{
    let low = cut(w, x);
    if signed && low >= w.half() {
        i128::from(low) - i128::from(w.mask()) - 1
    } else {
        i128::from(low)
    }
}

// Whether the width holds `n`.
pub fn is_held(w: Width, signed: bool, n: i128) -> bool
    ensures { result ≡ is_in_range w signed n }
{
    if signed {
        -i128::from(w.half()) <= n && n < i128::from(w.half())
    } else {
        0 <= n && n <= i128::from(w.mask())
    }
}

// The low bits of `n` in two's complement.
pub fn residue(w: Width, n: i128) -> u64
    ensures { result ≡ residue_of w n }
{
    (n.cast_unsigned() & u128::from(w.mask())) as u64
}

// The two halves of a number of twice the width, the lower first.
pub fn halves(w: Width, n: u128) -> (u64, u64)
    ensures { result ≡ (n % 2 ^ bits_of w, n / 2 ^ bits_of w % 2 ^ bits_of w) }
{
    let mask = u128::from(w.mask());
    ((n & mask) as u64, (n >> w.bits() & mask) as u64)
}
