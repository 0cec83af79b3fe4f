ghost use Rattle.std.specs.Prelude.{◌≡◌};
ghost use Rattle.sym_terms.specs.Numbers.{fit_number as fits_to, pair_number as pairs_to};

use crate::kinds::{Fit, Pair};
use bits_core::{Shift, Width, cut, sext, shift};

pub fn fit_number(fit: Fit, n: u64) -> u64
    ensures { result ≡ fits_to fit n }
{
    match fit {
        Fit::Zx8 => cut(Width::W8, n),
        Fit::Zx16 => cut(Width::W16, n),
        Fit::Zx32 => cut(Width::W32, n),
        Fit::Sx8 => sext(Width::W8, n),
        Fit::Sx16 => sext(Width::W16, n),
        Fit::Sx32 => sext(Width::W32, n),
    }
}

pub fn pair_number(pair: Pair, x: u64, y: u64) -> u64
    ensures { result ≡ pairs_to pair x y }
{
    match pair {
        Pair::And => x & y,
        Pair::Or => x | y,
        Pair::Xor => x ^ y,
        Pair::Mul => x.wrapping_mul(y),
        Pair::Shr => shift(Shift::Shr, Width::W64, x, (y % 64) as u8),
        Pair::Sar => shift(Shift::Sar, Width::W64, x, (y % 64) as u8),
    }
}
