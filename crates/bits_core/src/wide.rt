ghost use Rattle.std.specs.Prelude.{◌≡◌, ◌≢◌, true, false, ◌*ℤ◌};
ghost use Rattle.std.specs.Int.{w128, cast_unsigned};
ghost use Rattle.bits_core.specs.LowBits.{cut_of};
ghost use Rattle.bits_core.specs.Integers.{integer_of};
ghost use Rattle.bits_core.specs.Wide.{fitting, joined_of, product_of, quotient_of};

use crate::integers::{halves, integer, is_held, residue};
use crate::low_bits::cut;
use crate::width::Width;

/// The low and the high half of the product of two numbers of the width, unsigned or signed
/// (Intel SDM volume 2, MUL and IMUL).
pub fn mul_wide(w: Width, signed: bool, a: u64, b: u64) -> (u64, u64)
    ensures { result ≡ product_of w signed a b }
{
    if signed {
        halves(w, multiplied_signed(w, a, b))
    } else {
        halves(w, u128::from(cut(w, a)) * u128::from(cut(w, b)))
    }
}

// The 128 bits of the product of two signed numbers.
fn multiplied_signed(w: Width, a: u64, b: u64) -> u128
    ensures { result ≡ cast_unsigned w128 (integer_of w true a *ℤ integer_of w true b) }
{
    (integer(w, true, a) * integer(w, true, b)).cast_unsigned()
}

/// The quotient, rounded toward zero, and the remainder of the number whose halves are `high` and `low`, divided
/// by `by`, unsigned or signed. None where `by`, cut to the width, is 0, or the quotient does not fit the width: the
/// divide error #DE (Intel SDM volume 2, DIV and IDIV).
pub fn div_wide(w: Width, signed: bool, high: u64, low: u64, by: u64) -> Option<(u64, u64)>
    ensures { result ≡ quotient_of w signed high low by }
{
    if cut(w, by) == 0 {
        None
    } else if signed {
        divided_signed(w, high, low, by)
    } else {
        divided_unsigned(w, high, low, by)
    }
}

fn divided_unsigned(w: Width, high: u64, low: u64, by: u64) -> Option<(u64, u64)>
    requires { cut_of w by ≢ 0 }
    ensures { result ≡ fitting w false (joined_of w false high low) (integer_of w false by) }
{
    let dividend = u128::from(cut(w, high)) * (u128::from(w.mask()) + 1) + u128::from(cut(w, low));
    let divisor = u128::from(cut(w, by));
    let quotient = dividend / divisor;
    if quotient > u128::from(w.mask()) {
        return None;
    }
    Some((quotient as u64, (dividend % divisor) as u64))
}

fn divided_signed(w: Width, high: u64, low: u64, by: u64) -> Option<(u64, u64)>
    requires { cut_of w by ≢ 0 }
    ensures { result ≡ fitting w true (joined_of w true high low) (integer_of w true by) }
{
    let dividend = joined_signed(w, high, low);
    let divisor = integer(w, true, by);
    // It wraps only at -2^127 by -1: no width holds 2^127, nor what is left of it.
    let quotient = dividend.wrapping_div(divisor);
    if !is_held(w, true, quotient) {
        return None;
    }
    let remainder = dividend.wrapping_rem(divisor);
    Some((residue(w, quotient), residue(w, remainder)))
}

// The signed number whose halves are given.
fn joined_signed(w: Width, high: u64, low: u64) -> i128
    ensures { result ≡ joined_of w true high low }
{
    integer(w, true, high) * (i128::from(w.mask()) + 1) + integer(w, false, low)
}
