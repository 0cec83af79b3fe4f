ghost use Rattle.std.specs.Prelude.{◌≡◌};
ghost use Rattle.bits_core.specs.Arithmetic.{alu_of, difference_of, exact_difference_of, exact_sum_of, exactly, flags_of, logical_of, sum_of};

use crate::flags::Flags;
use crate::integers::{integer, is_held, residue};
use crate::low_bits::cut;
use crate::operations::Alu;
use crate::width::Width;

/// The result of an operation, cut to the width, and the flags it sets. `carry` is CF before it, which only
/// Adc and Sbb read (Intel SDM volume 2, ADD, OR, ADC, SBB, AND, SUB, XOR).
pub fn alu(op: Alu, w: Width, a: u64, b: u64, carry: bool) -> (u64, Flags)
    ensures { result ≡ alu_of op w a b carry }
{
    match op {
        Alu::Add => sum(w, a, b, false),
        Alu::Or => logical(w, a | b),
        Alu::Adc => sum(w, a, b, carry),
        Alu::Sbb => difference(w, a, b, carry),
        Alu::And => logical(w, a & b),
        Alu::Sub => difference(w, a, b, false),
        Alu::Xor => logical(w, a ^ b),
    }
}

fn sum(w: Width, a: u64, b: u64, carry: bool) -> (u64, Flags)
    ensures { result ≡ sum_of w a b carry }
{
    with_flags(
        w,
        exact_sum(w, false, a, b, carry),
        exact_sum(w, true, a, b, carry),
    )
}

fn difference(w: Width, a: u64, b: u64, borrow: bool) -> (u64, Flags)
    ensures { result ≡ difference_of w a b borrow }
{
    with_flags(
        w,
        exact_difference(w, false, a, b, borrow),
        exact_difference(w, true, a, b, borrow),
    )
}

fn exact_sum(w: Width, signed: bool, a: u64, b: u64, carry: bool) -> i128
    ensures { result ≡ exact_sum_of w signed a b carry }
{
    integer(w, signed, a) + integer(w, signed, b) + i128::from(u8::from(carry))
}

fn exact_difference(w: Width, signed: bool, a: u64, b: u64, borrow: bool) -> i128
    ensures { result ≡ exact_difference_of w signed a b borrow }
{
    integer(w, signed, a) - integer(w, signed, b) - i128::from(u8::from(borrow))
}

fn with_flags(w: Width, unsigned: i128, signed: i128) -> (u64, Flags)
    ensures { result ≡ exactly w unsigned signed }
{
    let value = residue(w, unsigned);
    (
        value,
        flags(
            w,
            value,
            !is_held(w, false, unsigned),
            !is_held(w, true, signed),
        ),
    )
}

fn logical(w: Width, x: u64) -> (u64, Flags)
    ensures { result ≡ logical_of w x }
{
    let value = cut(w, x);
    (value, flags(w, value, false, false))
}

fn flags(w: Width, value: u64, carry: bool, over: bool) -> Flags
    ensures { result ≡ flags_of w value carry over }
{
    Flags {
        carry,
        zero: value == 0,
        sign: value >= w.half(),
        over,
    }
}
