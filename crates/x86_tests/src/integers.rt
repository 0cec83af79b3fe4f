use crate::recorded::{ARITHMETIC, CONDITIONS, PRODUCTS, QUOTIENTS, SHIFTS};
use bits_core::{Alu, Flags, Shift, Width, alu, cond, cut, div_wide, mul_wide, sext, shift};
use std::process::Abort;
use std::str::SplitWhitespace;

const OPERATIONS: [(Alu, bool); 9] = [
    (Alu::Add, false),
    (Alu::Or, false),
    (Alu::Adc, false),
    (Alu::Adc, true),
    (Alu::Sbb, false),
    (Alu::Sbb, true),
    (Alu::And, false),
    (Alu::Sub, false),
    (Alu::Xor, false),
];

const SHIFT_OPERATIONS: [Shift; 5] = [Shift::Rol, Shift::Ror, Shift::Shl, Shift::Shr, Shift::Sar];

fn width(words: &mut SplitWhitespace<'_>) -> Option<Width> {
    match words.next()? {
        "8" => Some(Width::W8),
        "16" => Some(Width::W16),
        "32" => Some(Width::W32),
        "64" => Some(Width::W64),
        _ => None,
    }
}

fn number(words: &mut SplitWhitespace<'_>) -> Option<u64> {
    u64::from_str_radix(words.next()?, 16).ok()
}

fn pair(words: &mut SplitWhitespace<'_>) -> Option<(u64, u64)> {
    let first = number(words);
    let second = number(words);
    Some((first?, second?))
}

fn digit(flags: Flags) -> u64 {
    u64::from(flags.carry) * 8
        + u64::from(flags.zero) * 4
        + u64::from(flags.sign) * 2
        + u64::from(flags.over)
}

fn expect_arithmetic(rt: &impl Abort, row: &str) {
    let mut words = row.split_whitespace();
    let w = width(&mut words).expect(rt, row);
    let (a, b) = pair(&mut words).expect(rt, row);
    for (op, carry) in OPERATIONS {
        let (value, flags) = alu(op, w, a, b, carry);
        assert_eq!(rt;
            Some((value, digit(flags))),
            pair(&mut words),
            "{op:?}: {row}"
        );
    }
}

#[test]
fn arithmetic_is_the_processor_s(rt: HostRuntime) {
    for row in ARITHMETIC.lines() {
        expect_arithmetic(&rt, row);
    }
}

fn expect_shifts(rt: &impl Abort, row: &str) {
    let mut words = row.split_whitespace();
    let w = width(&mut words).expect(rt, row);
    let (a, count) = pair(&mut words).expect(rt, row);
    for op in SHIFT_OPERATIONS {
        assert_eq!(rt;
            Some(shift(op, w, a, (count % 256) as u8)),
            number(&mut words),
            "{op:?}: {row}"
        );
    }
}

#[test]
fn shifts_are_the_processor_s(rt: HostRuntime) {
    for row in SHIFTS.lines() {
        expect_shifts(&rt, row);
    }
}

fn expect_products(rt: &impl Abort, row: &str) {
    let mut words = row.split_whitespace();
    let w = width(&mut words).expect(rt, row);
    let (a, b) = pair(&mut words).expect(rt, row);
    for signed in [false, true] {
        assert_eq!(rt;
            Some(mul_wide(w, signed, a, b)),
            pair(&mut words),
            "{signed}: {row}"
        );
    }
}

#[test]
fn products_are_the_processor_s(rt: HostRuntime) {
    for row in PRODUCTS.lines() {
        expect_products(&rt, row);
    }
}

fn expect_quotients(rt: &impl Abort, row: &str) {
    let mut words = row.split_whitespace();
    let w = width(&mut words).expect(rt, row);
    let (high, low) = pair(&mut words).expect(rt, row);
    let by = number(&mut words).expect(rt, row);
    for signed in [false, true] {
        assert_eq!(rt;
            div_wide(w, signed, high, low, by),
            pair(&mut words),
            "{signed}: {row}"
        );
    }
}

#[test]
fn quotients_are_the_processor_s(rt: HostRuntime) {
    for row in QUOTIENTS.lines() {
        expect_quotients(&rt, row);
    }
}

fn expect_conditions(rt: &impl Abort, row: &str) {
    let mut words = row.split_whitespace();
    let bits = number(&mut words).expect(rt, row);
    let flags = Flags {
        carry: bits & 8 != 0,
        zero: bits & 4 != 0,
        sign: bits & 2 != 0,
        over: bits & 1 != 0,
    };
    for code in 0..16u8 {
        if code != 10 && code != 11 {
            assert_eq!(rt;
                Some(u64::from(cond(code, flags))),
                number(&mut words),
                "{code}: {row}"
            );
        }
    }
}

#[test]
fn conditions_are_the_processor_s(rt: HostRuntime) {
    for row in CONDITIONS.lines() {
        expect_conditions(&rt, row);
    }
}

#[test]
fn a_difference_below_0_borrows(rt: HostRuntime) {
    let flags = Flags {
        carry: true,
        zero: false,
        sign: true,
        over: false,
    };
    assert_eq!(rt;
        alu(Alu::Sub, Width::W32, 1, 10, false),
        (0xffff_fff7, flags)
    );
}

#[test]
fn a_quotient_that_does_not_fit_is_none(rt: HostRuntime) {
    assert_eq!(rt; div_wide(Width::W64, false, 1, 0, 1), None);
    assert_eq!(rt; div_wide(Width::W32, false, 0, 7, 2), Some((3, 1)));
}

fn expect_low_bits(rt: &impl Abort, w: Width, bits: u32, low: u64, extended: u64) {
    assert_eq!(rt; (w.bits(), u32::from(w.bytes()) * 8), (bits, bits));
    assert_eq!(rt; cut(w, 0x1234_5678_1abc_def0), low);
    assert_eq!(rt; sext(w, 0x1234_5678_1abc_def0), extended);
}

#[test]
fn low_bits_and_their_extension(rt: HostRuntime) {
    expect_low_bits(&rt, Width::W8, 8, 0xf0, 0xffff_ffff_ffff_fff0);
    expect_low_bits(&rt, Width::W16, 16, 0xdef0, 0xffff_ffff_ffff_def0);
    expect_low_bits(&rt, Width::W32, 32, 0x1abc_def0, 0x1abc_def0);
    expect_low_bits(
        &rt,
        Width::W64,
        64,
        0x1234_5678_1abc_def0,
        0x1234_5678_1abc_def0,
    );
}
