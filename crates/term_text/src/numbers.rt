ghost use Rattle.std.specs.Prelude.{◌≡◌, ◌++◌, ◌<◌, true, false, OnOk};
ghost use Rattle.std.specs.Char.{digit_value};
ghost use Rattle.std.specs.Fmt.{decimal, digits, digit_glyph};
ghost use Rattle.term_text.specs.Numbers.{number_text, pushed_digit, digits_at, numeral_at, number_at};

use itoa::Buffer;
use std::alloc::AllocError;

/// Appends the number in lower-case hexadecimal, without leading zeros.
pub fn put_hex(out: &mut Vec<u8>, n: u64) -> Result<(), AllocError>
    ensures { OnOk result (out.new.items ≡ out.old.items ++ digits 16 false n) }
{
    if n >= 16 {
        put_hex(out, n / 16)?;
    }
    out.push(hex_digit(n % 16))?;
    Ok(())
}

fn hex_digit(d: u64) -> u8
    requires { d < 16 }
    ensures { result ≡ digit_glyph false d }
{
    if d < 10 {
        b'0' + d as u8
    } else {
        b'a' + (d as u8 - 10)
    }
}

/// Appends the number in decimal, without leading zeros.
pub fn put_decimal(out: &mut Vec<u8>, n: u64) -> Result<(), AllocError>
    ensures { OnOk result (out.new.items ≡ out.old.items ++ decimal n) }
{
    let mut buffer = Buffer::new();
    out.extend_from_slice(buffer.format(n).as_bytes())
}

/// Appends the number in decimal up to 9999, else as `0x` and hexadecimal.
pub fn put_number(out: &mut Vec<u8>, n: u64) -> Result<(), AllocError>
    ensures { OnOk result (out.new.items ≡ out.old.items ++ number_text n) }
{
    if n < 10_000 {
        return put_decimal(out, n);
    }
    out.extend_from_slice(b"0x")?;
    put_hex(out, n)
}

/// The number below 2^64 that one or more hexadecimal digits of either case spell.
pub fn read_hex(bytes: &[u8]) -> Option<u64>
    ensures { result ≡ numeral_at true bytes.now }
{
    numeral(true, bytes)
}

/// The number below 2^64 that one or more decimal digits spell.
pub fn read_decimal(bytes: &[u8]) -> Option<u64>
    ensures { result ≡ numeral_at false bytes.now }
{
    numeral(false, bytes)
}

/// The number below 2^64 that decimal digits spell, or `0x` and hexadecimal digits of either case.
pub fn read_number(bytes: &[u8]) -> Option<u64>
    ensures { result ≡ number_at bytes.now }
{
    match bytes {
        [b'0', b'x', digits @ ..] => numeral(true, digits),
        _ => numeral(false, bytes),
    }
}

fn numeral(hex: bool, bytes: &[u8]) -> Option<u64>
    ensures { result ≡ numeral_at hex bytes.now }
{
    match bytes {
        [] => None,
        [_, ..] => push_digits(hex, bytes),
    }
}

fn push_digits(hex: bool, bytes: &[u8]) -> Option<u64>
    ensures { result ≡ digits_at hex 0 bytes.now }
{
    let mut n = 0;
    for byte in bytes {
        match push_digit(hex, n, *byte) {
            None => return None,
            Some(next) => n = next,
        }
    }
    Some(n)
}

// `None` where the byte is no digit, and where the number would have over 64 bits.
fn push_digit(hex: bool, n: u64, byte: u8) -> Option<u64>
    ensures { result ≡ pushed_digit hex n byte }
{
    let digit = value_of_digit(byte);
    let (radix, scaled) = if hex {
        (16, n as u128 * 16)
    } else {
        (10, n as u128 * 10)
    };
    let next = scaled + digit as u128;
    if digit < radix && next <= u64::MAX as u128 {
        Some(next as u64)
    } else {
        None
    }
}

fn value_of_digit(byte: u8) -> u64
    ensures value { result ≡ digit_value byte }
    ensures small { result < 37 }
{
    match byte {
        b'0'..=b'9' => (byte - b'0') as u64,
        b'A'..=b'Z' => (byte - b'A') as u64 + 10,
        b'a'..=b'z' => (byte - b'a') as u64 + 10,
        _ => 36,
    }
}
