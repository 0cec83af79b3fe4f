use std::alloc::Global;
use term_text::{
    TextCause, put_decimal, put_hex, put_number, read_decimal, read_hex, read_number, register_name,
};

fn by_hex(alloc: Global, number: u64) -> Option<u64> {
    let mut text = Vec::new(alloc);
    match put_hex(&mut text, number) {
        Ok(()) => read_hex(text.as_slice()),
        Err(_) => None,
    }
}

fn by_decimal(alloc: Global, number: u64) -> Option<u64> {
    let mut text = Vec::new(alloc);
    match put_decimal(&mut text, number) {
        Ok(()) => read_decimal(text.as_slice()),
        Err(_) => None,
    }
}

fn by_number(alloc: Global, number: u64) -> Option<u64> {
    let mut text = Vec::new(alloc);
    match put_number(&mut text, number) {
        Ok(()) => read_number(text.as_slice()),
        Err(_) => None,
    }
}

#[test]
fn numbers_are_read_as_they_are_written(rt: HostRuntime) {
    for number in [0, 9, 10, 15, 16, 255, 9_999, 10_000, 1 << 63, u64::MAX] {
        assert_eq!(rt; by_hex(rt.alloc(), number), Some(number));
        assert_eq!(rt; by_decimal(rt.alloc(), number), Some(number));
        assert_eq!(rt; by_number(rt.alloc(), number), Some(number));
    }
}

#[test]
fn numbers_have_leading_zeros_and_digits_of_either_case(rt: HostRuntime) {
    assert_eq!(rt; read_hex(b"00aF"), Some(0xaf));
    assert_eq!(rt; read_decimal(b"0042"), Some(42));
    assert_eq!(rt; read_number(b"0x00aF"), Some(0xaf));
}

#[test]
fn other_texts_are_no_numbers(rt: HostRuntime) {
    for text in ["", "g", "-1", "10000000000000000"] {
        assert_eq!(rt; read_hex(text.as_bytes()), None, "no hexadecimal number");
    }
    for text in ["", "a", "0x1", "18446744073709551616"] {
        assert_eq!(rt; read_decimal(text.as_bytes()), None, "no decimal number");
    }
    for text in ["", "a", "0x", "0X1", "0x10000000000000000"] {
        assert_eq!(rt; read_number(text.as_bytes()), None, "no number");
    }
}

// Intel SDM volume 2, table 3-1.
#[test]
fn registers_have_their_64_bit_names(rt: HostRuntime) {
    for (register, name) in [
        (0, "rax"),
        (4, "rsp"),
        (7, "rdi"),
        (8, "r8"),
        (15, "r15"),
        (16, ""),
    ] {
        assert!(rt;
            register_name(register) == name.as_bytes(),
            "the name of a register"
        );
    }
}

#[test]
fn causes_are_numbered_from_one(rt: HostRuntime) {
    for (cause, number, name) in [
        (TextCause::BadHead, 1, "BadHead"),
        (TextCause::BadLine, 2, "BadLine"),
        (TextCause::BadTerm, 3, "BadTerm"),
        (TextCause::NotCanonical, 4, "NotCanonical"),
        (TextCause::OutOfOrder, 5, "OutOfOrder"),
        (TextCause::OverLimit, 6, "OverLimit"),
        (TextCause::Unended, 7, "Unended"),
        (TextCause::NoMemory, 0, "NoMemory"),
    ] {
        assert_eq!(rt; cause.number(), number, "the number of a cause");
        assert!(rt; cause.name() == name, "the name of a cause");
    }
}
