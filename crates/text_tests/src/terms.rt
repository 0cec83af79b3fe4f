use std::alloc::{AllocError, Global};
use std::process::Abort;
use sym_terms::Term;
use term_text::{TextCause, put_hex, put_term, read_term};

fn is_written_as(alloc: Global, term: &Term, text: &[u8]) -> bool {
    let mut written = Vec::new(alloc);
    put_term(&mut written, term).is_ok() && written.as_slice() == text
}

/// Whether the text is that of the term that is read, or why it is refused.
fn reading(alloc: Global, text: &[u8]) -> Result<bool, TextCause> {
    let mut buffer = Vec::new(alloc);
    match read_term(alloc, text, &mut buffer) {
        Ok(term) => Ok(is_written_as(alloc, &term, text)),
        Err(cause) => Err(cause),
    }
}

/// The first text with another reading.
fn first_other(
    alloc: Global,
    texts: &[&'static str],
    wanted: Result<bool, TextCause>,
) -> Option<&'static str> {
    for text in texts {
        if reading(alloc, text.as_bytes()) != wanted {
            return Some(text);
        }
    }
    None
}

fn assert_all(
    rt: &impl Abort,
    alloc: Global,
    texts: &[&'static str],
    wanted: Result<bool, TextCause>,
) {
    assert_eq!(rt; first_other(alloc, texts, wanted), None);
}

static NUMBERS_AND_SYMBOLS: [&str; 13] = [
    "0",
    "9999",
    "0x2710",
    "-1",
    "-9999",
    "0xffffffffffffd8f0",
    "rax0",
    "r80",
    "r150",
    "ra",
    "fs",
    "v0",
    "vffffffffffffffff",
];

static SUMS_FITS_AND_PAIRS: [&str; 10] = [
    "rsp0-8",
    "rsp0+0x2710",
    "-rax0",
    "-5*rax0+3*rcx0-r90",
    "0x8000000000000000*rax0",
    "rax0+ra+fs+v400078",
    "zx8(rax0)+zx16(rax0)+zx32(rax0)+sx8(rax0)+sx16(rax0)+sx32(rax0)",
    "and(rax0,1)+or(rax0,2)+xor(rax0,rcx0)+mul(rax0,rax0)+shr(rax0,1)",
    "sar(sx32(zx32(rax0)),1)",
    "and(-7,rax0-5*zx32(rcx0+1)+0x2710)-1",
];

#[test]
fn terms_of_every_kind_are_read_and_written_back(rt: HostRuntime) {
    assert_all(&rt, rt.alloc(), &NUMBERS_AND_SYMBOLS, Ok(true));
    assert_all(&rt, rt.alloc(), &SUMS_FITS_AND_PAIRS, Ok(true));
}

static OTHER_SPELLINGS: [&str; 20] = [
    "+rsp0-8",
    "-8+rsp0",
    "rsp0+rsp0",
    "1*rsp0",
    "0*rsp0",
    "rsp0+0",
    "08",
    "-0",
    "10000",
    "-10000",
    "0x5",
    "0xFFFFF",
    "18446744073709551615",
    "v0400078",
    "vAB",
    "rcx0+rax0",
    "zx32(5)",
    "zx32(zx8(rax0))",
    "mul(2,rax0)",
    "xor(rax0,rax0)",
];

#[test]
fn other_spellings_of_a_term_are_not_canonical(rt: HostRuntime) {
    assert_all(
        &rt,
        rt.alloc(),
        &OTHER_SPELLINGS,
        Err(TextCause::NotCanonical),
    );
}

static NO_NUMBERS_OR_SYMBOLS: [&str; 12] = [
    "",
    "+",
    "??",
    "0X5",
    "0x",
    "0x10000000000000000",
    "18446744073709551616",
    "rax",
    "RAX0",
    "r160",
    "v",
    "v10000000000000000",
];

static NO_SUMS_FITS_OR_PAIRS: [&str; 14] = [
    "rsp0-",
    "--rsp0",
    "rsp0 -8",
    "5*8",
    "2*3*rax0",
    "(rax0)",
    "zx64(rax0)",
    "zx32()",
    "zx32(rax0",
    "zx32(rax0))",
    "zx32(rax0)5",
    "zx32(rax0,1)",
    "and(rax0)",
    "and(rax0,1,2)",
];

#[test]
fn what_is_in_no_spelling_is_a_bad_term(rt: HostRuntime) {
    assert_all(
        &rt,
        rt.alloc(),
        &NO_NUMBERS_OR_SYMBOLS,
        Err(TextCause::BadTerm),
    );
    assert_all(
        &rt,
        rt.alloc(),
        &NO_SUMS_FITS_OR_PAIRS,
        Err(TextCause::BadTerm),
    );
}

/// The same piece many times, with a plus between them.
fn repeated(alloc: Global, piece: &[u8], times: u64) -> Result<Vec<u8>, AllocError> {
    let mut text = Vec::new(alloc);
    for number in 0..times {
        if number > 0 {
            text.push(b'+')?;
        }
        text.extend_from_slice(piece)?;
    }
    Ok(text)
}

/// `v0+v1+..`
fn names(alloc: Global, count: u64) -> Result<Vec<u8>, AllocError> {
    let mut text = Vec::new(alloc);
    for address in 0..count {
        if address > 0 {
            text.push(b'+')?;
        }
        text.push(b'v')?;
        put_hex(&mut text, address)?;
    }
    Ok(text)
}

fn reading_of_repeated(alloc: Global, piece: &[u8], times: u64) -> Result<bool, TextCause> {
    let text = repeated(alloc, piece, times)?;
    reading(alloc, text.as_slice())
}

fn reading_of_names(alloc: Global, count: u64) -> Result<bool, TextCause> {
    let text = names(alloc, count)?;
    reading(alloc, text.as_slice())
}

#[test]
fn thirty_two_loose_nodes_are_within_the_limit_and_one_more_is_over(rt: HostRuntime) {
    let alloc = rt.alloc();
    assert_eq!(rt; reading_of_names(alloc, 31), Ok(true));
    assert_eq!(rt; reading_of_names(alloc, 32), Err(TextCause::OverLimit));
    assert_eq!(rt;
        reading_of_repeated(alloc, b"rsp0", 31),
        Err(TextCause::NotCanonical)
    );
    assert_eq!(rt;
        reading_of_repeated(alloc, b"rsp0", 32),
        Err(TextCause::OverLimit)
    );
    // Numbers are no nodes.
    assert_eq!(rt;
        reading_of_repeated(alloc, b"1", 100),
        Err(TextCause::NotCanonical)
    );
}

/// 4,000 open brackets with a symbol inside, as many of them closed as is told.
fn brackets(alloc: Global, closed: u64) -> Result<Vec<u8>, AllocError> {
    let mut text = Vec::new(alloc);
    for _ in 0..4_000 {
        text.extend_from_slice(b"zx32(")?;
    }
    text.extend_from_slice(b"rax0")?;
    for _ in 0..closed {
        text.push(b')')?;
    }
    Ok(text)
}

fn reading_of_brackets(alloc: Global, closed: u64) -> Result<bool, TextCause> {
    let text = brackets(alloc, closed)?;
    reading(alloc, text.as_slice())
}

#[test]
fn many_open_brackets_are_over_the_limit_and_bad_where_one_stays_open(rt: HostRuntime) {
    assert_eq!(rt;
        reading_of_brackets(rt.alloc(), 3_999),
        Err(TextCause::BadTerm)
    );
    assert_eq!(rt;
        reading_of_brackets(rt.alloc(), 4_000),
        Err(TextCause::OverLimit)
    );
}
