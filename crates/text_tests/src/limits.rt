use crate::refusal::fault;
use graph_text::TextCause;
use std::alloc::{AllocError, Global};
use term_text::put_decimal;

/// The head, a byte so many times, and what ends the line.
fn long_line(alloc: Global, length: usize, end: &[u8]) -> Result<Vec<u8>, AllocError> {
    let mut text = Vec::new(alloc);
    text.extend_from_slice(b"foxdec graph 1\n")?;
    for _ in 0..length {
        text.push(b'x')?;
    }
    text.extend_from_slice(end)?;
    Ok(text)
}

fn fault_of_long_line(alloc: Global, length: usize, end: &[u8]) -> Option<(u64, TextCause)> {
    match long_line(alloc, length, end) {
        Ok(text) => fault(alloc, text.as_slice()),
        Err(_) => None,
    }
}

#[test]
fn a_line_has_at_most_32768_bytes(rt: HostRuntime) {
    for (length, end, cause) in [
        (32_768, "", TextCause::Unended),
        (32_768, "\n", TextCause::BadLine),
        (32_769, "", TextCause::OverLimit),
        (32_769, "\n", TextCause::OverLimit),
    ] {
        let found = fault_of_long_line(rt.alloc(), length, end.as_bytes());
        assert_eq!(rt; found, Some((2, cause)), "a long line");
    }
}

/// A graph whose first register has a term of 4,000 open brackets, as many of them closed as is told.
fn brackets(alloc: Global, closed: u64) -> Result<Vec<u8>, AllocError> {
    let mut text = Vec::new(alloc);
    text.extend_from_slice(b"foxdec graph 1\nf 1 0 0\ns 1 ret\nv 0\nr rax=")?;
    for _ in 0..4_000 {
        text.extend_from_slice(b"zx8(")?;
    }
    text.push(b'1')?;
    for _ in 0..closed {
        text.push(b')')?;
    }
    text.extend_from_slice(b"\nend\n")?;
    Ok(text)
}

fn fault_of_brackets(alloc: Global, closed: u64) -> Option<(u64, TextCause)> {
    match brackets(alloc, closed) {
        Ok(text) => fault(alloc, text.as_slice()),
        Err(_) => None,
    }
}

#[test]
fn deep_terms_need_no_deep_stack(rt: HostRuntime) {
    let (over, bad) = (
        Some((5, TextCause::OverLimit)),
        Some((5, TextCause::BadTerm)),
    );
    assert_eq!(rt; fault_of_brackets(rt.alloc(), 4_000), over, "all closed");
    assert_eq!(rt; fault_of_brackets(rt.alloc(), 3_999), bad, "one open");
}

/// What is repeated in a text: lines, the parts of a line, or both.
struct Repeated {
    /// What stands before all parts, and after them.
    around: (&'static str, &'static str),
    /// What stands in a part before its number, and after it.
    part: (&'static str, &'static str),
}

static PAIRS: Repeated = Repeated {
    around: ("s 1 step\n", "v 0\n> 1:0\n"),
    part: ("p [", ";8] [rsp0;8]\n"),
};

static KEEPS: Repeated = Repeated {
    around: ("s 1 outside\n", "v 0\n> 1:0\n"),
    part: ("k [", ";8]\n"),
};

static VERTICES: Repeated = Repeated {
    around: ("s 1 step\n", ""),
    part: ("v ", "\n> 1:0\n"),
};

static EDGES: Repeated = Repeated {
    around: ("s 1 step\nv 0\n>", "\n"),
    part: (" 1:", ""),
};

static BOUNDS: Repeated = Repeated {
    around: ("s 1 ret\nv 0\n", ""),
    part: ("b ", " 1..2\n"),
};

static NODES: Repeated = Repeated {
    around: ("s 1 ret\nv 0\n", ""),
    part: ("c [", ";8]\n"),
};

/// Numbers in braces; the part that is not repeated is the least of them.
static NUMBERS: Repeated = Repeated {
    around: ("s 1 ret\nv 0\nb rax0 {0", "}\n"),
    part: (",", ""),
};

fn put_part(out: &mut Vec<u8>, part: (&str, &str), number: u64) -> Result<(), AllocError> {
    out.extend_from_slice(part.0.as_bytes())?;
    put_decimal(out, number)?;
    out.extend_from_slice(part.1.as_bytes())
}

/// A graph with the parts of these numbers.
fn many(alloc: Global, what: &Repeated, first: u64, end: u64) -> Result<Vec<u8>, AllocError> {
    let mut text = Vec::new(alloc);
    text.extend_from_slice(b"foxdec graph 1\nf 1 0 0\n")?;
    text.extend_from_slice(what.around.0.as_bytes())?;
    for number in first..end {
        put_part(&mut text, what.part, number)?;
    }
    text.extend_from_slice(what.around.1.as_bytes())?;
    text.extend_from_slice(b"end\n")?;
    Ok(text)
}

fn fault_of_many(alloc: Global, what: &Repeated, first: u64, end: u64) -> Option<(u64, TextCause)> {
    match many(alloc, what, first, end) {
        Ok(text) => fault(alloc, text.as_slice()),
        Err(_) => Some((0, TextCause::NoMemory)),
    }
}

/// Whether parts of the numbers from `first` on may be so many, and one more is over the limit in this line.
fn has_limit(alloc: Global, what: &Repeated, first: u64, end: u64, line: u64) -> bool {
    fault_of_many(alloc, what, first, end).is_none()
        && fault_of_many(alloc, what, first, end.saturating_add(1))
            == Some((line, TextCause::OverLimit))
}

#[test]
fn the_counts_have_limits(rt: HostRuntime) {
    let alloc = rt.alloc();
    assert!(rt; has_limit(alloc, &PAIRS, 0, 64, 68), "pairs");
    assert!(rt; has_limit(alloc, &KEEPS, 0, 64, 68), "keeps");
    assert!(rt; has_limit(alloc, &VERTICES, 0, 8, 20), "vertices");
    assert!(rt; has_limit(alloc, &EDGES, 0, 1_024, 5), "edges");
    assert!(rt; has_limit(alloc, &BOUNDS, 0, 16, 21), "bounds");
    assert!(rt; has_limit(alloc, &NODES, 0, 64, 69), "nodes");
    assert!(rt; has_limit(alloc, &NUMBERS, 1, 1_024, 5), "numbers");
}
