use crate::graphs::WHOLE;
use crate::refusal::fault;
use graph_text::TextCause;
use std::alloc::{AllocError, Global};
use std::process::Abort;

/// A text that is refused: the line of `WHOLE` that is replaced, the first faulty line, its first cause, and what
/// stands in the replaced line's place.
type Row = (u64, u64, TextCause, &'static str);

static HEADS_AND_FUNCTIONS: [Row; 12] = [
    (1, 1, TextCause::BadHead, "foxdec graph 2"),
    (1, 2, TextCause::BadLine, "foxdec graph 1\nfoxdec graph 1"),
    (2, 2, TextCause::BadLine, "f 400078 65536"),
    (2, 2, TextCause::NotCanonical, "f 0400078 65536 4096"),
    (2, 2, TextCause::NotCanonical, "f 400078 065536 4096"),
    (2, 2, TextCause::OverLimit, "f 400078 1048577 4096"),
    (2, 2, TextCause::OverLimit, "f 400078 65536 1048577"),
    (30, 30, TextCause::OutOfOrder, "f 400078 0 0"),
    (2, 3, TextCause::BadLine, "f 400078 65536 4096\nv 0"),
    (34, 34, TextCause::BadLine, "x 400098 code"),
    (34, 34, TextCause::NotCanonical, "x 0400098 notcode"),
    (34, 34, TextCause::OutOfOrder, "x 400090 notcode"),
];

static SITES: [Row; 8] = [
    (3, 3, TextCause::BadLine, "s 400078 jump"),
    (3, 3, TextCause::BadLine, "s 400078"),
    (3, 3, TextCause::NotCanonical, "s 40007A step"),
    (10, 10, TextCause::OutOfOrder, "s 400078 call 400090"),
    (10, 10, TextCause::NotCanonical, "s 40007b call 0400090"),
    (10, 10, TextCause::BadLine, "s 40007b call"),
    (28, 28, TextCause::BadLine, "s 400081 end unknown"),
    (3, 4, TextCause::BadLine, "s 400078 step\ns 400079 ret"),
];

static ASSUMPTIONS: [Row; 17] = [
    (4, 4, TextCause::BadLine, "p [rdi0;8]"),
    (4, 4, TextCause::BadLine, "p [rdi0;3] [rsp0;8]"),
    (4, 4, TextCause::BadTerm, "p [rdi;8] [rsp0;8]"),
    (4, 4, TextCause::NotCanonical, "p [+rdi0;8] [rsp0;8]"),
    (4, 4, TextCause::NotCanonical, "p [rdi0;08] [rsp0;8]"),
    (
        4,
        4,
        TextCause::OverLimit,
        "p [zx8(zx8(zx8(zx8(zx8(zx8(zx8(zx8(zx8(zx8(zx8(zx8(zx8(zx8(zx8(zx8(1))))))))))))))));8] [rdi;8]",
    ),
    (5, 5, TextCause::OutOfOrder, "p [rdi0;8] [rsp0;8]"),
    (
        25,
        26,
        TextCause::BadLine,
        "s 400080 ret\np [rdi0;8] [rsp0;8]",
    ),
    (6, 6, TextCause::BadLine, "g [rdi0;8]"),
    (6, 6, TextCause::BadTerm, "g [rdi;8] [rsi0;8]"),
    (6, 6, TextCause::NotCanonical, "g [rdi0;8] [rsi0;08]"),
    (
        6,
        7,
        TextCause::BadLine,
        "g [rdi0;8] [rsi0;8]\ng [rdi0;8] [rsi0;8]",
    ),
    (11, 11, TextCause::BadLine, "k rsp0"),
    (11, 11, TextCause::BadTerm, "k [rsp;8]"),
    (11, 11, TextCause::NotCanonical, "k [8+rsp0;8]"),
    (12, 12, TextCause::OutOfOrder, "k [rsp0;8]"),
    (11, 11, TextCause::BadLine, "g [rdi0;8] [rsi0;8]"),
];

static VERTICES_AND_REGISTERS: [Row; 19] = [
    (7, 7, TextCause::BadLine, "v"),
    (7, 7, TextCause::BadLine, "v 18446744073709551616"),
    (7, 7, TextCause::NotCanonical, "v 00"),
    (7, 7, TextCause::OutOfOrder, "v 1"),
    (14, 14, TextCause::BadLine, "r rax"),
    (14, 14, TextCause::BadLine, "r rax="),
    (14, 14, TextCause::BadLine, "r eax=1"),
    (14, 14, TextCause::BadLine, "r rax=1  rcx=2"),
    (14, 14, TextCause::BadTerm, "r rax=??"),
    (14, 14, TextCause::BadTerm, "r rax=0X5"),
    (14, 14, TextCause::NotCanonical, "r rax=rax0"),
    (14, 14, TextCause::NotCanonical, "r rax=1*rcx0"),
    (14, 14, TextCause::NotCanonical, "r rax=0x270f"),
    (14, 14, TextCause::NotCanonical, "r rax=rcx0+rax0"),
    (14, 14, TextCause::NotCanonical, "r rsp=+rsp0-8"),
    (14, 14, TextCause::NotCanonical, "r rsp=-8+rsp0"),
    (14, 14, TextCause::OutOfOrder, "r rcx=1 rax=2"),
    (14, 14, TextCause::OutOfOrder, "r rax=1 rax=2"),
    (14, 15, TextCause::BadLine, "r rax=1\nr rcx=1"),
];

static FLAGS_AND_BOUNDS: [Row; 17] = [
    (15, 15, TextCause::BadLine, "z 33 1 2"),
    (15, 15, TextCause::BadLine, "z 32 1"),
    (15, 15, TextCause::BadTerm, "z 32 ( 2"),
    (15, 15, TextCause::NotCanonical, "z 032 1 2"),
    (15, 15, TextCause::NotCanonical, "z 32 1 02"),
    (15, 16, TextCause::BadLine, "z 32 1 2\nz 32 1 2"),
    (15, 16, TextCause::BadLine, "z 32 1 2\nr rax=1"),
    (16, 16, TextCause::BadLine, "b zx32(v400078) 0.9"),
    (16, 16, TextCause::BadLine, "b zx32(v400078) {}"),
    (16, 16, TextCause::BadLine, "b zx32(v400078) 0X5..9"),
    (16, 16, TextCause::BadTerm, "b zx32( 9..0"),
    (16, 16, TextCause::NotCanonical, "b zx32(v400078) 0x9..9"),
    (16, 16, TextCause::NotCanonical, "b zx32(v400078) 0..10000"),
    (16, 16, TextCause::OutOfOrder, "b zx32(v400078) 9..0"),
    (16, 16, TextCause::OutOfOrder, "b zx32(v400078) {2,1}"),
    (16, 16, TextCause::OutOfOrder, "b zx32(v400078) {1,1}"),
    (17, 17, TextCause::OutOfOrder, "b zx32(v400078) 0..1"),
];

static NODES: [Row; 14] = [
    (18, 18, TextCause::BadLine, "c [;8]"),
    (18, 18, TextCause::BadLine, "c [rdi0;5]"),
    (18, 18, TextCause::BadLine, "c [rdi0;8]="),
    (18, 18, TextCause::BadLine, "c .[rdi0;8]"),
    (18, 18, TextCause::BadTerm, "c [di;8]"),
    (18, 18, TextCause::NotCanonical, "c [rdi0;08]"),
    (18, 18, TextCause::NotCanonical, "c [rdi0;8]=08"),
    (18, 18, TextCause::OutOfOrder, "c [rdi0|rdx0;8]=rsi0"),
    (18, 18, TextCause::OutOfOrder, "c [rdi0|rdi0;8]=rsi0"),
    (
        18,
        18,
        TextCause::OverLimit,
        "c [rax0|rcx0|rdx0|rbx0|rsp0|rbp0|rsi0|rdi0|r80;8]",
    ),
    (19, 19, TextCause::BadLine, "c ..[rdi0;4]"),
    (19, 19, TextCause::OutOfOrder, "c .[rdi0;8]"),
    (20, 20, TextCause::OutOfOrder, "c [rax0;8]"),
    (20, 20, TextCause::OutOfOrder, "c [rdi0;8]"),
];

static EDGES_AND_ENDS: [Row; 12] = [
    (21, 21, TextCause::BadLine, "> 400080"),
    (21, 21, TextCause::BadLine, "> 400080:4294967296"),
    (21, 21, TextCause::NotCanonical, "> 0400080:0"),
    (21, 21, TextCause::NotCanonical, "> 400080:00"),
    (21, 22, TextCause::BadLine, "> 400080:0\n> 400080:0"),
    (24, 25, TextCause::BadLine, "c [rsp0-8;8]"),
    (27, 28, TextCause::BadLine, "c [rsp0;8]=ra\n> 400080:0"),
    (9, 9, TextCause::BadLine, ""),
    (9, 9, TextCause::BadLine, "s 40007b ret"),
    (35, 36, TextCause::BadLine, "end\nend"),
    (35, 35, TextCause::BadLine, "end "),
    (
        35,
        38,
        TextCause::Unended,
        "f 400099 0 0\ns 400099 ret\nv 0",
    ),
];

/// The text with the line of that number replaced.
fn replaced(alloc: Global, text: &str, number: u64, line: &str) -> Result<Vec<u8>, AllocError> {
    let mut out = Vec::new(alloc);
    let mut at = 1u64;
    for old in text.lines() {
        let put = if at == number { line } else { old };
        out.extend_from_slice(put.as_bytes())?;
        out.push(b'\n')?;
        at = at.saturating_add(1);
    }
    Ok(out)
}

fn fault_with(alloc: Global, number: u64, line: &str) -> Option<(u64, TextCause)> {
    match replaced(alloc, WHOLE, number, line) {
        Ok(text) => fault(alloc, text.as_slice()),
        Err(_) => None,
    }
}

/// What stands in the replaced line's place, for the first row that is refused otherwise.
fn first_other(alloc: Global, rows: &[Row]) -> Option<&'static str> {
    for (number, line, cause, put) in rows {
        if fault_with(alloc, *number, put) != Some((*line, *cause)) {
            return Some(put);
        }
    }
    None
}

fn assert_all(rt: &impl Abort, alloc: Global, rows: &[Row]) {
    assert_eq!(rt; first_other(alloc, rows), None);
}

#[test]
fn each_fault_has_its_line_and_its_first_cause(rt: HostRuntime) {
    assert_all(&rt, rt.alloc(), &HEADS_AND_FUNCTIONS);
    assert_all(&rt, rt.alloc(), &SITES);
    assert_all(&rt, rt.alloc(), &ASSUMPTIONS);
    assert_all(&rt, rt.alloc(), &VERTICES_AND_REGISTERS);
    assert_all(&rt, rt.alloc(), &FLAGS_AND_BOUNDS);
    assert_all(&rt, rt.alloc(), &NODES);
    assert_all(&rt, rt.alloc(), &EDGES_AND_ENDS);
}
