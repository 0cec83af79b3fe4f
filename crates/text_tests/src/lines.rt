use graph_lines::{Line, TextCause, VertexLine, put_line, read_line};
use std::alloc::Global;
use std::process::Abort;

fn is_written_as(alloc: Global, line: &Line, text: &[u8]) -> bool {
    let mut written = Vec::new(alloc);
    put_line(&mut written, line).is_ok() && written.as_slice() == text
}

/// Whether the text is that of the line that is read, or why it is refused.
fn reading(alloc: Global, text: &[u8]) -> Result<bool, TextCause> {
    let mut buffer = Vec::new(alloc);
    match read_line(alloc, text, &mut buffer) {
        Ok(line) => Ok(is_written_as(alloc, &line, text)),
        Err(cause) => Err(cause),
    }
}

/// The first text with another reading.
fn first_other(
    alloc: Global,
    texts: &[&'static str],
    wanted: Result<bool, TextCause>,
) -> Option<&'static str> {
    for text in texts {
        if reading(alloc, text.as_bytes()) != wanted {
            return Some(text);
        }
    }
    None
}

fn assert_all(
    rt: &impl Abort,
    alloc: Global,
    texts: &[&'static str],
    wanted: Result<bool, TextCause>,
) {
    assert_eq!(rt; first_other(alloc, texts, wanted), None);
}

static LINES_OF_A_SITE: [&str; 15] = [
    "f 400078 65536 4096",
    "x ffffffffffffffff notcode",
    "s 0 step",
    "s 400078 call 4000cb",
    "s 400078 outside",
    "s 400078 ret",
    "s 400078 end unresolved",
    "s 400078 end badreturn",
    "s 400078 end unsupported",
    "s 400078 end stop",
    "s 400078 end extern",
    "p [rdi0;8] [rsp0;1]",
    "g [8*rcx0+rdi0;4] [rsp0-8;2]",
    "k [rsp0;8]",
    "end",
];

static LINES_OF_A_VERTEX: [&str; 8] = [
    "v 18446744073709551615",
    "r rbx=? rsp=rsp0-8 r15=v40007b",
    "z 32 zx32(v40007b) 10",
    "b zx32(v40007b) 10..0x2710",
    "b v400080 {0x400086,0x400087}",
    "c [rsp0;8]=ra",
    "c ..[rdi0|rsp0-8;4]",
    "> 40007b:0 400082:4294967295",
];

#[test]
fn lines_of_every_kind_are_read_and_written_back(rt: HostRuntime) {
    assert_all(&rt, rt.alloc(), &LINES_OF_A_SITE, Ok(true));
    assert_all(&rt, rt.alloc(), &LINES_OF_A_VERTEX, Ok(true));
}

static OTHER_SPELLINGS: [&str; 12] = [
    "f 0400078 65536 4096",
    "x 40007B notcode",
    "s 400078 call 04",
    "v 00",
    "p [rdi0;08] [rsp0;1]",
    "r rsp=rsp0",
    "r rbx=? r15=r150",
    "z 032 rax0 10",
    "b rax0 0x5..9",
    "b rax0 {10000}",
    "k [8+rsp0;8]",
    "> 40007b:00",
];

#[test]
fn other_spellings_of_a_line_are_not_canonical(rt: HostRuntime) {
    assert_all(
        &rt,
        rt.alloc(),
        &OTHER_SPELLINGS,
        Err(TextCause::NotCanonical),
    );
}

static NO_LINES_OF_A_SITE: [&str; 14] = [
    "",
    "e",
    "end ",
    "f 400078 65536",
    "f 400078 65536 4096 ",
    "f 400078  65536 4096",
    "x 400078 notCode",
    "s 400078 jump",
    "s 10000000000000000 step",
    "s 400078 end",
    "k [rsp0;3]",
    "k [rsp0;8]]",
    "k [;8]",
    "q 0",
];

static NO_LINES_OF_A_VERTEX: [&str; 15] = [
    "v -1",
    "v 18446744073709551616",
    "v 0\t",
    "r ",
    "r rsp=",
    "r eax=?",
    "z 12 rax0 10",
    "b rax0 5",
    "b rax0 {}",
    "b rax0 5...9",
    "c [;8]",
    "c [rsp0;8]=",
    "c [rsp0||rdi0;8]",
    "> ",
    "> 40007b:4294967296",
];

#[test]
fn what_has_the_form_of_no_line_is_a_bad_line(rt: HostRuntime) {
    assert_all(
        &rt,
        rt.alloc(),
        &NO_LINES_OF_A_SITE,
        Err(TextCause::BadLine),
    );
    assert_all(
        &rt,
        rt.alloc(),
        &NO_LINES_OF_A_VERTEX,
        Err(TextCause::BadLine),
    );
}

static BAD_TERM_FIRST: [&str; 5] = [
    "k [rsp;8]",
    "k [?;08]",
    "p [rsp;8] [rsp0+0;8]",
    "r rax=rax0 rbx=rbx",
    "c [rsp0|rsp;8]=??",
];

#[test]
fn terms_are_judged_from_the_left_before_the_spelling_of_the_line(rt: HostRuntime) {
    let alloc = rt.alloc();
    assert_all(&rt, alloc, &BAD_TERM_FIRST, Err(TextCause::BadTerm));
    assert_all(
        &rt,
        alloc,
        &["p [rsp0+0;8] [rsp;8]"],
        Err(TextCause::NotCanonical),
    );
    assert_all(&rt, alloc, &["p [rsp;8] [rsp;9]"], Err(TextCause::BadLine));
    let deep =
        "k [zx8(zx8(zx8(zx8(zx8(zx8(zx8(zx8(zx8(zx8(zx8(zx8(zx8(zx8(zx8(zx8(rax0))))))))))))))));8]";
    assert_all(&rt, alloc, &[deep], Err(TextCause::OverLimit));
}

/// The level and the size of a line's node, and whether its value is known.
fn node_of(line: &Line) -> Option<(u64, u8, bool)> {
    match line {
        Line::InVertex(VertexLine::Node(level, node)) => {
            Some((*level, node.bytes, node.value.is_some()))
        }
        _ => None,
    }
}

fn node_at(alloc: Global, text: &[u8]) -> Option<(u64, u8, bool)> {
    let mut buffer = Vec::new(alloc);
    match read_line(alloc, text, &mut buffer) {
        Ok(line) => node_of(&line),
        Err(_) => None,
    }
}

#[test]
fn a_line_is_told_by_its_variant(rt: HostRuntime) {
    assert_eq!(rt; node_at(rt.alloc(), b"c ..[rsp0;8]"), Some((2, 8, false)));
}
