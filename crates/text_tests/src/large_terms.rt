use crate::refusal::fault;
use graph_text::TextCause;
use std::alloc::{AllocError, Global};

/// A text that begins and goes on like this, with a term of 33 nodes between.
fn with_large_term(alloc: Global, before: &str, after: &str) -> Result<Vec<u8>, AllocError> {
    let mut text = Vec::new(alloc);
    text.extend_from_slice(b"foxdec graph 1\nf 1 0 0\n")?;
    text.extend_from_slice(before.as_bytes())?;
    text.extend_from_slice(
        b"zx8(zx8(zx8(zx8(zx8(zx8(zx8(zx8(zx8(zx8(zx8(zx8(zx8(zx8(zx8(zx8(1))))))))))))))))",
    )?;
    text.extend_from_slice(after.as_bytes())?;
    Ok(text)
}

fn fault_of_large_term(alloc: Global, before: &str, after: &str) -> Option<(u64, TextCause)> {
    match with_large_term(alloc, before, after) {
        Ok(text) => fault(alloc, text.as_slice()),
        Err(_) => None,
    }
}

#[test]
fn a_term_of_33_nodes_is_over_the_limit_in_each_line(rt: HostRuntime) {
    for (before, after, line) in [
        ("s 1 step\np [", ";8] [1;8]\n", 4),
        ("s 1 step\ng [", ";8] [1;8]\n", 4),
        ("s 1 outside\nk [", ";8]\n", 4),
        ("s 1 ret\nv 0\nr rax=", "\n", 5),
        ("s 1 ret\nv 0\nz 32 ", " 1\n", 5),
        ("s 1 ret\nv 0\nb ", " 1..2\n", 5),
        ("s 1 ret\nv 0\nc [", ";8]\n", 5),
        ("s 1 ret\nv 0\nc [1;8]=", "\n", 5),
    ] {
        let found = fault_of_large_term(rt.alloc(), before, after);
        assert_eq!(rt;
            found,
            Some((line, TextCause::OverLimit)),
            "the line of the term"
        );
    }
}
