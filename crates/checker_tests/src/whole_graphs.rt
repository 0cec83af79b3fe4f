// Graphs of small programs and of a compiled one: what `check` says of them, and of the same with a change that breaks one
// rule.
use crate::compiled_graph::{COMPILED, COMPILED_CODE};
use crate::graphs::*;
use foxdec_commands::foxdec;
use std::alloc::Global;
use std::process::Abort;
use wire_io::{NoMemory, QuietShelf, QuietSink};

// The headers of an executable up to the sizes of its one segment, which begins at 0x400000 (ELF-64: file header, program header).
const HEADERS: &[u8; 96] = b"\x7fELF\x02\x01\x01\0\0\0\0\0\0\0\0\0\
\x02\0\x3e\0\x01\0\0\0\x78\0\x40\0\0\0\0\0\
\x40\0\0\0\0\0\0\0\0\0\0\0\0\0\0\0\
\0\0\0\0\x40\0\x38\0\x01\0\0\0\0\0\0\0\
\x01\0\0\0\x05\0\0\0\0\0\0\0\0\0\0\0\
\0\0\x40\0\0\0\0\0\0\0\x40\0\0\0\0\0";

// An executable whose code is these bytes, at 0x400078.
pub(crate) fn executable(alloc: Global, code: &[u8]) -> Result<Vec<u8>, NoMemory> {
    let size = (code.len() as u64).saturating_add(120).to_le_bytes();
    let mut file = Vec::from_slice(alloc, HEADERS)?;
    file.extend_from_slice(&size)?;
    file.extend_from_slice(&size)?;
    file.extend_from_slice(b"\0\x10\0\0\0\0\0\0")?;
    file.extend_from_slice(code)?;
    Ok(file)
}

// The words `check a g`.
fn words(alloc: Global) -> Result<Vec<String>, NoMemory> {
    let mut words = Vec::new(alloc);
    for word in ["check", "a", "g"] {
        match words.push(String::from_str(alloc, word)?) {
            Ok(()) => {}
            Err(_) => return Err(NoMemory),
        }
    }
    Ok(words)
}

pub(crate) fn put_file(
    alloc: Global,
    files: &mut Vec<(String, Vec<u8>)>,
    name: &str,
    bytes: Vec<u8>,
) -> Result<(), NoMemory> {
    match files.push((String::from_str(alloc, name)?, bytes)) {
        Ok(()) => Ok(()),
        Err(_) => Err(NoMemory),
    }
}

// The executable `a` with this code, and the graph `g` with this text.
pub(crate) fn files(
    alloc: Global,
    code: &[u8],
    graph: &[u8],
) -> Result<Vec<(String, Vec<u8>)>, NoMemory> {
    let mut files = Vec::new(alloc);
    put_file(alloc, &mut files, "a", executable(alloc, code)?)?;
    put_file(alloc, &mut files, "g", Vec::from_slice(alloc, graph)?)?;
    Ok(files)
}

// What `check a g` prints of an executable with this code and a graph with this text.
fn verdict(alloc: Global, code: &[u8], graph: &[u8]) -> Result<Vec<u8>, NoMemory> {
    let words = words(alloc)?;
    let mut shelf = QuietShelf::new(files(alloc, code, graph)?, 4096);
    let mut out = QuietSink::new(alloc, 4096)?;
    let mut err = QuietSink::new(alloc, 4096)?;
    foxdec(alloc, &words, &mut shelf, &mut out, &mut err);
    Ok(out.bytes().to_vec(alloc)?)
}

// The text with other lines in place of some of it; nothing, where those do not stand there.
fn changed(alloc: Global, text: &str, old: &str, new: &str) -> Result<Vec<u8>, NoMemory> {
    let mut out = Vec::new(alloc);
    if let Some((before, after)) = text.split_once(old) {
        out.extend_from_slice(before.as_bytes())?;
        out.extend_from_slice(new.as_bytes())?;
        out.extend_from_slice(after.as_bytes())?;
    }
    Ok(out)
}

// Code, and a graph of it that breaks no rule.
type Whole = (&'static [u8], &'static str);

// Lines of a graph, those in their place, and what is printed then.
type Change = (&'static str, &'static str, &'static str);

// Code, a graph of it, a change of that, and what is printed then.
type Changed = (
    &'static [u8],
    &'static str,
    &'static str,
    &'static str,
    &'static str,
);

fn assert_valid(rt: &impl Abort, alloc: Global, rows: &[Whole]) -> Result<(), NoMemory> {
    for (code, graph) in rows {
        let out = verdict(alloc, code, graph.as_bytes())?;
        assert_eq!(rt; out.as_slice(), b"valid\n".as_slice(), "no rule is broken");
    }
    Ok(())
}

fn assert_change(rt: &impl Abort, alloc: Global, row: &Changed) -> Result<(), NoMemory> {
    let (code, graph, old, new, line) = *row;
    let text = changed(alloc, graph, old, new)?;
    let out = verdict(alloc, code, text.as_slice())?;
    assert_eq!(rt; out.as_slice(), line.as_bytes(), "what the change breaks");
    Ok(())
}

fn assert_changed(rt: &impl Abort, alloc: Global, rows: &[Changed]) -> Result<(), NoMemory> {
    for row in rows {
        assert_change(rt, alloc, row)?;
    }
    Ok(())
}

fn assert_compiled(rt: &impl Abort, alloc: Global, rows: &[Change]) -> Result<(), NoMemory> {
    for (old, new, line) in rows {
        assert_change(rt, alloc, &(COMPILED_CODE, COMPILED, *old, *new, *line))?;
    }
    Ok(())
}

static MOVES_STORES_AND_JUMPS: [Whole; 13] = [
    (RETURN_CODE, RETURN),
    (MOVE_CODE, MOVE),
    (PUSH_AND_POP_CODE, PUSH_AND_POP),
    (PUSH_CODE, PUSH),
    (STORE_CODE, STORE),
    (STORE_IN_A_CELL_CODE, STORE_IN_A_CELL),
    (EXCHANGE_A_BYTE_CODE, EXCHANGE_A_BYTE),
    (INTO_AN_INSTRUCTION_CODE, INTO_AN_INSTRUCTION),
    (TO_ITSELF_CODE, TO_ITSELF),
    (LOCK_CODE, LOCK),
    (EXTERN_JUMP_CODE, EXTERN_JUMP),
    (SHIFT_BY_CL_CODE, SHIFT_BY_CL),
    (LOOP_CODE, LOOP),
];

#[test]
fn graphs_of_moves_stores_and_jumps_are_valid(rt: HostRuntime) -> Result<(), NoMemory> {
    assert_valid(&rt, rt.alloc(), &MOVES_STORES_AND_JUMPS)
}

static TABLES_CALLS_AND_A_PAIR: [Whole; 11] = [
    (SWITCH_CODE, SWITCH),
    (SWITCH_IN_A_LOOP_CODE, SWITCH_IN_A_LOOP),
    (DISPATCH_LOOP_CODE, DISPATCH_LOOP),
    (RELATIVE_TABLE_CODE, RELATIVE_TABLE),
    (BACK_TO_ITS_TABLE_CODE, BACK_TO_ITS_TABLE),
    (RECURSION_CODE, RECURSION),
    (SYSTEM_CALL_CODE, SYSTEM_CALL),
    (CALL_OUTSIDE_CODE, CALL_OUTSIDE),
    (CALL_OF_A_PUSH_CODE, CALL_OF_A_PUSH),
    (FORK_CODE, FORK),
    (COMPILED_CODE, COMPILED),
];

#[test]
fn graphs_of_tables_calls_and_a_pair_told_apart_are_valid(rt: HostRuntime) -> Result<(), NoMemory> {
    assert_valid(&rt, rt.alloc(), &TABLES_CALLS_AND_A_PAIR)
}

static LESS_SAID: [Changed; 4] = [
    (MOVE_CODE, MOVE, "r rax=-1\n", "r rax=?\n", "valid\n"),
    (
        STORE_CODE,
        STORE,
        "p [rdi0;8] [rsp0;8]\nv 0\nc [rsp0;8]=ra\n> 40007b:0\ns 40007b ret\nv 0\nc [rsp0;8]=ra\n",
        "v 0\nc [rsp0;8]=ra\n> 40007b:0\ns 40007b end badreturn\nv 0\n",
        "valid\n",
    ),
    (
        SWITCH_CODE,
        SWITCH,
        "s 400086 ret\nv 0\nr rax=zx32(rdi0)\nz 32 zx32(rdi0) 3\nb v40007f {0x400086,0x400087,0x400088}\nb zx32(rdi0) 0..3\n",
        "s 400086 ret\nv 0\nr rax=zx32(rdi0)\nz 32 zx32(rdi0) 3\nb v40007f {0x400086,0x400087,0x400088}\n",
        "valid\n",
    ),
    (
        SWITCH_CODE,
        SWITCH,
        "r rax=?\nz 32 zx32(rdi0) 3\n",
        "r rax=?\n",
        "valid\n",
    ),
];

#[test]
fn what_is_left_unsaid_is_not_missed(rt: HostRuntime) -> Result<(), NoMemory> {
    assert_changed(&rt, rt.alloc(), &LESS_SAID)
}

static CHANGED_MOVES_STORES_AND_A_LOOP: [Changed; 8] = [
    (
        MOVE_CODE,
        MOVE,
        "> 400082:0\n",
        "> 400081:0\n",
        "invalid 400078 400078 0 0 address\n",
    ),
    (
        MOVE_CODE,
        MOVE,
        "r rax=-1\n",
        "r rax=-2\n",
        "invalid 400078 400078 0 0 register\n",
    ),
    (
        RETURN_CODE,
        RETURN,
        "c [rsp0;8]=ra\n",
        "c [rsp0;8]=rdi0\n",
        "invalid 400078 400078 0 0 entry\n",
    ),
    (
        PUSH_CODE,
        PUSH,
        "s 400079 end badreturn\n",
        "s 400079 ret\n",
        "invalid 400078 400079 0 0 return\n",
    ),
    (
        PUSH_AND_POP_CODE,
        PUSH_AND_POP,
        "s 400078 step\n",
        "s 400078 step\np [rsp0-8;8] [rsp0;8]\n",
        "invalid 400078 400078 0 0 decided\n",
    ),
    (
        STORE_CODE,
        STORE,
        "p [rdi0;8] [rsp0;8]\n",
        "",
        "invalid 400078 400078 0 0 cell\n",
    ),
    (
        STORE_CODE,
        STORE,
        "p [rdi0;8] [rsp0;8]\nv 0\nc [rsp0;8]=ra\n> 40007b:0\ns 40007b ret\nv 0\nc [rsp0;8]=ra\n",
        "v 0\nc [rsp0;8]=ra\n> 40007b:0\ns 40007b ret\nv 0\n",
        "invalid 400078 40007b 0 0 return\n",
    ),
    (
        LOOP_CODE,
        LOOP,
        "r rsp=rsp0-8\nc [rsp0;8]=ra\nc [rsp0-8;8]=rbx0\n",
        "r rsp=rsp0-8\nc [rsp0;8]=ra\n",
        "invalid 400078 400079 0 0 cell\n",
    ),
];

#[test]
fn a_change_of_moves_stores_and_a_loop_breaks_the_rule(rt: HostRuntime) -> Result<(), NoMemory> {
    assert_changed(&rt, rt.alloc(), &CHANGED_MOVES_STORES_AND_A_LOOP)
}

static CHANGED_TABLES_AND_CALLS: [Changed; 7] = [
    (
        SWITCH_CODE,
        SWITCH,
        "> 400086:0 400087:0 400088:0\n",
        "> 400086:0 400087:0 400088:0 400089:0\n",
        "invalid 400078 40007f 0 0 cases\n",
    ),
    (
        SWITCH_CODE,
        SWITCH,
        "b zx32(rdi0) 0..3\nc [rsp0;8]=ra\n> 40007f:0\ns 40007f step\nv 0\nr rax=zx32(rdi0)\nz 32 zx32(rdi0) 3\nb zx32(rdi0) 0..3\n",
        "b zx32(rdi0) 0..4\nc [rsp0;8]=ra\n> 40007f:0\ns 40007f step\nv 0\nr rax=zx32(rdi0)\nz 32 zx32(rdi0) 3\nb zx32(rdi0) 0..4\n",
        "invalid 400078 40007f 0 0 cases\n",
    ),
    (
        RECURSION_CODE,
        RECURSION,
        "k [rsp0;8]\n",
        "",
        "invalid 400078 400078 0 0 cell\n",
    ),
    (
        RECURSION_CODE,
        RECURSION,
        "s 400078 call 400078\n",
        "s 400078 call 40007d\n",
        "invalid 400078 400078 0 0 callee\n",
    ),
    (
        SYSTEM_CALL_CODE,
        SYSTEM_CALL,
        "r rax=v400078 rcx=? r11=?\n",
        "r rax=v400078 rcx=?\n",
        "invalid 400078 400078 0 0 register\n",
    ),
    (
        CALL_OF_A_PUSH_CODE,
        CALL_OF_A_PUSH,
        "f 40007e 65536 4096\ns 40007e step\nv 0\nc [rsp0;8]=ra\n> 40007f:0\ns 40007f step\nv 0\nr rsp=rsp0-8\nc [rsp0;8]=ra\nc [rsp0-8;8]=rbx0\n> 400080:0\ns 400080 ret\nv 0\nc [rsp0;8]=ra\nc [rsp0-8;8]=rbx0\n",
        "",
        "invalid 400078 400078 0 0 callee\n",
    ),
    (
        CALL_OF_A_PUSH_CODE,
        CALL_OF_A_PUSH,
        "c [rsp0;8]=ra\nc [rsp0-8;8]\nf 40007e 65536 4096\ns 40007e step\nv 0\nc [rsp0;8]=ra\n> 40007f:0\ns 40007f step\nv 0\nr rsp=rsp0-8\nc [rsp0;8]=ra\nc [rsp0-8;8]=rbx0\n> 400080:0\ns 400080 ret\nv 0\nc [rsp0;8]=ra\nc [rsp0-8;8]=rbx0\n",
        "c [rsp0;8]=rdi0\nc [rsp0-8;8]\n",
        "invalid 400078 400078 0 0 callee\n",
    ),
];

#[test]
fn a_change_of_tables_and_calls_breaks_the_rule(rt: HostRuntime) -> Result<(), NoMemory> {
    assert_changed(&rt, rt.alloc(), &CHANGED_TABLES_AND_CALLS)
}

static CHANGED_EDGES: [Change; 7] = [
    (
        "> 4000ad:0\n",
        "> 4000af:0\n",
        "invalid 400078 4000ab 0 0 address\n",
    ),
    (
        "r rax=? rcx=? rdx=v4000b4 rsi=? rdi=? r8=? r9=? r10=? r11=?\nb zx32(v400096) 3..3\n",
        "r rax=? rcx=? rdx=v4000b4 rsi=? rdi=? r8=? r9=? r10=? r11=?\nb zx32(v400096) 0..2\n",
        "invalid 400078 4000c3 0 0 bound\n",
    ),
    (
        "> 4000ab:0 4000ad:0 4000af:0\n",
        "> 4000ab:0 4000ad:0\n",
        "invalid 400078 4000a4 0 0 cases\n",
    ),
    (
        "r rax=? rcx=? rdx=v4000b4 rsi=? rdi=? r8=? r9=? r10=? r11=?\nb zx32(v400096) 3..3\nc [rsp0;8]=ra\nc [rsp0-32;8]\nc [rsp0-16;8]=v4000af\n",
        "r rax=? rcx=? rdx=v4000b4 rsi=? rdi=? r8=? r9=? r10=? r11=?\nb zx32(v400096) 3..3\nc [rsp0;8]=ra\nc [rsp0-32;8]\nc [rsp0-16;8]=rbx0\n",
        "invalid 400078 4000c3 0 0 cell\n",
    ),
    (
        "r rax=? rcx=? rdx=v4000b4 rsi=? rdi=? r8=? r9=? r10=? r11=?\n",
        "r rax=? rcx=? rdx=v4000b4 rsi=? rdi=? r8=? r9=? r10=? r11=?\nz 32 zx32(v400091) 2\n",
        "invalid 400078 4000c3 0 0 flags\n",
    ),
    (
        "r rax=v4000c5 rcx=? rdx=? rbx=v400096 rsp=rsp0-24 rsi=? rdi=? r8=? r9=? r10=? r11=?\n",
        "r rax=v4000c5 rcx=0 rdx=? rbx=v400096 rsp=rsp0-24 rsi=? rdi=? r8=? r9=? r10=? r11=?\n",
        "invalid 400078 4000c5 0 0 register\n",
    ),
    (
        "> 40007d:0\n",
        "> 40007d:1\n",
        "invalid 400078 40007c 0 0 vertex\n",
    ),
];

#[test]
fn a_change_of_a_compiled_function_breaks_the_rule_of_its_edges(
    rt: HostRuntime,
) -> Result<(), NoMemory> {
    assert_compiled(&rt, rt.alloc(), &CHANGED_EDGES)
}

static CHANGED_SITES: [Change; 8] = [
    (
        "f 4000d1 65536 4096\ns 4000d1 end stop\nv 0\nc [rsp0;8]=ra\n",
        "",
        "invalid 400078 4000c5 0 0 callee\n",
    ),
    (
        "s 40008a step\n",
        "s 40008a step\np [rsp0-16;8] [rsp0;8]\n",
        "invalid 400078 40008a 0 0 decided\n",
    ),
    (
        "s 400078 step\nv 0\n",
        "s 400078 step\nv 0\nb rdi0 0..9\n",
        "invalid 400078 400078 0 0 entry\n",
    ),
    (
        "v 0\nc [rsp0;8]=ra\n> 40007d:0\n",
        "g [rdi0;8] [rsi0;8]\nv 0\nc [rsp0;8]=ra\n> 40007d:0 40007d:0 40007d:0\n",
        "invalid 400078 40007c 0 0 fork\n",
    ),
    (
        "s 400091 call 4000cb\nk [rsp0;8]\n",
        "s 400091 call 4000cb\nk [rsp0;8]\nk [rsp0-16;8]\n",
        "invalid 400078 400091 0 0 keep\n",
    ),
    (
        "s 4000d1 end stop\n",
        "s 4000d1 ret\n",
        "invalid 4000d1 4000d1 0 0 kind\n",
    ),
    (
        "r rax=? rcx=? rdx=v4000b4 rsi=? rdi=? r8=? r9=? r10=? r11=?\n",
        "r rax=? rcx=? rdx=v4000b4 rbx=? rsi=? rdi=? r8=? r9=? r10=? r11=?\n",
        "invalid 400078 4000c4 0 0 return\n",
    ),
    (
        "s 400091 call 4000cb\n",
        "s 400091 call 4000d1\n",
        "invalid 400078 400091 0 0 target\n",
    ),
];

#[test]
fn a_change_of_a_compiled_function_breaks_the_rule_of_its_sites(
    rt: HostRuntime,
) -> Result<(), NoMemory> {
    assert_compiled(&rt, rt.alloc(), &CHANGED_SITES)
}
