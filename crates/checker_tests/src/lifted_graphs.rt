// What `lift` prints of small programs: graphs that `check` calls valid.
use crate::compiled_graph::{COMPILED, COMPILED_CODE};
use crate::graphs::*;
use crate::whole_graphs::{executable, files, put_file};
use foxdec_commands::foxdec;
use std::alloc::Global;
use std::process::Abort;
use wire_io::{MemSink, NoMemory, QuietShelf, QuietSink};

// The words of `lift` with these options, parted by blanks, and the file `a`.
fn words(alloc: Global, options: &str) -> Result<Vec<String>, NoMemory> {
    let mut words = Vec::new(alloc);
    for word in options.split_whitespace() {
        match words.push(String::from_str(alloc, word)?) {
            Ok(()) => {}
            Err(_) => return Err(NoMemory),
        }
    }
    Ok(words)
}

// What is printed of an executable with this code.
fn printed(alloc: Global, line: &str, code: &[u8]) -> Result<Vec<u8>, NoMemory> {
    let words = words(alloc, line)?;
    let mut shelf = QuietShelf::new(files(alloc, code, b"")?, 4096);
    let mut out = QuietSink::new(alloc, 65_536)?;
    let mut err = QuietSink::new(alloc, 4096)?;
    foxdec(alloc, &words, &mut shelf, &mut out, &mut err);
    Ok(out.bytes().to_vec(alloc)?)
}

// The words, the code, and the graph that is printed.
type Lifted = (&'static str, &'static [u8], &'static str);

fn assert_lifted(rt: &impl Abort, alloc: Global, rows: &[Lifted]) -> Result<(), NoMemory> {
    for (line, code, graph) in rows {
        let out = printed(alloc, line, code)?;
        assert_eq!(rt; out.as_slice(), graph.as_bytes(), "the graph");
    }
    Ok(())
}

static MOVES_STORES_AND_JUMPS: [Lifted; 13] = [
    ("lift a", RETURN_CODE, RETURN),
    ("lift a", MOVE_CODE, MOVE),
    ("lift a", PUSH_AND_POP_CODE, PUSH_AND_POP),
    ("lift a", PUSH_CODE, PUSH),
    ("lift a", STORE_CODE, STORE),
    ("lift a", STORE_IN_A_CELL_CODE, STORE_IN_A_CELL),
    ("lift a", EXCHANGE_A_BYTE_CODE, EXCHANGE_A_BYTE),
    ("lift a", INTO_AN_INSTRUCTION_CODE, INTO_AN_INSTRUCTION),
    ("lift a", TO_ITSELF_CODE, TO_ITSELF),
    ("lift a", LOCK_CODE, LOCK),
    ("lift --extern 40007a a", EXTERN_JUMP_CODE, EXTERN_JUMP),
    ("lift a", SHIFT_BY_CL_CODE, SHIFT_BY_CL),
    ("lift a", LOOP_CODE, LOOP),
];

#[test]
fn moves_stores_and_jumps_are_lifted(rt: HostRuntime) -> Result<(), NoMemory> {
    assert_lifted(&rt, rt.alloc(), &MOVES_STORES_AND_JUMPS)
}

static TABLES_AND_CALLS: [Lifted; 10] = [
    ("lift a", SWITCH_CODE, SWITCH),
    ("lift a", SWITCH_IN_A_LOOP_CODE, SWITCH_IN_A_LOOP),
    ("lift a", DISPATCH_LOOP_CODE, DISPATCH_LOOP),
    ("lift a", RELATIVE_TABLE_CODE, RELATIVE_TABLE),
    ("lift a", BACK_TO_ITS_TABLE_CODE, BACK_TO_ITS_TABLE),
    ("lift a", RECURSION_CODE, RECURSION),
    ("lift a", SYSTEM_CALL_CODE, SYSTEM_CALL),
    ("lift --extern 40007e a", CALL_OUTSIDE_CODE, CALL_OUTSIDE),
    ("lift a", CALL_OF_A_PUSH_CODE, CALL_OF_A_PUSH),
    ("lift a", COMPILED_CODE, COMPILED),
];

#[test]
fn tables_and_calls_are_lifted(rt: HostRuntime) -> Result<(), NoMemory> {
    assert_lifted(&rt, rt.alloc(), &TABLES_AND_CALLS)
}

static ROOTS: [Lifted; 6] = [
    (
        "lift --root 400079 a",
        b"\xc3\xc3",
        "foxdec graph 1\nf 400078 65536 4096\ns 400078 ret\nv 0\nc [rsp0;8]=ra\nf 400079 65536 4096\ns 400079 ret\nv 0\nc [rsp0;8]=ra\nend\n",
    ),
    (
        "lift --root 400079 --extern 400079 --root 400078 a",
        b"\xc3\xc3",
        "foxdec graph 1\nf 400078 65536 4096\ns 400078 ret\nv 0\nc [rsp0;8]=ra\nf 400079 65536 4096\ns 400079 end extern\nv 0\nc [rsp0;8]=ra\nend\n",
    ),
    (
        "lift --root 500000 a",
        b"\xc3",
        "foxdec graph 1\nf 400078 65536 4096\ns 400078 ret\nv 0\nc [rsp0;8]=ra\nx 500000 notcode\nend\n",
    ),
    ("lift --root xyz a", b"\xc3", ""),
    ("lift a --root 400078", b"\xc3", ""),
    ("lift --scan a", b"\xc3", ""),
];

#[test]
fn functions_begin_at_the_roots(rt: HostRuntime) -> Result<(), NoMemory> {
    assert_lifted(&rt, rt.alloc(), &ROOTS)
}

// A switch whose table can be written, in a segment of its own (ELF-64: file header, two program headers).
const WRITABLE_TABLE_FILE: &[u8] =
    b"\x7fELF\x02\x01\x01\0\0\0\0\0\0\0\0\0\x02\0>\0\x01\0\0\0\xb0\0@\0\0\0\0\0@\0\0\0\0\0\0\0\0\0\0\0\0\0\0\
\0\0\0\0\0@\0\x38\0\x02\0\0\0\0\0\0\0\x01\0\0\0\x05\0\0\0\0\0\0\0\0\0\0\0\0\0@\0\0\0\0\0\0\0@\0\0\0\0\
\0\xc8\0\0\0\0\0\0\0\xc8\0\0\0\0\0\0\0\0\x10\0\0\0\0\0\0\x01\0\0\0\x06\0\0\0\xc8\0\0\0\0\0\0\0\xc8\0`\
\0\0\0\0\0\xc8\0`\0\0\0\0\0 \0\0\0\0\0\0\0 \0\0\0\0\0\0\0\0\x10\0\0\0\0\0\0\x83\xff\x03w\x0b\x89\xf8\xff\
$\xc5\xc8\0`\0\xc3\xc3\xc3\xcc\xcc\xcc\xcc\xcc\xcc\xcc\xbe\0@\0\0\0\0\0\xbf\0@\0\0\0\0\0\xbe\0@\0\0\0\
\0\0\xc0\0@\0\0\0\0\0";

const WRITABLE_TABLE: &str = "foxdec graph 1
f 4000b0 65536 4096
s 4000b0 step
v 0
c [rsp0;8]=ra
> 4000b3:0
s 4000b3 step
v 0
z 32 zx32(rdi0) 3
c [rsp0;8]=ra
> 4000c0:0 4000b5:0
s 4000b5 step
v 0
z 32 zx32(rdi0) 3
b zx32(rdi0) 0..3
c [rsp0;8]=ra
> 4000b7:0
s 4000b7 end unresolved
v 0
r rax=zx32(rdi0)
z 32 zx32(rdi0) 3
b zx32(rdi0) 0..3
c [rsp0;8]=ra
s 4000c0 ret
v 0
z 32 zx32(rdi0) 3
b zx32(rdi0) 4..0xffffffff
c [rsp0;8]=ra
end
";

// What `lift a` prints of a file into a room of so many bytes.
fn lifted_file(alloc: Global, file: Vec<u8>, room: u64) -> Result<Vec<u8>, NoMemory> {
    let words = words(alloc, "lift a")?;
    let mut files = Vec::new(alloc);
    put_file(alloc, &mut files, "a", file)?;
    let mut shelf = QuietShelf::new(files, 4096);
    let mut out = QuietSink::new(alloc, room)?;
    let mut err = QuietSink::new(alloc, 4096)?;
    foxdec(alloc, &words, &mut shelf, &mut out, &mut err);
    Ok(out.bytes().to_vec(alloc)?)
}

#[test]
fn a_table_that_can_be_written_tells_no_targets(rt: HostRuntime) -> Result<(), NoMemory> {
    let alloc = rt.alloc();
    let file = Vec::from_slice(alloc, WRITABLE_TABLE_FILE)?;
    let out = lifted_file(alloc, file, 65_536)?;
    assert_eq!(rt; out.as_slice(), WRITABLE_TABLE.as_bytes(), "the graph");
    Ok(())
}

#[test]
fn an_entry_that_is_no_code_is_refused(rt: HostRuntime) -> Result<(), NoMemory> {
    let alloc = rt.alloc();
    let mut file = executable(alloc, b"\xc3")?;
    // The low byte of e_entry (ELF-64, file header).
    if let Some(entry) = file.get_mut(24) {
        *entry = 0x79;
    }
    let out = lifted_file(alloc, file, 65_536)?;
    let graph = b"foxdec graph 1\nx 400079 notcode\nend\n";
    assert_eq!(rt; out.as_slice(), graph.as_slice(), "the graph");
    Ok(())
}

#[test]
fn a_long_run_is_lifted_whole(rt: HostRuntime) -> Result<(), NoMemory> {
    let alloc = rt.alloc();
    let mut code = vec![in alloc; 0x90; 16_384]?;
    code.extend_from_slice(b"\xc3")?;
    let out = lifted_file(alloc, executable(alloc, code.as_slice())?, 2_097_152)?;
    let sites = out
        .as_slice()
        .windows(3)
        .filter(|w| *w == b"\ns ".as_slice())
        .count();
    assert_eq!(rt; sites, 16_385, "the sites");
    Ok(())
}

#[test]
fn a_graph_that_is_cut_off_has_its_first_bytes(rt: HostRuntime) -> Result<(), NoMemory> {
    let alloc = rt.alloc();
    let words = words(alloc, "lift a")?;
    let mut shelf = QuietShelf::new(files(alloc, RETURN_CODE, b"")?, 4096);
    let mut failing = Vec::new(alloc);
    failing.extend_from_slice(&[1])?;
    let mut out = MemSink::new(alloc, 65_536, 10, failing)?;
    let mut err = QuietSink::new(alloc, 4096)?;
    let status = foxdec(alloc, &words, &mut shelf, &mut out, &mut err);
    assert_eq!(rt; status, 6, "the status");
    assert_eq!(rt; out.bytes(), b"foxdec gra".as_slice(), "what was written");
    assert_eq!(rt;
        err.bytes(),
        b"foxdec: write failed after 10 bytes\n".as_slice(),
        "the text"
    );
    Ok(())
}
