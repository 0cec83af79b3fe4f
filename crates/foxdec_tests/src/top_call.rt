// What no clause says: that the program succeeds where memory is ample, and its printed lines.
use foxdec_commands::{foxdec, foxdec_quiet};
use std::alloc::Global;
use std::test::Fail;
use wire_io::{MemShelf, MemSink, NoMemory, QuietShelf, QuietSink};

// The headers of an executable up to the sizes of its segment, from the tables of ELF-64.
const HEADERS: &[u8; 96] = b"\x7fELF\x02\x01\x01\0\0\0\0\0\0\0\0\0\
\x02\0\x3e\0\x01\0\0\0\x78\0\x40\0\0\0\0\0\
\x40\0\0\0\0\0\0\0\0\0\0\0\0\0\0\0\
\0\0\0\0\x40\0\x38\0\x01\0\0\0\0\0\0\0\
\x01\0\0\0\x05\0\0\0\0\0\0\0\0\0\0\0\
\0\0\x40\0\0\0\0\0\0\0\x40\0\0\0\0\0";

// An executable whose code is these bytes, at 0x400078.
pub(crate) fn executable(alloc: Global, code: &[u8]) -> Result<Vec<u8>, NoMemory> {
    let size = (code.len() as u64).saturating_add(120).to_le_bytes();
    let mut file = Vec::from_slice(alloc, HEADERS)?;
    file.extend_from_slice(&size)?;
    file.extend_from_slice(&size)?;
    file.extend_from_slice(b"\0\x10\0\0\0\0\0\0")?;
    file.extend_from_slice(code)?;
    Ok(file)
}

// The graph of these lines about the function at 0x400078.
pub(crate) fn graph(alloc: Global, lines: &str) -> Result<Vec<u8>, NoMemory> {
    let mut text = Vec::from_slice(alloc, b"foxdec graph 1\nf 400078 65536 4096\n")?;
    text.extend_from_slice(lines.as_bytes())?;
    text.extend_from_slice(b"end\n")?;
    Ok(text)
}

// The executable `a` and the graph `g`.
pub(crate) fn files(
    alloc: Global,
    a: Vec<u8>,
    g: Vec<u8>,
) -> Result<Vec<(String, Vec<u8>)>, NoMemory> {
    let mut files = Vec::new(alloc);
    let a_name = String::from_str(alloc, "a")?;
    let g_name = String::from_str(alloc, "g")?;
    match files.push((a_name, a)) {
        Ok(()) => {}
        Err(_) => return Err(NoMemory),
    }
    match files.push((g_name, g)) {
        Ok(()) => Ok(files),
        Err(_) => Err(NoMemory),
    }
}

fn words(alloc: Global, line: &str) -> Result<Vec<String>, NoMemory> {
    let mut words = Vec::new(alloc);
    for word in line.split_whitespace() {
        match words.push(String::from_str(alloc, word)?) {
            Ok(()) => {}
            Err(_) => return Err(NoMemory),
        }
    }
    Ok(words)
}

// What a run gave.
#[derive(Drop)]
pub(crate) struct Given {
    pub status: u8,
    pub out: Vec<u8>,
    pub err: Vec<u8>,
}

// Runs the program over the files, of which the reads of these numbers fail, and the writes.
pub(crate) fn run(
    alloc: Global,
    line: &str,
    files: Vec<(String, Vec<u8>)>,
    failing: Vec<u64>,
    failing_out: Vec<u64>,
) -> Result<Given, NoMemory> {
    let words = words(alloc, line)?;
    let mut shelf = MemShelf::new(files, 100, failing);
    let mut out = MemSink::new(alloc, 1_048_576, 4, failing_out)?;
    let mut err = MemSink::new(alloc, 1_048_576, 100, Vec::new(alloc))?;
    let status = foxdec(alloc, &words, &mut shelf, &mut out, &mut err);
    Ok(Given {
        status,
        out: out.bytes().to_vec(alloc)?,
        err: err.bytes().to_vec(alloc)?,
    })
}

// Runs `check a g` over an executable with this code and a graph with these lines.
fn check(alloc: Global, code: &[u8], lines: &str) -> Result<Given, NoMemory> {
    let files = files(alloc, executable(alloc, code)?, graph(alloc, lines)?)?;
    run(alloc, "check a g", files, Vec::new(alloc), Vec::new(alloc))
}

pub(crate) const RET: &str = "s 400078 ret\nv 0\nc [rsp0;8]=ra\n";

// The code of `movabs rax, -1` and `ret` (Intel SDM volume 2, MOV: REX.W B8+rd io).
const MOVE_RET: &[u8] = b"\x48\xb8\xff\xff\xff\xff\xff\xff\xff\xff\xc3";

// The graph of that code, as it is valid: what the first site says besides the return address, its edge, and the second
// site.
const FIRST: &str = "c [rsp0;8]=ra";

const EDGE: &str = "> 400082:0";

const SECOND: &str = "s 400082 ret\nv 0\nr rax=-1\nc [rsp0;8]=ra";

fn move_lines(alloc: Global, first: &str, edge: &str, second: &str) -> Result<String, NoMemory> {
    let mut lines = String::from_str(alloc, "s 400078 step\nv 0\n")?;
    for line in [first, edge, second] {
        lines.push_str(line)?;
        lines.push_str("\n")?;
    }
    Ok(lines)
}

// What the first site says, its edge, the second site, and the line that is printed: graphs that are valid, and such as break
// one rule alone.
static RULES: [(&str, &str, &str, &str); 13] = [
    (FIRST, EDGE, SECOND, "valid\n"),
    (
        FIRST,
        EDGE,
        "s 400082 ret\nv 0\nr rax=?\nc [rsp0;8]=ra",
        "valid\n",
    ),
    (
        "r rax=0\nc [rsp0;8]=ra",
        EDGE,
        SECOND,
        "invalid 400078 400078 0 0 entry\n",
    ),
    (
        "r rax=?\nc [rsp0;8]=ra",
        EDGE,
        SECOND,
        "invalid 400078 400078 0 0 entry\n",
    ),
    (
        FIRST,
        EDGE,
        "s 400082 step\nv 0\nr rax=-1\nc [rsp0;8]=ra\n> 400083:0",
        "invalid 400078 400082 0 0 kind\n",
    ),
    (
        FIRST,
        EDGE,
        "s 400082 ret\nv 0\nr rax=-1 rbx=?\nc [rsp0;8]=ra",
        "invalid 400078 400082 0 0 return\n",
    ),
    (
        FIRST,
        EDGE,
        "s 400082 ret\nv 0\nr rax=-1 rsp=?\nc [rsp0;8]=ra",
        "invalid 400078 400082 0 0 return\n",
    ),
    (
        FIRST,
        EDGE,
        "s 400082 ret\nv 0\nr rax=-1",
        "invalid 400078 400082 0 0 return\n",
    ),
    (
        FIRST,
        "> 400081:0",
        SECOND,
        "invalid 400078 400078 0 0 address\n",
    ),
    (
        FIRST,
        "> 400082:1",
        SECOND,
        "invalid 400078 400078 0 0 vertex\n",
    ),
    (
        FIRST,
        EDGE,
        "s 400082 ret\nv 0\nr rax=-2\nc [rsp0;8]=ra",
        "invalid 400078 400078 0 0 register\n",
    ),
    (
        FIRST,
        EDGE,
        "s 400082 ret\nv 0\nc [rsp0;8]=ra",
        "invalid 400078 400078 0 0 register\n",
    ),
    (
        FIRST,
        EDGE,
        "s 400082 ret\nv 0\nr rax=-1\nc [rsp0;8]=rdi0",
        "invalid 400078 400078 0 0 cell\n",
    ),
];

#[test]
fn names_the_rule_that_is_broken(rt: HostRuntime) -> Result<(), Fail> {
    let alloc = rt.alloc();
    for (first, edge, second, out) in &RULES {
        let lines = move_lines(alloc, first, edge, second)?;
        let run = check(alloc, MOVE_RET, lines.as_str())?;
        assert_eq!(rt; run.out.as_slice(), out.as_bytes(), "the output");
        assert_eq!(rt; run.status, u8::from(*out != "valid\n"), "the status");
        assert_eq!(rt; run.err.len(), 0, "there is no text");
    }
    Ok(())
}

#[test]
fn a_nop_goes_on_and_a_return_stands_alone(rt: HostRuntime) -> Result<(), Fail> {
    for (code, lines, status, out) in [
        (b"\xc3".as_slice(), RET, 0, "valid\n"),
        (
            b"\xc3".as_slice(),
            "s 400078 ret\nv 0\nc [rsp0;8]=rdi0\n",
            1,
            "invalid 400078 400078 0 0 entry\n",
        ),
        (
            b"\x66\x90\xc3",
            "s 400078 step\nv 0\nc [rsp0;8]=ra\n> 40007a:0\ns 40007a ret\nv 0\nc [rsp0;8]=ra\n",
            0,
            "valid\n",
        ),
    ] {
        let run = check(rt.alloc(), code, lines)?;
        assert_eq!(rt; run.status, status, "the status");
        assert_eq!(rt; run.out.as_slice(), out.as_bytes(), "the output");
        assert_eq!(rt; run.err.len(), 0, "the text");
    }
    Ok(())
}

#[test]
fn a_refused_function_breaks_no_rule(rt: HostRuntime) -> Result<(), Fail> {
    let alloc = rt.alloc();
    let text = Vec::from_slice(alloc, b"foxdec graph 1\nx 400078 notcode\nend\n")?;
    let files = files(alloc, executable(alloc, b"\xc3")?, text)?;
    let run = run(alloc, "check a g", files, Vec::new(alloc), Vec::new(alloc))?;
    assert_eq!(rt; run.out.as_slice(), b"valid\n".as_slice(), "the output");
    assert_eq!(rt; run.status, 0, "the status");
    Ok(())
}

// The code of `push rbx`, `pop rbx` and `ret` (Intel SDM volume 2, PUSH, POP, RET).
const PUSH_POP: &[u8] = b"\x53\x5b\xc3";

// The graph text of that code, in which the second line and the ninth are these.
fn push_pop(alloc: Global, line_2: &str, line_9: &str) -> Result<String, NoMemory> {
    let mut text = String::from_str(alloc, "foxdec graph 1\n")?;
    text.push_str(line_2)?;
    text.push_str("\ns 400078 step\nv 0\nc [rsp0;8]=ra\n> 400079:0\ns 400079 step\nv 0\n")?;
    text.push_str(line_9)?;
    text.push_str(
        "\nc [rsp0;8]=ra\nc [rsp0-8;8]=rbx0\n> 40007a:0\n\
s 40007a ret\nv 0\nc [rsp0;8]=ra\nc [rsp0-8;8]=rbx0\nend\n",
    )?;
    Ok(text)
}

const FUNCTION: &str = "f 400078 65536 4096";

// The texts are the graph of the code with one line spelled otherwise, or cut off: the second and the ninth line, how many
// bytes of the text stand there, and what is said of it.
static FAULTY: [(&str, &str, usize, &str); 6] = [
    (
        FUNCTION,
        "r rsp=+rsp0-8",
        1000,
        "foxdec: g: line 9: NotCanonical (4)\n",
    ),
    (
        FUNCTION,
        "r rsp=-8+rsp0",
        1000,
        "foxdec: g: line 9: NotCanonical (4)\n",
    ),
    (
        FUNCTION,
        "r rax=rax0 rsp=rsp0-8",
        1000,
        "foxdec: g: line 9: NotCanonical (4)\n",
    ),
    (
        "f 400078 65536 4096\r",
        "r rsp=rsp0-8",
        1000,
        "foxdec: g: line 2: BadLine (2)\n",
    ),
    (
        FUNCTION,
        "r rsp=rsp0-8",
        20,
        "foxdec: g: line 2: Unended (7)\n",
    ),
    (
        FUNCTION,
        "r rsp=rsp0-8",
        0,
        "foxdec: g: line 1: Unended (7)\n",
    ),
];

#[test]
fn names_the_first_faulty_line_of_a_text(rt: HostRuntime) -> Result<(), Fail> {
    let alloc = rt.alloc();
    for (line_2, line_9, len, err) in FAULTY {
        let mut text = push_pop(alloc, line_2, line_9)?.into_bytes();
        text.truncate(len);
        let files = files(alloc, executable(alloc, PUSH_POP)?, text)?;
        let run = run(alloc, "check a g", files, Vec::new(alloc), Vec::new(alloc))?;
        assert_eq!(rt; run.err.as_slice(), err.as_bytes(), "the text");
        assert_eq!(rt; run.status, 5, "the status");
        assert_eq!(rt; run.out.len(), 0, "the output");
    }
    Ok(())
}

// The code of a call of the last of two returns (Intel SDM volume 2, CALL: E8 cd), of `cmp edi, 1` before a return (CMP: 83 /7
// ib), of a system call before one (SYSCALL), and of `test edi, edi; jz` to the next instruction, a return (TEST, Jcc).
const CALL: &[u8] = b"\xe8\x01\0\0\0\xc3\xc3";

const COMPARE: &[u8] = b"\x83\xff\x01\xc3";

const SYSTEM_CALL: &[u8] = b"\x0f\x05\xc3";

const BRANCH: &[u8] = b"\x85\xff\x74\0\xc3";

// What is known after the call, and the function that is called.
const CALLED: &str = "v 0\nc [rsp0;8]=ra\n> 40007d:0\n\
s 40007d ret\nv 0\nr rax=? rcx=? rdx=? rsi=? rdi=? r8=? r9=? r10=? r11=?\nc [rsp0;8]=ra\n\
f 40007e 65536 4096\ns 40007e ret\nv 0\nc [rsp0;8]=ra\n";

// What is known before the comparison, and behind it but for its flags and bounds.
const COMPARED: &str = "s 400078 step\nv 0\nc [rsp0;8]=ra\n> 40007b:0\ns 40007b ret\nv 0\n";

// Graphs of other instructions, each with its verdict.
static JUDGED: [(&[u8], &str, &str, &str); 15] = [
    (
        PUSH_POP,
        "s 400078 step\nv 0\nc [rsp0;8]=ra\n> 400079:0\n\
s 400079 step\nv 0\nr rsp=rsp0-8\nc [rsp0;8]=ra\nc [rsp0-8;8]=rbx0\n> 40007a:0\n",
        "s 40007a ret\nv 0\nc [rsp0;8]=ra\nc [rsp0-8;8]=rbx0\n",
        "valid\n",
    ),
    (b"\xf4", RET, "", "invalid 400078 400078 0 0 kind\n"),
    (
        MOVE_RET,
        "s 400078 step\nv 0\nc [rsp0;8]=ra\n> 400082:0 400083:0\n",
        "s 400082 ret\nv 0\nr rax=-1\nc [rsp0;8]=ra\n",
        "invalid 400078 400078 0 0 cases\n",
    ),
    (
        CALL,
        "s 400078 call 40007e\nk [rsp0;8]\n",
        CALLED,
        "valid\n",
    ),
    (
        CALL,
        "s 400078 call 40007f\nk [rsp0;8]\n",
        CALLED,
        "invalid 400078 400078 0 0 callee\n",
    ),
    (
        CALL,
        "s 400078 call 400078\nk [rsp0;8]\n",
        CALLED,
        "invalid 400078 400078 0 0 target\n",
    ),
    (
        CALL,
        "s 400078 call 40007e\nk [rsp0;8]\nk [rsp0-16;8]\n",
        CALLED,
        "invalid 400078 400078 0 0 keep\n",
    ),
    (
        CALL,
        "s 400078 call 40007e\np [rsp0;8] [rsp0-8;8]\nk [rsp0;8]\n",
        CALLED,
        "invalid 400078 400078 0 0 decided\n",
    ),
    (
        CALL,
        "s 400078 call 40007e\n",
        CALLED,
        "invalid 400078 400078 0 0 cell\n",
    ),
    (
        b"\x90\xc3",
        "s 400078 step\ng [rsi0;8] [rdi0;8]\nv 0\nc [rsp0;8]=ra\n> 400079:0 400079:0 400079:0\n",
        "s 400079 ret\nv 0\nc [rsp0;8]=ra\n",
        "invalid 400078 400078 0 0 fork\n",
    ),
    (
        COMPARE,
        COMPARED,
        "z 32 zx32(rdi0) 1\nc [rsp0;8]=ra\n",
        "valid\n",
    ),
    (
        COMPARE,
        COMPARED,
        "z 32 zx32(rdi0) 2\nc [rsp0;8]=ra\n",
        "invalid 400078 400078 0 0 flags\n",
    ),
    (
        COMPARE,
        COMPARED,
        "b rdi0 0..3\nc [rsp0;8]=ra\n",
        "invalid 400078 400078 0 0 bound\n",
    ),
    (
        SYSTEM_CALL,
        "s 400078 outside\nk [rsp0;8]\nv 0\nc [rsp0;8]=ra\n> 40007a:0\n",
        "s 40007a ret\nv 0\nr rax=v400078 rcx=? r11=?\nc [rsp0;8]=ra\n",
        "valid\n",
    ),
    (
        BRANCH,
        "s 400078 step\nv 0\nc [rsp0;8]=ra\n> 40007a:0\n\
s 40007a step\nv 0\nz 32 zx32(rdi0) 0\nc [rsp0;8]=ra\n> 40007c:0 40007c:1\n",
        "s 40007c ret\nv 0\nb zx32(rdi0) 0..0\nc [rsp0;8]=ra\n\
v 1\nb zx32(rdi0) 1..0xffffffff\nc [rsp0;8]=ra\n",
        "valid\n",
    ),
];

#[test]
fn judges_calls_pairs_comparisons_and_branches(rt: HostRuntime) -> Result<(), Fail> {
    let alloc = rt.alloc();
    for (code, first, second, out) in JUDGED {
        let mut lines = String::from_str(alloc, first)?;
        lines.push_str(second)?;
        let run = check(alloc, code, lines.as_str())?;
        assert_eq!(rt; run.out.as_slice(), out.as_bytes(), "the output");
        assert_eq!(rt; run.status, u8::from(out != "valid\n"), "the status");
        assert_eq!(rt; run.err.len(), 0, "there is no text");
    }
    Ok(())
}

// An executable of 121 bytes with one byte changed, up to a length.
fn changed(alloc: Global, at: usize, byte: u8, len: usize) -> Result<Vec<u8>, NoMemory> {
    let mut file = executable(alloc, b"\xc3")?;
    if at < file.len() {
        file[at] = byte;
    }
    file.truncate(len);
    Ok(file)
}

// The words, a byte of the executable that is changed, its length, and what is said of it. The places and the meanings of the
// bytes are those of ELF-64: p_filesz at 96, e_type at 16.
static NO_EXECUTABLES: [(&str, usize, u8, usize, &str); 4] = [
    (
        "check a g",
        0,
        0x7f,
        63,
        "foxdec: a: executable refused: TooShort (1)\n",
    ),
    (
        "show a 400078 1",
        0,
        0x7f,
        63,
        "foxdec: a: executable refused: TooShort (1)\n",
    ),
    (
        "show a 400078 1",
        96,
        122,
        121,
        "foxdec: a: executable refused: SegmentOutside (12)\n",
    ),
    (
        "show a 400078 1",
        16,
        3,
        121,
        "foxdec: a: executable refused: NotExec (6)\n",
    ),
];

#[test]
fn names_why_a_file_is_no_executable(rt: HostRuntime) -> Result<(), Fail> {
    let alloc = rt.alloc();
    for (line, at, byte, len, err) in NO_EXECUTABLES {
        let files = files(alloc, changed(alloc, at, byte, len)?, graph(alloc, RET)?)?;
        let run = run(alloc, line, files, Vec::new(alloc), Vec::new(alloc))?;
        assert_eq!(rt; run.status, 4, "the status");
        assert_eq!(rt; run.out.len(), 0, "there is no output");
        assert_eq!(rt; run.err.as_slice(), err.as_bytes(), "the text");
    }
    Ok(())
}

// Runs `show a` with this address and count over an executable with this code.
fn show(alloc: Global, numbers: &str, code: &[u8]) -> Result<Given, NoMemory> {
    let mut line = String::from_str(alloc, "show a ")?;
    line.push_str(numbers)?;
    let files = files(alloc, executable(alloc, code)?, graph(alloc, RET)?)?;
    run(
        alloc,
        line.as_str(),
        files,
        Vec::new(alloc),
        Vec::new(alloc),
    )
}

// The address and the count, the code, and what is printed. The encodings and their meanings are those of Intel SDM volume 2.
static SHOWN: [(&str, &[u8], &str); 9] = [
    (
        "400078 1",
        b"\x67\xe8\x03\0\0\0",
        "400078 67e803000000 call 0x400081\n",
    ),
    (
        "400078 1",
        b"\x66\x2e\x0f\x1f\x84\0\0\0\0\0",
        "400078 662e0f1f840000000000 nop\n",
    ),
    (
        "400078 1",
        b"\x64\x48\x8b\x04\x25\x28\0\0\0",
        "400078 64488b042528000000 mov rax, qword [fs:40]\n",
    ),
    ("400078 1", b"\xf0\x01\x07", "400078 none\n"),
    (
        "400078 2",
        b"\x66\x66\x66\x66\x66\x66\x66\x66\x66\x66\x66\x66\x66\x66\x90",
        "400078 666666666666666666666666666690 nop\n400087 none\n",
    ),
    (
        "400078 2",
        b"\x66\x66\x66\x66\x66\x66\x66\x66\x66\x66\x66\x66\x66\x66\x66\x90",
        "400078 none\n",
    ),
    (
        "0000000000400078 65536",
        b"\x90\xf2\xc3",
        "400078 90 nop\n400079 f2c3 ret\n40007b none\n",
    ),
    ("FFFFFFFFFFFFFFFF 1", b"\xc3", "ffffffffffffffff none\n"),
    ("f 1", b"\xc3", "f none\n"),
];

#[test]
fn shows_the_instructions_from_an_address_on(rt: HostRuntime) -> Result<(), Fail> {
    for (numbers, code, out) in &SHOWN {
        let run = show(rt.alloc(), numbers, code)?;
        assert_eq!(rt; run.status, 0, "the status");
        assert_eq!(rt; run.out.as_slice(), out.as_bytes(), "the output");
        assert_eq!(rt; run.err.len(), 0, "there is no text");
    }
    Ok(())
}

#[test]
fn words_that_are_no_command_read_nothing(rt: HostRuntime) -> Result<(), Fail> {
    let alloc = rt.alloc();
    for line in [
        "",
        "check a",
        "check a -g",
        "check a g g",
        "show a 0 0",
        "show a +1 1",
        "show a 1 65537",
    ] {
        let run = run(
            alloc,
            line,
            Vec::new(alloc),
            [0].to_vec(alloc)?,
            Vec::new(alloc),
        )?;
        assert_eq!(rt; run.status, 2, "words that are no command");
        assert_eq!(rt; run.out.len(), 0, "words that are no command");
        assert_eq!(rt;
            run.err.as_slice(),
            b"foxdec: the words are not a command\n".as_slice(),
            "words that are no command"
        );
    }
    Ok(())
}

#[test]
fn a_read_or_a_write_fails_in_mid_stream(rt: HostRuntime) -> Result<(), Fail> {
    let alloc = rt.alloc();
    for (failing, failing_out, status, out, err) in [
        (1, 9, 3, "", "foxdec: a: read failed\n"),
        (4, 9, 3, "", "foxdec: g: read failed\n"),
        (9, 1, 6, "vali", "foxdec: write failed after 4 bytes\n"),
    ] {
        let files = files(alloc, executable(alloc, b"\xc3")?, graph(alloc, RET)?)?;
        let run = run(
            alloc,
            "check a g",
            files,
            [failing].to_vec(alloc)?,
            [failing_out].to_vec(alloc)?,
        )?;
        assert_eq!(rt; run.status, status, "the status");
        assert_eq!(rt; run.out.as_slice(), out.as_bytes(), "the output");
        assert_eq!(rt; run.err.as_slice(), err.as_bytes(), "the text");
    }
    Ok(())
}

#[test]
fn a_quiet_stream_takes_the_line_where_it_has_room(rt: HostRuntime) -> Result<(), Fail> {
    let alloc = rt.alloc();
    let words = words(alloc, "check a g")?;
    let files = files(alloc, executable(alloc, b"\xc3")?, graph(alloc, RET)?)?;
    let mut shelf = QuietShelf::new(files, 100);
    for (room, status, out, text) in [
        (6, 0, "valid\n", ""),
        (0, 6, "", "foxdec: write failed after 0 bytes\n"),
    ] {
        let mut stream = QuietSink::new(alloc, room)?;
        let mut err = QuietSink::new(alloc, 100)?;
        let got = foxdec_quiet(alloc, &words, &mut shelf, &mut stream, &mut err);
        assert_eq!(rt; got, status, "with this room");
        assert_eq!(rt; stream.bytes(), out.as_bytes(), "with this room");
        assert_eq!(rt; err.bytes(), text.as_bytes(), "with this room");
    }
    Ok(())
}
