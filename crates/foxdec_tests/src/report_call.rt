// The command `report`: its output, and each status that it can end with.
use crate::top_call::{RET, executable, files, graph, run};
use std::test::Fail;

// What is reported of the graph with the one site `ret` of a function of 1 byte.
const REPORT: &str = "foxdec report
entry 400078
functions 1
sites 1
vertices 1
covered 1 of 121
function 400078 frame 65536 4096 sites 1 vertices 1
return 400078
";

// The graph whose vertex does not hold at the entry, of which `check` prints the broken rule.
const BROKEN: &str = "s 400078 ret\nv 0\nc [rsp0;8]=rdi0\n";

// No such read or write fails.
const NONE: u64 = 99;

// The words; the length of the executable, and the lines of the graph; the read and the write that fail; the status, the
// output and the text.
type Report = (
    &'static str,
    usize,
    &'static str,
    u64,
    u64,
    u8,
    &'static str,
    &'static str,
);

static REPORTS: [Report; 11] = [
    ("report a g", 121, RET, NONE, NONE, 0, REPORT, ""),
    ("report a g", 121, BROKEN, NONE, NONE, 0, REPORT, ""),
    (
        "report a",
        121,
        RET,
        0,
        NONE,
        2,
        "",
        "foxdec: the words are not a command\n",
    ),
    (
        "report a -g",
        121,
        RET,
        0,
        NONE,
        2,
        "",
        "foxdec: the words are not a command\n",
    ),
    (
        "report a g g",
        121,
        RET,
        0,
        NONE,
        2,
        "",
        "foxdec: the words are not a command\n",
    ),
    (
        "report a g",
        121,
        RET,
        1,
        NONE,
        3,
        "",
        "foxdec: a: read failed\n",
    ),
    (
        "report a g",
        121,
        RET,
        4,
        NONE,
        3,
        "",
        "foxdec: g: read failed\n",
    ),
    (
        "report a h",
        121,
        RET,
        NONE,
        NONE,
        3,
        "",
        "foxdec: h: read failed\n",
    ),
    (
        "report a g",
        63,
        "v 0\n",
        NONE,
        NONE,
        4,
        "",
        "foxdec: a: executable refused: TooShort (1)\n",
    ),
    (
        "report a g",
        121,
        "v 0\n",
        NONE,
        NONE,
        5,
        "",
        "foxdec: g: line 3: BadLine (2)\n",
    ),
    (
        "report a g",
        121,
        RET,
        NONE,
        1,
        6,
        "foxd",
        "foxdec: write failed after 4 bytes\n",
    ),
];

#[test]
fn a_report_ends_as_check_does_but_judges_nothing(rt: HostRuntime) -> Result<(), Fail> {
    let alloc = rt.alloc();
    for (words, length, lines, failing, failing_out, status, out, err) in REPORTS {
        let mut file = executable(alloc, b"\xc3")?;
        file.truncate(length);
        let files = files(alloc, file, graph(alloc, lines)?)?;
        let failing = [failing].to_vec(alloc)?;
        let failing_out = [failing_out].to_vec(alloc)?;
        let run = run(alloc, words, files, failing, failing_out)?;
        assert_eq!(rt; run.status, status, "the status");
        assert_eq!(rt; run.out.as_slice(), out.as_bytes(), "the output");
        assert_eq!(rt; run.err.as_slice(), err.as_bytes(), "the text");
    }
    Ok(())
}
