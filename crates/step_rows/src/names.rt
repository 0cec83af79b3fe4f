use crate::rows::{Case, More, Row, row};
use crate::sample::Facts;

pub static ROWS: [Row; 9] = [
    row!("nop drops what mentions its name"; b"\x90"; "step";
        "rcx=zx32(v400078) rbx=v400078+1" "64 rdi0 v400078" "v400078 0..3\nb zx32(v400078) 0..3"
        "[rsp0;8]=v400078\nc .[rsp0;4]=3\nc [v400078;8]=5" =>
        0x40_0079 "rcx=? rbx=?" "" "" "[rsp0;8]\nc .[rsp0;4]=3" [
            More::Register(1, "rcx=zx32(v400078) rbx=?"), More::Register(3, "rcx=? rbx=v400078+1"),
            More::Flags("64 rdi0 v400078"), More::Bound(0, "v400078 0..3"), More::Bound(0, "zx32(v400078) 0..3"),
            More::Cell(0, "[rsp0;8]=v400078\nc .[rsp0;4]=3"), More::Cell(2, "[rsp0;8]\nc .[rsp0;4]=3\nc [v400078;8]")]),
    row!("nop keeps what mentions another's name"; b"\x90"; "step";
        "rbx=v400079+1" "64 rdi0 v400077" "v400079 0..3" "[rsp0;8]=v400079\nc [v400077;8]=5" =>
        0x40_0079 "rbx=v400079+1" "64 rdi0 v400077" "v400079 0..3" "[rsp0;8]=v400079\nc [v400077;8]=5" [
            More::Register(3, "")]),
    row!("a name among others goes alone"; b"\x90"; "step"; "" "" "" "[rdi0|v400078;8]=5\nc [v400077|v400078+8;4]" =>
        0x40_0079 "" "" "" "[rdi0;8]=5\nc [v400077;4]" [
            More::Cell(0, "[rdi0|v400078;8]=5\nc [v400077;4]"), More::Cell(1, "[rdi0;8]=5\nc [v400077|v400078+8;4]")]),
    row!("a node without names goes with its children"; b"\x90"; "step"; "" "" ""
        "[v400078;8]\nc .[rdi0;4]=5" => 0x40_0079 "" "" "" "" [More::Cell(0, "[rdi0;4]")]),
    row!("a jump drops it too"; b"\xeb\x05"; "step"; "rbx=v400078" "" "v400078 0..3" "[v400078;8]=5" =>
        0x40_007f "rbx=?" "" "" "" [
            More::Register(3, "rbx=v400078"), More::Bound(0, "v400078 0..3"), More::Cell(0, "[v400078;8]")]),
    row!("a conditional jump drops it too"; b"\x74\x05"; "step"; "rbx=v400078" "64 v400078 3" "" "" =>
        0x40_007f "rbx=?" "" "" "" [More::Flags("64 v400078 3"), More::Bound(0, "v400078 3..3")];
        0x40_007a "rbx=?" "" "" "" [More::Register(3, "rbx=v400078")]),
    row!("an old name goes before the register takes the new one"; b"\xff\xc3"; "step"; "rbx=v400078" "" "" "" =>
        0x40_007a "rbx=v400078" "" "" "" [More::Register(3, "rbx=zx32(zx32(v400078)+1)")]),
    row!("an unknown register that nothing writes stays unknown"; b"\x90"; "step"; "rbx=?" "" "" "" =>
        0x40_0079 "rbx=?" "" "" "" [More::Register(3, ""), More::Register(3, "rbx=v400078")]),
    row!("cmp of registers names nothing"; b"\x39\xd8"; "step"; "rbx=?" "32 zx32(rdi0) 3" "" "" =>
        0x40_007a "rbx=?" "" "" "" [More::Register(3, "rbx=v400078"), More::Flags("32 zx32(rdi0) 3"),
            More::Flags("32 zx32(rax0) zx32(v400078)")]),
];
