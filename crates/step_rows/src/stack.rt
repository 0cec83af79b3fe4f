use crate::rows::{Case, More, Row, row};
use crate::sample::Facts;

pub static PUSHES: [Row; 9] = [
    row!("push rbx"; b"\x53"; "step"; "" "32 zx32(rdi0) 3" "" "[rsp0;8]=ra" =>
        0x40_0079 "rsp=rsp0-8" "32 zx32(rdi0) 3" "" "[rsp0;8]=ra\nc [rsp0-8;8]=rbx0" []),
    row!("push rsp"; b"\x54"; "step"; "" "" "" "" => 0x40_0079 "rsp=rsp0-8" "" "" "[rsp0-8;8]=rsp0" []),
    row!("push -1"; b"\x6a\xff"; "step"; "" "" "" "" => 0x40_007a "rsp=rsp0-8" "" "" "[rsp0-8;8]=-1" []),
    row!("push rbx, unknown"; b"\x53"; "step"; "rbx=?" "" "" "" =>
        0x40_0079 "rbx=? rsp=rsp0-8" "" "" "[rsp0-8;8]" [More::Cell(0, "[rsp0-8;8]=v400078")]),
    row!("push qword [rdi]"; b"\xff\x37"; "step"; "" "" "" "" =>
        0x40_007a "rsp=rsp0-8" "" "" "[rsp0-8;8]=v400078" [More::Cell(0, "[rdi0;8]")]),
    row!("push qword [rdi], with a pair"; b"\xff\x37"; "step\np [rdi0;8] [rsp0-8;8]"; "" "" "" "" =>
        0x40_007a "rsp=rsp0-8" "" "" "[rdi0;8]=v400078\nc [rsp0-8;8]=v400078" []),
    row!("push rbx, with rsp unknown"; b"\x53"; "step"; "rsp=?" "" "" "[rsp0;8]=ra" =>
        0x40_0079 "rsp=?" "" "" "[v400078;8]=rbx0" [
            More::Register(4, "rsp=v400078"), More::Register(4, "rsp=v400078-8"), More::Cell(0, "[rsp0;8]")]),
    row!("push qword [rdi], with rsp unknown"; b"\xff\x37"; "step"; "rsp=?" "" "" "[rsp0;8]=ra" =>
        0x40_007a "rsp=?" "" "" "" [More::Cell(0, "[rsp0;8]"), More::Cell(0, "[v400078;8]")]),
    row!("push qword [rsp]"; b"\xff\x34\x24"; "step"; "" "" "" "[rsp0;8]=ra" =>
        0x40_007b "rsp=rsp0-8" "" "" "[rsp0;8]=ra\nc [rsp0-8;8]=ra" []),
];

pub static POPS: [Row; 9] = [
    row!("pop rbx, a value"; b"\x5b"; "step"; "" "32 zx32(rdi0) 3" "" "[rsp0;8]=ra" =>
        0x40_0079 "rbx=ra rsp=rsp0+8" "32 zx32(rdi0) 3" "" "[rsp0;8]=ra" []),
    row!("pop rbx, nothing known"; b"\x5b"; "step"; "" "" "" "" =>
        0x40_0079 "rbx=v400078 rsp=rsp0+8" "" "" "[rsp0;8]=v400078" []),
    row!("pop rsp"; b"\x5c"; "step"; "" "" "" "[rsp0;8]=ra" => 0x40_0079 "rsp=ra" "" "" "[rsp0;8]=ra" [
        More::Register(4, "rsp=rsp0+8")]),
    row!("pop rbx, with rsp unknown"; b"\x5b"; "step"; "rsp=?" "" "" "[rsp0;8]=ra" =>
        0x40_0079 "rbx=v400078 rsp=?" "" "" "[rsp0;8]=ra" [
            More::Register(4, "rbx=v400078 rsp=v400078"), More::Register(4, "rbx=v400078 rsp=v400078+8")]),
    row!("pop rbx, of fixed bytes"; b"\x5b"; "step"; "rsp=0x4000b0" "" "" "" =>
        0x40_0079 "rbx=0x400010 rsp=0x4000b8" "" "" "" []),
    row!("leave, a value"; b"\xc9"; "step"; "rsp=?" "" "" "[rbp0;8]=rdi0" =>
        0x40_0079 "rsp=rbp0+8 rbp=rdi0" "" "" "[rbp0;8]=rdi0" []),
    row!("leave, nothing known"; b"\xc9"; "step"; "" "" "" "" =>
        0x40_0079 "rsp=rbp0+8 rbp=v400078" "" "" "[rbp0;8]=v400078" [More::Register(5, "rsp=rbp0+8")]),
    row!("leave, with rbp unknown"; b"\xc9"; "step"; "rbp=?" "" "" "[rsp0;8]=ra" =>
        0x40_0079 "rsp=? rbp=v400078" "" "" "[rsp0;8]=ra" [
            More::Register(4, "rbp=v400078"), More::Register(4, "rsp=v400078 rbp=v400078"),
            More::Register(4, "rsp=v400078+8 rbp=v400078")]),
    row!("leave, of fixed bytes"; b"\xc9"; "step"; "rbp=0x4000b0" "" "" "" =>
        0x40_0079 "rsp=0x4000b8 rbp=0x400010" "" "" "" []),
];
