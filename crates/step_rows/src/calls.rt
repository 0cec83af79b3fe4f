use crate::rows::{Case, More, Row, row};
use crate::sample::Facts;

pub static CALLS: [Row; 8] = [
    row!("call, one region kept"; b"\xe8\xfb\xff\xff\xff"; "call 400078\nk [rsp0;8]"; "" "" "" "[rsp0;8]=ra" =>
        0x40_007d "rax=v400078 rcx=? rdx=? rsi=? rdi=? r8=? r9=? r10=? r11=?" "" "" "[rsp0;8]=ra\nc [rsp0-8;8]" [
            More::Register(1, "rax=v400078 rdx=? rsi=? rdi=? r8=? r9=? r10=? r11=?"),
            More::Register(2, "rax=v400078 rcx=? rsi=? rdi=? r8=? r9=? r10=? r11=?"),
            More::Register(6, "rax=v400078 rcx=? rdx=? rdi=? r8=? r9=? r10=? r11=?"),
            More::Register(7, "rax=v400078 rcx=? rdx=? rsi=? r8=? r9=? r10=? r11=?"),
            More::Register(8, "rax=v400078 rcx=? rdx=? rsi=? rdi=? r9=? r10=? r11=?"),
            More::Register(9, "rax=v400078 rcx=? rdx=? rsi=? rdi=? r8=? r10=? r11=?"),
            More::Register(10, "rax=v400078 rcx=? rdx=? rsi=? rdi=? r8=? r9=? r11=?"),
            More::Register(11, "rax=v400078 rcx=? rdx=? rsi=? rdi=? r8=? r9=? r10=?"),
            More::Cell(1, "[rsp0;8]=ra\nc [rsp0-8;8]=0x40007d")]),
    row!("call, nothing kept"; b"\xe8\xfb\xff\xff\xff"; "outside"; "rbx=7 r15=?" "64 rdi0 3" "rdi0 0..3"
        "[rsp0;8]=ra\nc .[rsp0;4]=5" => 0x40_007d
        "rax=v400078 rcx=? rdx=? rbx=7 rsi=? rdi=? r8=? r9=? r10=? r11=? r15=?" "" "rdi0 0..3"
        "[rsp0;8]\nc .[rsp0;4]\nc [rsp0-8;8]" [More::Flags("64 rdi0 3"), More::Cell(0, "[rsp0;8]=ra")]),
    row!("call, the address that it pushed kept"; b"\xe8\xfb\xff\xff\xff"; "outside\nk [rsp0-8;8]"; "" "" ""
        "[rsp0;8]=ra" => 0x40_007d "rax=v400078 rcx=? rdx=? rsi=? rdi=? r8=? r9=? r10=? r11=?" "" ""
        "[rsp0;8]\nc [rsp0-8;8]=0x40007d" []),
    row!("call, a value that mentions the name"; b"\xe8\xfb\xff\xff\xff"; "outside\nk [rsp0;8]"; "rbx=v400078" "" ""
        "[rsp0;8]=v400078" => 0x40_007d "rax=v400078 rcx=? rdx=? rbx=? rsi=? rdi=? r8=? r9=? r10=? r11=?" "" ""
        "[rsp0;8]\nc [rsp0-8;8]" [More::Cell(0, "[rsp0;8]=v400078")]),
    row!("call, with rsp unknown"; b"\xe8\xfb\xff\xff\xff"; "outside\nk [rsp0;8]"; "rsp=?" "" "" "[rsp0;8]=ra" =>
        0x40_007d "rax=v400078 rcx=? rdx=? rsp=? rsi=? rdi=? r8=? r9=? r10=? r11=?" "" "" "" [
            More::Cell(0, "[rsp0;8]"), More::Cell(0, "[v400078;8]")]),
    row!("call rax"; b"\xff\xd0"; "outside"; "" "" "" "" =>
        0x40_007a "rax=v400078 rcx=? rdx=? rsi=? rdi=? r8=? r9=? r10=? r11=?" "" "" "[rsp0-8;8]" []),
    row!("call [rdi]"; b"\xff\x17"; "outside\np [rdi0;8] [rsp0-8;8]\nk [rdi0;8]"; "" "" "" "[rdi0;8]=5" =>
        0x40_007a "rax=v400078 rcx=? rdx=? rsi=? rdi=? r8=? r9=? r10=? r11=?" "" "" "[rdi0;8]=5\nc [rsp0-8;8]" []),
    row!("call, over a kept region"; b"\xe8\xfb\xff\xff\xff"; "outside\nk [rsp0-8;8]"; "" "" "" "[rsp0-4;8]=5" =>
        0x40_007d "rax=v400078 rcx=? rdx=? rsi=? rdi=? r8=? r9=? r10=? r11=?" "" "" "[rsp0-8;8]=0x40007d" []),
];

pub static SYSTEM: [Row; 3] = [
    row!("syscall"; b"\x0f\x05"; "outside\nk [rsp0;8]"; "rbx=5" "64 rdi0 3" "rdi0 0..3" "[rsp0;8]=ra\nc [rsp0-8;8]=rbx0" =>
        0x40_007a "rax=v400078 rcx=? rbx=5 r11=?" "" "rdi0 0..3" "[rsp0;8]=ra\nc [rsp0-8;8]" [
            More::Register(1, "rax=v400078 rbx=5 r11=?"), More::Register(11, "rax=v400078 rcx=? rbx=5"),
            More::Flags("64 rdi0 3"), More::Cell(1, "[rsp0;8]=ra\nc [rsp0-8;8]=rbx0")]),
    row!("syscall, nothing kept"; b"\x0f\x05"; "outside"; "" "" "" "[rsp0;8]=ra" =>
        0x40_007a "rax=v400078 rcx=? r11=?" "" "" "[rsp0;8]" [
            More::Cell(0, "[rsp0;8]=ra"), More::Cell(1, "[rsp0;8]\nc [rsp0-8;8]")]),
    row!("syscall, its old name"; b"\x0f\x05"; "outside"; "rbx=v400078" "" "v400078 0..3" "[v400078;8]" =>
        0x40_007a "rax=v400078 rcx=? rbx=? r11=?" "" "" "" [
            More::Register(3, "rax=v400078 rcx=? rbx=v400078 r11=?"), More::Bound(0, "v400078 0..3")]),
];
