use crate::rows::{Case, More, Row, row};
use crate::sample::Facts;

pub static STORES: [Row; 17] = [
    row!("mov [rsp-8], rdi"; b"\x48\x89\x7c\x24\xf8"; "step"; "" "" "" "[rsp0;8]=ra" =>
        0x40_007d "" "" "" "[rsp0;8]=ra\nc [rsp0-8;8]=rdi0" []),
    row!("mov [rsp-8], esi, inside a cell"; b"\x89\x74\x24\xf8"; "step"; "" "" "" "[rsp0;8]=ra\nc [rsp0-8;8]=rdi0" =>
        0x40_007c "" "" "" "[rsp0;8]=ra\nc [rsp0-8;8]\nc .[rsp0-8;4]=zx32(rsi0)" [
            More::Cell(1, "[rsp0;8]=ra\nc [rsp0-8;8]=rdi0")]),
    row!("mov [rsp-8], rdi, over a cell with children"; b"\x48\x89\x7c\x24\xf8"; "step"; "" "" ""
        "[rsp0;8]=ra\nc [rsp0-8;8]\nc .[rsp0-8;4]=5" => 0x40_007d "" "" "" "[rsp0;8]=ra\nc [rsp0-8;8]=rdi0" [
            More::Cell(2, "[rsp0;8]=ra\nc [rsp0-8;8]=rdi0\nc .[rsp0-8;4]")]),
    row!("mov [rdi], rsi"; b"\x48\x89\x37"; "step"; "" "" "" "[rsp0;8]=ra" =>
        0x40_007b "" "" "" "[rdi0;8]=rsi0" [More::Cell(0, "[rsp0;8]")]),
    row!("mov [rdi], rsi, with a pair"; b"\x48\x89\x37"; "step\np [rdi0;8] [rsp0;8]"; "" "" "" "[rsp0;8]=ra" =>
        0x40_007b "" "" "" "[rsp0;8]=ra\nc [rdi0;8]=rsi0" []),
    row!("mov [rdi], esi, with a pair of another size"; b"\x89\x37"; "step\np [rdi0;8] [rsp0;8]"; "" "" ""
        "[rsp0;8]=ra" => 0x40_007a "" "" "" "[rdi0;4]=zx32(rsi0)" [More::Cell(0, "[rsp0;8]")]),
    row!("mov [0x600000], rsi, apart from the frame"; b"\x48\x89\x34\x25\0\0\x60\0"; "step"; "" "" "" "[rsp0;8]=ra" =>
        0x40_0080 "" "" "" "[rsp0;8]=ra\nc [0x600000;8]=rsi0" []),
    row!("mov [0x600ffc], rsi, past its segment"; b"\x48\x89\x34\x25\xfc\x0f\x60\0"; "step"; "" "" "" "[rsp0;8]=ra" =>
        0x40_0080 "" "" "" "[0x600ffc;8]=rsi0" [More::Cell(0, "[rsp0;8]")]),
    row!("mov [0x600000], rsi, with a cell at the frame's end"; b"\x48\x89\x34\x25\0\0\x60\0"; "step"; "" "" ""
        "[rsp0+4088;8]=5\nc [rsp0+4096;8]=6" => 0x40_0080 "" "" "" "[rsp0+4088;8]=5\nc [0x600000;8]=rsi0" [
            More::Cell(1, "[rsp0+4088;8]=5\nc [rsp0+4096;8]\nc [0x600000;8]=rsi0")]),
    row!("mov [rdi], eax, at an unknown address"; b"\x89\x07"; "step"; "rdi=?" "" "" "[rsp0;8]=ra" =>
        0x40_007a "rdi=?" "" "" "[v400078;4]=zx32(rax0)" [More::Cell(0, "[rsp0;8]"), More::Register(7, "rdi=v400078")]),
    row!("mov byte [rdi], 5"; b"\xc6\x07\x05"; "step"; "" "" "" "" => 0x40_007b "" "" "" "[rdi0;1]=5" []),
    row!("mov dword [rdi], -1"; b"\xc7\x07\xff\xff\xff\xff"; "step"; "" "" "" "" =>
        0x40_007e "" "" "" "[rdi0;4]=0xffffffff" []),
    row!("mov [rdi], ah"; b"\x88\x27"; "step"; "" "" "" "" => 0x40_007a "" "" "" "[rdi0;1]=zx8(shr(rax0,8))" []),
    row!("mov [rdi], rax, unknown"; b"\x48\x89\x07"; "step"; "rax=?" "" "" "[rdi0;8]=5" =>
        0x40_007b "rax=?" "" "" "[rdi0;8]" [More::Cell(0, "[rdi0;8]=5")]),
    row!("add [rdi], eax, nothing known"; b"\x01\x07"; "step"; "" "" "" "" =>
        0x40_007a "" "" "" "[rdi0;4]" [More::Cell(0, "[rdi0;4]=zx32(v400078)")]),
    row!("add [rdi], eax, at an unknown address"; b"\x01\x07"; "step"; "rdi=?" "" "" "[rsp0;8]=ra" =>
        0x40_007a "rdi=?" "" "" "[v400078;4]" [More::Cell(0, "[rsp0;8]")]),
    row!("sete byte [rdi]"; b"\x0f\x94\x07"; "step"; "" "32 zx32(rdi0) 3" "" "[rdi0;1]=5" =>
        0x40_007b "" "32 zx32(rdi0) 3" "" "[rdi0;1]" [More::Cell(0, "[rdi0;1]=5")]),
];

pub static CHANGES: [Row; 4] = [
    row!("inc dword [rdi], a value"; b"\xff\x07"; "step"; "" "" "" "[rdi0;4]=5" =>
        0x40_007a "" "" "" "[rdi0;4]=6" []),
    row!("sub dword [rdi], 3, a value"; b"\x83\x2f\x03"; "step"; "" "" "" "[rdi0;4]=zx32(rsi0)" =>
        0x40_007b "" "32 zx32(rsi0) 3" "" "[rdi0;4]=zx32(zx32(rsi0)-3)" []),
    row!("neg qword [rdi], a value"; b"\x48\xf7\x1f"; "step"; "" "" "" "[rdi0;8]=rsi0" =>
        0x40_007b "" "64 0 rsi0" "" "[rdi0;8]=-rsi0" []),
    row!("or dword [rdi], 1, nothing known"; b"\x83\x0f\x01"; "step"; "" "32 zx32(rdi0) 3" "" "" =>
        0x40_007b "" "" "" "[rdi0;4]" [More::Flags("32 zx32(rdi0) 3"), More::Flags("32 zx32(v400078) 0")]),
];

// An instruction that tells a pair of regions apart: one, separate, neither.
pub static PAIRS: [Row; 6] = [
    row!("mov [rdx], rcx"; b"\x48\x89\x0a"; "step\np [rdx0;8] [rsp0;8]\ng [rdx0;8] [rdi0;8]"; "" "" ""
        "[rsp0;8]=ra\nc [rdi0;8]=rsi0" =>
        0x40_007b "" "" "" "[rdx0|rdi0;8]=rcx0\nc [rsp0;8]=ra" [];
        0x40_007b "" "" "" "[rdx0;8]=rcx0\nc [rsp0;8]=ra\nc [rdi0;8]=rsi0" [];
        0x40_007b "" "" "" "[rdx0;8]=rcx0\nc [rsp0;8]=ra" [
            More::Cell(2, "[rdx0;8]=rcx0\nc [rsp0;8]=ra\nc [rdi0;8]"),
            More::Cell(0, "[rdx0|rdi0;8]=rcx0\nc [rsp0;8]=ra")]),
    row!("nop, where the cell is not there"; b"\x90"; "step\ng [rdx0;8] [rdi0;8]"; "" "" "" "[rdi0;4]=5" =>
        0x40_0079 "" "" "" "[rdi0;4]=5" [More::Cell(0, "[rdx0;8]\nc [rdi0;4]=5")];
        0x40_0079 "" "" "" "[rdi0;4]=5" []; 0x40_0079 "" "" "" "[rdi0;4]=5" []),
    row!("mov [rax], rcx, at the name"; b"\x48\x89\x08"; "step\ng [v400078;8] [rdi0;8]"; "rax=?" "" ""
        "[rdi0;8]=5" =>
        0x40_007b "rax=?" "" "" "[rdi0|v400078;8]=rcx0" [];
        0x40_007b "rax=?" "" "" "[rdi0;8]=5\nc [v400078;8]=rcx0" [];
        0x40_007b "rax=?" "" "" "[v400078;8]=rcx0" [More::Cell(0, "[rdi0;8]")]),
    row!("nop, with seven names"; b"\x90"; "step\ng [rdi0;8] [v1;8]"; "" "" "" "[v1|v2|v3|v4|v5|v6|v7;8]=5" =>
        0x40_0079 "" "" "" "[rdi0|v1|v2|v3|v4|v5|v6|v7;8]=5" [];
        0x40_0079 "" "" "" "[v1|v2|v3|v4|v5|v6|v7;8]=5" []; 0x40_0079 "" "" "" "[v1|v2|v3|v4|v5|v6|v7;8]=5" []),
    row!("nop, with eight names"; b"\x90"; "step\ng [rdi0;8] [v1;8]"; "" "" "" "[v1|v2|v3|v4|v5|v6|v7|v8;8]=5" =>
        0x40_0079 "" "" "" "[v1|v2|v3|v4|v5|v6|v7|v8;8]=5" [More::Cell(0, "[rdi0|v1|v2|v3|v4|v5|v6|v7;8]=5")];
        0x40_0079 "" "" "" "[v1|v2|v3|v4|v5|v6|v7|v8;8]=5" [];
        0x40_0079 "" "" "" "[v1|v2|v3|v4|v5|v6|v7|v8;8]=5" []),
    row!("a jump has its own cases"; b"\xeb\x05"; "step\ng [rdx0;8] [rdi0;8]"; "" "" "" "[rdi0;8]=5" =>
        0x40_007f "" "" "" "[rdi0;8]=5" [More::Cell(0, "[rdx0|rdi0;8]=5")]),
];
