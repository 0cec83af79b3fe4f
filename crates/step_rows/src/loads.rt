use crate::rows::{Case, More, Row, row};
use crate::sample::Facts;

pub static NAMED: [Row; 17] = [
    row!("mov eax, [rdi], nothing known"; b"\x8b\x07"; "step"; "" "" "" "" =>
        0x40_007a "rax=zx32(v400078)" "" "" "[rdi0;4]=zx32(v400078)" [More::Register(0, "rax=v400078")]),
    row!("mov eax, [rdi], a cell without a value"; b"\x8b\x07"; "step"; "" "" "" "[rdi0;4]" =>
        0x40_007a "rax=zx32(v400078)" "" "" "[rdi0;4]=zx32(v400078)" []),
    row!("mov eax, [rdi], a value"; b"\x8b\x07"; "step"; "" "" "" "[rdi0;4]=5" =>
        0x40_007a "rax=5" "" "" "[rdi0;4]=5" []),
    row!("mov rax, [rdi], with a cell that may overlap"; b"\x48\x8b\x07"; "step"; "" "" "" "[rsp0;8]=ra" =>
        0x40_007b "rax=v400078" "" "" "[rsp0;8]=ra" [More::Cell(1, "[rsp0;8]=ra\nc [rdi0;8]")]),
    row!("mov eax, [rdi], inside a cell"; b"\x8b\x07"; "step"; "" "" "" "[rdi0;8]=rsi0" =>
        0x40_007a "rax=zx32(v400078)" "" "" "[rdi0;8]=rsi0\nc .[rdi0;4]=zx32(v400078)" []),
    row!("mov rax, [rdi], around a cell"; b"\x48\x8b\x07"; "step"; "" "" "" "[rdi0+4;4]=5" =>
        0x40_007b "rax=v400078" "" "" "[rdi0;8]=v400078\nc .[rdi0+4;4]=5" [
            More::Cell(0, "[rdi0+4;4]=5")]),
    row!("mov rax, [rdi], across the end of a cell"; b"\x48\x8b\x07"; "step"; "" "" "" "[rdi0+4;8]=5" =>
        0x40_007b "rax=v400078" "" "" "[rdi0+4;8]=5" [More::Cell(0, "[rdi0;8]\nc [rdi0+4;8]=5")]),
    row!("movzx eax, byte [rdi]"; b"\x0f\xb6\x07"; "step"; "" "" "" "" =>
        0x40_007b "rax=zx8(v400078)" "" "" "[rdi0;1]=zx8(v400078)" []),
    row!("movsx eax, byte [rdi], nothing known"; b"\x0f\xbe\x07"; "step"; "" "" "" "" =>
        0x40_007b "rax=v400078" "" "" "[rdi0;1]=zx8(v400078)" [More::Register(0, "rax=zx32(sx8(zx8(v400078)))")]),
    row!("movsx eax, byte [rdi], a cell without a value"; b"\x0f\xbe\x07"; "step"; "" "" "" "[rdi0;1]" =>
        0x40_007b "rax=v400078" "" "" "[rdi0;1]=zx8(v400078)" []),
    row!("movsx eax, byte [rdi], a value"; b"\x0f\xbe\x07"; "step"; "" "" "" "[rdi0;1]=zx8(rsi0)" =>
        0x40_007b "rax=zx32(sx8(zx8(rsi0)))" "" "" "[rdi0;1]=zx8(rsi0)" []),
    row!("mov al, [rdi]"; b"\x8a\x07"; "step"; "" "" "" "" => 0x40_007a "rax=v400078" "" "" "[rdi0;1]=zx8(v400078)" []),
    row!("mov ah, [rdi]"; b"\x8a\x27"; "step"; "" "" "" "" =>
        0x40_007a "rax=v400078" "" "" "" [More::Cell(0, "[rdi0;1]")]),
    row!("mov rax, [rdi], at an unknown address"; b"\x48\x8b\x07"; "step"; "rdi=?" "" "" "[rsp0;8]=ra" =>
        0x40_007b "rax=v400078 rdi=?" "" "" "[rsp0;8]=ra" [More::Register(7, "rax=v400078 rdi=v400078")]),
    row!("mov eax, fs:[40]"; b"\x64\x8b\x04\x25\x28\0\0\0"; "step"; "" "" "" "" =>
        0x40_0080 "rax=zx32(v400078)" "" "" "[fs+40;4]=zx32(v400078)" []),
    row!("mov rax, [rsp-8], apart from a cell"; b"\x48\x8b\x44\x24\xf8"; "step"; "" "" "" "[rsp0;8]=ra" =>
        0x40_007d "rax=v400078" "" "" "[rsp0;8]=ra\nc [rsp0-8;8]=v400078" []),
    row!("mov rdi, [rdi]"; b"\x48\x8b\x3f"; "step"; "" "" "" "" =>
        0x40_007b "rdi=v400078" "" "" "[rdi0;8]=v400078" []),
];

pub static FIXED: [Row; 6] = [
    row!("mov rax, [0x4000b0]"; b"\x48\x8b\x04\x25\xb0\0\x40\0"; "step"; "" "" "" "[0x4000b0;8]=5" =>
        0x40_0080 "rax=0x400010" "" "" "[0x4000b0;8]=5" []),
    row!("mov eax, [rip+0x32]"; b"\x8b\x05\x32\0\0\0"; "step"; "" "" "" "" =>
        0x40_007e "rax=0x400010" "" "" "" [More::Cell(0, "[0x4000b0;4]")]),
    row!("mov rax, [0x403ff8], zeros after the file"; b"\x48\x8b\x04\x25\xf8\x3f\x40\0"; "step"; "" "" "" "" =>
        0x40_0080 "rax=0" "" "" "" []),
    row!("mov rax, [0x403ff9], past the segment"; b"\x48\x8b\x04\x25\xf9\x3f\x40\0"; "step"; "" "" "" "" =>
        0x40_0080 "rax=v400078" "" "" "[0x403ff9;8]=v400078" []),
    row!("mov rax, [0x600000], which may change"; b"\x48\x8b\x04\x25\0\0\x60\0"; "step"; "" "" "" "[rsp0;8]=ra" =>
        0x40_0080 "rax=v400078" "" "" "[rsp0;8]=ra\nc [0x600000;8]=v400078" [More::Register(0, "rax=0")]),
    row!("movsx rax, word [rdi], of fixed bytes"; b"\x48\x0f\xbf\x07"; "step"; "rdi=0x4000dc" "" "" "" =>
        0x40_007c "rax=0xffffffffffff8001 rdi=0x4000dc" "" "" "" []),
];

pub static OTHERS: [Row; 10] = [
    row!("cmp dword [rdi], 3"; b"\x83\x3f\x03"; "step"; "" "" "" "" =>
        0x40_007b "" "32 zx32(v400078) 3" "" "[rdi0;4]=zx32(v400078)" []),
    row!("cmp dword [rdi], 3, at an unknown address"; b"\x83\x3f\x03"; "step"; "rdi=?" "" "" "[rsp0;8]=ra" =>
        0x40_007b "rdi=?" "32 zx32(v400078) 3" "" "[rsp0;8]=ra" []),
    row!("cmp rax, [rdi]"; b"\x48\x3b\x07"; "step"; "" "" "" "[rdi0;8]=5" =>
        0x40_007b "" "64 rax0 5" "" "[rdi0;8]=5" []),
    row!("test dword [rdi], 3"; b"\xf7\x07\x03\0\0\0"; "step"; "" "" "" "" =>
        0x40_007e "" "32 zx32(and(zx32(v400078),3)) 0" "" "[rdi0;4]=zx32(v400078)" []),
    row!("add eax, [rdi], nothing known"; b"\x03\x07"; "step"; "" "" "" "" =>
        0x40_007a "rax=v400078" "" "" "" [More::Cell(0, "[rdi0;4]")]),
    row!("add eax, [rdi], a value"; b"\x03\x07"; "step"; "" "" "" "[rdi0;4]=5" =>
        0x40_007a "rax=zx32(zx32(rax0)+5)" "" "" "[rdi0;4]=5" []),
    row!("sub eax, [rdi], nothing known"; b"\x2b\x07"; "step"; "" "32 zx32(rdi0) 3" "" "" =>
        0x40_007a "rax=v400078" "" "" "" [More::Flags("32 zx32(rax0) zx32(v400078)"), More::Flags("32 zx32(rdi0) 3")]),
    row!("imul eax, [rdi], 3"; b"\x6b\x07\x03"; "step"; "" "" "" "[rdi0;4]=5" =>
        0x40_007b "rax=15" "" "" "[rdi0;4]=5" []),
    row!("cmove eax, [rdi]"; b"\x0f\x44\x07"; "step"; "" "" "" "" =>
        0x40_007b "rax=v400078" "" "" "" [More::Cell(0, "[rdi0;4]")]),
    row!("mul dword [rdi]"; b"\xf7\x27"; "step"; "" "" "" "" =>
        0x40_007a "rax=v400078 rdx=?" "" "" "" [More::Cell(0, "[rdi0;4]")]),
];
