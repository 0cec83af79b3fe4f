use crate::rows::{Case, More, Row, row};
use crate::sample::Facts;

// Loads of an entry of the tables at 0x4000b0, 0x4000d0 and 0x4000dc.
pub static LOADS: [Row; 20] = [
    row!("mov rax, [rdi*8+0x4000b0]"; b"\x48\x8b\x04\xfd\xb0\0\x40\0"; "step"; "" "" "rdi0 0..3" "" =>
        0x40_0080 "rax=v400078" "" "rdi0 0..3\nb v400078 {0x400010,0x400011,0x400012}" "[8*rdi0+0x4000b0;8]=v400078" [
            More::Bound(1, "rdi0 0..3\nb v400078 {0x400010,0x400011}")]),
    row!("beside a cell that may overlap"; b"\x48\x8b\x04\xfd\xb0\0\x40\0"; "step"; "" "" "rdi0 0..3" "[rsp0;8]=ra" =>
        0x40_0080 "rax=v400078" "" "rdi0 0..3\nb v400078 {0x400010,0x400011,0x400012}" "[rsp0;8]=ra" []),
    row!("an index in rcx"; b"\x48\x8b\x04\xcd\xb0\0\x40\0"; "step"; "rcx=zx32(rdi0)" "" "zx32(rdi0) 1..2" "" =>
        0x40_0080 "rax=v400078 rcx=zx32(rdi0)" "" "v400078 {0x400010,0x400011}\nb zx32(rdi0) 1..2"
        "[8*zx32(rdi0)+0x4000b0;8]=v400078" []),
    row!("the last entry that is fixed"; b"\x48\x8b\x04\xfd\xe8\x3f\x40\0"; "step"; "" "" "rdi0 0..2" "" =>
        0x40_0080 "rax=v400078" "" "rdi0 0..2\nb v400078 {0}" "" []),
    row!("an entry past the segment"; b"\x48\x8b\x04\xfd\xe8\x3f\x40\0"; "step"; "" "" "rdi0 0..3" "" =>
        0x40_0080 "rax=v400078" "" "rdi0 0..3" "[8*rdi0+0x403fe8;8]=v400078" [More::Bound(1, "rdi0 0..3\nb v400078 {0}"),
            More::Bound(1, "rdi0 0..3\nb v400078 0..0xfffffffffffffffe")]),
    row!("a table that may change"; b"\x48\x8b\x04\xfd\0\0\x60\0"; "step"; "" "" "rdi0 0..3" "" =>
        0x40_0080 "rax=v400078" "" "rdi0 0..3" "" [More::Bound(1, "rdi0 0..3\nb v400078 {0}")]),
    row!("1,024 entries"; b"\x48\x8b\x04\xfd\xb0\0\x40\0"; "step"; "" "" "rdi0 0..1023" "" => 0x40_0080 "rax=v400078" ""
        "rdi0 0..1023\nb v400078 {0,0x400010,0x400011,0x400012,0x80028001fffffffd,0xfffffffdfffffffc}" "" []),
    row!("1,025 entries"; b"\x48\x8b\x04\xfd\xb0\0\x40\0"; "step"; "" "" "rdi0 0..1024" "" => 0x40_0080 "rax=v400078" ""
        "rdi0 0..1024" "" [More::Bound(1,
            "rdi0 0..1024\nb v400078 {0,0x400010,0x400011,0x400012,0x80028001fffffffd,0xfffffffdfffffffc}")]),
    row!("mov eax, [rdi*4+0x4000d0]"; b"\x8b\x04\xbd\xd0\0\x40\0"; "step"; "" "" "rdi0 0..1" "" =>
        0x40_007f "rax=v400078" "" "rdi0 0..1\nb v400078 {0xfffffffc,0xfffffffd}"
        "[4*rdi0+0x4000d0;4]=zx32(v400078)" [More::Register(0, "rax=zx32(v400078)")]),
    row!("movsxd rax, [rdi*4+0x4000d0]"; b"\x48\x63\x04\xbd\xd0\0\x40\0"; "step"; "" "" "rdi0 0..2" "" =>
        0x40_0080 "rax=v400078" "" "rdi0 0..2\nb v400078 {0xfffffffffffffffc,0xfffffffffffffffd}"
        "[4*rdi0+0x4000d0;4]=zx32(v400078)" []),
    row!("movzx eax, word [rdi*2+0x4000dc]"; b"\x0f\xb7\x04\x7d\xdc\0\x40\0"; "step"; "" "" "rdi0 0..1" "" =>
        0x40_0080 "rax=v400078" "" "rdi0 0..1\nb v400078 {0x8001,0x8002}" "" []),
    row!("movsx rax, word [rdi*2+0x4000dc]"; b"\x48\x0f\xbf\x04\x7d\xdc\0\x40\0"; "step"; "" "" "rdi0 0..1" "" =>
        0x40_0081 "rax=v400078" "" "rdi0 0..1\nb v400078 {0xffffffffffff8001,0xffffffffffff8002}" "" []),
    row!("movsx eax, word [rdi*2+0x4000dc]"; b"\x0f\xbf\x04\x7d\xdc\0\x40\0"; "step"; "" "" "rdi0 0..1" "" =>
        0x40_0080 "rax=v400078" "" "rdi0 0..1" "" [More::Bound(1, "rdi0 0..1\nb v400078 {0xffff8001,0xffff8002}"),
            More::Register(0, "")]),
    row!("mov ax, [rdi*2+0x4000dc]"; b"\x66\x8b\x04\x7d\xdc\0\x40\0"; "step"; "" "" "rdi0 0..1" "" =>
        0x40_0080 "rax=v400078" "" "rdi0 0..1" "" [More::Bound(1, "rdi0 0..1\nb v400078 {0x8001,0x8002}")]),
    row!("a cell with a value"; b"\x48\x8b\x04\xfd\xb0\0\x40\0"; "step"; "" "" "rdi0 0..3" "[8*rdi0+0x4000b0;8]=5" =>
        0x40_0080 "rax=5" "" "rdi0 0..3" "[8*rdi0+0x4000b0;8]=5" [
            More::Bound(1, "rdi0 0..3\nb v400078 {0x400010,0x400011,0x400012}")]),
    row!("a cell without a value"; b"\x48\x8b\x04\xfd\xb0\0\x40\0"; "step"; "" "" "rdi0 1..1" "[8*rdi0+0x4000b0;8]" =>
        0x40_0080 "rax=v400078" "" "rdi0 1..1\nb v400078 {0x400011}" "[8*rdi0+0x4000b0;8]=v400078" []),
    row!("an index with a list"; b"\x48\x8b\x04\xfd\xb0\0\x40\0"; "step"; "" "" "rdi0 {0,1}" "" =>
        0x40_0080 "rax=v400078" "" "rdi0 {0,1}" "" [More::Bound(1, "rdi0 {0,1}\nb v400078 {0x400010,0x400011}")]),
    row!("the second bound"; b"\x48\x8b\x04\xfd\xb0\0\x40\0"; "step"; "" "" "rdx0 0..1\nb rdi0 0..1" "" =>
        0x40_0080 "rax=v400078" "" "rdx0 0..1\nb rdi0 0..1\nb v400078 {0x400010,0x400011}" "" []),
    row!("the first that fits counts"; b"\x48\x8b\x04\xfd\xb0\0\x40\0"; "step"; "" "" "rdi0 0..1024\nb 2*rdi0 0..2" "" =>
        0x40_0080 "rax=v400078" "" "rdi0 0..1024\nb 2*rdi0 0..2" "" [
            More::Bound(2, "rdi0 0..1024\nb 2*rdi0 0..2\nb v400078 {0x400010,0x4000d0}"),
            More::Bound(1, "rdi0 0..1024\nb v400078 {0,0x400010,0x400011,0x400012}")]),
    row!("an old bound of the name"; b"\x48\x8b\x04\xfd\xb0\0\x40\0"; "step"; "" "" "rdi0 1..1\nb v400078 5..6" "" =>
        0x40_0080 "rax=v400078" "" "rdi0 1..1\nb v400078 {0x400011}" "" [
            More::Bound(1, "rdi0 1..1\nb v400078 5..6")]),
];

pub static JUMPS: [Row; 20] = [
    row!("jmp [rdi*8+0x4000b0]"; b"\xff\x24\xfd\xb0\0\x40\0"; "step"; "rbx=v400078" "" "rdi0 0..3" "" =>
        0x40_0010 "rbx=?" "" "rdi0 0..3\nb v400078 {0x400010,0x400011,0x400012}" "[8*rdi0+0x4000b0;8]=v400078" [];
        0x40_0011 "rbx=?" "" "rdi0 0..3\nb v400078 {0x400010,0x400011,0x400012}" "[8*rdi0+0x4000b0;8]=v400078" [];
        0x40_0012 "rbx=?" "" "rdi0 0..3\nb v400078 {0x400010,0x400011,0x400012}" "[8*rdi0+0x4000b0;8]=v400078" [
            More::Bound(1, "rdi0 0..3\nb v400078 {0x400012}")]),
    row!("an entry that is no code"; b"\xff\x24\xfd\xb0\0\x40\0"; "step"; "" "" "rdi0 0..4" "" => unresolved),
    row!("an entry that may change"; b"\xff\x24\xfd\0\0\x60\0"; "step"; "" "" "rdi0 0..0" "" => unresolved),
    row!("an index without a bound"; b"\xff\x24\xfd\xb0\0\x40\0"; "step"; "" "" "" "" => unresolved),
    row!("a cell's value before a table"; b"\xff\x24\xfd\xb0\0\x40\0"; "step"; "" "" "rdi0 0..3"
        "[8*rdi0+0x4000b0;8]=0x400011" => 0x40_0011 "" "" "rdi0 0..3" "[8*rdi0+0x4000b0;8]=0x400011" []),
    row!("jmp rax, a number"; b"\xff\xe0"; "step"; "rax=0x400010" "" "" "[rsp0;8]=ra" =>
        0x40_0010 "rax=0x400010" "" "" "[rsp0;8]=ra" []),
    row!("jmp rax, the last byte of code"; b"\xff\xe0"; "step"; "rax=0x4000df" "" "" "" =>
        0x40_00df "rax=0x4000df" "" "" "" []),
    row!("jmp rax, after the code"; b"\xff\xe0"; "step"; "rax=0x4000e0" "" "" "" => unresolved),
    row!("jmp rax, in what may not be run"; b"\xff\xe0"; "step"; "rax=0x600000" "" "" "" => unresolved),
    row!("jmp rax, unknown"; b"\xff\xe0"; "step"; "rax=?" "" "" "" => unresolved),
    row!("jmp rax, a symbol"; b"\xff\xe0"; "step"; "" "" "rax0 0x400010..0x400011" "" => unresolved),
    row!("jmp rax, a number after a list"; b"\xff\xe0"; "step"; "rax=v5+0x400014" ""
        "v5 {0xfffffffffffffffc,0xfffffffffffffffd}" "" =>
        0x40_0010 "rax=v5+0x400014" "" "v5 {0xfffffffffffffffc,0xfffffffffffffffd}" "" [];
        0x40_0011 "rax=v5+0x400014" "" "v5 {0xfffffffffffffffc,0xfffffffffffffffd}" "" [
            More::Bound(0, "v5 {0xfffffffffffffffd}")]),
    row!("jmp rax, where no list has code alone"; b"\xff\xe0"; "step"; "rax=v5" ""
        "v5 {1}\nb v5+1 {0x400012,0x400fff}" "" => unresolved),
    row!("jmp rax, by the first of two lists"; b"\xff\xe0"; "step"; "rax=v5" "" "v5 {0x400010}\nb v5+1 {0x400012}" "" =>
        0x40_0010 "rax=v5" "" "v5 {0x400010}\nb v5+1 {0x400012}" "" []),
    row!("jmp rax, a number before a list"; b"\xff\xe0"; "step"; "rax=0x400010" "" "1 {0x400012}" "" =>
        0x40_0010 "rax=0x400010" "" "1 {0x400012}" "" []),
    row!("jmp rax, by another list"; b"\xff\xe0"; "step"; "rax=v5" "" "v5 {1}\nb v5+1 {0x400012}" "" =>
        0x40_0011 "rax=v5" "" "v5 {1}\nb v5+1 {0x400012}" "" []),
    row!("jmp rax, its old name"; b"\xff\xe0"; "step"; "rax=v400078" "" "v400078 {0x400010}" "" => unresolved),
    row!("jmp [0x4000b8]"; b"\xff\x24\x25\xb8\0\x40\0"; "step"; "" "" "" "" => 0x40_0011 "" "" "" "" []),
    row!("jmp [rdi], a value"; b"\xff\x27"; "step"; "" "" "" "[rdi0;8]=0x400012" =>
        0x40_0012 "" "" "" "[rdi0;8]=0x400012" []),
    row!("jmp [rdi], nothing known"; b"\xff\x27"; "step"; "" "" "" "" => unresolved),
];
