use crate::rows::{Case, More, Row, row};
use crate::sample::Facts;

// zx32(rdi0) against 3, by each condition.
pub static CONDITIONS: [Row; 14] = [
    row!("o"; b"\x70\x05"; "step"; "" "32 zx32(rdi0) 3" "" "" =>
        0x40_007f "" "32 zx32(rdi0) 3" "" "" [More::Bound(0, "zx32(rdi0) 0..0xfffffffe")];
        0x40_007a "" "32 zx32(rdi0) 3" "" "" [More::Bound(0, "zx32(rdi0) 0..0xfffffffe")]),
    row!("no"; b"\x71\x05"; "step"; "" "32 zx32(rdi0) 3" "" "" =>
        0x40_007f "" "32 zx32(rdi0) 3" "" "" [More::Bound(0, "zx32(rdi0) 0..0xfffffffe")];
        0x40_007a "" "32 zx32(rdi0) 3" "" "" [More::Bound(0, "zx32(rdi0) 1..0xffffffff")]),
    row!("b"; b"\x72\x05"; "step"; "" "32 zx32(rdi0) 3" "" "" =>
        0x40_007f "" "32 zx32(rdi0) 3" "zx32(rdi0) 0..2" "" [More::Bound(0, "zx32(rdi0) 0..1")];
        0x40_007a "" "32 zx32(rdi0) 3" "zx32(rdi0) 3..0xffffffff" "" [More::Bound(0, "zx32(rdi0) 4..0xffffffff")]),
    row!("ae"; b"\x73\x05"; "step"; "" "32 zx32(rdi0) 3" "" "" =>
        0x40_007f "" "32 zx32(rdi0) 3" "zx32(rdi0) 3..0xffffffff" "" [More::Bound(0, "zx32(rdi0) 3..0xfffffffe")];
        0x40_007a "" "32 zx32(rdi0) 3" "zx32(rdi0) 0..2" "" [More::Bound(0, "zx32(rdi0) 1..2")]),
    row!("e"; b"\x74\x05"; "step"; "" "32 zx32(rdi0) 3" "" "" =>
        0x40_007f "" "32 zx32(rdi0) 3" "zx32(rdi0) 3..3" "" [More::Bound(0, "zx32(rdi0) {3}")];
        0x40_007a "" "32 zx32(rdi0) 3" "" "" [More::Bound(0, "zx32(rdi0) 0..0xfffffffe")]),
    row!("ne"; b"\x75\x05"; "step"; "" "32 zx32(rdi0) 3" "" "" =>
        0x40_007f "" "32 zx32(rdi0) 3" "" "" [More::Bound(0, "zx32(rdi0) 0..0xfffffffe")];
        0x40_007a "" "32 zx32(rdi0) 3" "zx32(rdi0) 3..3" "" []),
    row!("be"; b"\x76\x05"; "step"; "" "32 zx32(rdi0) 3" "" "" =>
        0x40_007f "" "32 zx32(rdi0) 3" "zx32(rdi0) 0..3" "" [More::Bound(0, "zx32(rdi0) 0..2")];
        0x40_007a "" "32 zx32(rdi0) 3" "zx32(rdi0) 4..0xffffffff" "" [More::Bound(0, "zx32(rdi0) 5..0xffffffff")]),
    row!("a"; b"\x77\x05"; "step"; "" "32 zx32(rdi0) 3" "" "" =>
        0x40_007f "" "32 zx32(rdi0) 3" "zx32(rdi0) 4..0xffffffff" "" [];
        0x40_007a "" "32 zx32(rdi0) 3" "zx32(rdi0) 0..3" "" [More::Bound(0, "zx32(rdi0) 0..2")]),
    row!("s"; b"\x78\x05"; "step"; "" "32 zx32(rdi0) 3" "" "" =>
        0x40_007f "" "32 zx32(rdi0) 3" "" "" [More::Bound(0, "zx32(rdi0) 0..0xfffffffe")];
        0x40_007a "" "32 zx32(rdi0) 3" "" "" [More::Bound(0, "zx32(rdi0) 0..0xfffffffe")]),
    row!("ns"; b"\x79\x05"; "step"; "" "32 zx32(rdi0) 3" "" "" =>
        0x40_007f "" "32 zx32(rdi0) 3" "" "" [More::Bound(0, "zx32(rdi0) 0..0xfffffffe")];
        0x40_007a "" "32 zx32(rdi0) 3" "" "" []),
    row!("l"; b"\x7c\x05"; "step"; "" "32 zx32(rdi0) 3" "" "" =>
        0x40_007f "" "32 zx32(rdi0) 3" "" "" [More::Bound(0, "zx32(rdi0) 0..0xfffffffe")];
        0x40_007a "" "32 zx32(rdi0) 3" "" "" [More::Bound(0, "zx32(rdi0) 1..0xffffffff")]),
    row!("ge"; b"\x7d\x05"; "step"; "" "32 zx32(rdi0) 3" "" "" =>
        0x40_007f "" "32 zx32(rdi0) 3" "" "" [More::Bound(0, "zx32(rdi0) 1..0xffffffff")];
        0x40_007a "" "32 zx32(rdi0) 3" "" "" []),
    row!("le"; b"\x7e\x05"; "step"; "" "32 zx32(rdi0) 3" "" "" =>
        0x40_007f "" "32 zx32(rdi0) 3" "" "" [More::Bound(0, "zx32(rdi0) 0..0xfffffffe")];
        0x40_007a "" "32 zx32(rdi0) 3" "" "" []),
    row!("g"; b"\x0f\x8f\x05\0\0\0"; "step"; "" "32 zx32(rdi0) 3" "" "" =>
        0x40_0083 "" "32 zx32(rdi0) 3" "" "" [More::Bound(0, "zx32(rdi0) 1..0xffffffff")];
        0x40_007e "" "32 zx32(rdi0) 3" "" "" []),
];

// Numbers at the ends of the width.
pub static ENDS: [Row; 10] = [
    row!("b, 0"; b"\x72\x05"; "step"; "" "32 zx32(rdi0) 0" "" "" =>
        0x40_007f "" "32 zx32(rdi0) 0" "" "" [More::Bound(0, "zx32(rdi0) 0..0xfffffffe")];
        0x40_007a "" "32 zx32(rdi0) 0" "" "" [More::Bound(0, "zx32(rdi0) 0..0xffffffff")]),
    row!("e, 0"; b"\x74\x05"; "step"; "" "32 zx32(rdi0) 0" "" "" =>
        0x40_007f "" "32 zx32(rdi0) 0" "zx32(rdi0) 0..0" "" [];
        0x40_007a "" "32 zx32(rdi0) 0" "zx32(rdi0) 1..0xffffffff" "" []),
    row!("be, 0"; b"\x76\x05"; "step"; "" "32 zx32(rdi0) 0" "" "" =>
        0x40_007f "" "32 zx32(rdi0) 0" "zx32(rdi0) 0..0" "" [];
        0x40_007a "" "32 zx32(rdi0) 0" "zx32(rdi0) 1..0xffffffff" "" []),
    row!("ae, the most"; b"\x73\x05"; "step"; "" "32 zx32(rdi0) 0xffffffff" "" "" =>
        0x40_007f "" "32 zx32(rdi0) 0xffffffff" "zx32(rdi0) 0xffffffff..0xffffffff" "" [];
        0x40_007a "" "32 zx32(rdi0) 0xffffffff" "zx32(rdi0) 0..0xfffffffe" "" []),
    row!("ne, the most"; b"\x75\x05"; "step"; "" "32 zx32(rdi0) 0xffffffff" "" "" =>
        0x40_007f "" "32 zx32(rdi0) 0xffffffff" "zx32(rdi0) 0..0xfffffffe" "" [];
        0x40_007a "" "32 zx32(rdi0) 0xffffffff" "zx32(rdi0) 0xffffffff..0xffffffff" "" []),
    row!("a, the most"; b"\x77\x05"; "step"; "" "32 zx32(rdi0) 0xffffffff" "" "" =>
        0x40_007f "" "32 zx32(rdi0) 0xffffffff" "" "" [More::Bound(0, "zx32(rdi0) 0..0xffffffff")];
        0x40_007a "" "32 zx32(rdi0) 0xffffffff" "" "" [More::Bound(0, "zx32(rdi0) 0..0xffffffff")]),
    row!("ae, 64 bits"; b"\x73\x05"; "step"; "" "64 rdi0+1 3" "" "" =>
        0x40_007f "" "64 rdi0+1 3" "rdi0+1 3..0xffffffffffffffff" "" []; 0x40_007a "" "64 rdi0+1 3" "rdi0+1 0..2" "" []),
    row!("e, 64 bits, the most"; b"\x74\x05"; "step"; "" "64 rdi0 -1" "" "" =>
        0x40_007f "" "64 rdi0 -1" "rdi0 0xffffffffffffffff..0xffffffffffffffff" "" [];
        0x40_007a "" "64 rdi0 -1" "rdi0 0..0xfffffffffffffffe" "" []),
    row!("b, 8 bits, a wider number"; b"\x72\x05"; "step"; "" "8 rdi0 259" "" "" =>
        0x40_007f "" "8 rdi0 259" "zx8(rdi0) 0..2" "" []; 0x40_007a "" "8 rdi0 259" "zx8(rdi0) 3..255" "" []),
    row!("be, 16 bits"; b"\x76\x05"; "step"; "" "16 zx16(rdi0) 9" "" "" =>
        0x40_007f "" "16 zx16(rdi0) 9" "zx16(rdi0) 0..9" "" [];
        0x40_007a "" "16 zx16(rdi0) 9" "zx16(rdi0) 10..0xffff" "" []),
];

// Flags that tell nothing, and bounds that stand already.
pub static OTHERS: [Row; 9] = [
    row!("no flags"; b"\x74\x05"; "step"; "" "" "" "" => 0x40_007f "" "" "" "" []; 0x40_007a "" "" "" "" []),
    row!("a number on the left"; b"\x74\x05"; "step"; "" "32 3 zx32(rdi0)" "" "" =>
        0x40_007f "" "32 3 zx32(rdi0)" "" "" [More::Bound(0, "zx32(rdi0) 3..3")]; 0x40_007a "" "32 3 zx32(rdi0)" "" "" []),
    row!("numbers on both sides"; b"\x74\x05"; "step"; "" "32 3 3" "" "" =>
        0x40_007f "" "32 3 3" "" "" [More::Bound(0, "3 3..3")]; 0x40_007a "" "32 3 3" "" "" []),
    row!("two ranges meet"; b"\x76\x05"; "step"; "" "32 zx32(rdi0) 3" "zx32(rdi0) 2..9" "" =>
        0x40_007f "" "32 zx32(rdi0) 3" "zx32(rdi0) 2..3" "" []; 0x40_007a "" "32 zx32(rdi0) 3" "zx32(rdi0) 4..9" "" []),
    row!("two ranges that share nothing"; b"\x76\x05"; "step"; "" "32 zx32(rdi0) 3" "zx32(rdi0) 5..9" "" =>
        0x40_007f "" "32 zx32(rdi0) 3" "zx32(rdi0) 5..9" "" [More::Bound(0, "zx32(rdi0) 0..3")];
        0x40_007a "" "32 zx32(rdi0) 3" "zx32(rdi0) 5..9" "" []),
    row!("a list stays"; b"\x76\x05"; "step"; "" "32 zx32(rdi0) 3" "zx32(rdi0) {2,5}" "" =>
        0x40_007f "" "32 zx32(rdi0) 3" "zx32(rdi0) {2,5}" "" [More::Bound(0, "zx32(rdi0) {2}")];
        0x40_007a "" "32 zx32(rdi0) 3" "zx32(rdi0) {2,5}" "" [More::Bound(0, "zx32(rdi0) {5}")]),
    row!("keys ascend"; b"\x76\x05"; "step"; "" "64 rsi0 3" "rdx0 0..9\nb rdi0 0..9" "" =>
        0x40_007f "" "64 rsi0 3" "rdx0 0..9\nb rsi0 0..3\nb rdi0 0..9" "" [];
        0x40_007a "" "64 rsi0 3" "rdx0 0..9\nb rsi0 4..0xffffffffffffffff\nb rdi0 0..9" "" []),
    row!("jmp to an address"; b"\xeb\x05"; "step"; "rbx=?" "64 rsi0 3" "rdi0 0..9" "[rsp0;8]=ra" =>
        0x40_007f "rbx=?" "64 rsi0 3" "rdi0 0..9" "[rsp0;8]=ra" []),
    row!("je to the next address"; b"\x74\0"; "step"; "" "64 rsi0 3" "" "" =>
        0x40_007a "" "64 rsi0 3" "rsi0 3..3" "" []; 0x40_007a "" "64 rsi0 3" "" "" []),
];
