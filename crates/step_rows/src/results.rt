use crate::rows::{Case, More, Row, row};
use crate::sample::Facts;

// Each begins with the flags of zx32(rdi0) against 3, which only some instructions leave.
pub static SUMS: [Row; 20] = [
    row!("add eax, ebx"; b"\x01\xd8"; "step"; "" "32 zx32(rdi0) 3" "" "" =>
        0x40_007a "rax=zx32(zx32(rax0)+zx32(rbx0))" "" "" "" [More::Flags("32 zx32(rdi0) 3"), More::Register(0, "")]),
    row!("add rax, rbx"; b"\x48\x01\xd8"; "step"; "" "32 zx32(rdi0) 3" "" "" =>
        0x40_007b "rax=rax0+rbx0" "" "" "" [More::Flags("32 zx32(rdi0) 3"), More::Register(0, "rax=v400078")]),
    row!("add ax, bx"; b"\x66\x01\xd8"; "step"; "" "32 zx32(rdi0) 3" "" "" =>
        0x40_007b "rax=v400078" "" "" "" [More::Flags("32 zx32(rdi0) 3"), More::Register(0, "")]),
    row!("adc eax, ebx"; b"\x11\xd8"; "step"; "" "32 zx32(rdi0) 3" "" "" =>
        0x40_007a "rax=v400078" "" "" "" [More::Flags("32 zx32(rdi0) 3")]),
    row!("sbb eax, ebx"; b"\x19\xd8"; "step"; "" "32 zx32(rdi0) 3" "" "" =>
        0x40_007a "rax=v400078" "" "" "" [More::Flags("32 zx32(rdi0) 3"), More::Flags("32 zx32(rax0) zx32(rbx0)")]),
    row!("sub eax, 3"; b"\x83\xe8\x03"; "step"; "" "32 zx32(rdi0) 3" "" "" =>
        0x40_007b "rax=zx32(zx32(rax0)-3)" "32 zx32(rax0) 3" "" "" [More::Flags("32 zx32(rdi0) 3")]),
    row!("sub eax, -1"; b"\x83\xe8\xff"; "step"; "" "" "" "" =>
        0x40_007b "rax=zx32(zx32(rax0)+0xffffffff00000001)" "32 zx32(rax0) 0xffffffff" "" "" []),
    row!("sub rax, rax"; b"\x48\x29\xc0"; "step"; "" "" "" "" => 0x40_007b "rax=0" "64 rax0 rax0" "" "" []),
    row!("sub rax, rbx, with rbx unknown"; b"\x48\x29\xd8"; "step"; "rbx=?" "32 zx32(rdi0) 3" "" "" =>
        0x40_007b "rax=v400078 rbx=?" "" "" "" [More::Flags("32 zx32(rdi0) 3"), More::Flags("64 rax0 v400078")]),
    row!("sub ax, bx"; b"\x66\x29\xd8"; "step"; "" "" "" "" =>
        0x40_007b "rax=v400078" "16 zx16(rax0) zx16(rbx0)" "" "" []),
    row!("cmp eax, 3"; b"\x83\xf8\x03"; "step"; "" "" "" "" => 0x40_007b "" "32 zx32(rax0) 3" "" "" []),
    row!("cmp ah, bh"; b"\x38\xfc"; "step"; "" "" "" "" =>
        0x40_007a "" "8 zx8(shr(rax0,8)) zx8(shr(rbx0,8))" "" "" []),
    row!("neg eax"; b"\xf7\xd8"; "step"; "" "" "" "" => 0x40_007a "rax=zx32(-zx32(rax0))" "32 0 zx32(rax0)" "" "" []),
    row!("neg rax, unknown"; b"\x48\xf7\xd8"; "step"; "rax=?" "32 zx32(rdi0) 3" "" "" =>
        0x40_007b "rax=v400078" "" "" "" [More::Flags("64 0 v400078"), More::Flags("32 zx32(rdi0) 3")]),
    row!("not rax"; b"\x48\xf7\xd0"; "step"; "" "32 zx32(rdi0) 3" "" "" =>
        0x40_007b "rax=-rax0-1" "32 zx32(rdi0) 3" "" "" []),
    row!("not eax, a number"; b"\xf7\xd0"; "step"; "rax=5" "" "" "" => 0x40_007a "rax=0xfffffffa" "" "" "" []),
    row!("inc ebx"; b"\xff\xc3"; "step"; "" "32 zx32(rdi0) 3" "" "" =>
        0x40_007a "rbx=zx32(zx32(rbx0)+1)" "" "" "" [More::Flags("32 zx32(rdi0) 3")]),
    row!("dec rbx"; b"\x48\xff\xcb"; "step"; "" "32 zx32(rdi0) 3" "" "" =>
        0x40_007b "rbx=rbx0-1" "" "" "" [More::Flags("32 zx32(rdi0) 3")]),
    row!("inc bl"; b"\xfe\xc3"; "step"; "" "" "" "" => 0x40_007a "rbx=v400078" "" "" "" [More::Register(3, "")]),
    row!("inc bh"; b"\xfe\xc7"; "step"; "" "" "" "" => 0x40_007a "rbx=v400078" "" "" "" [More::Register(3, "")]),
];

pub static BITS: [Row; 11] = [
    row!("and eax, ebx"; b"\x21\xd8"; "step"; "" "" "" "" => 0x40_007a
        "rax=zx32(and(zx32(rax0),zx32(rbx0)))" "32 zx32(and(zx32(rax0),zx32(rbx0))) 0" "" "" []),
    row!("or eax, eax"; b"\x09\xc0"; "step"; "" "" "" "" => 0x40_007a "rax=zx32(rax0)" "32 zx32(rax0) 0" "" "" []),
    row!("xor eax, eax"; b"\x31\xc0"; "step"; "" "" "" "" => 0x40_007a "rax=0" "32 0 0" "" "" []),
    row!("xor eax, eax, unknown"; b"\x31\xc0"; "step"; "rax=?" "" "" "" =>
        0x40_007a "rax=v400078" "32 zx32(v400078) 0" "" "" [More::Register(0, "rax=0"), More::Flags("32 0 0")]),
    row!("and rax, rbx, unknown"; b"\x48\x21\xd8"; "step"; "rbx=?" "" "" "" =>
        0x40_007b "rax=v400078 rbx=?" "64 v400078 0" "" "" []),
    row!("and al, 1"; b"\x24\x01"; "step"; "" "" "" "" =>
        0x40_007a "rax=v400078" "8 zx8(and(zx8(rax0),1)) 0" "" "" [More::Flags("8 zx8(v400078) 0")]),
    row!("and al, bl, unknown"; b"\x20\xd8"; "step"; "rbx=?" "32 zx32(rdi0) 3" "" "" =>
        0x40_007a "rax=v400078 rbx=?" "" "" "" [More::Flags("8 zx8(v400078) 0"), More::Flags("32 zx32(rdi0) 3")]),
    row!("and [rdi], eax"; b"\x21\x07"; "step"; "" "" "" "" =>
        0x40_007a "" "" "" "[rdi0;4]" [More::Flags("32 zx32(v400078) 0"), More::Cell(0, "[rdi0;4]=zx32(v400078)")]),
    row!("test edi, edi"; b"\x85\xff"; "step"; "" "" "" "" => 0x40_007a "" "32 zx32(rdi0) 0" "" "" []),
    row!("test edi, ebx, unknown"; b"\x85\xdf"; "step"; "rbx=?" "32 zx32(rdi0) 3" "" "" =>
        0x40_007a "rbx=?" "" "" "" [More::Flags("32 zx32(rdi0) 3"), More::Flags("32 zx32(v400078) 0")]),
    row!("test al, 0x81"; b"\xa8\x81"; "step"; "" "" "" "" => 0x40_007a "" "8 zx8(and(zx8(rax0),129)) 0" "" "" []),
];

pub static PRODUCTS: [Row; 8] = [
    row!("imul eax, ebx"; b"\x0f\xaf\xc3"; "step"; "" "32 zx32(rdi0) 3" "" "" =>
        0x40_007b "rax=zx32(mul(zx32(rax0),zx32(rbx0)))" "" "" "" [More::Flags("32 zx32(rdi0) 3")]),
    row!("imul eax, ecx, -2"; b"\x6b\xc1\xfe"; "step"; "" "32 zx32(rdi0) 3" "" "" =>
        0x40_007b "rax=zx32(0xfffffffe*zx32(rcx0))" "" "" "" [More::Flags("32 zx32(rdi0) 3")]),
    row!("imul rax, rcx, -2"; b"\x48\x6b\xc1\xfe"; "step"; "" "" "" "" => 0x40_007c "rax=-2*rcx0" "" "" "" []),
    row!("imul eax, ecx, -2, of a number"; b"\x6b\xc1\xfe"; "step"; "rcx=3" "" "" "" =>
        0x40_007b "rax=0xfffffffa rcx=3" "" "" "" []),
    row!("mul ecx"; b"\xf7\xe1"; "step"; "" "32 zx32(rdi0) 3" "" "" => 0x40_007a "rax=v400078 rdx=?" "" "" "" [
        More::Flags("32 zx32(rdi0) 3"), More::Register(2, "rax=v400078 rdx=v400078"), More::Register(2, "rax=v400078")]),
    row!("imul cx"; b"\x66\xf7\xe9"; "step"; "" "" "" "" =>
        0x40_007b "rax=v400078 rdx=?" "" "" "" [More::Register(2, "rax=v400078")]),
    row!("div ecx"; b"\xf7\xf1"; "step"; "" "32 zx32(rdi0) 3" "" "" =>
        0x40_007a "rax=v400078 rdx=?" "" "" "" [More::Flags("32 zx32(rdi0) 3"), More::Register(2, "rax=v400078")]),
    row!("idiv rcx"; b"\x48\xf7\xf9"; "step"; "rdx=?" "" "" "" =>
        0x40_007b "rax=v400078 rdx=?" "" "" "" [More::Register(2, "rax=v400078 rdx=v400078")]),
];

pub static SHIFTS: [Row; 11] = [
    row!("shl eax, 3"; b"\xc1\xe0\x03"; "step"; "" "32 zx32(rdi0) 3" "" "" =>
        0x40_007b "rax=zx32(8*zx32(rax0))" "" "" "" [More::Flags("32 zx32(rdi0) 3")]),
    row!("shl eax, 35"; b"\xc1\xe0\x23"; "step"; "" "" "" "" => 0x40_007b "rax=zx32(8*zx32(rax0))" "" "" "" []),
    row!("shl rax, 63"; b"\x48\xc1\xe0\x3f"; "step"; "" "" "" "" =>
        0x40_007c "rax=0x8000000000000000*rax0" "" "" "" []),
    row!("shr eax, 1"; b"\xd1\xe8"; "step"; "" "" "" "" => 0x40_007a "rax=zx32(shr(zx32(rax0),1))" "" "" "" []),
    row!("sar eax, 1"; b"\xd1\xf8"; "step"; "" "" "" "" => 0x40_007a "rax=zx32(sar(sx32(zx32(rax0)),1))" "" "" "" []),
    row!("sar rax, 1"; b"\x48\xd1\xf8"; "step"; "" "" "" "" => 0x40_007b "rax=sar(rax0,1)" "" "" "" []),
    row!("shl eax, cl, a number"; b"\xd3\xe0"; "step"; "rcx=3" "32 0 0" "" "" =>
        0x40_007a "rax=v400078 rcx=3" "" "" "" [More::Flags("32 0 0")]),
    row!("rol eax, 1"; b"\xd1\xc0"; "step"; "" "32 zx32(rdi0) 3" "" "" =>
        0x40_007a "rax=v400078" "" "" "" [More::Flags("32 zx32(rdi0) 3")]),
    row!("ror rax, 8"; b"\x48\xc1\xc8\x08"; "step"; "" "" "" "" => 0x40_007c "rax=v400078" "" "" "" []),
    row!("shl byte [rdi], 9"; b"\xc0\x27\x09"; "step"; "" "" "" "[rdi0;1]=5" =>
        0x40_007b "" "" "" "[rdi0;1]" [More::Cell(0, "[rdi0;1]=0")]),
    row!("shl byte [rdi], 7"; b"\xc0\x27\x07"; "step"; "" "" "" "[rdi0;1]=5" =>
        0x40_007b "" "" "" "[rdi0;1]=128" []),
];

// Each keeps the flags of zx32(rdi0) against 3.
pub static MOVES: [Row; 16] = [
    row!("mov eax, 5"; b"\xb8\x05\0\0\0"; "step"; "" "32 zx32(rdi0) 3" "" "" =>
        0x40_007d "rax=5" "32 zx32(rdi0) 3" "" "" [More::Register(0, "rax=v400078")]),
    row!("mov rax, -1"; b"\x48\xc7\xc0\xff\xff\xff\xff"; "step"; "" "" "" "" => 0x40_007f "rax=-1" "" "" "" []),
    row!("mov rax, rbx"; b"\x48\x89\xd8"; "step"; "" "" "" "" => 0x40_007b "rax=rbx0" "" "" "" []),
    row!("mov eax, ebx"; b"\x89\xd8"; "step"; "" "" "" "" => 0x40_007a "rax=zx32(rbx0)" "" "" "" []),
    row!("mov ax, bx"; b"\x66\x89\xd8"; "step"; "" "" "" "" =>
        0x40_007b "rax=v400078" "" "" "" [More::Register(0, "rax=rbx0"), More::Register(0, "rax=zx16(rbx0)")]),
    row!("mov al, bl"; b"\x88\xd8"; "step"; "" "" "" "" => 0x40_007a "rax=v400078" "" "" "" [More::Register(0, "")]),
    row!("mov ah, bh"; b"\x88\xfc"; "step"; "" "" "" "" =>
        0x40_007a "rax=v400078" "" "" "" [More::Register(0, ""), More::Register(4, "rax=v400078 rsp=v400078")]),
    row!("mov rax, rbx, unknown"; b"\x48\x89\xd8"; "step"; "rbx=?" "" "" "" =>
        0x40_007b "rax=v400078 rbx=?" "" "" "" [More::Register(3, "rax=v400078 rbx=v400078")]),
    row!("movzx eax, bh"; b"\x0f\xb6\xc7"; "step"; "" "" "" "" => 0x40_007b "rax=zx8(shr(rbx0,8))" "" "" "" []),
    row!("movzx eax, cl"; b"\x0f\xb6\xc1"; "step"; "" "" "" "" => 0x40_007b "rax=zx8(rcx0)" "" "" "" []),
    row!("movsx eax, cl"; b"\x0f\xbe\xc1"; "step"; "" "" "" "" => 0x40_007b "rax=zx32(sx8(zx8(rcx0)))" "" "" "" []),
    row!("movsx rax, cl"; b"\x48\x0f\xbe\xc1"; "step"; "" "" "" "" => 0x40_007c "rax=sx8(zx8(rcx0))" "" "" "" []),
    row!("movsx rax, cl, of zx8"; b"\x48\x0f\xbe\xc1"; "step"; "rcx=128" "" "" "" =>
        0x40_007c "rax=-128 rcx=128" "" "" "" []),
    row!("movsxd rax, ecx"; b"\x48\x63\xc1"; "step"; "" "" "" "" => 0x40_007b "rax=sx32(zx32(rcx0))" "" "" "" []),
    row!("movsxd rax, ecx, of zx8"; b"\x48\x63\xc1"; "step"; "rcx=zx8(rdi0)" "" "" "" =>
        0x40_007b "rax=zx8(rdi0) rcx=zx8(rdi0)" "" "" "" []),
    row!("lea rax, [rdi+rsi*8+16]"; b"\x48\x8d\x44\xf7\x10"; "step"; "" "" "" "" =>
        0x40_007d "rax=8*rsi0+rdi0+16" "" "" "" []),
];

pub static MORE_MOVES: [Row; 16] = [
    row!("lea eax, [rdi+1]"; b"\x8d\x47\x01"; "step"; "" "" "" "" => 0x40_007b "rax=zx32(rdi0+1)" "" "" "" []),
    row!("lea rax, [rdi+1], unknown"; b"\x48\x8d\x47\x01"; "step"; "rdi=?" "" "" "[rsp0;8]=ra" =>
        0x40_007c "rax=v400078 rdi=?" "" "" "[rsp0;8]=ra" []),
    row!("lea ax, [rdi+1]"; b"\x66\x8d\x47\x01"; "step"; "" "" "" "" => 0x40_007c "rax=v400078" "" "" "" []),
    row!("cdqe"; b"\x48\x98"; "step"; "" "32 zx32(rdi0) 3" "" "" =>
        0x40_007a "rax=sx32(rax0)" "32 zx32(rdi0) 3" "" "" []),
    row!("cwde"; b"\x98"; "step"; "" "" "" "" => 0x40_0079 "rax=zx32(sx16(rax0))" "" "" "" []),
    row!("cbw"; b"\x66\x98"; "step"; "" "" "" "" => 0x40_007a "rax=v400078" "" "" "" []),
    row!("cdq"; b"\x99"; "step"; "" "32 zx32(rdi0) 3" "" "" =>
        0x40_0079 "rdx=v400078" "32 zx32(rdi0) 3" "" "" [More::Register(2, "")]),
    row!("cqo"; b"\x48\x99"; "step"; "" "" "" "" => 0x40_007a "rdx=v400078" "" "" "" []),
    row!("cwd"; b"\x66\x99"; "step"; "" "" "" "" => 0x40_007a "rdx=v400078" "" "" "" []),
    row!("bswap eax"; b"\x0f\xc8"; "step"; "rax=5" "32 zx32(rdi0) 3" "" "" =>
        0x40_007a "rax=v400078" "32 zx32(rdi0) 3" "" "" [More::Register(0, "rax=0x5000000")]),
    row!("cmove eax, ecx"; b"\x0f\x44\xc1"; "step"; "rax=5 rcx=5" "32 zx32(rdi0) 3" "" "" =>
        0x40_007b "rax=v400078 rcx=5" "32 zx32(rdi0) 3" "" "" [More::Register(0, "rax=5 rcx=5")]),
    row!("sete al"; b"\x0f\x94\xc0"; "step"; "" "32 zx32(rdi0) 3" "" "" =>
        0x40_007b "rax=v400078" "32 zx32(rdi0) 3" "" "" []),
    row!("nop [rdi]"; b"\x0f\x1f\x07"; "step"; "" "32 zx32(rdi0) 3" "rdi0 0..3" "[rsp0;8]=ra" =>
        0x40_007b "" "32 zx32(rdi0) 3" "rdi0 0..3" "[rsp0;8]=ra" [More::Cell(1, "[rsp0;8]=ra\nc [rdi0;4]")]),
    row!("ret"; b"\xc3"; "step"; "" "" "" "" => ),
    row!("hlt"; b"\xf4"; "step"; "" "" "" "" => ),
    row!("int3"; b"\xcc"; "step"; "" "" "" "" => ),
];

pub static EXCHANGES: [Row; 13] = [
    row!("xchg rax, rbx"; b"\x48\x87\xd8"; "step"; "" "32 zx32(rdi0) 3" "" "" =>
        0x40_007b "rax=rbx0 rbx=rax0" "32 zx32(rdi0) 3" "" "" []),
    row!("xchg eax, ebx"; b"\x87\xd8"; "step"; "" "" "" "" => 0x40_007a "rax=zx32(rbx0) rbx=zx32(rax0)" "" "" "" []),
    row!("xchg eax, eax"; b"\x87\xc0"; "step"; "" "" "" "" => 0x40_007a "rax=zx32(rax0)" "" "" "" []),
    row!("xchg ax, bx"; b"\x66\x87\xd8"; "step"; "" "" "" "" => 0x40_007b "rax=? rbx=?" "" "" "" [
        More::Register(0, "rax=v400078 rbx=?"), More::Register(0, "rax=zx16(rbx0) rbx=?"), More::Register(3, "rax=?")]),
    row!("xchg al, bl"; b"\x86\xd8"; "step"; "" "" "" "" => 0x40_007a "rax=? rbx=?" "" "" "" [
        More::Register(0, "rbx=?"), More::Register(3, "rax=? rbx=v400078"), More::Register(3, "rax=?")]),
    row!("xchg rax, rbx, one unknown"; b"\x48\x87\xd8"; "step"; "rbx=?" "" "" "" =>
        0x40_007b "rax=? rbx=rax0" "" "" "" [More::Register(0, "rax=v400078 rbx=rax0")]),
    row!("xchg [rdi], eax"; b"\x87\x07"; "step"; "" "" "" "" =>
        0x40_007a "rax=zx32(v400078)" "" "" "[rdi0;4]=zx32(rax0)" []),
    row!("xchg [rdi], rax"; b"\x48\x87\x07"; "step"; "" "" "" "[rdi0;8]=5" =>
        0x40_007b "rax=5" "" "" "[rdi0;8]=rax0" []),
    row!("xchg [rdi], eax, with a term over its width"; b"\x87\x07"; "step"; "" "" "" "[rdi0;4]=rsi0" =>
        0x40_007a "rax=rsi0" "" "" "[rdi0;4]=zx32(rax0)" [More::Register(0, "rax=zx32(rsi0)")]),
    row!("xchg [rdi], al"; b"\x86\x07"; "step"; "" "" "" "[rsp0;8]=ra" =>
        0x40_007a "rax=v400078" "" "" "[rdi0;1]=zx8(rax0)" [More::Cell(0, "[rsp0;8]")]),
    row!("xchg [rdi], ah"; b"\x86\x27"; "step"; "" "" "" "" =>
        0x40_007a "rax=v400078" "" "" "[rdi0;1]=zx8(shr(rax0,8))" []),
    row!("xchg [rdi], rax, at an unknown address"; b"\x48\x87\x07"; "step"; "rdi=?" "" "" "[rsp0;8]=ra" =>
        0x40_007b "rax=v400078 rdi=?" "" "" "" [More::Cell(0, "[rsp0;8]"), More::Cell(0, "[v400078;8]")]),
    row!("xchg [rdi], ax, unknown"; b"\x66\x87\x07"; "step"; "rax=?" "" "" "[rdi0;2]=5" =>
        0x40_007b "rax=v400078" "" "" "[rdi0;2]" [More::Cell(0, "[rdi0;2]=5"), More::Register(0, "rax=5")]),
];
