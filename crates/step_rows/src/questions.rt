use crate::sample::{Facts, graph, vertex_of};
use mem_forest::Region;
use std::alloc::Global;
use std::test::Fail;

/// What is asked of an instruction at a site beside its cases.
pub struct Question {
    pub what: &'static str,
    pub code: &'static [u8],
    pub site: &'static str,
    pub before: Facts,
    /// The region of its store, or nothing.
    pub store: &'static str,
    pub target: Option<u64>,
    pub keeps: bool,
    pub fork: bool,
    pub returns: bool,
}

/// A question: what it shows; bytes; the site; registers, flags, bounds and cells; the region of the store, the call's
/// target, whether the kept regions, the pair and a return hold.
macro_rules! ask {
    ($what:literal; $code:literal; $site:literal; $r:literal $z:literal $b:literal $c:literal =>
     $store:literal $target:expr, $keeps:literal $fork:literal $returns:literal) => {
        Question {
            what: $what,
            code: $code,
            site: $site,
            before: Facts { registers: $r, flags: $z, bounds: $b, cells: $c },
            store: $store,
            target: $target,
            keeps: $keeps,
            fork: $fork,
            returns: $returns,
        }
    };
}

pub static STORES: [Question; 20] = [
    ask!("mov [rdi], eax"; b"\x89\x07"; "step"; "" "" "" "[rsp0;8]=ra" => "[rdi0;4]" None, true true true),
    ask!("mov [rdi], al"; b"\x88\x07"; "step"; "" "" "" "" => "[rdi0;1]" None, true true false),
    ask!("mov [rdi], eax, unknown"; b"\x89\x07"; "step"; "rdi=?" "" "" "[rsp0;8]=ra" =>
        "[v400078;4]" None, true true true),
    ask!("mov [rdi], eax, its old name"; b"\x89\x07"; "step"; "rdi=v400078+8" "" "" "" =>
        "[v400078;4]" None, true true false),
    ask!("mov eax, [rdi]"; b"\x8b\x07"; "step"; "" "" "" "" => "" None, true true false),
    ask!("cmp [rdi], eax"; b"\x39\x07"; "step"; "" "" "" "" => "" None, true true false),
    ask!("test [rdi], eax"; b"\x85\x07"; "step"; "" "" "" "" => "" None, true true false),
    ask!("add [rdi], eax"; b"\x01\x07"; "step"; "" "" "" "" => "[rdi0;4]" None, true true false),
    ask!("add eax, [rdi]"; b"\x03\x07"; "step"; "" "" "" "" => "" None, true true false),
    ask!("lea rax, [rdi]"; b"\x48\x8d\x07"; "step"; "" "" "" "" => "" None, true true false),
    ask!("xchg [rdi], eax"; b"\x87\x07"; "step"; "" "" "" "" => "[rdi0;4]" None, true true false),
    ask!("xchg [rdi], eax, unknown"; b"\x87\x07"; "step"; "rdi=?" "" "" "" => "" None, true true false),
    ask!("shl word [rdi], 1"; b"\x66\xd1\x27"; "step"; "" "" "" "" => "[rdi0;2]" None, true true false),
    ask!("sete [rdi]"; b"\x0f\x94\x07"; "step"; "" "" "" "" => "[rdi0;1]" None, true true false),
    ask!("mul dword [rdi]"; b"\xf7\x27"; "step"; "" "" "" "" => "" None, true true false),
    ask!("push rbx"; b"\x53"; "step"; "" "" "" "" => "[rsp0-8;8]" None, true true false),
    ask!("push rbx, with rsp unknown"; b"\x53"; "step"; "rsp=?" "" "" "" => "[v400078;8]" None, true true false),
    ask!("push [rdi], with rsp unknown"; b"\xff\x37"; "step"; "rsp=?" "" "" "" => "" None, true true false),
    ask!("pop rbx"; b"\x5b"; "step"; "" "" "" "" => "" None, true true false),
    ask!("jmp [rdi]"; b"\xff\x27"; "step"; "" "" "" "" => "" None, true true false),
];

pub static CALLS: [Question; 18] = [
    ask!("call"; b"\xe8\0\0\0\0"; "outside\nk [rsp0;8]"; "" "" "" "[rsp0;8]=ra" =>
        "[rsp0-8;8]" Some(0x40_007d), true true true),
    ask!("call, a kept region without a cell"; b"\xe8\0\0\0\0"; "outside\nk [rsp0;8]"; "" "" "" "" =>
        "[rsp0-8;8]" Some(0x40_007d), false true false),
    ask!("call, a kept region without a value"; b"\xe8\0\0\0\0"; "outside\nk [rsp0;8]"; "" "" "" "[rsp0;8]" =>
        "[rsp0-8;8]" Some(0x40_007d), false true false),
    ask!("call, one of two kept regions"; b"\xe8\0\0\0\0"; "outside\nk [rdi0;8]\nk [rsp0-8;8]"; "" "" "" "" =>
        "[rsp0-8;8]" Some(0x40_007d), false true false),
    ask!("call, the pushed address kept"; b"\xe8\0\0\0\0"; "outside\nk [rsp0-8;8]"; "" "" "" "" =>
        "[rsp0-8;8]" Some(0x40_007d), true true false),
    ask!("call, a part of the pushed address kept"; b"\xe8\0\0\0\0"; "outside\nk [rsp0-8;4]"; "" "" "" "[rsp0-8;4]=5" =>
        "[rsp0-8;8]" Some(0x40_007d), false true false),
    ask!("call, a kept region that the push takes"; b"\xe8\0\0\0\0"; "outside\nk [rsp0;8]"; "rsp=rdi0" "" "" "[rsp0;8]=ra" =>
        "[rdi0-8;8]" Some(0x40_007d), false true false),
    ask!("call, a value that mentions the name"; b"\xe8\0\0\0\0"; "outside\nk [rsp0;8]"; "" "" "" "[rsp0;8]=v400078" =>
        "[rsp0-8;8]" Some(0x40_007d), false true false),
    ask!("call, with rsp unknown"; b"\xe8\0\0\0\0"; "outside\nk [rsp0;8]"; "rsp=?" "" "" "[rsp0;8]=ra" =>
        "" Some(0x40_007d), false true false),
    ask!("call rax, a number"; b"\xff\xd0"; "outside"; "rax=0x400010" "" "" "" =>
        "[rsp0-8;8]" Some(0x40_0010), true true false),
    ask!("call rax, unknown"; b"\xff\xd0"; "outside"; "rax=?" "" "" "" => "[rsp0-8;8]" None, true true false),
    ask!("call rax, a symbol"; b"\xff\xd0"; "outside"; "" "" "" "" => "[rsp0-8;8]" None, true true false),
    ask!("call [0x4000b8]"; b"\xff\x14\x25\xb8\0\x40\0"; "outside"; "" "" "" "" =>
        "[rsp0-8;8]" Some(0x40_0011), true true false),
    ask!("call [rdi], a value"; b"\xff\x17"; "outside"; "" "" "" "[rdi0;8]=5" => "[rsp0-8;8]" Some(5), true true false),
    ask!("call [rdi], nothing known"; b"\xff\x17"; "outside"; "" "" "" "" => "[rsp0-8;8]" None, true true false),
    ask!("call [rsp-8], read before the push"; b"\xff\x54\x24\xf8"; "outside"; "" "" "" "[rsp0-8;8]=5" =>
        "[rsp0-8;8]" Some(5), true true false),
    ask!("syscall"; b"\x0f\x05"; "outside\nk [rsp0;8]"; "" "" "" "[rsp0;8]=ra" => "" None, true true true),
    ask!("syscall stores nothing"; b"\x0f\x05"; "outside\nk [rsp0-8;8]"; "" "" "" "[rsp0;8]=ra" =>
        "" None, false true true),
];

pub static PAIRS: [Question; 11] = [
    ask!("a pair"; b"\x90"; "step\ng [rdx0;8] [rdi0;8]"; "" "" "" "[rdi0;8]" => "" None, true true false),
    ask!("no cell"; b"\x90"; "step\ng [rdx0;8] [rdi0;8]"; "" "" "" "[rdi0;4]" => "" None, true false false),
    ask!("a cell under another"; b"\x90"; "step\ng [rdx0;4] [rdi0;4]"; "" "" "" "[rdi0;8]\nc .[rdi0;4]" =>
        "" None, true true false),
    ask!("another size"; b"\x90"; "step\ng [rdx0;4] [rdi0;8]"; "" "" "" "[rdi0;8]" => "" None, true false false),
    ask!("both have cells"; b"\x90"; "step\ng [rdx0;8] [rdi0;8]"; "" "" "" "[rdx0;8]\nc [rdi0;8]" =>
        "" None, true false false),
    ask!("a cell whose name goes"; b"\x90"; "step\ng [rdx0;8] [v400078;8]"; "" "" "" "[v400078;8]" =>
        "" None, true false false),
    ask!("a second cell that goes"; b"\x90"; "step\ng [v400078;8] [rdi0;8]"; "" "" "" "[rdi0;8]\nc [v400078;8]" =>
        "" None, true true false),
    ask!("seven names"; b"\x90"; "step\ng [rdi0;8] [v1;8]"; "" "" "" "[v1|v2|v3|v4|v5|v6|v7;8]" =>
        "" None, true true false),
    ask!("eight names"; b"\x90"; "step\ng [rdi0;8] [v1;8]"; "" "" "" "[v1|v2|v3|v4|v5|v6|v7|v8;8]" =>
        "" None, true false false),
    ask!("eight names, of which one goes"; b"\x90"; "step\ng [rdi0;8] [v1;8]"; "" "" ""
        "[v1|v2|v3|v4|v5|v6|v7|v400078;8]" => "" None, true true false),
    ask!("at a jump"; b"\xeb\x05"; "step\ng [rdx0;8] [rdi0;8]"; "" "" "" "[rdi0;8]" => "" None, true false false),
];

pub static RETURNS: [Question; 15] = [
    ask!("all as at the entry"; b"\xc3"; "step"; "" "" "" "[rsp0;8]=ra" => "" None, true true true),
    ask!("what a callee may change"; b"\xc3"; "step"; "rax=5 rcx=? rdx=? rsi=? rdi=? r8=? r9=? r10=? r11=?" "" ""
        "[rsp0;8]=ra\nc [rdi0;8]=5" => "" None, true true true),
    ask!("no cell"; b"\xc3"; "step"; "" "" "" "" => "" None, true true false),
    ask!("a cell without a value"; b"\xc3"; "step"; "" "" "" "[rsp0;8]" => "" None, true true false),
    ask!("another value"; b"\xc3"; "step"; "" "" "" "[rsp0;8]=ra+1" => "" None, true true false),
    ask!("four bytes"; b"\xc3"; "step"; "" "" "" "[rsp0;4]=ra" => "" None, true true false),
    ask!("one of two names"; b"\xc3"; "step"; "" "" "" "[rcx0|rsp0;8]=ra" => "" None, true true true),
    ask!("a lower rsp"; b"\xc3"; "step"; "rsp=rsp0-8" "" "" "[rsp0;8]=ra" => "" None, true true false),
    ask!("rsp unknown"; b"\xc3"; "step"; "rsp=?" "" "" "[rsp0;8]=ra" => "" None, true true false),
    ask!("rbx"; b"\xc3"; "step"; "rbx=?" "" "" "[rsp0;8]=ra" => "" None, true true false),
    ask!("rbp"; b"\xc3"; "step"; "rbp=rbp0+1" "" "" "[rsp0;8]=ra" => "" None, true true false),
    ask!("r12"; b"\xc3"; "step"; "r12=r130" "" "" "[rsp0;8]=ra" => "" None, true true false),
    ask!("r13"; b"\xc3"; "step"; "r13=?" "" "" "[rsp0;8]=ra" => "" None, true true false),
    ask!("r14"; b"\xc3"; "step"; "r14=2*r140" "" "" "[rsp0;8]=ra" => "" None, true true false),
    ask!("r15"; b"\xc3"; "step"; "r15=0" "" "" "[rsp0;8]=ra" => "" None, true true false),
];

/// Whether a region is the one that is written so, as a cell.
pub fn is_region(alloc: Global, region: Option<&Region>, line: &'static str) -> Result<bool, Fail> {
    let facts = Facts {
        registers: "",
        flags: "",
        bounds: "",
        cells: line,
    };
    let graph = graph(alloc, "step", facts)?;
    let nodes = vertex_of(&graph)?.pred.forest.nodes();
    match (region, nodes.first()) {
        (Some(region), Some(node)) => Ok(node.bytes == region.bytes && node.has_name(&region.at)),
        (None, None) => Ok(true),
        _ => Ok(false),
    }
}
