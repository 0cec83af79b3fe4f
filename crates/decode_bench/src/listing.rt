ghost use Rattle.std.specs.Prelude.{ℕ, ◌≡◌, ◌↔◌, ◌<◌, ◌≤◌, IfSome, drop, length};
ghost use Rattle.x86_instr.specs.Fits.{InForm};
ghost use Rattle.x86_instr.specs.declared.instr.Instr.{Instr as PlainInstr};
ghost use Rattle.decode_bench.specs.Sweep.{Begins, Sweeps};

use std::alloc::{AllocError, Global};
use x86_decode::decode;
use x86_instr::Instr;

/// What going from instruction to instruction meets.
#[derive(Clone, Copy)]
pub struct Count {
    /// The instructions.
    pub instructions: u64,
    /// The bytes at which no instruction begins, each passed alone.
    pub others: u64,
}

// The instruction that begins at an offset, which is its address too.
fn instruction_at(code: &[u8], at: usize) -> Option<Instr>
    requires { at < length code.now }
    ensures found { IfSome result (Begins at (drop at code.now)) }
    ensures none { (result ≡ None) ↔ ((i : PlainInstr) → Begins at (drop at code.now) i → ⊥) }
    ensures in_form { IfSome result InForm }
{
    decode(&code[at..], at as u64)
}

/// What going from the first byte on meets until the code is at its end.
pub(crate) fn count_instructions(code: &[u8]) -> Count
    ensures { (last : ℕ) × (length code.now ≤ last) × Sweeps code.now last result.instructions result.others }
{
    let mut count = Count {
        instructions: 0,
        others: 0,
    };
    let mut next = 0;
    for at in 0..code.len() {
        if at == next {
            if let Some(i) = instruction_at(code, at) {
                count.instructions += 1;
                next = at + i.len as usize;
            } else {
                count.others += 1;
                next = at + 1;
            }
        }
    }
    count
}

// The line of the byte at an offset.
pub(crate) fn line_of(alloc: Global, code: &[u8], at: usize) -> Result<String, AllocError>
    requires { at < length code.now }
{
    match instruction_at(code, at) {
        Some(i) => {
            let len = i.len;
            let op = i.op;
            format!(in alloc; "{at:x} {len} {op:?}\n")
        }
        None => format!(in alloc; "{at:x} none\n"),
    }
}
