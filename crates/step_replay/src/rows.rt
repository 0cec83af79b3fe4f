use std::alloc::Global;
use std::str::SplitWhitespace;

/// Where eight recorded bytes of memory stand.
pub const CELL: u64 = 0x1000_0000;

/// Where the recorded instructions stand.
pub const CODE: u64 = 0x2000_0000;

/// The registers from rax to rbp, the bytes at `CELL` and the flags: 1 carry, 2 zero, 4 sign, 8 overflow.
#[derive(Clone, Copy)]
pub struct Recorded {
    pub regs: [u64; 6],
    pub cell: u64,
    pub flags: u8,
}

/// The state after a step, with the flags of the mask alone.
#[derive(Clone, Copy)]
pub struct Goal {
    pub mask: u8,
    pub after: Recorded,
    pub rip: u64,
}

/// A recorded step.
#[derive(Drop)]
pub struct Row {
    /// The bytes of the instruction.
    pub code: Vec<u8>,
    pub before: Recorded,
    /// None for a fault.
    pub goal: Option<Goal>,
}

fn number(words: &mut SplitWhitespace<'_>) -> Option<u64> {
    u64::from_str_radix(words.next()?, 16).ok()
}

fn digit(words: &mut SplitWhitespace<'_>) -> Option<u8> {
    u8::from_str_radix(words.next()?, 16).ok()
}

fn state_of_words(words: &mut SplitWhitespace<'_>) -> Option<Recorded> {
    let mut regs = [0; 6];
    for r in regs.iter_mut() {
        *r = number(words)?;
    }
    let cell = number(words)?;
    let flags = digit(words)?;
    Some(Recorded { regs, cell, flags })
}

fn goal_of_words(words: &mut SplitWhitespace<'_>, mask: u8) -> Option<Goal> {
    let after = state_of_words(words)?;
    let rip = number(words)?;
    Some(Goal { mask, after, rip })
}

/// The step of a line. None where the line has not the form of tools/record_steps.c, or memory is refused.
pub(crate) fn row_of(alloc: Global, line: &str) -> Option<Row> {
    let mut words = line.split_whitespace();
    let code = hex::decode(alloc, words.next()?).ok()?;
    let before = state_of_words(&mut words)?;
    let mask = digit(&mut words)?;
    let goal = if line.ends_with("fault") {
        None
    } else {
        Some(goal_of_words(&mut words, mask)?)
    };
    Some(Row { code, before, goal })
}
