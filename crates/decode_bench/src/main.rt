//! Decodes the machine code that stands on standard input. Without a word it prints a line for each byte, what
//! begins there: the byte's offset, the instruction's length, its operation. With the word `count` it goes from
//! instruction to instruction and prints how many there are, and how many bytes begin none.
#![tactic(auto)]

mod listing;

use listing::{count_instructions, line_of};
use std::io::{BufWriter, Read, Write};
use std::{env, io};

fn print_count(rt: &HostRuntime, code: &[u8]) -> io::Result<()> {
    let count = count_instructions(code);
    let instructions = count.instructions;
    let others = count.others;
    println!(rt; "{instructions} instructions, {others} other bytes")
}

fn print_lines(rt: &HostRuntime, code: &[u8]) -> io::Result<()> {
    let mut out = BufWriter::new(rt.alloc(), rt.stdout())?;
    for at in 0..code.len() {
        out.write_all(line_of(rt.alloc(), code, at)?.as_bytes())?;
    }
    out.flush()
}

fn main(rt: HostRuntime) -> io::Result<()> {
    let mut code = Vec::new(rt.alloc());
    rt.stdin().read_to_end(&mut code)?;
    for word in env::args(&rt)?.skip(1) {
        if word.as_str() == "count" {
            return print_count(&rt, &code);
        }
    }
    print_lines(&rt, &code)
}
