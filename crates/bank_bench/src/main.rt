//! Reads the text of a graph from standard input, and steps by instructions from the predicate of its first site, over a
//! bank: the first word says which, `plain` or `intern`; the second how many other terms it has before; the third how often
//! to step by each of the instructions that the other words spell in hexadecimal. Prints how many cases were made and how
//! often a term was put for them, and to standard error the nanoseconds that took. `bench/bank.sh` reads that.
#![tactic(auto)]

mod counting;
mod steps;

use bank_step::to_bank;
use counting::Counting;
use graph_data::Graph;
use graph_text::read_graph;
use predicates::Pred;
use std::alloc::Global;
use std::io::Read;
use std::process::ExitCode;
use std::time::Instant;
use std::{env, io};
use steps::{fill, steps};
use sym_terms::NoMemory;
use term_bank::{Bank, InternBank, PlainBank};
use x86_decode::decode;
use x86_instr::Instr;

/// What the words say.
#[derive(Drop)]
struct Task {
    interns: bool,
    size: u64,
    count: u64,
    instructions: Vec<Instr>,
}

fn push_instruction(instructions: &mut Vec<Instr>, alloc: Global, word: &str) -> io::Result<()> {
    let code = hex::decode(alloc, word.as_bytes()).map_err(|_| io::ErrorKind::InvalidInput)?;
    let i = decode(code.as_slice(), 0x40_0078).ok_or(io::ErrorKind::InvalidInput)?;
    instructions
        .push(i)
        .map_err(|_| io::ErrorKind::OutOfMemory)?;
    Ok(())
}

fn read_task(rt: &HostRuntime) -> io::Result<Task> {
    let mut words = env::args(rt)?.skip(1);
    let (Some(bank), Some(size), Some(count)) = (words.next(), words.next(), words.next()) else {
        return Err(io::ErrorKind::InvalidInput.into());
    };
    let mut instructions = Vec::new(rt.alloc());
    for word in words {
        push_instruction(&mut instructions, rt.alloc(), word.as_str())?;
    }
    Ok(Task {
        interns: bank.as_str() == "intern",
        size: size.as_str().parse::<u64>().unwrap_or(0),
        count: count.as_str().parse::<u64>().unwrap_or(0),
        instructions,
    })
}

fn first_of(graph: &Graph) -> Option<&Pred> {
    let site = graph
        .functions
        .as_slice()
        .first()?
        .sites
        .as_slice()
        .first()?;
    let vertex = site.vertices.as_slice().first()?;
    Some(&vertex.pred)
}

fn refused(_: NoMemory) -> io::Error {
    io::ErrorKind::OutOfMemory.into()
}

fn run<B: Bank + Drop>(rt: &HostRuntime, bank: B, task: &Task, pred: &Pred) -> io::Result<()> {
    let alloc = rt.alloc();
    let mut bank = Counting::of(bank);
    fill(alloc, &mut bank, task.size).map_err(refused)?;
    let numbered = to_bank(alloc, &mut bank, pred).map_err(refused)?;
    let before = bank.puts;
    let begun = Instant::now(rt)?;
    let made = steps(
        alloc,
        &mut bank,
        task.instructions.as_slice(),
        &numbered,
        task.count,
    )
    .map_err(refused)?;
    let spent = begun.elapsed(rt)?;
    eprintln!(rt; "{}", spent.as_nanos())?;
    println!(rt;
        "{made} cases, {} terms put",
        bank.puts.wrapping_sub(before)
    )?;
    Ok(())
}

fn main(rt: HostRuntime) -> io::Result<ExitCode> {
    let mut text = Vec::new(rt.alloc());
    rt.stdin().read_to_end(&mut text)?;
    let graph = read_graph(rt.alloc(), &text).map_err(|_| io::ErrorKind::InvalidData)?;
    let task = read_task(&rt)?;
    let Some(pred) = first_of(&graph) else {
        return Ok(ExitCode::FAILURE);
    };
    if task.interns {
        run(&rt, InternBank::new(rt.alloc()), &task, pred)?;
    } else {
        run(&rt, PlainBank::new(rt.alloc()), &task, pred)?;
    }
    Ok(ExitCode::SUCCESS)
}
