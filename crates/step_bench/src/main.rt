//! Reads the text of a graph from standard input, and tries the first edge of its first site as often as the second word
//! says: the first word is the instruction there, in hexadecimal, and the predicate to which the edge leads is that of the
//! second site. Prints how often the edge held. With the word `copy` in place of an instruction the predicate of the first
//! site is copied as often. `bench/step.sh` times it.
#![tactic(auto)]

mod edges;

use edges::{copy_often, count_holding};
use graph_data::Graph;
use graph_text::read_graph;
use predicates::Pred;
use std::alloc::Global;
use std::io::Read;
use std::process::ExitCode;
use std::{env, io};
use x86_decode::decode;

// The predicates of the first site and of the one after it.
fn predicates_of(graph: &Graph) -> Option<(&Pred, &Pred)> {
    let sites = graph.functions.as_slice().first()?.sites.as_slice();
    let before = sites.first()?.vertices.as_slice().first()?;
    let after = sites.get(1)?.vertices.as_slice().first()?;
    Some((&before.pred, &after.pred))
}

// How often the edge held, or the predicate was copied; `None` where the word is no instruction.
fn tried(
    alloc: Global,
    word: &str,
    before: &Pred,
    after: &Pred,
    count: u64,
) -> io::Result<Option<u64>> {
    if word == "copy" {
        let copied = copy_often(alloc, before, count).map_err(|_| io::ErrorKind::OutOfMemory)?;
        return Ok(Some(copied));
    }
    let code = hex::decode(alloc, word.as_bytes()).map_err(|_| io::ErrorKind::InvalidInput)?;
    let Some(i) = decode(code.as_slice(), 0x40_0078) else {
        return Ok(None);
    };
    let holding = count_holding(alloc, &i, before, after, count).map_err(
        |_| io::ErrorKind::OutOfMemory,
    )?;
    Ok(Some(holding))
}

fn main(rt: HostRuntime) -> io::Result<ExitCode> {
    let mut text = Vec::new(rt.alloc());
    rt.stdin().read_to_end(&mut text)?;
    let mut words = env::args(&rt)?.skip(1);
    let (Some(word), Some(count)) = (words.next(), words.next()) else {
        return Ok(ExitCode::FAILURE);
    };
    let count = count.as_str().parse::<u64>().unwrap_or(0);
    let graph = read_graph(rt.alloc(), &text).map_err(|_| io::ErrorKind::InvalidData)?;
    let Some((before, after)) = predicates_of(&graph) else {
        return Ok(ExitCode::FAILURE);
    };
    match tried(rt.alloc(), word.as_str(), before, after, count)? {
        Some(holding) => println!(rt; "{holding}")?,
        None => return Ok(ExitCode::FAILURE),
    }
    Ok(ExitCode::SUCCESS)
}
