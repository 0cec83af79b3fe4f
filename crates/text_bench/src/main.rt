//! Reads the text of a graph from standard input and writes the graph again, whole and function by function; prints how
//! many functions it has and how many bytes were written either way, or the line and the cause of a text that is
//! refused, with status 1. `bench/text.sh` times it.
#![tactic(auto)]

ghost use Rattle.std.specs.Prelude.{◌≡◌, ◌-◌, ◌^◌, IfOk, length, min};
ghost use Rattle.graph_text.specs.Text.{graph_text};

use graph_data::Graph;
use graph_text::{read_graph, write_function, write_graph};
use std::alloc::Global;
use std::io;
use std::io::Read;
use std::process::ExitCode;
use sym_terms::NoMemory;

/// The bytes of the first line and of the last one, with their line feeds.
const FIRST_AND_LAST: usize = 19;

/// How many bytes the first line, each function written alone, and the last line have together: as many as the text of
/// the graph has, or 2^64 - 1 where those are more.
fn length_in_pieces(alloc: Global, graph: &Graph) -> Result<usize, NoMemory>
    ensures { IfOk result (λ count. count ≡ min (length (graph_text graph.now)) (2 ^ 64 - 1)) }
{
    let mut length = FIRST_AND_LAST;
    for function in graph.functions.as_slice() {
        let text = write_function(alloc, function)?;
        length = length.saturating_add(text.as_slice().len());
    }
    Ok(length)
}

fn main(rt: HostRuntime) -> io::Result<ExitCode> {
    let mut text = Vec::new(rt.alloc());
    rt.stdin().read_to_end(&mut text)?;
    let graph = match read_graph(rt.alloc(), &text) {
        Ok(graph) => graph,
        Err(refusal) => {
            println!(rt; "line {}: {}", refusal.line, refusal.cause.name())?;
            return Ok(ExitCode::FAILURE);
        }
    };
    let written = write_graph(rt.alloc(), &graph).map_err(|_| io::ErrorKind::OutOfMemory)?;
    let pieces = length_in_pieces(rt.alloc(), &graph).map_err(|_| io::ErrorKind::OutOfMemory)?;
    let functions = graph.functions.len();
    println!(rt;
        "{functions} functions, {} bytes, {pieces} in pieces",
        written.len()
    )?;
    Ok(ExitCode::SUCCESS)
}
