//! A graph from its text.
ghost use Rattle.std.specs.Prelude.{◌≡◌, IfOk, Ok};
ghost use Rattle.term_text.specs.Bytes.{line_feed};
ghost use Rattle.graph_data.specs.declared.graph.Graph.{Graph};
ghost use Rattle.graph_data.specs.WellFormed.{IsWellFormed};
ghost use Rattle.graph_lines.specs.Words.{fields};
ghost use Rattle.graph_builder.specs.Lines.{graph_lines};
ghost use Rattle.graph_builder.specs.Partial.{new_builder};
ghost use Rattle.graph_text.specs.Text.{lines_text, graph_text};
ghost use Rattle.graph_text.specs.Reading.{run, graph_at, refusal_at, GivesGraph};

use crate::refusal::TextRefusal;
use crate::take::{headless, take_end, take_head, take_line};
use graph_builder::{Builder, builder_laws};
use graph_data::Graph;
use graph_lines::split_at;
use std::alloc::Global;
use term_text::TextCause;

/// A line that is refused, by its number; want of memory has line 0.
fn refusal_at(line: u64, cause: TextCause) -> TextRefusal
    ensures { result ≡ refusal_at line cause }
{
    match cause {
        TextCause::NoMemory => TextRefusal { line: 0, cause },
        TextCause::BadHead
        | TextCause::BadLine
        | TextCause::BadTerm
        | TextCause::NotCanonical
        | TextCause::OutOfOrder
        | TextCause::OverLimit
        | TextCause::Unended => TextRefusal { line, cause },
    }
}

/// The graph of the lines after the head, of which the first has number 2.
fn read_lines(alloc: Global, text: &[u8]) -> Result<Graph, TextRefusal>
    ensures exact { GivesGraph result (run 2 new_builder (fields line_feed text.now)) }
    ensures found { IfOk result (λ g. IsWellFormed g × (text.now ≡ lines_text (graph_lines g))) }
{
    let mut buffer = Vec::new(alloc);
    let mut builder = Builder::new(alloc);
    let mut line = 2;
    let mut rest = text;
    while let Some((bytes, after)) = split_at(rest, b'\n') {
        match take_line(alloc, builder, bytes, &mut buffer) {
            Ok(next) => builder = next,
            Err(cause) => return Err(refusal_at(line, cause)),
        }
        line += 1;
        rest = after;
    }
    match take_end(builder, rest) {
        Ok(graph) => Ok(graph),
        Err(cause) => Err(refusal_at(line, cause)),
    }
}

/// The graph whose text the bytes are; else the first line, counted from 1, that is faulty, with its first cause.
///
/// A line is judged in this order: `OverLimit` where it has over 32,768 bytes; `BadHead` for the first line;
/// `BadLine` where its kind can't stand there, or its form is none; the causes of its terms, from the left;
/// `NotCanonical` where it has another spelling; `OutOfOrder` where it doesn't follow in order; `OverLimit` where
/// there is too much of something. A text without its last line or its last line feed is `Unended`. Where memory
/// runs out, the line is 0.
pub fn read_graph(alloc: Global, text: &[u8]) -> Result<Graph, TextRefusal>
    // It is the reading of the text.
    ensures exact { GivesGraph result (graph_at text.now) }
    // What is read is well formed, and the text is its text.
    ensures found { IfOk result (λ g. IsWellFormed g × (text.now ≡ graph_text g)) }
    // The text of a well-formed graph is read as the graph.
    ensures only { (g : Graph) → IsWellFormed g → text.now ≡ graph_text g → GivesGraph result (Ok g) }
{
    builder_laws();
    let Some((head, rest)) = split_at(text, b'\n') else {
        return Err(refusal_at(1, headless(text)));
    };
    match take_head(head) {
        Ok(()) => read_lines(alloc, rest),
        Err(cause) => Err(refusal_at(1, cause)),
    }
}
