// How a run ends, and what it says then.
ghost use Rattle.std.specs.Prelude.{◌≡◌, ◌++◌, codes};
ghost use Rattle.std.specs.Fmt.{decimal};
ghost use Rattle.std.specs.List.{flat_map};
ghost use Rattle.foxdec_commands.specs.Ending.{file_refused, graph_refused, out_of_memory, status_of, text_of};
ghost use Rattle.foxdec_commands.specs.Outside.{stream_of, Says};
ghost use Rattle.foxdec_commands.specs.View.{refused_of};

use crate::file_refusal::FileRefusal;
use crate::graph_fault::GraphFault;
use itoa::Buffer;
use wire_io::{Sink, put_all};

/// What a command prints, and whether the graph is valid.
#[derive(Drop)]
pub struct Output {
    pub valid: bool,
    pub bytes: Vec<u8>,
}

/// Why a run prints nothing. First comes the name of the file that it is about.
#[derive(Drop)]
pub enum Refusal<'a> {
    NotACommand,
    ReadFailed(&'a str),
    FileRefused(&'a str, FileRefusal),
    GraphRefused(&'a str, GraphFault),
    OutOfMemory,
}

impl Refusal<'_> {
    pub fn status(&self) -> u8
        ensures { result ≡ status_of (refused_of self.now) }
    {
        match self {
            Refusal::NotACommand => 2,
            Refusal::ReadFailed(_) => 3,
            Refusal::FileRefused(_, _) => 4,
            Refusal::GraphRefused(_, _) => 5,
            Refusal::OutOfMemory => 7,
        }
    }
}

/// Says why nothing is printed. It takes no memory.
pub fn say_refusal<E: Sink>(err: &mut E, refusal: &Refusal<'_>)
    ensures { Says (stream_of ⟦<E as Sink>⟧ err.old err.new)
        (text_of (refused_of refusal.now)) }
{
    match refusal {
        Refusal::NotACommand => put_pieces(err, &[b"foxdec: the words are not a command\n"]),
        Refusal::ReadFailed(name) => {
            put_pieces(err, &[b"foxdec: ", name.as_bytes(), b": read failed\n"]);
        }
        Refusal::FileRefused(name, refusal) => say_file_refused(err, name.as_bytes(), *refusal),
        Refusal::GraphRefused(name, fault) => say_graph_refused(err, name.as_bytes(), *fault),
        Refusal::OutOfMemory => put_pieces(err, &[b"foxdec: out of memory\n"]),
    }
}

// Says why a file is no executable.
fn say_file_refused<E: Sink>(err: &mut E, name: &[u8], refusal: FileRefusal)
    ensures { Says (stream_of ⟦<E as Sink>⟧ err.old err.new)
        (text_of (file_refused name.now refusal)) }
{
    let mut digits = Buffer::new();
    let number = digits.format(refusal.number());
    say_file(err, name, refusal.name().as_bytes(), number.as_bytes());
}

// Says the refusal of a file, by its name and the digits of its number.
fn say_file<'b, E: Sink>(err: &mut E, name: &'b [u8], refusal: &'b [u8], number: &'b [u8])
    ensures { Says (stream_of ⟦<E as Sink>⟧ err.old err.new)
        (codes "foxdec: " ++ name.now ++ codes ": executable refused: " ++ refusal.now
        ++ codes " (" ++ number.now ++ codes ")\n") }
{
    put_pieces(
        err,
        &[
            b"foxdec: ",
            name,
            b": executable refused: ",
            refusal,
            b" (",
            number,
            b")\n",
        ],
    );
}

// Says why a text is no graph's.
fn say_graph_refused<E: Sink>(err: &mut E, name: &[u8], fault: GraphFault)
    ensures { Says (stream_of ⟦<E as Sink>⟧ err.old err.new)
        (text_of (graph_refused name.now fault)) }
{
    let mut line_digits = Buffer::new();
    let line = line_digits.format(fault.line());
    let mut number_digits = Buffer::new();
    let number = number_digits.format(fault.number());
    say_line(
        err,
        name,
        line.as_bytes(),
        fault.name().as_bytes(),
        number.as_bytes(),
    );
}

// Says the fault of a text, by the digits of its line, its name and the digits of its number.
fn say_line<'b, E: Sink>(
    err: &mut E,
    name: &'b [u8],
    line: &'b [u8],
    fault: &'b [u8],
    number: &'b [u8],
)
    ensures { Says (stream_of ⟦<E as Sink>⟧ err.old err.new)
        (codes "foxdec: " ++ name.now ++ codes ": line " ++ line.now ++ codes ": " ++ fault.now
        ++ codes " (" ++ number.now ++ codes ")\n") }
{
    put_pieces(
        err,
        &[
            b"foxdec: ",
            name,
            b": line ",
            line,
            b": ",
            fault,
            b" (",
            number,
            b")\n",
        ],
    );
}

/// Says that memory ran out, and gives the exit status of that. It takes no memory.
pub fn say_out_of_memory<E: Sink>(err: &mut E) -> u8
    ensures status { result ≡ status_of out_of_memory }
    ensures text { Says (stream_of ⟦<E as Sink>⟧ err.old err.new)
        (text_of out_of_memory) }
{
    let refusal = Refusal::OutOfMemory;
    say_refusal(err, &refusal);
    refusal.status()
}

/// Says that the output was cut off after so many bytes. It takes no memory.
pub fn say_write_failed<E: Sink>(err: &mut E, taken: u64)
    ensures { Says (stream_of ⟦<E as Sink>⟧ err.old err.new)
        (codes "foxdec: write failed after " ++ decimal taken ++ codes " bytes\n") }
{
    let mut digits = Buffer::new();
    let number = digits.format(taken).as_bytes();
    put_pieces(err, &[b"foxdec: write failed after ", number, b" bytes\n"]);
}

// Writes pieces one after another, as far as the stream takes them.
fn put_pieces<E: Sink>(err: &mut E, pieces: &[&[u8]])
    ensures { Says (stream_of ⟦<E as Sink>⟧ err.old err.new)
        (flat_map (λ piece. piece.now) pieces.now) }
{
    for piece in pieces {
        match put_all(err, piece) {
            Ok(()) => {}
            Err(_) => return,
        }
    }
}
