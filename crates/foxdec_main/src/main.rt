//! The program: the system's files by their names and its streams, the words after its name, and
//! the exit status. All else is done by `foxdec` of the crate foxdec_commands.
#![tactic(auto)]

mod adapters;

use adapters::{FileShelf, StreamSink};
use foxdec_commands::{foxdec, say_out_of_memory};
use std::alloc::AllocError;
use std::process::ExitCode;
use std::rt::{Env, Files};
use std::{env, io};
use wire_io::{QuietSink, Sink, put_all};

fn main(rt: HostRuntime) -> ExitCode {
    let mut out = StreamSink::new(rt.stdout());
    let mut err = StreamSink::new(rt.stderr());
    match start(&rt, &mut out, &mut err) {
        Ok(status) => ExitCode::from(status),
        Err(_) => ExitCode::from(say_out_of_memory(&mut err)),
    }
}

// Runs the program over the system's files. Its text is kept until it is known that the system had memory for the names of the
// files.
fn start<R: Env + Files + AllocGlobal, O: Sink, E: Sink>(
    rt: &R,
    out: &mut O,
    err: &mut E,
) -> Result<u8, AllocError> {
    let words = words_of(rt)?;
    let mut text = QuietSink::new(rt.alloc(), text_room(&words)).map_err(|_| AllocError)?;
    let mut shelf = FileShelf::new(rt.alloc(), rt)?;
    let status = foxdec(rt.alloc(), &words, &mut shelf, out, &mut text);
    if shelf.is_starved() {
        return Err(AllocError);
    }
    let _ = put_all(err, text.bytes());
    Ok(status)
}

// The bytes of the longest text: a name, and what is said of it.
fn text_room(words: &[String]) -> u64 {
    let longest = words.iter().map(|word| word.len()).max().unwrap_or(0);
    (longest as u64).saturating_add(256)
}

// The words after the program's name. There are none where one of them is no text, which makes no
// command.
fn words_of<R: Env + AllocGlobal>(rt: &R) -> Result<Vec<String>, AllocError> {
    let mut words = Vec::new(rt.alloc());
    let args = match env::args(rt) {
        Ok(args) => args,
        Err(error) if error.kind() == io::ErrorKind::OutOfMemory => return Err(AllocError),
        Err(_) => return Ok(words),
    };
    for word in args.skip(1) {
        words.push(word)?;
    }
    Ok(words)
}
