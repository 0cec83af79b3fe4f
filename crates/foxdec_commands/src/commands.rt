// What each command does, up to its output.
ghost use Rattle.std.specs.Prelude.{◌≡◌, true, ◌≤◌, ◌∷◌, length, map, string_bytes, IfOk, IfErr, Some};
ghost use Rattle.wire_io.specs.Shelf.{GoesOn};
ghost use Rattle.graph_data.specs.WellFormed.{IsWellFormed};
ghost use Rattle.foxdec_commands.specs.Words.{check, show, report, lift, root_word, extern_word, addresses_of, request_of};
ghost use Rattle.foxdec_commands.specs.FileRefusal.{limit};
ghost use Rattle.foxdec_commands.specs.Outcome.{IsExecutable, IsGraphText, IsRefusedFile, IsRefusedGraph, GivesVerdict, GivesListing, GivesReport, GivesGraph, IsGraphOf};
ghost use Rattle.foxdec_commands.specs.Outside.{files_of};
ghost use Rattle.foxdec_commands.specs.Guarantee.{IsShown, IsCaused};
ghost use Rattle.foxdec_commands.specs.FileResult.{IsOnlyOf, IsOnlyRefused, IsTaken, IsRefused, FailedRead, NoRead, IsOrMemory};
ghost use Rattle.foxdec_commands.specs.View.{refused_of, ending_of};

use crate::ending::{Output, Refusal};
use crate::file_refusal::FileRefusal;
use crate::graph_fault::GraphFault;
use crate::listing::list;
use crate::verdict_line::conclude;
use crate::words::{EXTERN, ROOT, Request, addresses_of, read_words};
use edge_checker::verdict_laws;
use elf_image::{ElfRefusal, Image, read_elf};
use function_lifter::lift_all;
use graph_data::{Graph, Policy};
use graph_text::{read_graph, write_graph};
use instr_at::instr_at_laws;
use sqlite_items::Items;
use std::alloc::{AllocError, Global};
use sym_terms::NoMemory;
use term_text::TextCause;
use wire_io::{ReadRefusal, Shelf, read_whole};

/// The most bytes of a file.
const LIMIT: u64 = 67_108_864;

/// Does what the words ask, up to the output.
pub fn answer<'a, S: Shelf>(
    alloc: Global,
    words: &'a [String],
    shelf: &mut S,
) -> Result<Output, Refusal<'a>>
    ensures { IsCaused (files_of ⟦<S as Shelf>⟧ shelf.old shelf.new) ⊥
        (request_of (map string_bytes words.now)) (ending_of result) }
{
    match read_words(words) {
        None => Err(Refusal::NotACommand),
        Some(Request::Check { file, graph }) => check(alloc, shelf, file, graph),
        Some(Request::Report { file, graph }) => report_graph(alloc, shelf, file, graph),
        Some(
            Request::Show {
                file,
                address,
                count,
            },
        ) => show(alloc, shelf, file, address, count),
        Some(Request::Lift { file, words }) => lift(alloc, shelf, file, words),
    }
}

// The instructions of an executable.
fn show<'a, S: Shelf>(
    alloc: Global,
    shelf: &mut S,
    file: &'a str,
    address: u64,
    count: u64,
) -> Result<Output, Refusal<'a>>
    ensures { IsCaused (files_of ⟦<S as Shelf>⟧ shelf.old shelf.new) ⊥
        (Some (show file.now address count)) (ending_of result) }
{
    instr_at_laws();
    match take_executable(alloc, shelf, file) {
        Ok(image) => list_output(alloc, &image, address, count),
        Err(refusal) => Err(refusal),
    }
}

// The output of `show`, or why there is none.
fn list_output<'a>(
    alloc: Global,
    image: &Image,
    address: u64,
    count: u64,
) -> Result<Output, Refusal<'a>>
    ensures { IsOrMemory (GivesListing image.now count address) (ending_of result) }
{
    instr_at_laws();
    match list(alloc, image, address, count) {
        Ok(bytes) => Ok(Output { valid: true, bytes }),
        Err(_) => Err(Refusal::OutOfMemory),
    }
}

// Whether a graph holds of an executable.
fn check<'a, S: Shelf>(
    alloc: Global,
    shelf: &mut S,
    file: &'a str,
    graph: &'a str,
) -> Result<Output, Refusal<'a>>
    ensures { IsCaused (files_of ⟦<S as Shelf>⟧ shelf.old shelf.new) ⊥
        (Some (check file.now graph.now)) (ending_of result) }
{
    verdict_laws();
    let image = match take_executable(alloc, shelf, file) {
        Ok(image) => image,
        Err(refusal) => return Err(refusal),
    };
    let g = match take_graph(alloc, shelf, graph) {
        Ok(g) => g,
        Err(refusal) => return Err(refusal),
    };
    checked_output(alloc, &image, &g)
}

// The report of a graph of an executable. It judges nothing.
fn report_graph<'a, S: Shelf>(
    alloc: Global,
    shelf: &mut S,
    file: &'a str,
    graph: &'a str,
) -> Result<Output, Refusal<'a>>
    ensures { IsCaused (files_of ⟦<S as Shelf>⟧ shelf.old shelf.new) ⊥
        (Some (report file.now graph.now)) (ending_of result) }
{
    instr_at_laws();
    let image = match take_executable(alloc, shelf, file) {
        Ok(image) => image,
        Err(refusal) => return Err(refusal),
    };
    let g = match take_graph(alloc, shelf, graph) {
        Ok(g) => g,
        Err(refusal) => return Err(refusal),
    };
    report_output(alloc, &image, &g)
}

// The output of `report`, or why there is none.
fn report_output<'a>(alloc: Global, image: &Image, g: &Graph) -> Result<Output, Refusal<'a>>
    ensures { IsOrMemory (GivesReport image.now g.now) (ending_of result) }
{
    instr_at_laws();
    match report::report(alloc, image, g) {
        Ok(bytes) => Ok(Output { valid: true, bytes }),
        Err(_) => Err(Refusal::OutOfMemory),
    }
}

// The graph of the functions of an executable, from the entries on that its file and the words give.
fn lift<'a, S: Shelf>(
    alloc: Global,
    shelf: &mut S,
    file: &'a str,
    words: &'a [String],
) -> Result<Output, Refusal<'a>>
    ensures { IsCaused (files_of ⟦<S as Shelf>⟧ shelf.old shelf.new) ⊥
        (Some (lift file.now (addresses_of root_word (map string_bytes words.now)) (addresses_of extern_word (map string_bytes words.now)))) (ending_of result) }
{
    match take_executable(alloc, shelf, file) {
        Ok(image) => lifted_output(alloc, &image, words),
        Err(refusal) => Err(refusal),
    }
}

// The output of `lift`, or why there is none.
fn lifted_output<'a>(
    alloc: Global,
    image: &Image,
    words: &'a [String],
) -> Result<Output, Refusal<'a>>
    ensures { IsOrMemory (GivesGraph image.now (image.now.entry ∷ addresses_of root_word (map string_bytes words.now))) (ending_of result) }
{
    match lifted_text(alloc, image, words) {
        Ok(bytes) => Ok(Output { valid: true, bytes }),
        Err(_) => Err(Refusal::OutOfMemory),
    }
}

// The text of a graph that is valid of an executable.
fn lifted_text(alloc: Global, image: &Image, words: &[String]) -> Result<Vec<u8>, NoMemory>
    ensures { IfOk result (λ text. IsGraphOf image.now (image.now.entry ∷ addresses_of root_word (map string_bytes words.now)) text.items) }
{
    let policy = policy_of(alloc, image.entry, words)?;
    let g = lift_all(alloc, image, &policy)?;
    let text = write_graph(alloc, &g)?;
    Ok(text)
}

// From which entries on to lift, and which addresses lie outside.
fn policy_of(alloc: Global, entry: u64, words: &[String]) -> Result<Policy, AllocError>
    ensures roots { IfOk result (λ p. p.roots ≡ entry ∷ addresses_of root_word (map string_bytes words.now)) }
    ensures externs { IfOk result (λ p. p.externs ≡ addresses_of extern_word (map string_bytes words.now)) }
{
    let mut roots = Vec::from_slice(alloc, &[entry])?;
    let more = addresses_of(alloc, ROOT, words)?;
    roots.extend_from_slice(more.as_slice())?;
    let externs = addresses_of(alloc, EXTERN, words)?;
    Ok(Policy {
        roots: Items::from_vec(roots),
        externs: Items::from_vec(externs),
        fork: false,
    })
}

// Reads the file of an executable.
fn take_executable<'a, S: Shelf>(
    alloc: Global,
    shelf: &mut S,
    name: &'a str,
) -> Result<Image, Refusal<'a>>
    ensures found { IfOk result
        (IsTaken IsExecutable (IsRefusedFile name.now) (S.file shelf.old name.now)) }
    ensures err { IfErr result (λ r. IsShown
        (IsRefused IsExecutable (IsRefusedFile name.now) (S.file shelf.old name.now))
        (FailedRead (files_of ⟦<S as Shelf>⟧ shelf.old shelf.new) name.now) ⊥ (refused_of r)) }
    ensures shelf { GoesOn (S.file shelf.old) (S.file shelf.new)
        (S.faults shelf.old) (S.faults shelf.new) }
{
    match read_whole(alloc, shelf, name, LIMIT) {
        Ok(bytes) => executable_of(alloc, name, &bytes),
        Err(ReadRefusal::TooLong) => Err(Refusal::FileRefused(name, FileRefusal::TooLong)),
        Err(ReadRefusal::Failed) => Err(Refusal::ReadFailed(name)),
        Err(ReadRefusal::NoMemory) => Err(Refusal::OutOfMemory),
    }
}

// The image of an executable's bytes.
fn executable_of<'a>(alloc: Global, name: &'a str, bytes: &[u8]) -> Result<Image, Refusal<'a>>
    requires { length bytes.now ≤ limit }
    ensures found { IfOk result (IsOnlyOf IsExecutable (IsRefusedFile name.now) bytes.now) }
    ensures err { IfErr result (λ r.
        IsShown (IsOnlyRefused IsExecutable (IsRefusedFile name.now) bytes.now) NoRead ⊥
        (refused_of r)) }
{
    match read_elf(alloc, bytes) {
        Ok(image) => Ok(image),
        Err(refusal) if refusal == ElfRefusal::NoMemory => Err(Refusal::OutOfMemory),
        Err(refusal) => Err(Refusal::FileRefused(name, FileRefusal::Elf(refusal))),
    }
}

// Reads the file of a graph.
fn take_graph<'a, S: Shelf>(
    alloc: Global,
    shelf: &mut S,
    name: &'a str,
) -> Result<Graph, Refusal<'a>>
    ensures found { IfOk result
        (IsTaken IsGraphText (IsRefusedGraph name.now) (S.file shelf.old name.now)) }
    ensures err { IfErr result (λ r. IsShown
        (IsRefused IsGraphText (IsRefusedGraph name.now) (S.file shelf.old name.now))
        (FailedRead (files_of ⟦<S as Shelf>⟧ shelf.old shelf.new) name.now) ⊥ (refused_of r)) }
    ensures shelf { GoesOn (S.file shelf.old) (S.file shelf.new)
        (S.faults shelf.old) (S.faults shelf.new) }
{
    match read_whole(alloc, shelf, name, LIMIT) {
        Ok(bytes) => graph_of(alloc, name, &bytes),
        Err(ReadRefusal::TooLong) => Err(Refusal::GraphRefused(name, GraphFault::TooLong)),
        Err(ReadRefusal::Failed) => Err(Refusal::ReadFailed(name)),
        Err(ReadRefusal::NoMemory) => Err(Refusal::OutOfMemory),
    }
}

// The graph of a text.
fn graph_of<'a>(alloc: Global, name: &'a str, bytes: &[u8]) -> Result<Graph, Refusal<'a>>
    requires { length bytes.now ≤ limit }
    ensures found { IfOk result (IsOnlyOf IsGraphText (IsRefusedGraph name.now) bytes.now) }
    ensures err { IfErr result (λ r.
        IsShown (IsOnlyRefused IsGraphText (IsRefusedGraph name.now) bytes.now) NoRead ⊥
        (refused_of r)) }
{
    match read_graph(alloc, bytes) {
        Ok(g) => Ok(g),
        Err(refusal) if refusal.cause == TextCause::NoMemory => Err(Refusal::OutOfMemory),
        Err(refusal) => Err(Refusal::GraphRefused(name, GraphFault::Line(refusal))),
    }
}

// The output of `check`, or why there is none.
fn checked_output<'a>(alloc: Global, image: &Image, g: &Graph) -> Result<Output, Refusal<'a>>
    requires { IsWellFormed g.now }
    ensures { IsOrMemory (GivesVerdict image.now g.now) (ending_of result) }
{
    match edge_checker::check(alloc, image, g, None) {
        Ok(verdict) => conclude(alloc, verdict),
        Err(_) => Err(Refusal::OutOfMemory),
    }
}
