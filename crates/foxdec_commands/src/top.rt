// The program as a function over its words, its files and its streams.
ghost use Rattle.std.specs.Prelude.{◌≡◌, ◌⊎◌, ◌↔◌, ◌+◌, ◌≤◌, List, ℕ, length, map, string_bytes, Some, None};
ghost use Rattle.wire_io.specs.Sink.{Grows, KeepsRoom};
ghost use Rattle.elf_image.specs.declared.image.Image.{Image as PlainImage};
ghost use Rattle.graph_verdict.specs.declared.verdict.Broken.{Broken};
ghost use Rattle.graph_data.specs.declared.graph.Graph.{Graph as PlainGraph};
ghost use Rattle.graph_runs.specs.World.{HasSafeRuns};
ghost use Rattle.edge_checker.specs.Laws.{IsValid};
ghost use Rattle.report.specs.Text.{IsReport};
ghost use Rattle.foxdec_commands.specs.Words.{Asked, Requests, TakesBoth, check, show, report, lift, request_of};
ghost use Rattle.foxdec_commands.specs.Ending.{Ending, file_refused, graph_refused, output_of, text_of};
ghost use Rattle.foxdec_commands.specs.VerdictLine.{valid_line, invalid_line};
ghost use Rattle.foxdec_commands.specs.Listing.{IsListing};
ghost use Rattle.foxdec_commands.specs.Outcome.{Allows, Decides, IsExecutable, IsGraphText};
ghost use Rattle.foxdec_commands.specs.declared.file_refusal.FileRefusal.{FileRefusal};
ghost use Rattle.foxdec_commands.specs.FileRefusal.{executable_refusal};
ghost use Rattle.foxdec_commands.specs.declared.graph_fault.GraphFault.{GraphFault};
ghost use Rattle.foxdec_commands.specs.GraphFault.{graph_refusal};
ghost use Rattle.foxdec_commands.specs.Outside.{HasTrouble, Says, files_of, stream_of};
ghost use Rattle.foxdec_commands.specs.Guarantee.{Ends, Gives, GivesDue, file_of, SaysUnreadable, SaysRefused, SaysFaulted, IsCutOff, IsAnswered, IsSilent, IsExcused, IsUnreadable, AddsListing, HoldsBetween, AllowsBoth, AddsReport, AddsGraph, IsFirstBroken};

use crate::commands::answer;
use crate::ending::{say_refusal, say_write_failed};
use edge_checker::verdict_laws;
use safe_runs::runs_are_safe;
use std::alloc::Global;
use text_laws::graph_text_laws;
use wire_io::{QuietShelf, QuietSink, Shelf, Sink, put_all};

// Does what the words ask, and says how it ended.
fn run<S: Shelf, O: Sink, E: Sink>(
    alloc: Global,
    words: &[String],
    shelf: &mut S,
    out: &mut O,
    err: &mut E,
) -> u8
    ensures ends { Ends (files_of ⟦<S as Shelf>⟧ shelf.old shelf.new)
        (stream_of ⟦<O as Sink>⟧ out.old out.new)
        (stream_of ⟦<E as Sink>⟧ err.old err.new)
        (request_of (map string_bytes words.now)) result }
    ensures room { KeepsRoom (O.room out.old) (O.room out.new) (O.stalls out.old) (O.stalls out.new)
        (O.written out.new) }
{
    match answer(alloc, words, shelf) {
        Ok(output) => match put_all(out, &output.bytes) {
            Ok(()) => { if output.valid { 0 } else { 1 } }
            Err(failed) => {
                say_write_failed(err, failed.taken);
                6
            }
        },
        Err(refusal) => {
            say_refusal(err, &refusal);
            refusal.status()
        }
    }
}

/// The program: does what the words after its name ask for, over the files of `shelf`, and gives
/// its exit status. `check FILE GRAPH` reads the executable FILE and the graph GRAPH, each of at
/// most 67,108,864 bytes. FILE is an ELF-64 executable at fixed addresses for x86-64, and GRAPH is
/// the text of a well-formed graph.
///
/// `show FILE H N` prints up to N instructions of FILE from the address H on, each on a line: the
/// address in hexadecimal, the bytes, and the text; the next one stands where it ends, modulo
/// 2^64. Where no instruction stands, the line is the address and ` none`, and the last one.
///
/// `lift OPTIONS FILE` prints the text of a graph that is valid of FILE: of the function at FILE's entry, of those at the entries
/// given by `--root H`, and of all that these call; one whose entry is no code is refused. At an address given by `--extern H` a
/// function ends, and a call of it isn't followed. The options stand in any order, each as often as wanted.
///
/// `report FILE GRAPH` reads both as `check` does and prints the report of the graph. It judges
/// nothing.
///
/// - 0: the listing, the report or the graph is written; or the graph is valid, and `valid` with a line feed
///   is written to `out`.
/// - 1: it is not, and `invalid FUNCTION SITE VERTEX CASE RULE` with a line feed is written, the
///   place of the first rule that is broken: addresses modulo 2^64 in hexadecimal, the vertex's
///   number and the edge's in decimal, and the rule's name.
/// - 2: the words are no command.
/// - 3: a read of FILE or of GRAPH failed.
/// - 4: FILE is refused as an executable, for the reason that the text names with its number.
/// - 5: FILE is an executable and GRAPH is refused as a text: the text names the first faulty line,
///   counted from 1, with its first cause and the cause's number, from 1 to 7; or line 0 and
///   `TooLong (8)` where GRAPH has more bytes than are read.
/// - 6: `out` failed or took nothing, before the last byte of the line.
/// - 7: memory ran out.
///
/// At 2, 3, 4, 5, 6 and 7 a line on `err` says so, and of which file. A failure of `err` changes
/// no status.
pub fn foxdec<S: Shelf, O: Sink, E: Sink>(
    alloc: Global,
    words: &[String],
    shelf: &mut S,
    out: &mut O,
    err: &mut E,
) -> u8
    // A run ends in one of the ways, which its cause shows, with the status, output and text of it.
    // The clauses after this one follow of it, each of them of one status; but for `safe`, which
    // says what `valid` means, and `room`.
    ensures ends { Ends (files_of ⟦<S as Shelf>⟧ shelf.old shelf.new)
        (stream_of ⟦<O as Sink>⟧ out.old out.new)
        (stream_of ⟦<E as Sink>⟧ err.old err.new)
        (request_of (map string_bytes words.now)) result }

    // 2 comes exactly where the words are no command.
    ensures words { (result ≡ 2) ↔ (request_of (map string_bytes words.now) ≡ None) }
    // 3 only where a read failed of a file that the command reads, and the text names that file.
    ensures unreadable { (asked : Asked) → Requests words.now asked → result ≡ 3 →
        SaysUnreadable (files_of ⟦<S as Shelf>⟧ shelf.old shelf.new)
        (stream_of ⟦<E as Sink>⟧ err.old err.new) asked }
    // 4 only where a refusal applies to the executable's file, and the text says which ..
    ensures refused { (asked : Asked) → Requests words.now asked → result ≡ 4 →
        SaysRefused (files_of ⟦<S as Shelf>⟧ shelf.old shelf.new)
        (stream_of ⟦<E as Sink>⟧ err.old err.new) asked }
    // .. and everywhere one does, but for a failed read, a failed write, or want of memory.
    ensures all_refused { (asked : Asked) (bytes : List ℕ) (refusal : FileRefusal) →
        Requests words.now asked → S.file shelf.old (file_of asked) ≡ Some bytes →
        executable_refusal bytes ≡ Some refusal →
        ((result ≡ 4) × Says (stream_of ⟦<E as Sink>⟧ err.old err.new)
        (text_of (file_refused (file_of asked) refusal)))
        ⊎ IsExcused (files_of ⟦<S as Shelf>⟧ shelf.old shelf.new)
        (stream_of ⟦<O as Sink>⟧ out.old out.new) asked result }
    // 5 only where FILE is an executable and GRAPH's text is refused, and the text says for which
    // line and cause ..
    ensures faulted { (asked : Asked) → Requests words.now asked → result ≡ 5 →
        SaysFaulted (files_of ⟦<S as Shelf>⟧ shelf.old shelf.new)
        (stream_of ⟦<E as Sink>⟧ err.old err.new) asked }
    // .. and everywhere both are known so, but for the same excuses.
    ensures all_faulted { (asked : Asked) (file graph bytes text : List ℕ) (fault : GraphFault) →
        Requests words.now asked → TakesBoth asked file graph →
        S.file shelf.old file ≡ Some bytes → S.file shelf.old graph ≡ Some text →
        executable_refusal bytes ≡ None → graph_refusal text ≡ Some fault →
        ((result ≡ 5) × Says (stream_of ⟦<E as Sink>⟧ err.old err.new)
        (text_of (graph_refused graph fault)))
        ⊎ IsExcused (files_of ⟦<S as Shelf>⟧ shelf.old shelf.new)
        (stream_of ⟦<O as Sink>⟧ out.old out.new) asked result }
    // 6 only where `out` had trouble. It took a proper front of the due output, as the text says.
    ensures cut_off { (asked : Asked) → Requests words.now asked → result ≡ 6 →
        IsCutOff (files_of ⟦<S as Shelf>⟧ shelf.old shelf.new)
        (stream_of ⟦<O as Sink>⟧ out.old out.new)
        (stream_of ⟦<E as Sink>⟧ err.old err.new) asked }
    // 0, 1, 4 and 5 only with the output and the text that the files come to.
    ensures answered { (asked : Asked) → Requests words.now asked → IsAnswered result →
        GivesDue (files_of ⟦<S as Shelf>⟧ shelf.old shelf.new)
        (stream_of ⟦<O as Sink>⟧ out.old out.new)
        (stream_of ⟦<E as Sink>⟧ err.old err.new) asked result }
    // At 2, 3, 4, 5 and 7 nothing is written to `out`.
    ensures silent { IsSilent result → O.written out.new ≡ O.written out.old }

    // What known files decide is given, unless a read or `out` failed or memory ran out.
    ensures decided { (asked : Asked) (due : Ending) → Requests words.now asked →
        Decides (S.file shelf.old) asked due →
        Gives (stream_of ⟦<O as Sink>⟧ out.old out.new)
        (stream_of ⟦<E as Sink>⟧ err.old err.new) result due
        ⊎ IsExcused (files_of ⟦<S as Shelf>⟧ shelf.old shelf.new)
        (stream_of ⟦<O as Sink>⟧ out.old out.new) asked result }
    // Where no read of its files failed and `out` had no trouble, a command gives what they come
    // to, or memory ran out.
    ensures complete { (asked : Asked) → Requests words.now asked →
        ((name : List ℕ) →
        IsUnreadable (files_of ⟦<S as Shelf>⟧ shelf.old shelf.new) asked name → ⊥) →
        (HasTrouble (stream_of ⟦<O as Sink>⟧ out.old out.new) → ⊥) →
        IsAnswered result ⊎ (result ≡ 7) }

    // `check` answers 0 and prints `valid` only where the graph is valid of the executable ..
    ensures valid { (file graph : List ℕ) → Requests words.now (check file graph) → result ≡ 0 →
        AllowsBoth IsValid (S.file shelf.old file) (S.file shelf.old graph)
        × Grows (O.written out.old) (O.written out.new) valid_line }
    // .. and everywhere it is, but for the same excuses.
    ensures all_valid { (file graph bytes text : List ℕ) → Requests words.now (check file graph) →
        S.file shelf.old file ≡ Some bytes → S.file shelf.old graph ≡ Some text →
        HoldsBetween IsValid bytes text →
        ((result ≡ 0) × Grows (O.written out.old) (O.written out.new) valid_line)
        ⊎ IsExcused (files_of ⟦<S as Shelf>⟧ shelf.old shelf.new)
        (stream_of ⟦<O as Sink>⟧ out.old out.new) (check file graph) result }
    // Where it answers 0, every run of the executable that keeps what the graph prints is safe:
    // from each state at the entry of a function of the graph, after any list of moves.
    ensures safe { (file graph bytes text : List ℕ) (image : PlainImage) (g : PlainGraph) →
        Requests words.now (check file graph) → result ≡ 0 →
        S.file shelf.old file ≡ Some bytes → S.file shelf.old graph ≡ Some text →
        IsExecutable bytes image → IsGraphText text g → HasSafeRuns image g }
    // It answers 1 only with the line of the first rule that the graph breaks ..
    ensures invalid { (file graph : List ℕ) → Requests words.now (check file graph) → result ≡ 1 →
        (broken : Broken)
        × AllowsBoth (IsFirstBroken broken) (S.file shelf.old file) (S.file shelf.old graph)
        × Grows (O.written out.old) (O.written out.new) (invalid_line broken) }
    // .. and everywhere it breaks one, but for the same excuses.
    ensures all_invalid { (file graph bytes text : List ℕ) (broken : Broken) →
        Requests words.now (check file graph) →
        S.file shelf.old file ≡ Some bytes → S.file shelf.old graph ≡ Some text →
        HoldsBetween (IsFirstBroken broken) bytes text →
        ((result ≡ 1) × Grows (O.written out.old) (O.written out.new) (invalid_line broken))
        ⊎ IsExcused (files_of ⟦<S as Shelf>⟧ shelf.old shelf.new)
        (stream_of ⟦<O as Sink>⟧ out.old out.new) (check file graph) result }

    // `report` answers 0 only with the report of the graph of the executable ..
    ensures reported { (file graph : List ℕ) → Requests words.now (report file graph) → result ≡ 0 →
        AllowsBoth (AddsReport (stream_of ⟦<O as Sink>⟧ out.old out.new))
        (S.file shelf.old file) (S.file shelf.old graph) }
    // .. and everywhere there is one, but for the same excuses.
    ensures all_reported { (file graph bytes text lines : List ℕ) →
        Requests words.now (report file graph) →
        S.file shelf.old file ≡ Some bytes → S.file shelf.old graph ≡ Some text →
        HoldsBetween (λ image g. IsReport image g lines) bytes text →
        ((result ≡ 0) × Grows (O.written out.old) (O.written out.new) lines)
        ⊎ IsExcused (files_of ⟦<S as Shelf>⟧ shelf.old shelf.new)
        (stream_of ⟦<O as Sink>⟧ out.old out.new) (report file graph) result }

    // `lift` answers 0 only with the text of a graph that is valid of the executable and has a function at the file's entry and
    // at each one of the words; every run that keeps what it prints is safe ..
    ensures lifted { (file roots externs : List ℕ) → Requests words.now (lift file roots externs) → result ≡ 0 →
        Allows (S.file shelf.old file) (AddsGraph (stream_of ⟦<O as Sink>⟧ out.old out.new) roots) }
    // .. and everywhere the file is an executable, but for the same excuses.
    ensures all_lifted { (file roots externs bytes : List ℕ) (image : PlainImage) →
        Requests words.now (lift file roots externs) →
        S.file shelf.old file ≡ Some bytes → IsExecutable bytes image →
        ((result ≡ 0) × AddsGraph (stream_of ⟦<O as Sink>⟧ out.old out.new) roots bytes)
        ⊎ IsExcused (files_of ⟦<S as Shelf>⟧ shelf.old shelf.new)
        (stream_of ⟦<O as Sink>⟧ out.old out.new) (lift file roots externs) result }

    // `show` answers 0 only with the listing of an executable ..
    ensures shown { (file : List ℕ) (address count : ℕ) →
        Requests words.now (show file address count) → result ≡ 0 →
        Allows (S.file shelf.old file) (AddsListing
        (stream_of ⟦<O as Sink>⟧ out.old out.new) address count) }
    // .. and everywhere the file is one, but for the same excuses.
    ensures all_shown { (file bytes lines : List ℕ) (address count : ℕ) (image : PlainImage) →
        Requests words.now (show file address count) →
        S.file shelf.old file ≡ Some bytes → IsExecutable bytes image →
        IsListing image count address lines →
        ((result ≡ 0) × Grows (O.written out.old) (O.written out.new) lines)
        ⊎ IsExcused (files_of ⟦<S as Shelf>⟧ shelf.old shelf.new)
        (stream_of ⟦<O as Sink>⟧ out.old out.new) (show file address count) result }

    // What a stall of `out` shows of its room.
    ensures room { KeepsRoom (O.room out.old) (O.room out.new) (O.stalls out.old) (O.stalls out.new)
        (O.written out.new) }
{
    graph_text_laws();
    verdict_laws();
    runs_are_safe();
    run(alloc, words, shelf, out, err)
}

/// The program over files and an output in memory that never fail. Where the known files decide the
/// ending and the output has room for it, that ending comes, or memory ran out.
pub fn foxdec_quiet<E: Sink>(
    alloc: Global,
    words: &[String],
    shelf: &mut QuietShelf,
    out: &mut QuietSink,
    err: &mut E,
) -> u8
    requires { ⟦<QuietSink as Sink>⟧.stalls out.old ≡ 0 }
    ensures { (asked : Asked) (due : Ending) (most : ℕ) (bytes : List ℕ) →
        Requests words.now asked →
        Decides (⟦<QuietShelf as Shelf>⟧.file shelf.old) asked due →
        ⟦<QuietSink as Sink>⟧.room out.old ≡ Some most →
        ⟦<QuietSink as Sink>⟧.written out.old ≡ Some bytes →
        length bytes + length (output_of due) ≤ most →
        Gives (stream_of ⟦<QuietSink as Sink>⟧ out.old out.new)
        (stream_of ⟦<E as Sink>⟧ err.old err.new) result due
        ⊎ (result ≡ 7) }
{
    foxdec(alloc, words, shelf, out, err)
}
