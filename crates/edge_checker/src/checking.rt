// The verdict on a graph.
ghost use Rattle.std.specs.Prelude.{◌≡◌, ◌↔◌, ℕ, [], ◌∷◌, ◌++◌, IfOk, OnOk, IsNone};
ghost use Rattle.graph_data.specs.Parts.{Ascends};
ghost use Rattle.graph_data.specs.WellFormed.{IsFunction, IsWellFormed};
ghost use Rattle.instr_at.specs.At.{instr_at};
ghost use Rattle.graph_runs.specs.World.{HasSafeRuns};
ghost use Rattle.edge_checker.specs.Decisions.{entries_in, entries_of};
ghost use Rattle.edge_checker.specs.Breaks.{first, verdict_from, function_breaks, breaks_of, IsVerdict, IsFunctionVerdict};
ghost use Rattle.edge_checker.specs.Laws.{IsValid, HoldsIn, OthersHold, OneVerdictLaw, ValidLaw, FunctionLaw, NoBreakLaw};

use crate::sites::function_break;
use elf_image::Image;
use graph_data::{Function, Graph, Policy};
use graph_verdict::{Broken, Verdict};
use instr_at::instr_at_laws;
use safe_runs::runs_are_safe;
use std::alloc::{AllocError, Global};
use sym_terms::NoMemory;

/// Checks a graph against an executable: `Valid` exactly where every rule holds, and then every run that keeps what the
/// graph prints is safe; else `Invalid` with the first rule that is broken and its place. There is no check against a
/// policy yet. It takes memory for the entries of the functions, and at each vertex for what is known after its
/// instruction, which it gives back before the next; `NoMemory` where that is refused.
pub fn check(
    alloc: Global,
    image: &Image,
    g: &Graph,
    full: Option<&Policy>,
) -> Result<Verdict, NoMemory>
    requires policy { IsNone full }
    requires graph { IsWellFormed g.now }
    ensures exact { IfOk result (IsVerdict image.now g.now) }
    ensures valid { IfOk result (λ v. (v ≡ Verdict.Valid) ↔ IsValid image.now g.now) }
    ensures safe { IfOk result (λ v. v ≡ Verdict.Valid → HasSafeRuns image.now g.now) }
{
    let _ = full;
    // the law asks for segments that ascend
    image.segments();
    instr_at_laws();
    runs_are_safe();
    Ok(verdict_from(first_break(alloc, image, g)?))
}

/// Checks one function against an executable, where `entries` are those of the functions that are not refused,
/// ascending: the answer is that of `check` on a graph whose other functions hold. `NoMemory` as of `check`.
pub fn check_function(
    alloc: Global,
    image: &Image,
    f: &Function,
    entries: &[u64],
) -> Result<Verdict, NoMemory>
    requires function { IsFunction f.now }
    requires entries { Ascends entries.now }
    ensures exact { IfOk result (IsFunctionVerdict image.now entries.now f.now) }
    ensures valid { IfOk result (λ v. (g : Graph) → IsWellFormed g → entries_of g ≡ entries.now →
        ((v ≡ Verdict.Valid) ↔ HoldsIn image.now g f.now)) }
    ensures safe { IfOk result (λ v. v ≡ Verdict.Valid → (g : Graph) → IsWellFormed g →
        entries_of g ≡ entries.now → OthersHold image.now g f.now → HasSafeRuns image.now g) }
{
    // the law asks for segments that ascend
    image.segments();
    instr_at_laws();
    runs_are_safe();
    Ok(verdict_from(function_break(alloc, image, f, entries)?))
}

/// The laws of verdicts, of every executable and every well-formed graph: there is one, it is `Valid` exactly where the
/// graph is, function by function, and there is no break exactly where each rule holds. The call does nothing.
pub fn verdict_laws()
    ensures one { OneVerdictLaw }
    ensures valid { ValidLaw }
    ensures function { FunctionLaw }
    ensures no_break { NoBreakLaw }
{
    instr_at_laws();
}

// The first break is the verdict.
fn verdict_from(broken: Option<Broken>) -> Verdict
    ensures { result ≡ verdict_from broken }
{
    match broken {
        Some(broken) => Verdict::Invalid(broken),
        None => Verdict::Valid,
    }
}

// The entries of the functions that are not refused.
fn entries_of(alloc: Global, g: &Graph) -> Result<Vec<u64>, NoMemory>
    ensures { IfOk result (λ out. out.items ≡ entries_of g.now) }
{
    let mut entries = Vec::new(alloc);
    for function in g.functions.as_slice() {
        push_entry(&mut entries, function)?;
    }
    Ok(entries)
}

// One more entry, where the function is not refused.
fn push_entry(entries: &mut Vec<u64>, f: &Function) -> Result<(), NoMemory>
    ensures { OnOk result (entries.new.items ≡ entries.old.items ++ entries_in (f.now ∷ [])) }
{
    if f.refused.is_none() {
        entries.push(f.entry).map_err(AllocError::from)?;
    }
    Ok(())
}

fn first_break(alloc: Global, image: &Image, g: &Graph) -> Result<Option<Broken>, NoMemory>
    requires { IsWellFormed g.now }
    ensures { IfOk result (λ b. b ≡ first (breaks_of image.now (instr_at image.now) g.now)) }
{
    let entries = entries_of(alloc, g)?;
    for function in g.functions.as_slice() {
        let broken = function_break(alloc, image, function, entries.as_slice())?;
        if broken.is_some() {
            return Ok(broken);
        }
    }
    Ok(None)
}
