// All functions that are reached from roots.
ghost use Rattle.std.specs.Prelude.{◌≡◌, ℕ, List, [], true, false, map, IfOk, OnOk, All, IsSome, Some};
ghost use Rattle.std.specs.List.{Contains};
ghost use Rattle.std.specs.Ordering.{nat_cmp};
ghost use Rattle.std.specs.BTreeMap.{get, Updates, IsOrdered};
ghost use Rattle.std.specs.BTreeSet.{btree_set_len};
ghost use Rattle.elf_image.specs.declared.image.Image.{Image as PlainImage};
ghost use Rattle.elf_image.specs.Image.{is_code_at};
ghost use Rattle.site_lines.specs.Subject.{is_listed};
ghost use Rattle.graph_data.specs.WellFormed.{IsWellFormed};
ghost use Rattle.graph_data.specs.Lookup.{function_at};
ghost use Rattle.simulation.specs.Valid.{Valid};
ghost use Rattle.graph_runs.specs.World.{x86};
ghost use Rattle.graph_rules.specs.Rules.{rules};
ghost use Rattle.lifted_parts.specs.Exact.{IsExact};
ghost use Rattle.function_lifter.specs.Tasks.{CallsPending, IsPending, IsTask, Keeps};
ghost use Rattle.function_lifter.specs.Whole.{IsLifted, IsOfEntry};

use crate::build::Built;
use crate::entry::lift_code;
use elf_image::Image;
use graph_data::{Function, Graph, Policy, Refused};
use no_memory::NoMemory;
use sqlite_items::Items;
use std::alloc::{AllocError, Global};
use std::collections::{BTreeMap, BTreeSet};
use term_bank::InternBank;

/// The functions that are done, by their entries, and the entries of those to do.
#[derive(Drop)]
struct Task {
    done: BTreeMap<u64, Function>,
    waiting: BTreeSet<u64>,
}

/// A function whose entry is no code.
#[tactic(auto, using(crate::proofs::RefusedLemmas::refused_lifted))]
fn refused_function(alloc: Global, image: &Image, externs: &[u64], entry: u64) -> Function
    requires { is_code_at image.now entry ≡ false }
    ensures entry { result.entry ≡ entry }
    ensures sites { result.sites ≡ [] }
    ensures lifted { IsLifted image.now externs.now result }
{
    let _ = image;
    let _ = externs;
    Function {
        entry,
        below: 0,
        above: 0,
        refused: Some(Refused::NotCode),
        sites: Items::new(alloc),
    }
}

/// Whether an address is in a list.
fn is_among(address: u64, addresses: &[u64]) -> bool
    ensures { result ≡ is_listed address addresses.now }
{
    addresses.iter().any(|other| *other == address)
}

/// Adds an entry to those to do.
#[tactic(auto, using(crate::proofs::TaskLemmas::waits, crate::proofs::TaskLemmas::kept_waiting))]
fn add(task: &mut Task, entry: u64) -> Result<(), NoMemory>
    ensures done { OnOk result (task.new.done ≡ task.old.done) }
    ensures keeps { OnOk result (Keeps task.old task.new) }
    ensures pending { OnOk result (IsPending task.new entry) }
{
    task.waiting.insert(entry).map_err(AllocError::from)?;
    Ok(())
}

/// Adds the entry of a function that is called, unless it is outside or done.
fn add_called(task: &mut Task, externs: &[u64], target: u64) -> Result<(), NoMemory>
    ensures done { OnOk result (task.new.done ≡ task.old.done) }
    ensures keeps { OnOk result (Keeps task.old task.new) }
    ensures pending { OnOk result (is_listed target externs.now ≡ false → IsPending task.new target) }
{
    if is_among(target, externs) || task.done.contains_key(&target) {
        return Ok(());
    }
    add(task, target)
}

/// Adds the entries of functions that are called.
fn add_all_called(task: &mut Task, externs: &[u64], targets: &[u64]) -> Result<(), NoMemory>
    ensures done { OnOk result (task.new.done ≡ task.old.done) }
    ensures keeps { OnOk result (Keeps task.old task.new) }
    ensures pending { OnOk result ((target : ℕ) → Contains targets.now target → is_listed target externs.now ≡ false → IsPending task.new target) }
{
    for target in targets {
        add_called(task, externs, *target)?;
    }
    Ok(())
}

/// Puts a function under its entry.
fn put(task: &mut Task, function: Function) -> Result<(), NoMemory>
    ensures done { OnOk result (Updates nat_cmp task.old.done task.new.done function.entry (Some function)) }
    ensures waiting { OnOk result (task.new.waiting ≡ task.old.waiting) }
{
    let entry = function.entry;
    task.done.insert(entry, function).map_err(AllocError::from)?;
    Ok(())
}

/// Puts a function under its entry, which then is done.
fn finish(task: &mut Task, function: Function) -> Result<(), NoMemory>
    ensures done { OnOk result (IsSome (get nat_cmp task.new.done function.entry)) }
    ensures keeps { OnOk result (Keeps task.old task.new) }
    ensures task { OnOk result ((image : PlainImage) (externs : List ℕ) → IsLifted image externs function → CallsPending task.old function → IsTask image externs task.old → IsTask image externs task.new) }
{
    put(task, function)?;
    Ok(())
}

/// Lifts the function at an entry that is code, and adds what it calls.
fn lift_one(
    alloc: Global,
    image: &Image,
    externs: &[u64],
    task: &mut Task,
    entry: u64,
) -> Result<Function, NoMemory>
    requires { is_code_at image.now entry ≡ true }
    ensures done { OnOk result (task.new.done ≡ task.old.done) }
    ensures keeps { OnOk result (Keeps task.old task.new) }
    ensures entry { IfOk result (λ f. f.entry ≡ entry) }
    ensures lifted { IfOk result (λ f. IsLifted image.now externs.now f) }
    ensures called { IfOk result (λ f. CallsPending task.new f) }
{
    let mut bank = InternBank::new(alloc);
    let built = lift_code(alloc, &mut bank, image, entry, externs)?;
    let Built { function, targets } = built;
    add_all_called(task, externs, targets.as_slice())?;
    Ok(function)
}

/// The function at an entry, and what it calls is added.
#[tactic(auto, using(crate::proofs::TaskLemmas::calls_nothing))]
fn lift_at(
    alloc: Global,
    image: &Image,
    externs: &[u64],
    task: &mut Task,
    entry: u64,
) -> Result<Function, NoMemory>
    ensures done { OnOk result (task.new.done ≡ task.old.done) }
    ensures keeps { OnOk result (Keeps task.old task.new) }
    ensures entry { IfOk result (λ f. f.entry ≡ entry) }
    ensures lifted { IfOk result (λ f. IsLifted image.now externs.now f) }
    ensures called { IfOk result (λ f. CallsPending task.new f) }
{
    if !image.is_code(entry) {
        return Ok(refused_function(alloc, image, externs, entry));
    }
    lift_one(alloc, image, externs, task, entry)
}

/// Does the function at an entry.
fn lift_next(
    alloc: Global,
    image: &Image,
    externs: &[u64],
    task: &mut Task,
    entry: u64,
) -> Result<(), NoMemory>
    ensures task { OnOk result (IsTask image.now externs.now task.old → IsTask image.now externs.now task.new) }
    ensures keeps { OnOk result (Keeps task.old task.new) }
    ensures done { OnOk result (IsSome (get nat_cmp task.new.done entry)) }
{
    let function = lift_at(alloc, image, externs, task, entry)?;
    finish(task, function)?;
    Ok(())
}

/// Takes an entry out of those to do, whose function is done.
#[tactic(auto, using(crate::proofs::TaskLemmas::kept_done))]
fn strike(task: &mut Task, entry: u64)
    requires { IsSome (get nat_cmp task.old.done entry) }
    ensures done { task.new.done ≡ task.old.done }
    ensures keeps { Keeps task.old task.new }
{
    let _ = task.waiting.remove(&entry);
}

/// Does functions, the least entry first, until none is left to do.
fn lift_waiting(
    alloc: Global,
    image: &Image,
    externs: &[u64],
    task: &mut Task,
) -> Result<(), NoMemory>
    ensures task { OnOk result (IsTask image.now externs.now task.old → IsTask image.now externs.now task.new) }
    ensures keeps { OnOk result (Keeps task.old task.new) }
    ensures none { OnOk result (btree_set_len task.new.waiting ≡ 0) }
{
    // Each round of this loop does a function, which takes memory.
    for _ in 0..u64::MAX {
        let Some(entry) = task.waiting.first().copied() else {
            return Ok(());
        };
        lift_next(alloc, image, externs, task, entry)?;
        strike(task, entry);
    }
    Err(NoMemory)
}

/// Adds the entries of roots.
fn add_roots(task: &mut Task, roots: &[u64]) -> Result<(), NoMemory>
    ensures done { OnOk result (task.new.done ≡ task.old.done) }
    ensures pending { OnOk result ((root : ℕ) → Contains roots.now root → IsPending task.new root) }
{
    for root in roots {
        add(task, *root)?;
    }
    Ok(())
}

/// All functions that are reached from roots.
fn lift_roots(
    alloc: Global,
    image: &Image,
    externs: &[u64],
    roots: &[u64],
) -> Result<Task, NoMemory>
    ensures task { IfOk result (λ t. IsTask image.now externs.now t) }
    ensures none { IfOk result (λ t. btree_set_len t.waiting ≡ 0) }
    ensures pending { IfOk result (λ t. (root : ℕ) → Contains roots.now root → IsPending t root) }
{
    let mut task = Task {
        done: BTreeMap::new(alloc),
        waiting: BTreeSet::new(alloc),
    };
    add_roots(&mut task, roots)?;
    lift_waiting(alloc, image, externs, &mut task)?;
    Ok(task)
}

/// The functions, ascending by entry.
fn graph_of(alloc: Global, done: BTreeMap<u64, Function>) -> Result<Graph, NoMemory>
    ensures functions { IfOk result (λ g. g.functions ≡ map (λ e. e.1) done.entries) }
    ensures ordered { IfOk result (λ g. IsOrdered nat_cmp done) }
{
    let mut functions = Items::new(alloc);
    for (_, function) in done {
        functions.push(function)?;
    }
    Ok(Graph { functions })
}

/// Lifts the functions at the roots and, one by one, those that they call: each constant that is called and doesn't lie outside
/// has a function. One whose entry is no code is refused. `NoMemory` where memory runs out.
pub fn lift_all(alloc: Global, image: &Image, policy: &Policy) -> Result<Graph, NoMemory>
    ensures formed { IfOk result (λ g. IsWellFormed g) }
    ensures valid { IfOk result (λ g. Valid (x86 image.now) (rules image.now) g) }
    ensures roots { IfOk result (λ g. All (λ root. IsSome (function_at g root)) policy.now.roots) }
    ensures refused { IfOk result (λ g. All (IsOfEntry image.now) g.functions) }
    ensures exact { IfOk result (λ g. All (IsExact image.now) g.functions) }
{
    let task = lift_roots(
        alloc,
        image,
        policy.externs.as_slice(),
        policy.roots.as_slice(),
    )?;
    let graph = graph_of(alloc, task.done)?;
    Ok(graph)
}
