// The function of what was found and is known.
ghost use Rattle.std.specs.Prelude.{◌≡◌, ◌<◌, ℕ, [], map, length, IfOk, OnOk, IsSome, Some, None};
ghost use Rattle.std.specs.List.{All};
ghost use Rattle.bank_values.specs.ReadBack.{predicate_at};
ghost use Rattle.lift_graph.specs.Graph.{IsGraph};
ghost use Rattle.lift_rounds.specs.Known.{IsHeld, pred_at, reading};
ghost use Rattle.lift_openings.specs.Lifted.{IsLifted};
ghost use Rattle.site_lines.specs.Lines.{lines_at};
ghost use Rattle.site_lines.specs.Subject.{subject_of};
ghost use Rattle.image_steps.specs.Meant.{meaning_of};
ghost use Rattle.image_steps.specs.Walks.{IsNumbered, subject_at};
ghost use Rattle.graph_data.specs.Parts.{Each};
ghost use Rattle.graph_data.specs.WellFormed.{IsKind, IsPred};
ghost use Rattle.lifted_exact.specs.Looked.{AreLooked, ArePairTerms, IsLookedSite, IsLookedVertex, IsRegionTerm};
ghost use Rattle.lifted_parts.specs.Built.{IsBuilt, site_of, vertex_of};
ghost use Rattle.function_lifter.specs.Whole.{AreCalled, CallsOnly, NotesTarget};

use crate::forms::{look_at_kind, look_at_pairs, look_at_pred, look_at_regions};
use crate::numbers::{addresses_of, edges_of};
use graph_data::{Function, Site, Vertex};
use image_steps::{BankPred, Walk, pred_at, preds_at};
use instr_at::instr_at;
use lift_openings::{Lift, Made};
use no_memory::NoMemory;
use predicates::Pred;
use site_lines::{FRAME_ABOVE, FRAME_BELOW, Lines, Program, common_target, lines_at};
use sqlite_items::Items;
use std::alloc::{AllocError, Global};
use term_bank::Bank;

/// A function, and the constants that are called in it.
#[derive(Drop)]
pub(crate) struct Built {
    pub(crate) function: Function,
    pub(crate) targets: Vec<u64>,
}

/// What is known at a vertex.
fn known_at<B: Bank>(
    alloc: Global,
    bank: &B,
    made: &[Made<BankPred>],
    vertex: usize,
) -> Result<Pred, NoMemory>
    requires made { All (λ m. IsHeld (IsNumbered (B.terms bank.now)) m) made.now }
    requires known { IsSome (pred_at (reading (predicate_at (B.terms bank.now)) made.now) vertex) }
    ensures value { IfOk result (λ p. pred_at (reading (predicate_at (B.terms bank.now)) made.now) vertex ≡ Some p) }
    ensures looked { IfOk result (λ p. IsPred p) }
{
    match pred_at(alloc, bank, made, vertex)? {
        Some(pred) => {
            look_at_pred(&pred);
            Ok(pred)
        }
        None => unreachable!(),
    }
}

/// A vertex with its edges.
fn vertex_of<B: Bank>(
    alloc: Global,
    bank: &B,
    lift: &Lift<BankPred>,
    vertex: usize,
) -> Result<Vertex, NoMemory>
    requires graph { IsGraph lift.now.graph }
    requires vertex { vertex < length lift.now.graph.keys.items }
    requires made { All (λ m. IsHeld (IsNumbered (B.terms bank.now)) m) lift.now.made.items }
    requires known { IsSome (pred_at (reading (predicate_at (B.terms bank.now)) lift.now.made.items) vertex) }
    ensures looked { IfOk result (λ v. IsLookedVertex v) }
    ensures value { IfOk result (λ v. v ≡ vertex_of lift.now.graph (reading (predicate_at (B.terms bank.now)) lift.now.made.items) vertex) }
{
    let pred = known_at(alloc, bank, lift.made.as_slice(), vertex)?;
    let out = edges_of(alloc, &lift.graph, vertex)?;
    Ok(Vertex { pred, out })
}

/// The vertices of an address.
fn vertices_of<B: Bank>(
    alloc: Global,
    bank: &B,
    lift: &Lift<BankPred>,
    site: &[usize],
) -> Result<Items<Vertex>, NoMemory>
    requires graph { IsGraph lift.now.graph }
    requires site { All (λ v. v < length lift.now.graph.keys.items) site.now }
    requires made { All (λ m. IsHeld (IsNumbered (B.terms bank.now)) m) lift.now.made.items }
    requires known { (v : ℕ) → v < length lift.now.graph.keys.items → IsSome (pred_at (reading (predicate_at (B.terms bank.now)) lift.now.made.items) v) }
    ensures looked { IfOk result (λ vs. Each IsLookedVertex vs) }
    ensures value { IfOk result (λ vs. vs ≡ map (vertex_of lift.now.graph (reading (predicate_at (B.terms bank.now)) lift.now.made.items)) site.now) }
{
    let mut vertices = Items::new(alloc);
    for vertex in site {
        vertices.push(vertex_of(alloc, bank, lift, *vertex)?)?;
    }
    Ok(vertices)
}

/// Notes the constant that is called at a site.
fn note_target(
    alloc: Global,
    program: &Program,
    lines: &Lines,
    address: u64,
    preds: &[Pred],
    targets: &mut Vec<u64>,
) -> Result<(), NoMemory>
    requires { lines.now ≡ lines_at (subject_of program.now) address preds.now }
    ensures { OnOk result (NotesTarget lines.now.kind targets.old.items targets.new.items) }
{
    if !lines.kind.may_keep() {
        return Ok(());
    }
    let Some(i) = instr_at(program.image, address) else {
        return Ok(());
    };
    if let Some(target) = common_target(alloc, program, &i, preds)? {
        targets.push(target).map_err(AllocError::from)?;
    }
    Ok(())
}

/// One look at each part of lines.
fn look_at_lines(lines: &Lines)
    ensures kind { IsKind lines.now.kind }
    ensures seps { Each ArePairTerms lines.now.seps }
    ensures keeps { Each IsRegionTerm lines.now.keeps }
{
    look_at_kind(lines.kind);
    look_at_pairs(lines.seps.as_slice());
    look_at_regions(lines.keeps.as_slice());
}

/// A site of its lines and its vertices.
fn site_with(address: u64, lines: Lines, vertices: Items<Vertex>) -> Site
    ensures { result ≡ record { addr = address; kind = lines.kind; seps = lines.seps; fork = None; keeps = lines.keeps; vertices = vertices } }
{
    let Lines { kind, seps, keeps } = lines;
    Site {
        addr: address,
        kind,
        seps,
        fork: None,
        keeps,
        vertices,
    }
}

/// The site at an address.
fn site_of<B: Bank>(
    alloc: Global,
    bank: &B,
    program: &Program,
    lift: &Lift<BankPred>,
    address: u64,
    targets: &mut Vec<u64>,
) -> Result<Site, NoMemory>
    requires lifted { IsLifted (meaning_of (subject_of program.now)) (IsNumbered (B.terms bank.now)) (predicate_at (B.terms bank.now)) lift.now }
    ensures site { IfOk result (λ s. s ≡ site_of (subject_of program.now) lift.now.graph (reading (predicate_at (B.terms bank.now)) lift.now.made.items) address) }
    ensures targets { IfOk result (λ s. NotesTarget s.kind targets.old.items targets.new.items) }
    ensures looked { IfOk result (λ s. IsLookedSite s) }
{
    let site = lift.graph.site(alloc, address)?;
    let preds = preds_at(alloc, bank, lift.made.as_slice(), site.as_slice())?;
    let i = instr_at(program.image, address);
    let lines = lines_at(alloc, program, address, i.as_ref(), preds.as_slice())?;
    look_at_lines(&lines);
    note_target(alloc, program, &lines, address, preds.as_slice(), targets)?;
    let vertices = vertices_of(alloc, bank, lift, site.as_slice())?;
    Ok(site_with(address, lines, vertices))
}

/// The sites at addresses.
fn sites_of<B: Bank>(
    alloc: Global,
    bank: &B,
    program: &Program,
    lift: &Lift<BankPred>,
    addresses: &[u64],
    targets: &mut Vec<u64>,
) -> Result<Items<Site>, NoMemory>
    requires lifted { IsLifted (meaning_of (subject_of program.now)) (IsNumbered (B.terms bank.now)) (predicate_at (B.terms bank.now)) lift.now }
    ensures sites { IfOk result (λ ss. ss ≡ map (site_of (subject_of program.now) lift.now.graph (reading (predicate_at (B.terms bank.now)) lift.now.made.items)) addresses.now) }
    ensures targets { IfOk result (λ ss. AreCalled ss targets.new.items) }
    ensures looked { IfOk result (λ ss. Each IsLookedSite ss) }
{
    let mut sites = Items::new(alloc);
    for address in addresses {
        sites.push(site_of(alloc, bank, program, lift, *address, targets)?)?;
    }
    Ok(sites)
}

/// The function at an entry of what was found and is known.
pub(crate) fn build<B: Bank>(
    alloc: Global,
    walk: &Walk<'_, B>,
    lift: &Lift<BankPred>,
    entry: u64,
) -> Result<Built, NoMemory>
    requires lifted { IsLifted (meaning_of (subject_at walk.now)) (IsNumbered (B.terms walk.now.bank.now)) (predicate_at (B.terms walk.now.bank.now)) lift.now }
    ensures built { IfOk result (λ b. IsBuilt (subject_at walk.now) lift.now.graph (reading (predicate_at (B.terms walk.now.bank.now)) lift.now.made.items) entry b.function) }
    ensures calls { IfOk result (λ b. CallsOnly b.function b.targets.items) }
    ensures looked { IfOk result (λ b. AreLooked b.function) }
{
    let program = walk.program();
    let mut targets = Vec::new(alloc);
    let addresses = addresses_of(alloc, &lift.graph)?;
    let sites = sites_of(
        alloc,
        &*walk.bank,
        &program,
        lift,
        addresses.as_slice(),
        &mut targets,
    )?;
    let function = Function {
        entry,
        below: FRAME_BELOW,
        above: FRAME_ABOVE,
        refused: None,
        sites,
    };
    Ok(Built { function, targets })
}
