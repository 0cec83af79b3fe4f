// What a site says beside its vertices.
ghost use Rattle.std.specs.Prelude.{◌≡◌, [], IfOk, OnOk};
ghost use Rattle.std.specs.Option.{option_copied};
ghost use Rattle.pred_moves.specs.Views.{view_of};
ghost use Rattle.instr_at.specs.At.{instr_at};
ghost use Rattle.site_lines.specs.Kinds.{kind_at};
ghost use Rattle.site_lines.specs.Lines.{kind_alone, lines_at, lines_by, lines_here, view_with, with_pairs, with_saved};
ghost use Rattle.site_lines.specs.Subject.{subject_of};

use crate::kinds::kind_at;
use crate::pairs::pairs_of;
use crate::saved::saved_of;
use crate::subject::{FRAME_ABOVE, FRAME_BELOW, Program};
use elf_image::Image;
use mem_forest::{Context, Region};
use predicates::{Kind, Pred, SiteView};
use sqlite_items::Items;
use std::alloc::Global;
use sym_terms::NoMemory;
use x86_instr::Instr;

/// What a site says beside its vertices: its kind, the pairs of regions that are taken as separate, and the regions that a
/// callee is taken to leave as they were.
#[derive(Drop)]
pub struct Lines {
    pub kind: Kind,
    pub seps: Items<(Region, Region)>,
    pub keeps: Items<Region>,
}

/// What the step rules know of a site by its lines.
pub fn view_with<'a>(image: &'a Image, lines: &'a Lines) -> SiteView<'a>
    ensures { view_of result ≡ view_with image.now lines.now }
{
    SiteView {
        context: Context {
            image,
            below: FRAME_BELOW,
            above: FRAME_ABOVE,
            seps: lines.seps.as_slice(),
        },
        fork: None,
        keeps: lines.keeps.as_slice(),
    }
}

/// A kind alone.
fn kind_alone(alloc: Global, kind: Kind) -> Lines
    ensures { result ≡ kind_alone kind }
{
    Lines {
        kind,
        seps: Items::new(alloc),
        keeps: Items::new(alloc),
    }
}

/// The regions that a callee leaves as they were, where a site may have them.
fn add_saved(
    alloc: Global,
    image: &Image,
    lines: &mut Lines,
    i: &Instr,
    preds: &[Pred],
) -> Result<(), NoMemory>
    requires { lines.old.keeps ≡ [] }
    ensures { OnOk result (lines.new ≡ with_saved image.now lines.old i.now preds.now) }
{
    if !lines.kind.may_keep() {
        return Ok(());
    }
    let regions = saved_of(alloc, &view_with(image, lines), i, preds)?;
    lines.keeps = Items::from_vec(regions);
    Ok(())
}

/// The lines of a kind at an instruction, from what is known at the vertices.
fn lines_by(
    alloc: Global,
    program: &Program,
    kind: Kind,
    i: &Instr,
    preds: &[Pred],
) -> Result<Lines, NoMemory>
    ensures { IfOk result (λ lines. lines ≡ lines_by program.now.image.now kind i.now preds.now) }
{
    let mut lines = kind_alone(alloc, kind);
    if !kind.has_edges() {
        return Ok(lines);
    }
    let pairs = pairs_of(alloc, program, i, preds)?;
    lines.seps = Items::from_vec(pairs);
    add_saved(alloc, program.image, &mut lines, i, preds)?;
    Ok(lines)
}

/// What the site at an address says, of the instruction there and what is known at its vertices.
pub fn lines_at(
    alloc: Global,
    program: &Program,
    address: u64,
    i: Option<&Instr>,
    preds: &[Pred],
) -> Result<Lines, NoMemory>
    requires instr { option_copied i ≡ instr_at program.now.image.now address }
    ensures { IfOk result (λ lines. lines ≡ lines_at (subject_of program.now) address preds.now) }
{
    let kind = kind_at(alloc, program, address, i, preds)?;
    match i {
        None => Ok(kind_alone(alloc, kind)),
        Some(i) => lines_by(alloc, program, kind, i, preds),
    }
}
