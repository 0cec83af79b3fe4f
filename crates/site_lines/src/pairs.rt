// The pairs of regions that are taken as separate at a site.
ghost use Rattle.std.specs.Prelude.{◌≡◌, ◌∷◌, [], flat_map, map, filter, IfOk, OnOk, IsTrue, IfSome};
ghost use Rattle.std.specs.Option.{option_copied};
ghost use Rattle.memory_regions.specs.Context.{known};
ghost use Rattle.mem_forest.specs.Shape.{is_size};
ghost use Rattle.graph_data.specs.Order.{pair_cmp};
ghost use Rattle.step_rules.specs.Drop.{dropped};
ghost use Rattle.step_rules.specs.Site.{store_region};
ghost use Rattle.site_lines.specs.Ordered.{with_items};
ghost use Rattle.site_lines.specs.Pairs.{is_threat, is_unknown, pairs_at, pairs_of, stored_to, threatened};
ghost use Rattle.site_lines.specs.Subject.{bare};

use crate::critical::critical_cells;
use crate::ranked::add;
use crate::subject::Program;
use graph_data::MOST_PAIRS;
use mem_forest::{Context, Forest, Region, Relation};
use memory_regions::relate;
use pred_step::facts_of;
use predicates::Pred;
use std::alloc::Global;
use sym_terms::NoMemory;
use x86_instr::Instr;

/// Nothing says how two regions lie.
fn is_unknown(relation: Relation) -> bool
    ensures { result ≡ is_unknown relation }
{
    matches!(relation, Relation::Unknown)
}

/// Whether a cell at the second region, which nothing tells from the first, isn't in a forest after a store to the first.
fn is_threat(stored: &Forest, region: &Region, cell: &Region, context: &Context) -> bool
    ensures { result ≡ is_threat (known context.now) stored.now region.now cell.now }
{
    is_unknown(relate(region, cell, context)) && stored.find(cell).is_none()
}

/// A forest after a store of an unknown number to a region.
fn stored_to(
    alloc: Global,
    forest: &Forest,
    region: &Region,
    context: &Context,
) -> Result<Forest, NoMemory>
    requires { IsTrue (is_size region.now.bytes) }
    ensures { IfOk result (λ f. f ≡ stored_to (known context.now) region.now forest.now) }
{
    let mut stored = forest.copy(alloc)?;
    stored.store(region, None, context)?;
    Ok(stored)
}

/// An equal region.
pub(crate) fn copy_region(alloc: Global, region: &Region) -> Result<Region, NoMemory>
    ensures { IfOk result (λ r. r ≡ region.now) }
{
    let at = region.at.copy(alloc)?;
    Ok(Region {
        at,
        bytes: region.bytes,
    })
}

/// Adds the pair of a region and a cell, where a store to the region removes the cell.
fn add_if_threat(
    alloc: Global,
    stored: &Forest,
    region: &Region,
    cell: Region,
    context: &Context,
    pairs: &mut Vec<(Region, Region)>,
) -> Result<(), NoMemory>
    ensures { OnOk result (pairs.new.items ≡ with_items pair_cmp pairs.old.items (map (λ a. (region.now, a)) (filter (is_threat (known context.now) stored.now region.now) (cell ∷ [])))) }
{
    if !is_threat(stored, region, &cell, context) {
        return Ok(());
    }
    let first = copy_region(alloc, region)?;
    add(pairs, (first, cell))
}

/// Adds the pairs of a region and those of some cells that a store to the region removes.
fn add_threats(
    alloc: Global,
    stored: &Forest,
    region: &Region,
    cells: Vec<Region>,
    context: &Context,
    pairs: &mut Vec<(Region, Region)>,
) -> Result<(), NoMemory>
    ensures { OnOk result (pairs.new.items ≡ with_items pair_cmp pairs.old.items (map (λ a. (region.now, a)) (filter (is_threat (known context.now) stored.now region.now) cells.items))) }
{
    for cell in cells {
        add_if_threat(alloc, stored, region, cell, context, pairs)?;
    }
    Ok(())
}

/// Adds the pairs of a region and the critical cells of a forest that a store to the region removes.
fn add_threatened(
    alloc: Global,
    forest: &Forest,
    region: &Region,
    context: &Context,
    pairs: &mut Vec<(Region, Region)>,
) -> Result<(), NoMemory>
    requires { IsTrue (is_size region.now.bytes) }
    ensures { OnOk result (pairs.new.items ≡ with_items pair_cmp pairs.old.items (threatened (known context.now) forest.now (Some region.now))) }
{
    let stored = stored_to(alloc, forest, region, context)?;
    let cells = critical_cells(alloc, forest)?;
    add_threats(alloc, &stored, region, cells, context, pairs)
}

/// The same, where there may be no store.
fn add_where_stored(
    alloc: Global,
    forest: &Forest,
    store: Option<&Region>,
    context: &Context,
    pairs: &mut Vec<(Region, Region)>,
) -> Result<(), NoMemory>
    requires { IfSome (option_copied store) (λ r. IsTrue (is_size r.bytes)) }
    ensures { OnOk result (pairs.new.items ≡ with_items pair_cmp pairs.old.items (threatened (known context.now) forest.now (option_copied store.entry))) }
{
    match store {
        Some(region) => add_threatened(alloc, forest, region, context, pairs),
        None => Ok(()),
    }
}

/// Adds the pairs of a vertex.
#[tactic(auto, using(crate::proofs::SizeLemmas::store_sized))]
fn add_pairs(
    alloc: Global,
    program: &Program,
    i: &Instr,
    pred: &Pred,
    pairs: &mut Vec<(Region, Region)>,
) -> Result<(), NoMemory>
    ensures { OnOk result (pairs.new.items ≡ with_items pair_cmp pairs.old.items (pairs_at (bare program.now.image.now) i.now pred.now)) }
{
    let mut known = pred.copy(alloc)?;
    let facts = facts_of(&mut known, alloc, &program.bare_view(), i)?;
    let store = facts.store.as_ref();
    add_where_stored(alloc, &known.forest, store, &program.bare(), pairs)
}

/// The pairs of a site, of what is known at its vertices.
pub(crate) fn pairs_of(
    alloc: Global,
    program: &Program,
    i: &Instr,
    preds: &[Pred],
) -> Result<Vec<(Region, Region)>, NoMemory>
    ensures { IfOk result (λ pairs. pairs.items ≡ pairs_of (bare program.now.image.now) i.now preds.now) }
{
    let mut pairs = Vec::new(alloc);
    for pred in preds {
        add_pairs(alloc, program, i, pred, &mut pairs)?;
    }
    pairs.truncate(MOST_PAIRS);
    Ok(pairs)
}
