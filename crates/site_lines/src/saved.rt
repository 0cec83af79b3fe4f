// The regions that a callee is taken to leave as they were.
ghost use Rattle.std.specs.Prelude.{◌≡◌, filter, map, IfOk, OnOk};
ghost use Rattle.graph_data.specs.Order.{region_cmp};
ghost use Rattle.pred_moves.specs.Views.{view_of};
ghost use Rattle.site_lines.specs.Ordered.{ordered};
ghost use Rattle.site_lines.specs.Saved.{has_region, saved_at, saved_of, shared};

use crate::critical::critical_cells;
use crate::ranked::{Ranked, add};
use graph_data::MOST_KEEPS;
use mem_forest::Region;
use pred_step::begin;
use predicates::{Pred, SiteView};
use std::alloc::Global;
use sym_terms::NoMemory;
use x86_instr::Instr;

/// The critical cells where the callee begins.
fn saved_at(alloc: Global, view: &SiteView, i: &Instr, pred: &Pred) -> Result<Vec<Region>, NoMemory>
    ensures { IfOk result (λ rs. rs.items ≡ saved_at (view_of view.now) i.now pred.now) }
{
    let mut known = pred.copy(alloc)?;
    begin(alloc, view, i, &mut known)?;
    critical_cells(alloc, &known.forest)
}

/// Whether a region is in a list.
fn has_region(regions: &[Region], region: &Region) -> bool
    ensures { result ≡ has_region regions.now region.now }
{
    regions.iter().any(|other| other.rank(region).is_eq())
}

/// Only the regions stay that are in another list too.
fn keep_shared(regions: &mut Vec<Region>, others: &[Region])
    ensures { regions.new.items ≡ filter (has_region others.now) regions.old.items }
{
    regions.retain(|region| has_region(others, region));
}

/// The critical cells where the callee begins that each vertex has.
fn shared_by(
    alloc: Global,
    view: &SiteView,
    i: &Instr,
    first: &Pred,
    others: &[Pred],
) -> Result<Vec<Region>, NoMemory>
    ensures { IfOk result (λ rs. rs.items ≡ shared (saved_at (view_of view.now) i.now first.now) (map (saved_at (view_of view.now) i.now) others.now)) }
{
    let mut regions = saved_at(alloc, view, i, first)?;
    for pred in others {
        let more = saved_at(alloc, view, i, pred)?;
        keep_shared(&mut regions, more.as_slice());
    }
    Ok(regions)
}

/// The regions in order, each once.
fn in_order(alloc: Global, regions: Vec<Region>) -> Result<Vec<Region>, NoMemory>
    ensures { IfOk result (λ rs. rs.items ≡ ordered region_cmp regions.items) }
{
    let mut sorted = Vec::new(alloc);
    for region in regions {
        add(&mut sorted, region)?;
    }
    Ok(sorted)
}

/// The regions that a callee leaves as they were, of what is known at the vertices of its site.
pub(crate) fn saved_of(
    alloc: Global,
    view: &SiteView,
    i: &Instr,
    preds: &[Pred],
) -> Result<Vec<Region>, NoMemory>
    ensures { IfOk result (λ rs. rs.items ≡ saved_of (view_of view.now) i.now preds.now) }
{
    let [first, others @ ..] = preds else {
        return Ok(Vec::new(alloc));
    };
    let regions = shared_by(alloc, view, i, first, others)?;
    let mut sorted = in_order(alloc, regions)?;
    sorted.truncate(MOST_KEEPS);
    Ok(sorted)
}
