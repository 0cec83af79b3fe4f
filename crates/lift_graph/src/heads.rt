ghost use Rattle.std.specs.Prelude.{◌≡◌, ◌<◌, ◌≤◌, ◌↔◌, ℕ, true, length, IfOk, IsTrue};
ghost use Rattle.lift_graph.specs.Components.{IsParted};
ghost use Rattle.lift_graph.specs.Heads.{IsKept, IsOnCycle, IsWithin};
ghost use Rattle.lift_graph.specs.Rows.{is_set};

use crate::components::Components;
use crate::graph::{Key, Place};
use crate::parts::parts_of;
use crate::search::leads_back;
use std::alloc::{AllocError, Global};

/// Which vertices are kept: the loop heads, and those at the address of vertex 0.
pub(crate) fn kept_vertices(
    alloc: Global,
    keys: &[Key],
    targets: &[Vec<usize>],
    inward: &[Vec<Place>],
) -> Result<Vec<bool>, AllocError>
    requires square { length keys.now ≡ length inward.now }
    requires within { IsWithin inward.now (length inward.now) }
    ensures marks { IfOk result (λ keeps. length keeps.items ≡ length inward.now) }
    ensures kept { IfOk result (λ keeps. (v : ℕ) → v < length inward.now → (is_set keeps.items v ≡ true) ↔ IsKept keys.now inward.now v) }
{
    let parts = parts_of(alloc, targets, inward)?;
    let right = parts.are_right(inward);
    let mut keeps = Vec::new(alloc);
    for vertex in 0..inward.len() {
        let kept = is_kept(alloc, keys, inward, &parts, right, vertex)?;
        keeps.push(kept)?;
    }
    Ok(keeps)
}

/// Whether a vertex is kept.
fn is_kept(
    alloc: Global,
    keys: &[Key],
    inward: &[Vec<Place>],
    parts: &Components,
    right: bool,
    vertex: usize,
) -> Result<bool, AllocError>
    requires square { length keys.now ≡ length inward.now }
    requires within { IsWithin inward.now (length inward.now) }
    requires parts { IsTrue right → IsParted inward.now (length inward.now) parts.now }
    requires vertex { vertex < length inward.now }
    ensures { IfOk result (λ kept. (kept ≡ true) ↔ IsKept keys.now inward.now vertex) }
{
    if keys[vertex].address == keys[0].address {
        return Ok(true);
    }
    let places = inward[vertex].as_slice();
    if places.len() < 2 {
        return Ok(false);
    }
    let back = is_on_cycle(alloc, inward, parts, right, vertex)?;
    Ok(back)
}

/// Whether a way of edges leads from a vertex back to it.
fn is_on_cycle(
    alloc: Global,
    inward: &[Vec<Place>],
    parts: &Components,
    right: bool,
    vertex: usize,
) -> Result<bool, AllocError>
    requires within { IsWithin inward.now (length inward.now) }
    requires parts { IsTrue right → IsParted inward.now (length inward.now) parts.now }
    requires vertex { vertex < length inward.now }
    ensures found { IfOk result (λ back. back ≡ true → IsOnCycle inward.now vertex) }
    ensures only { IfOk result (λ back. IsOnCycle inward.now vertex → back ≡ true) }
{
    if !right {
        let back = leads_back(alloc, inward, vertex)?;
        return Ok(back);
    }
    let places = inward[vertex].as_slice();
    Ok(parts.have_source_in(parts.part_of(vertex), places))
}
