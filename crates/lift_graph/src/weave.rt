ghost use Rattle.std.specs.Prelude.{◌≡◌, ◌<◌, ◌++◌, ◌∷◌, [], ◌==◌, ℕ, cond, length, IfOk, OnOk};
ghost use Rattle.std.specs.List.{All, flat_map};
ghost use Rattle.lift_graph.specs.Rows.{items_at};
ghost use Rattle.lift_graph.specs.Edges.{places_to, places_from};

use crate::graph::Place;
use std::alloc::{AllocError, Global};

/// The edges to each of n vertices, in the order of their sources and then of their cases.
pub(crate) fn weave(
    alloc: Global,
    targets: &[Vec<usize>],
    order: &[usize],
    n: usize,
) -> Result<Vec<Vec<Place>>, AllocError>
    ensures rows { IfOk result (λ rows. length rows.items ≡ n) }
    ensures value { IfOk result (λ rows. (v : ℕ) → v < n → items_at rows.items v ≡ places_from targets.now order.now v) }
{
    let mut rows = empty_rows(alloc, n)?;
    for source in order {
        add_source(&mut rows, *source, targets)?;
    }
    Ok(rows)
}

#[tactic(auto, using(crate::proofs::WeaveLemmas::items_at_push_empty))]
fn empty_rows(alloc: Global, n: usize) -> Result<Vec<Vec<Place>>, AllocError>
    ensures rows { IfOk result (λ rows. length rows.items ≡ n) }
    ensures none { IfOk result (λ rows. (v : ℕ) → items_at rows.items v ≡ []) }
{
    let mut rows = Vec::new(alloc);
    for i in 0..n {
        rows.push(Vec::new(alloc))?;
    }
    Ok(rows)
}

/// Adds the edges of a vertex, where it is one.
#[tactic(auto, using(crate::proofs::RowLemmas::items_at_past, crate::proofs::RowLemmas::items_at_read))]
fn add_source(
    rows: &mut Vec<Vec<Place>>,
    source: usize,
    targets: &[Vec<usize>],
) -> Result<(), AllocError>
    ensures rows { OnOk result (length rows.new.items ≡ length rows.old.items) }
    ensures value { OnOk result ((v : ℕ) → v < length rows.old.items → items_at rows.new.items v ≡ items_at rows.old.items v ++ places_to source 0 (items_at targets.now source) v) }
{
    if targets.len() <= source {
        return Ok(());
    }
    let row = &targets[source];
    add_edges(rows, source, row.as_slice())
}

/// Adds the edges of a vertex.
fn add_edges(rows: &mut Vec<Vec<Place>>, source: usize, targets: &[usize]) -> Result<(), AllocError>
    ensures rows { OnOk result (length rows.new.items ≡ length rows.old.items) }
    ensures value { OnOk result ((v : ℕ) → v < length rows.old.items → items_at rows.new.items v ≡ items_at rows.old.items v ++ places_to source 0 targets.now v) }
{
    for case in 0..targets.len() {
        add_edge(
            rows,
            targets[case],
            Place {
                vertex: source,
                case,
            },
        )?;
    }
    Ok(())
}

/// Adds an edge to a vertex.
#[tactic(auto, using(crate::proofs::RowLemmas::items_at_set_same, crate::proofs::RowLemmas::items_at_set_other))]
fn add_edge(rows: &mut Vec<Vec<Place>>, target: usize, place: Place) -> Result<(), AllocError>
    ensures rows { OnOk result (length rows.new.items ≡ length rows.old.items) }
    ensures value { OnOk result ((v : ℕ) → v < length rows.old.items → items_at rows.new.items v ≡ items_at rows.old.items v ++ cond (target == v) (place ∷ []) []) }
{
    if target < rows.len() {
        rows[target].push(place)?;
    }
    Ok(())
}
