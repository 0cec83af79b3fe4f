ghost use Rattle.std.specs.Prelude.{◌≡◌, ◌<◌, ◌≤◌, ◌+◌, ◌*◌, ◌↔◌, ◌⊎◌, ℕ, suc, true, false, length, IfOk, OnOk, IsTrue};
ghost use Rattle.std.specs.List.{All};
ghost use Rattle.lift_graph.specs.Heads.{Way};
ghost use Rattle.lift_graph.specs.Rows.{is_set, items_at};
ghost use Rattle.lift_graph.specs.Search.{IsNoted, IsNotedOne, unset};

use crate::graph::Place;
use std::alloc::{AllocError, Global};

/// Whether a way leads from a vertex back to it.
#[tactic(auto, using(crate::proofs::SearchLemmas::search_none, crate::proofs::SearchLemmas::search_more, crate::proofs::SearchLemmas::is_set_within, crate::proofs::SearchLemmas::search_all))]
pub(crate) fn leads_back(
    alloc: Global,
    inward: &[Vec<Place>],
    vertex: usize,
) -> Result<bool, AllocError>
    requires vertex { vertex < length inward.now }
    requires within { (v : ℕ) → v < length inward.now → All (λ p. p.vertex < length inward.now) (items_at inward.now v) }
    ensures found { IfOk result (λ back. back ≡ true → (n : ℕ) × Way inward.now vertex vertex (suc n)) }
    ensures only { IfOk result (λ back. (n : ℕ) → Way inward.now vertex vertex (suc n) → back ≡ true) }
{
    let mut marks = unmarked(alloc, inward.len())?;
    let mut waiting: Vec<usize> = Vec::new(alloc);
    note_row(inward, vertex, &mut marks, &mut waiting)?;
    'back: while let Some(next) = waiting.pop() {
        note_row(inward, next, &mut marks, &mut waiting)?;
    }
    Ok(marks[vertex])
}

/// Marks the sources of the edges to a vertex, and notes those that weren't marked.
#[tactic(auto, using(crate::proofs::RowLemmas::items_at_read))]
fn note_row(
    inward: &[Vec<Place>],
    vertex: usize,
    marks: &mut Vec<bool>,
    waiting: &mut Vec<usize>,
) -> Result<(), AllocError>
    requires vertex { vertex < length inward.now }
    requires within { All (λ p. p.vertex < length marks.old.items) (items_at inward.now vertex) }
    ensures rows { OnOk result (length marks.new.items ≡ length marks.old.items) }
    ensures noted { OnOk result (IsNoted (items_at inward.now vertex) marks.old.items waiting.old.items marks.new.items waiting.new.items) }
    ensures room { OnOk result (2 * unset marks.new.items + length waiting.new.items ≤ 2 * unset marks.old.items + length waiting.old.items) }
{
    let row = &inward[vertex];
    note_sources(row.as_slice(), marks, waiting)?;
    Ok(())
}

/// Marks the sources of these edges, and notes those that weren't marked.
#[tactic(auto, using(crate::proofs::SearchLemmas::noted_none, crate::proofs::SearchLemmas::noted_more, crate::proofs::SearchLemmas::noted_all))]
fn note_sources(
    places: &[Place],
    marks: &mut Vec<bool>,
    waiting: &mut Vec<usize>,
) -> Result<(), AllocError>
    requires { All (λ p. p.vertex < length marks.old.items) places.now }
    ensures rows { OnOk result (length marks.new.items ≡ length marks.old.items) }
    ensures noted { OnOk result (IsNoted places.now marks.old.items waiting.old.items marks.new.items waiting.new.items) }
    ensures room { OnOk result (2 * unset marks.new.items + length waiting.new.items ≤ 2 * unset marks.old.items + length waiting.old.items) }
{
    for place in places {
        note(place.vertex, marks, waiting)?;
    }
    Ok(())
}

/// Marks a vertex, and notes it where it wasn't marked.
#[tactic(auto, using(crate::proofs::MarkLemmas::unset_set, crate::proofs::MarkLemmas::is_set_same, crate::proofs::MarkLemmas::is_set_other, crate::proofs::MarkLemmas::is_set_grows, crate::proofs::MemberLemmas::member_left, crate::proofs::MemberLemmas::member_last, crate::proofs::MemberLemmas::member_cases))]
fn note(vertex: usize, marks: &mut Vec<bool>, waiting: &mut Vec<usize>) -> Result<(), AllocError>
    requires { vertex < length marks.old.items }
    ensures rows { OnOk result (length marks.new.items ≡ length marks.old.items) }
    ensures noted { OnOk result (IsNotedOne vertex marks.old.items waiting.old.items marks.new.items waiting.new.items) }
    ensures room { OnOk result (2 * unset marks.new.items + length waiting.new.items ≤ 2 * unset marks.old.items + length waiting.old.items) }
{
    if marks[vertex] {
        return Ok(());
    }
    marks[vertex] = true;
    waiting.push(vertex)?;
    Ok(())
}

/// As many marks, none set.
#[tactic(auto, using(crate::proofs::MarkLemmas::unmarked))]
pub(crate) fn unmarked(alloc: Global, n: usize) -> Result<Vec<bool>, AllocError>
    ensures marks { IfOk result (λ marks. length marks.items ≡ n) }
    ensures none { IfOk result (λ marks. (v : ℕ) → is_set marks.items v ≡ false) }
{
    Ok(vec![in alloc; false; n]?)
}
