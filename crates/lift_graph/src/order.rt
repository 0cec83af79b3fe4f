ghost use Rattle.std.specs.Prelude.{◌≡◌, ◌<◌, ℕ, length, slice_get, IfOk};
ghost use Rattle.std.specs.List.{Contains};
ghost use Rattle.lift_graph.specs.Edges.{IsWritten};

use crate::graph::Key;
use std::alloc::{AllocError, Global};

/// The vertices in written order: by address, and then by tag.
#[tactic(auto, using(crate::proofs::OrderLemmas::range_more))]
pub(crate) fn written_order(alloc: Global, keys: &[Key]) -> Result<Vec<usize>, AllocError>
    ensures written { IfOk result (λ order. IsWritten keys.now order.items) }
    ensures all { IfOk result (λ order. (v : ℕ) → v < length keys.now → Contains order.items v) }
{
    let mut order = Vec::new(alloc);
    for vertex in 0..keys.len() {
        order.push(vertex)?;
    }
    order.sort_unstable_by_key(|v| key_of(keys, *v));
    Ok(order)
}

/// The key of a vertex; none past the end.
fn key_of(keys: &[Key], vertex: usize) -> Option<Key>
    ensures { result ≡ slice_get keys.now vertex }
{
    keys.get(vertex).copied()
}
