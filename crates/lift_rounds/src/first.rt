ghost use Rattle.std.specs.Prelude.{◌≡◌, [], ℕ, Some, length, IfOk};
ghost use Rattle.std.specs.List.{All};
ghost use Rattle.lift_graph.specs.Rows.{items_at};
ghost use Rattle.lift_rounds.specs.Fixed.{IsFilled};
ghost use Rattle.lift_rounds.specs.Known.{IsHeld, pred_at, reading};
ghost use Rattle.lift_rounds.specs.Meaning.{Meaning};
ghost use Rattle.lift_rounds.specs.Settled.{IsLed};

use crate::data::Made;
use crate::steps::Steps;
use lift_graph::Graph;
use std::alloc::{AllocError, Global};

/// What is known before the first round: the predicate of the entry vertex.
#[tactic(auto, using(crate::proofs::FirstLemmas::led_first, crate::proofs::FirstLemmas::held_first, crate::proofs::FirstLemmas::filled_first))]
pub fn first_known<S: Steps>(
    alloc: Global,
    steps: &S,
    graph: &Graph,
    pred: S::Pred,
) -> Result<Vec<Made<S::Pred>>, AllocError>
    requires alone { length graph.now.keys.items ≡ 1 }
    requires edges { (u : ℕ) → items_at graph.now.targets.items u ≡ [] }
    requires pred { S.has steps.now pred }
    ensures rows { IfOk result (λ made. length made.items ≡ length graph.now.keys.items) }
    ensures made { IfOk result (λ made. All (λ m. IsHeld (S.has steps.now) m) made.items) }
    ensures led { IfOk result (λ made. IsLed (S.meaning steps.now) graph.now (reading (S.read steps.now) made.items)) }
    ensures filled { IfOk result (λ made. (m : Meaning _) → IsFilled m graph.now.keys.items (reading (S.read steps.now) made.items)) }
    ensures entry { IfOk result (λ made. pred_at (reading (S.read steps.now) made.items) 0 ≡ Some (S.read steps.now pred)) }
{
    let mut made = Vec::new(alloc);
    made.push(Made {
        pred: Some(pred),
        cases: Vec::new(alloc),
    })?;
    Ok(made)
}
