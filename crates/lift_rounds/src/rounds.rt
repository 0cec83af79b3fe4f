ghost use Rattle.std.specs.Prelude.{◌≡◌, ◌≢◌, ◌<◌, ◌↔◌, [], ℕ, List, Err, Some, true, false, length, slice_get, IfOk, OnOk};
ghost use Rattle.std.specs.List.{All};
ghost use Rattle.lift_graph.specs.Edges.{IsWoven};
ghost use Rattle.lift_graph.specs.Graph.{IsGraph};
ghost use Rattle.lift_graph.specs.Heads.{IsKept, IsRooted};
ghost use Rattle.lift_graph.specs.Rows.{is_set, items_at};
ghost use Rattle.lift_graph.specs.declared.graph.Key.{Key as KeyValue};
ghost use Rattle.lift_rounds.specs.Fixed.{IsFilled, IsFixedAt};
ghost use Rattle.lift_rounds.specs.Known.{IsHeld, pred_at, reading};
ghost use Rattle.lift_rounds.specs.Round.{IsCalm, IsPlain, frame_of};
ghost use Rattle.lift_rounds.specs.Settled.{IsLed, IsSettled};

use crate::data::{Change, Made};
use crate::one_round::round;
use crate::steps::Steps;
use lift_graph::{Graph, Stop, settle_edges};
use std::alloc::Global;

/// After how many rounds in a row that changed something, but neither an edge nor a kept predicate, rounds give up.
const MOST_ROUNDS: u32 = 64;

/// How rounds ended.
#[derive(Clone, Copy, Debug, PartialEq, Eq)]
pub enum Ended {
    /// The last changed nothing.
    Calm,
    /// The last found an edge.
    Found,
    /// The last 64 changed something, but neither an edge nor a kept predicate.
    Tired,
}

/// Rounds over the same edges, until one changes nothing or finds an edge, or 64 in a row changed something, but neither an edge
/// nor a kept predicate: that comes only where an address has several vertices of which not all are kept. `Lost` where cases
/// aren't resolved though they have to be, or an edge was lost: neither comes where the addresses of cases don't depend on what is known.
#[tactic(auto, using(crate::proofs::CalmLemmas::round_calm, crate::proofs::CalmLemmas::left_head, crate::proofs::CalmLemmas::left_made))]
pub fn settle<S: Steps>(
    alloc: Global,
    steps: &mut S,
    graph: &mut Graph,
    made: &mut Vec<Made<S::Pred>>,
) -> Result<Ended, Stop>
    requires graph { IsGraph graph.old }
    requires rows { length made.old.items ≡ length graph.old.keys.items }
    requires made { All (λ m. IsHeld (S.has steps.old) m) made.old.items }
    requires led { IsLed (S.meaning steps.old) graph.old (reading (S.read steps.old) made.old.items) }
    requires alone { items_at graph.old.inward.items 0 ≡ [] }
    requires rooted { IsRooted graph.old.inward.items graph.old.keeps.items (length made.old.items) }
    ensures graph { OnOk result (IsGraph graph.new) }
    ensures rows { OnOk result (length made.new.items ≡ length graph.new.keys.items) }
    ensures grows { S.grows steps.old steps.new }
    ensures made { OnOk result (All (λ m. IsHeld (S.has steps.new) m) made.new.items) }
    ensures led { OnOk result (IsLed (S.meaning steps.old) graph.new (reading (S.read steps.new) made.new.items)) }
    ensures keys { OnOk result ((v : ℕ) (k : KeyValue) → slice_get graph.old.keys.items v ≡ Some k → slice_get graph.new.keys.items v ≡ Some k) }
    ensures entry { OnOk result (pred_at (reading (S.read steps.new) made.new.items) 0 ≡ pred_at (reading (S.read steps.old) made.old.items) 0) }
    ensures filled { OnOk result (IsFilled (S.meaning steps.old) graph.old.keys.items (reading (S.read steps.old) made.old.items) → IsFilled (S.meaning steps.old) graph.new.keys.items (reading (S.read steps.new) made.new.items)) }
    ensures lost { result ≡ Err Stop.Lost → IsFilled (S.meaning steps.old) graph.old.keys.items (reading (S.read steps.old) made.old.items) → ¬ ((address : ℕ) → IsFixedAt (S.meaning steps.old) address) }
    ensures edges { IfOk result (λ e. e ≢ Ended.Found → graph.new ≡ graph.old) }
    ensures calm { IfOk result (λ e. e ≡ Ended.Calm → IsCalm (frame_of (S.meaning steps.old) graph.old) (reading (S.read steps.new) made.new.items)) }
    ensures tired { IfOk result (λ e. e ≡ Ended.Tired → IsPlain (frame_of (S.meaning steps.old) graph.old) → ⊥) }
{
    let mut quiet: u32 = 0;
    'same: loop {
        match round(alloc, steps, graph, made)? {
            Change::Found => return Ok(Ended::Found),
            Change::Nothing => return Ok(Ended::Calm),
            Change::Head => quiet = 0,
            Change::Made => {
                if quiet + 1 == MOST_ROUNDS {
                    return Ok(Ended::Tired);
                }
                quiet += 1;
            }
        }
    }
}

/// Rounds until one changes nothing; whether that came to pass, as it does where no site forks. `Lost` where cases aren't resolved
/// though they have to be, or an edge was lost: neither comes where the addresses of cases don't depend on what is known.
#[tactic(auto, using(crate::proofs::LawLemmas::settled_some))]
pub fn run_rounds<S: Steps>(
    alloc: Global,
    steps: &mut S,
    graph: &mut Graph,
    made: &mut Vec<Made<S::Pred>>,
) -> Result<bool, Stop>
    requires graph { IsGraph graph.old }
    requires rows { length made.old.items ≡ length graph.old.keys.items }
    requires made { All (λ m. IsHeld (S.has steps.old) m) made.old.items }
    requires led { IsLed (S.meaning steps.old) graph.old (reading (S.read steps.old) made.old.items) }
    ensures graph { OnOk result (IsGraph graph.new) }
    ensures rows { OnOk result (length made.new.items ≡ length graph.new.keys.items) }
    ensures grows { S.grows steps.old steps.new }
    ensures made { OnOk result (All (λ m. IsHeld (S.has steps.new) m) made.new.items) }
    ensures led { OnOk result (IsLed (S.meaning steps.old) graph.new (reading (S.read steps.new) made.new.items)) }
    ensures keys { OnOk result ((v : ℕ) (k : KeyValue) → slice_get graph.old.keys.items v ≡ Some k → slice_get graph.new.keys.items v ≡ Some k) }
    ensures entry { OnOk result (pred_at (reading (S.read steps.new) made.new.items) 0 ≡ pred_at (reading (S.read steps.old) made.old.items) 0) }
    ensures settled { IfOk result (λ calm. calm ≡ true → (order : List ℕ) × IsWoven graph.new order × IsSettled (S.meaning steps.old) graph.new order (reading (S.read steps.new) made.new.items)) }
    ensures kept { IfOk result (λ calm. calm ≡ true → (v : ℕ) → v < length graph.new.keys.items → (is_set graph.new.keeps.items v ≡ true) ↔ IsKept graph.new.keys.items graph.new.inward.items v) }
    ensures tired { IfOk result (λ calm. calm ≡ false → ¬ ((address : ℕ) → (S.meaning steps.old).forks address ≡ false)) }
    ensures lost { result ≡ Err Stop.Lost → IsFilled (S.meaning steps.old) graph.old.keys.items (reading (S.read steps.old) made.old.items) → ¬ ((address : ℕ) → IsFixedAt (S.meaning steps.old) address) }
{
    let mut found: u64 = 0;
    'edges: loop {
        settle_edges(alloc, graph)?;
        match settle(alloc, steps, graph, made)? {
            Ended::Calm => return Ok(true),
            Ended::Tired => return Ok(false),
            Ended::Found => {
                // Each of these rounds found an edge, a vertex or a first predicate, which takes memory.
                if found == u64::MAX {
                    return Err(Stop::NoMemory);
                }
                found += 1;
            }
        }
    }
}
