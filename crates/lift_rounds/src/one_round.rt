ghost use Rattle.std.specs.Prelude.{◌≡◌, ◌≢◌, ◌<◌, ◌≤◌, ◌+◌, ◌-◌, ◌^◌, ◌⊎◌, [], ℕ, Err, Some, false, true, length, slice_get, IfOk, OnOk};
ghost use Rattle.std.specs.List.{All};
ghost use Rattle.lift_graph.specs.Graph.{IsGraph, IsSquare, address_at, tag_at};
ghost use Rattle.lift_graph.specs.Links.{KeepsEdges, keys_after};
ghost use Rattle.lift_graph.specs.Rows.{is_set, items_at};
ghost use Rattle.lift_graph.specs.Search.{unset};
ghost use Rattle.lift_graph.specs.declared.graph.Key.{Key as KeyValue};
ghost use Rattle.lift_rounds.specs.declared.data.Change.{Change as ChangeValue};
ghost use Rattle.lift_rounds.specs.Fixed.{AreCases, IsFilled, IsFixedAt, IsUnresolvedAt};
ghost use Rattle.lift_rounds.specs.Known.{IsHeld, addresses, cases_at, pred_at, reading};
ghost use Rattle.lift_rounds.specs.Round.{IsReady, IsRound, NeverStuck, Quiet, frame_of};
ghost use Rattle.lift_rounds.specs.Settled.{IsLed, IsLedAt};
ghost use Rattle.lift_rounds.specs.Visit.{worse};

use crate::compare::worse_of;
use crate::data::{Case, Change, Made};
use crate::front::Front;
use crate::steps::Steps;
use crate::visit::visit;
use lift_graph::{Graph, Stop, link};
use std::alloc::{AllocError, Global};

/// Takes a vertex that is ready. `Lost` where its cases aren't resolved though they have to be.
#[tactic(auto, using(lift_graph::proofs::MarkLemmas::unset_set))]
fn take<S: Steps>(
    alloc: Global,
    steps: &mut S,
    graph: &Graph,
    made: &mut Vec<Made<S::Pred>>,
    taken: &mut Vec<bool>,
    vertex: usize,
) -> Result<Change, Stop>
    requires square { IsSquare graph.now }
    requires rows { length made.old.items ≡ length graph.now.keys.items }
    requires marks { length taken.old.items ≡ length graph.now.keys.items }
    requires within { vertex < length graph.now.keys.items }
    requires fresh { is_set taken.old.items vertex ≡ false }
    requires ready { IsReady graph.now.keeps.items graph.now.inward.items taken.old.items vertex }
    requires made { All (λ m. IsHeld (S.has steps.old) m) made.old.items }
    ensures rows { OnOk result (length made.new.items ≡ length made.old.items) }
    ensures marks { OnOk result (length taken.new.items ≡ length taken.old.items) }
    ensures room { OnOk result (unset taken.new.items + 1 ≡ unset taken.old.items) }
    ensures grows { S.grows steps.old steps.new }
    ensures made { OnOk result (All (λ m. IsHeld (S.has steps.new) m) made.new.items) }
    ensures entry { OnOk result (items_at graph.now.inward.items 0 ≡ [] → is_set graph.now.keeps.items 0 ≡ true → pred_at (reading (S.read steps.new) made.new.items) 0 ≡ pred_at (reading (S.read steps.old) made.old.items) 0) }
    ensures others { OnOk result ((u : ℕ) → u ≢ vertex → cases_at (reading (S.read steps.new) made.new.items) u ≡ cases_at (reading (S.read steps.old) made.old.items) u) }
    ensures filled { OnOk result ((cases_at (reading (S.read steps.new) made.new.items) vertex ≡ cases_at (reading (S.read steps.old) made.old.items) vertex) ⊎ AreCases (S.meaning steps.old) (address_at graph.now.keys.items vertex) (cases_at (reading (S.read steps.new) made.new.items) vertex)) }
    ensures lost { result ≡ Err Stop.Lost → IsUnresolvedAt (S.meaning steps.old) (address_at graph.now.keys.items vertex) }
    ensures edges { IfOk result (λ c. c ≢ Change.Found → addresses (cases_at (reading (S.read steps.new) made.new.items) vertex) ≡ addresses (cases_at (reading (S.read steps.old) made.old.items) vertex)) }
    ensures step { IfOk result (λ c. (first : _) (change : ChangeValue) → worse change c ≢ Change.Found → Quiet (frame_of (S.meaning steps.old) graph.now) first (reading (S.read steps.old) made.old.items) taken.old.items change → Quiet (frame_of (S.meaning steps.old) graph.now) first (reading (S.read steps.new) made.new.items) taken.new.items (worse change c)) }
{
    taken[vertex] = true;
    let change = visit(alloc, steps, graph, made, vertex)?;
    Ok(change)
}

/// The addresses of cases, in order.
fn addresses_of<P>(alloc: Global, cases: &[Case<P>]) -> Result<Vec<u64>, AllocError>
    ensures { IfOk result (λ v. v.items ≡ addresses cases.now) }
{
    let mut found = Vec::new(alloc);
    for i in 0..cases.len() {
        found.push(cases[i].address)?;
    }
    Ok(found)
}

/// Makes room for a vertex of which nothing is known and that isn't taken.
#[tactic(auto, using(crate::proofs::FillLemmas::cases_at_push, crate::proofs::FillLemmas::pred_at_push, crate::proofs::FillLemmas::held_push, lift_graph::proofs::MarkLemmas::unset_push))]
fn fill_one<S: Steps>(
    alloc: Global,
    steps: &S,
    made: &mut Vec<Made<S::Pred>>,
    taken: &mut Vec<bool>,
) -> Result<(), AllocError>
    requires { All (λ m. IsHeld (S.has steps.now) m) made.old.items }
    ensures rows { OnOk result (length made.new.items ≡ length made.old.items + 1) }
    ensures marks { OnOk result (length taken.new.items ≡ length taken.old.items + 1) }
    ensures room { OnOk result (unset taken.new.items ≤ unset taken.old.items + 1) }
    ensures made { OnOk result (All (λ m. IsHeld (S.has steps.now) m) made.new.items) }
    ensures preds { OnOk result ((u : ℕ) → pred_at (reading (S.read steps.now) made.new.items) u ≡ pred_at (reading (S.read steps.now) made.old.items) u) }
    ensures cases { OnOk result ((u : ℕ) → cases_at (reading (S.read steps.now) made.new.items) u ≡ cases_at (reading (S.read steps.now) made.old.items) u) }
{
    made.push(Made {
        pred: None,
        cases: Vec::new(alloc),
    })?;
    taken.push(false)?;
    Ok(())
}

/// Makes room for vertices of which nothing is known and that aren't taken.
fn fill<S: Steps>(
    alloc: Global,
    steps: &S,
    made: &mut Vec<Made<S::Pred>>,
    taken: &mut Vec<bool>,
    n: usize,
) -> Result<(), AllocError>
    requires marks { length taken.old.items ≡ length made.old.items }
    requires more { length made.old.items ≤ n }
    requires made { All (λ m. IsHeld (S.has steps.now) m) made.old.items }
    ensures rows { OnOk result (length made.new.items ≡ n) }
    ensures marks { OnOk result (length taken.new.items ≡ n) }
    ensures room { OnOk result (unset taken.new.items + length made.old.items ≤ unset taken.old.items + n) }
    ensures made { OnOk result (All (λ m. IsHeld (S.has steps.now) m) made.new.items) }
    ensures preds { OnOk result ((u : ℕ) → pred_at (reading (S.read steps.now) made.new.items) u ≡ pred_at (reading (S.read steps.now) made.old.items) u) }
    ensures cases { OnOk result ((u : ℕ) → cases_at (reading (S.read steps.now) made.new.items) u ≡ cases_at (reading (S.read steps.now) made.old.items) u) }
{
    for vertex in made.len()..n {
        fill_one(alloc, steps, made, taken)?;
    }
    Ok(())
}

/// Makes the edges of a vertex anew, and new vertices where there are none. `Lost` where it doesn't keep the edges that it has.
fn link_cases<S: Steps>(
    alloc: Global,
    steps: &S,
    graph: &mut Graph,
    made: &mut Vec<Made<S::Pred>>,
    taken: &mut Vec<bool>,
    vertex: usize,
) -> Result<(), Stop>
    requires graph { IsGraph graph.old }
    requires rows { length made.old.items ≡ length graph.old.keys.items }
    requires marks { length taken.old.items ≡ length graph.old.keys.items }
    requires within { vertex < length graph.old.keys.items }
    requires made { All (λ m. IsHeld (S.has steps.now) m) made.old.items }
    requires others { (u : ℕ) → u ≢ vertex → IsLedAt (S.meaning steps.now) graph.old (reading (S.read steps.now) made.old.items) u }
    ensures graph { OnOk result (IsGraph graph.new) }
    ensures rows { OnOk result (length made.new.items ≡ length graph.new.keys.items) }
    ensures marks { OnOk result (length taken.new.items ≡ length graph.new.keys.items) }
    ensures room { OnOk result ((2 ^ 64 - length graph.new.keys.items) + unset taken.new.items ≤ (2 ^ 64 - length graph.old.keys.items) + unset taken.old.items) }
    ensures made { OnOk result (All (λ m. IsHeld (S.has steps.now) m) made.new.items) }
    ensures preds { OnOk result ((u : ℕ) → pred_at (reading (S.read steps.now) made.new.items) u ≡ pred_at (reading (S.read steps.now) made.old.items) u) }
    ensures led { OnOk result (IsLed (S.meaning steps.now) graph.new (reading (S.read steps.now) made.new.items)) }
    ensures keys { OnOk result ((v : ℕ) (k : KeyValue) → slice_get graph.old.keys.items v ≡ Some k → slice_get graph.new.keys.items v ≡ Some k) }
    ensures filled { OnOk result (IsFilled (S.meaning steps.now) graph.old.keys.items (reading (S.read steps.now) made.old.items) → IsFilled (S.meaning steps.now) graph.new.keys.items (reading (S.read steps.now) made.new.items)) }
    ensures lost { result ≡ Err Stop.Lost → ¬ KeepsEdges graph.old vertex (keys_after ((S.meaning steps.now).forks (address_at graph.old.keys.items vertex)) (tag_at graph.old.keys.items vertex) 0 (addresses (cases_at (reading (S.read steps.now) made.old.items) vertex))) }
    ensures entry { OnOk result (items_at graph.new.inward.items 0 ≡ items_at graph.old.inward.items 0) }
    ensures keeps { OnOk result (is_set graph.new.keeps.items 0 ≡ is_set graph.old.keeps.items 0) }
{
    let address = graph.address(vertex);
    let forks = steps.forks(address);
    let addresses = addresses_of(alloc, made[vertex].cases.as_slice())?;
    link(alloc, graph, vertex, forks, addresses.as_slice())?;
    let n = graph.len();
    fill(alloc, steps, made, taken, n)?;
    Ok(())
}

/// One round: takes the entry vertex and then, again and again, the least vertex that can be taken, and makes it anew. `Lost`
/// where cases aren't resolved though they have to be, or an edge was lost: neither comes where the addresses of cases don't
/// depend on what is known.
pub fn round<S: Steps>(
    alloc: Global,
    steps: &mut S,
    graph: &mut Graph,
    made: &mut Vec<Made<S::Pred>>,
) -> Result<Change, Stop>
    requires graph { IsGraph graph.old }
    requires rows { length made.old.items ≡ length graph.old.keys.items }
    requires made { All (λ m. IsHeld (S.has steps.old) m) made.old.items }
    requires led { IsLed (S.meaning steps.old) graph.old (reading (S.read steps.old) made.old.items) }
    requires alone { items_at graph.old.inward.items 0 ≡ [] }
    requires kept { is_set graph.old.keeps.items 0 ≡ true }
    requires goes { NeverStuck (frame_of (S.meaning steps.old) graph.old) (length made.old.items) }
    ensures graph { OnOk result (IsGraph graph.new) }
    ensures rows { OnOk result (length made.new.items ≡ length graph.new.keys.items) }
    ensures grows { S.grows steps.old steps.new }
    ensures made { OnOk result (All (λ m. IsHeld (S.has steps.new) m) made.new.items) }
    ensures led { OnOk result (IsLed (S.meaning steps.old) graph.new (reading (S.read steps.new) made.new.items)) }
    ensures keys { OnOk result ((v : ℕ) (k : KeyValue) → slice_get graph.old.keys.items v ≡ Some k → slice_get graph.new.keys.items v ≡ Some k) }
    ensures entry { OnOk result (pred_at (reading (S.read steps.new) made.new.items) 0 ≡ pred_at (reading (S.read steps.old) made.old.items) 0) }
    ensures filled { OnOk result (IsFilled (S.meaning steps.old) graph.old.keys.items (reading (S.read steps.old) made.old.items) → IsFilled (S.meaning steps.old) graph.new.keys.items (reading (S.read steps.new) made.new.items)) }
    ensures lost { result ≡ Err Stop.Lost → IsFilled (S.meaning steps.old) graph.old.keys.items (reading (S.read steps.old) made.old.items) → ¬ ((address : ℕ) → IsFixedAt (S.meaning steps.old) address) }
    ensures edges { IfOk result (λ c. c ≢ Change.Found → graph.new ≡ graph.old) }
    ensures round { IfOk result (λ c. c ≢ Change.Found → IsRound (frame_of (S.meaning steps.old) graph.old) (reading (S.read steps.old) made.old.items) (reading (S.read steps.new) made.new.items) c) }
{
    let mut taken = vec![in alloc; false; made.len()]?;
    let mut front = Front::new(alloc, graph);
    let mut change = Change::Nothing;
    while let Some(vertex) = front.next_ready(graph, taken.as_slice()) {
        let here = take(alloc, steps, graph, made, &mut taken, vertex)?;
        change = worse_of(change, here);
        if let Change::Found = here {
            link_cases(alloc, steps, graph, made, &mut taken, vertex)?;
        }
    }
    Ok(change)
}
