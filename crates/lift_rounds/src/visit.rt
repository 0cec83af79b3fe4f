ghost use Rattle.std.specs.Prelude.{◌≡◌, ◌≢◌, ◌<◌, ◌↔◌, ◌⊎◌, ℕ, Option, Some, None, Err, cond, length, map, true, IfOk, OnOk, IfSome, IsSome, IsTrue};
ghost use Rattle.std.specs.List.{All};
ghost use Rattle.std.specs.Option.{option_map};
ghost use Rattle.lift_graph.specs.Graph.{IsSquare, address_at};
ghost use Rattle.lift_graph.specs.Rows.{is_set, items_at};
ghost use Rattle.lift_graph.specs.Sites.{site_at};
ghost use Rattle.lift_rounds.specs.Fixed.{AreCases, IsUnresolvedAt};
ghost use Rattle.lift_rounds.specs.Known.{IsHeld, addresses, cases_at, case_reading, cases_from, pred_at, reading};
ghost use Rattle.lift_rounds.specs.Visit.{HasCases, HasPred, IsOutcome, IsVisit, worse};

use crate::compare::{cases_change, pred_change, worse_of};
use crate::data::{Case, Change, Made};
use crate::gather::gather;
use crate::steps::Steps;
use lift_graph::{Graph, Place, Stop};
use std::alloc::{AllocError, Global};

/// What stays of a predicate that is kept.
fn kept_of<S: Steps>(
    alloc: Global,
    steps: &S,
    before: &Option<S::Pred>,
    keeps: bool,
) -> Result<Option<S::Pred>, AllocError>
    requires { IfSome before.now (λ p. S.has steps.now p) }
    ensures value { IfOk result (λ p. option_map (S.read steps.now) p ≡ cond keeps (option_map (S.read steps.now) before.now) None) }
    ensures inside { IfOk result (λ p. IfSome p (λ q. S.has steps.now q)) }
{
    match before {
        None => Ok(None),
        Some(pred) => {
            if keeps {
                let copy = steps.copy(alloc, pred)?;
                Ok(Some(copy))
            } else {
                Ok(None)
            }
        }
    }
}

/// Makes the predicate of a vertex anew, and says what changed.
#[tactic(auto, using(crate::proofs::ReadingLemmas::pred_at_read))]
fn visit_pred<S: Steps>(
    alloc: Global,
    steps: &S,
    places: &[Place],
    keeps: bool,
    made: &mut Vec<Made<S::Pred>>,
    vertex: usize,
) -> Result<Change, AllocError>
    requires vertex { vertex < length made.old.items }
    requires made { All (λ m. IsHeld (S.has steps.now) m) made.old.items }
    ensures made { OnOk result (All (λ m. IsHeld (S.has steps.now) m) made.new.items) }
    ensures rows { OnOk result (length made.new.items ≡ length made.old.items) }
    ensures visited { OnOk result (HasPred (S.meaning steps.now) (reading (S.read steps.now) made.old.items) (reading (S.read steps.now) made.new.items) places.now keeps vertex) }
    ensures nothing { IfOk result (λ c. c ≡ Change.Nothing → pred_at (reading (S.read steps.now) made.new.items) vertex ≡ pred_at (reading (S.read steps.now) made.old.items) vertex) }
    ensures known { IfOk result (λ c. c ≢ Change.Found → IsSome (pred_at (reading (S.read steps.now) made.old.items) vertex)) }
    ensures head { IfOk result (λ c. c ≡ Change.Head → (keeps ≡ true) × (pred_at (reading (S.read steps.now) made.new.items) vertex ≢ pred_at (reading (S.read steps.now) made.old.items) vertex)) }
    ensures changed { IfOk result (λ c. c ≡ Change.Made → (keeps ≢ true) × (pred_at (reading (S.read steps.now) made.new.items) vertex ≢ pred_at (reading (S.read steps.now) made.old.items) vertex)) }
{
    let before = &made[vertex].pred;
    let start = kept_of(alloc, steps, before, keeps)?;
    let pred = gather(alloc, steps, made.as_slice(), places, start)?;
    let change = pred_change(steps, &pred, before, keeps);
    put_pred(steps, made, vertex, pred);
    Ok(change)
}

/// Writes the predicate of a vertex.
#[tactic(auto, using(crate::proofs::ReadingLemmas::pred_at_set_same, crate::proofs::ReadingLemmas::pred_at_set_other, crate::proofs::ReadingLemmas::cases_at_set_kept))]
fn put_pred<S: Steps>(
    steps: &S,
    made: &mut Vec<Made<S::Pred>>,
    vertex: usize,
    pred: Option<S::Pred>,
)
    requires vertex { vertex < length made.old.items }
    requires made { All (λ m. IsHeld (S.has steps.now) m) made.old.items }
    requires pred { IfSome pred (λ p. S.has steps.now p) }
    ensures made { All (λ m. IsHeld (S.has steps.now) m) made.new.items }
    ensures rows { length made.new.items ≡ length made.old.items }
    ensures here { pred_at (reading (S.read steps.now) made.new.items) vertex ≡ option_map (S.read steps.now) pred }
    ensures others { (u : ℕ) → u ≢ vertex → pred_at (reading (S.read steps.now) made.new.items) u ≡ pred_at (reading (S.read steps.now) made.old.items) u }
    ensures cases { (u : ℕ) → cases_at (reading (S.read steps.now) made.new.items) u ≡ cases_at (reading (S.read steps.now) made.old.items) u }
{
    let known = &mut made[vertex];
    known.pred = pred;
}

/// The cases at an address of a vertex with this predicate, none where nothing is known of it; `Lost` where they aren't resolved
/// though they have to be.
fn cases_of_pred<S: Steps>(
    alloc: Global,
    steps: &mut S,
    address: u64,
    site: &[usize],
    made: &[Made<S::Pred>],
    pred: &Option<S::Pred>,
) -> Result<Option<Vec<Case<S::Pred>>>, Stop>
    requires made { All (λ m. IsHeld (S.has steps.old) m) made.now }
    requires pred { IfSome pred.now (λ p. S.has steps.old p) }
    ensures grows { S.grows steps.old steps.new }
    ensures value { IfOk result (λ r. IfSome r (λ cs. cases_from (S.meaning steps.old) address (map (pred_at (reading (S.read steps.old) made.now)) site.now) (option_map (S.read steps.old) pred.now) ≡ Some (map (case_reading (S.read steps.new)) cs.items))) }
    ensures filled { IfOk result (λ r. IfSome r (λ cs. AreCases (S.meaning steps.old) address (map (case_reading (S.read steps.new)) cs.items))) }
    ensures inside { IfOk result (λ r. IfSome r (λ cs. All (λ c. S.has steps.new c.pred) cs.items)) }
    ensures lost { result ≡ Err Stop.Lost → IsUnresolvedAt (S.meaning steps.old) address }
{
    match pred {
        None => Ok(None),
        Some(known) => match steps.cases(alloc, address, made, site, known)? {
            None => Err(Stop::Lost),
            Some(cases) => Ok(Some(cases)),
        },
    }
}

/// The cases of a vertex at what is known there; what is known reads as before.
#[tactic(auto, using(crate::proofs::ReadingLemmas::pred_at_read))]
fn new_cases<S: Steps>(
    alloc: Global,
    steps: &mut S,
    address: u64,
    site: &[usize],
    made: &[Made<S::Pred>],
    vertex: usize,
) -> Result<Option<Vec<Case<S::Pred>>>, Stop>
    requires vertex { vertex < length made.now }
    requires made { All (λ m. IsHeld (S.has steps.old) m) made.now }
    ensures grows { S.grows steps.old steps.new }
    ensures value { IfOk result (λ r. IfSome r (λ cs. cases_from (S.meaning steps.old) address (map (pred_at (reading (S.read steps.old) made.now)) site.now) (pred_at (reading (S.read steps.old) made.now) vertex) ≡ Some (map (case_reading (S.read steps.new)) cs.items))) }
    ensures filled { IfOk result (λ r. IfSome r (λ cs. AreCases (S.meaning steps.old) address (map (case_reading (S.read steps.new)) cs.items))) }
    ensures inside { IfOk result (λ r. IfSome r (λ cs. All (λ c. S.has steps.new c.pred) cs.items)) }
    ensures made { OnOk result (All (λ m. IsHeld (S.has steps.new) m) made.now) }
    ensures reads { OnOk result (reading (S.read steps.new) made.now ≡ reading (S.read steps.old) made.now) }
    ensures lost { result ≡ Err Stop.Lost → IsUnresolvedAt (S.meaning steps.old) address }
{
    let pred = &made[vertex].pred;
    let cases = cases_of_pred(alloc, steps, address, site, made, pred)?;
    Ok(cases)
}

/// Writes the cases of a vertex.
#[tactic(auto, using(crate::proofs::ReadingLemmas::cases_at_set_same, crate::proofs::ReadingLemmas::cases_at_set_other, crate::proofs::ReadingLemmas::pred_at_set_kept))]
fn put_cases<S: Steps>(
    steps: &S,
    made: &mut Vec<Made<S::Pred>>,
    vertex: usize,
    cases: Vec<Case<S::Pred>>,
)
    requires vertex { vertex < length made.old.items }
    requires made { All (λ m. IsHeld (S.has steps.now) m) made.old.items }
    requires cases { All (λ c. S.has steps.now c.pred) cases.items }
    ensures made { All (λ m. IsHeld (S.has steps.now) m) made.new.items }
    ensures rows { length made.new.items ≡ length made.old.items }
    ensures here { cases_at (reading (S.read steps.now) made.new.items) vertex ≡ map (case_reading (S.read steps.now)) cases.items }
    ensures others { (u : ℕ) → u ≢ vertex → cases_at (reading (S.read steps.now) made.new.items) u ≡ cases_at (reading (S.read steps.now) made.old.items) u }
    ensures preds { (u : ℕ) → pred_at (reading (S.read steps.now) made.new.items) u ≡ pred_at (reading (S.read steps.now) made.old.items) u }
{
    let known = &mut made[vertex];
    known.cases = cases;
}

/// Gives a vertex these cases, and says what changed.
fn change_cases<S: Steps>(
    steps: &S,
    made: &mut Vec<Made<S::Pred>>,
    vertex: usize,
    cases: Vec<Case<S::Pred>>,
) -> Change
    requires vertex { vertex < length made.old.items }
    requires made { All (λ m. IsHeld (S.has steps.now) m) made.old.items }
    requires cases { All (λ c. S.has steps.now c.pred) cases.items }
    ensures made { All (λ m. IsHeld (S.has steps.now) m) made.new.items }
    ensures rows { length made.new.items ≡ length made.old.items }
    ensures here { cases_at (reading (S.read steps.now) made.new.items) vertex ≡ map (case_reading (S.read steps.now)) cases.items }
    ensures others { (u : ℕ) → u ≢ vertex → cases_at (reading (S.read steps.now) made.new.items) u ≡ cases_at (reading (S.read steps.now) made.old.items) u }
    ensures preds { (u : ℕ) → pred_at (reading (S.read steps.now) made.new.items) u ≡ pred_at (reading (S.read steps.now) made.old.items) u }
    ensures nothing { result ≡ Change.Nothing → cases_at (reading (S.read steps.now) made.new.items) vertex ≡ cases_at (reading (S.read steps.now) made.old.items) vertex }
    ensures edges { result ≢ Change.Found → addresses (cases_at (reading (S.read steps.now) made.new.items) vertex) ≡ addresses (cases_at (reading (S.read steps.now) made.old.items) vertex) }
    ensures changed { result ≡ Change.Made → cases_at (reading (S.read steps.now) made.new.items) vertex ≢ cases_at (reading (S.read steps.now) made.old.items) vertex }
    ensures head { result ≢ Change.Head }
{
    let before = made[vertex].cases.as_slice();
    let change = cases_change(steps, cases.as_slice(), before);
    put_cases(steps, made, vertex, cases);
    change
}

/// Makes the cases of a vertex anew, and says what changed. A vertex of which nothing is known has the cases that it had.
fn visit_cases<S: Steps>(
    alloc: Global,
    steps: &mut S,
    address: u64,
    site: &[usize],
    made: &mut Vec<Made<S::Pred>>,
    vertex: usize,
) -> Result<Change, Stop>
    requires vertex { vertex < length made.old.items }
    requires made { All (λ m. IsHeld (S.has steps.old) m) made.old.items }
    ensures grows { S.grows steps.old steps.new }
    ensures made { OnOk result (All (λ m. IsHeld (S.has steps.new) m) made.new.items) }
    ensures rows { OnOk result (length made.new.items ≡ length made.old.items) }
    ensures visited { OnOk result (HasCases (reading (S.read steps.old) made.old.items) (reading (S.read steps.new) made.new.items) vertex) }
    ensures cased { IfOk result (λ c. c ≢ Change.Found → cases_from (S.meaning steps.old) address (map (pred_at (reading (S.read steps.new) made.new.items)) site.now) (pred_at (reading (S.read steps.new) made.new.items) vertex) ≡ Some (cases_at (reading (S.read steps.new) made.new.items) vertex)) }
    ensures filled { OnOk result ((cases_at (reading (S.read steps.new) made.new.items) vertex ≡ cases_at (reading (S.read steps.old) made.old.items) vertex) ⊎ AreCases (S.meaning steps.old) address (cases_at (reading (S.read steps.new) made.new.items) vertex)) }
    ensures nothing { IfOk result (λ c. c ≡ Change.Nothing → cases_at (reading (S.read steps.new) made.new.items) vertex ≡ cases_at (reading (S.read steps.old) made.old.items) vertex) }
    ensures edges { IfOk result (λ c. c ≢ Change.Found → addresses (cases_at (reading (S.read steps.new) made.new.items) vertex) ≡ addresses (cases_at (reading (S.read steps.old) made.old.items) vertex)) }
    ensures changed { IfOk result (λ c. c ≡ Change.Made → cases_at (reading (S.read steps.new) made.new.items) vertex ≢ cases_at (reading (S.read steps.old) made.old.items) vertex) }
    ensures head { IfOk result (λ c. c ≢ Change.Head) }
    ensures lost { result ≡ Err Stop.Lost → IsUnresolvedAt (S.meaning steps.old) address }
{
    let found = new_cases(alloc, steps, address, site, made.as_slice(), vertex)?;
    match found {
        None => Ok(Change::Found),
        Some(cases) => {
            let change = change_cases(steps, made, vertex, cases);
            Ok(change)
        }
    }
}

/// Makes a vertex anew, and says what changed. `Lost` where its cases aren't resolved though they have to be.
pub(crate) fn visit<S: Steps>(
    alloc: Global,
    steps: &mut S,
    graph: &Graph,
    made: &mut Vec<Made<S::Pred>>,
    vertex: usize,
) -> Result<Change, Stop>
    requires square { IsSquare graph.now }
    requires rows { length made.old.items ≡ length graph.now.keys.items }
    requires vertex { vertex < length graph.now.keys.items }
    requires made { All (λ m. IsHeld (S.has steps.old) m) made.old.items }
    ensures grows { S.grows steps.old steps.new }
    ensures made { OnOk result (All (λ m. IsHeld (S.has steps.new) m) made.new.items) }
    ensures rows { OnOk result (length made.new.items ≡ length made.old.items) }
    ensures visited { OnOk result (IsVisit (S.meaning steps.old) (reading (S.read steps.old) made.old.items) (reading (S.read steps.new) made.new.items) (items_at graph.now.inward.items vertex) (is_set graph.now.keeps.items vertex) vertex) }
    ensures outcome { IfOk result (λ c. IsOutcome c (is_set graph.now.keeps.items vertex) (reading (S.read steps.old) made.old.items) (reading (S.read steps.new) made.new.items) vertex) }
    ensures cased { IfOk result (λ c. c ≢ Change.Found → cases_from (S.meaning steps.old) (address_at graph.now.keys.items vertex) (map (pred_at (reading (S.read steps.new) made.new.items)) (site_at graph.now vertex)) (pred_at (reading (S.read steps.new) made.new.items) vertex) ≡ Some (cases_at (reading (S.read steps.new) made.new.items) vertex)) }
    ensures filled { OnOk result ((cases_at (reading (S.read steps.new) made.new.items) vertex ≡ cases_at (reading (S.read steps.old) made.old.items) vertex) ⊎ AreCases (S.meaning steps.old) (address_at graph.now.keys.items vertex) (cases_at (reading (S.read steps.new) made.new.items) vertex)) }
    ensures lost { result ≡ Err Stop.Lost → IsUnresolvedAt (S.meaning steps.old) (address_at graph.now.keys.items vertex) }
{
    let places = graph.inward[vertex].as_slice();
    let keeps = graph.keeps[vertex];
    let pred = visit_pred(alloc, steps, places, keeps, made, vertex)?;
    let address = graph.address(vertex);
    let site = graph.site(alloc, address)?;
    let cases = visit_cases(alloc, steps, address, site.as_slice(), made, vertex)?;
    let change = worse_of(pred, cases);
    Ok(change)
}
