ghost use Rattle.std.specs.Prelude.{◌≡◌, ◌≢◌, ◌↔◌, map, true, IfSome, IsSome, IsTrue};
ghost use Rattle.std.specs.List.{All};
ghost use Rattle.std.specs.Option.{option_map};
ghost use Rattle.lift_rounds.specs.Known.{addresses, case_reading};
ghost use Rattle.lift_rounds.specs.Visit.{worse};

use crate::data::{Case, Change};
use crate::steps::Steps;

/// The stronger of two changes.
pub(crate) fn worse_of(left: Change, right: Change) -> Change
    ensures { result ≡ worse left right }
{
    match (left, right) {
        (Change::Found, _) | (_, Change::Found) => Change::Found,
        (Change::Head, _) | (_, Change::Head) => Change::Head,
        (Change::Made, _) | (_, Change::Made) => Change::Made,
        _ => Change::Nothing,
    }
}

/// Whether the same is known.
fn is_same_pred<S: Steps>(steps: &S, left: &Option<S::Pred>, right: &Option<S::Pred>) -> bool
    requires left { IfSome left.now (λ p. S.has steps.now p) }
    requires right { IfSome right.now (λ p. S.has steps.now p) }
    ensures { IsTrue result ↔ (option_map (S.read steps.now) left.now ≡ option_map (S.read steps.now) right.now) }
{
    match (left, right) {
        (None, None) => true,
        (Some(a), Some(b)) => steps.is_same(a, b),
        _ => false,
    }
}

/// Whether two lists of cases are the same.
fn have_same_cases<S: Steps>(steps: &S, left: &[Case<S::Pred>], right: &[Case<S::Pred>]) -> bool
    requires left { All (λ c. S.has steps.now c.pred) left.now }
    requires right { All (λ c. S.has steps.now c.pred) right.now }
    ensures { IsTrue result ↔ (map (case_reading (S.read steps.now)) left.now ≡ map (case_reading (S.read steps.now)) right.now) }
{
    if left.len() != right.len() {
        return false;
    }
    for i in 0..left.len() {
        if !is_same_case(steps, &left[i], &right[i]) {
            return false;
        }
    }
    true
}

/// Whether two cases are the same.
fn is_same_case<S: Steps>(steps: &S, left: &Case<S::Pred>, right: &Case<S::Pred>) -> bool
    requires left { S.has steps.now left.now.pred }
    requires right { S.has steps.now right.now.pred }
    ensures { IsTrue result ↔ (case_reading (S.read steps.now) left.now ≡ case_reading (S.read steps.now) right.now) }
{
    left.address == right.address && steps.is_same(&left.pred, &right.pred)
}

/// Whether two lists of cases have the same addresses.
fn have_same_addresses<P>(left: &[Case<P>], right: &[Case<P>]) -> bool
    ensures { IsTrue result ↔ (addresses left.now ≡ addresses right.now) }
{
    if left.len() != right.len() {
        return false;
    }
    for i in 0..left.len() {
        let before = left[i].address;
        let after = right[i].address;
        if before != after {
            return false;
        }
    }
    true
}

/// What differs of a predicate from what was known.
pub(crate) fn pred_change<S: Steps>(
    steps: &S,
    pred: &Option<S::Pred>,
    before: &Option<S::Pred>,
    keeps: bool,
) -> Change
    requires pred { IfSome pred.now (λ p. S.has steps.now p) }
    requires before { IfSome before.now (λ p. S.has steps.now p) }
    ensures nothing { result ≡ Change.Nothing → option_map (S.read steps.now) pred.now ≡ option_map (S.read steps.now) before.now }
    ensures known { result ≢ Change.Found → IsSome (option_map (S.read steps.now) before.now) }
    ensures head { result ≡ Change.Head → (keeps ≡ true) × (option_map (S.read steps.now) pred.now ≢ option_map (S.read steps.now) before.now) }
    ensures made { result ≡ Change.Made → (keeps ≢ true) × (option_map (S.read steps.now) pred.now ≢ option_map (S.read steps.now) before.now) }
{
    if before.is_none() {
        return Change::Found;
    }
    if is_same_pred(steps, pred, before) {
        return Change::Nothing;
    }
    if keeps { Change::Head } else { Change::Made }
}

/// What differs of cases from those that were there.
pub(crate) fn cases_change<S: Steps>(
    steps: &S,
    cases: &[Case<S::Pred>],
    before: &[Case<S::Pred>],
) -> Change
    requires cases { All (λ c. S.has steps.now c.pred) cases.now }
    requires before { All (λ c. S.has steps.now c.pred) before.now }
    ensures nothing { result ≡ Change.Nothing → map (case_reading (S.read steps.now)) cases.now ≡ map (case_reading (S.read steps.now)) before.now }
    ensures edges { result ≢ Change.Found → addresses cases.now ≡ addresses before.now }
    ensures made { result ≡ Change.Made → map (case_reading (S.read steps.now)) cases.now ≢ map (case_reading (S.read steps.now)) before.now }
    ensures head { result ≢ Change.Head }
{
    if !have_same_addresses(cases, before) {
        return Change::Found;
    }
    if have_same_cases(steps, cases, before) {
        return Change::Nothing;
    }
    Change::Made
}
