ghost use Rattle.std.specs.Prelude.{◌≡◌, ◌∷◌, [], IfOk, IfSome};
ghost use Rattle.std.specs.List.{All};
ghost use Rattle.std.specs.Option.{option_map};
ghost use Rattle.lift_rounds.specs.Known.{IsHeld, case_at, gathered, incoming, reading};

use crate::data::Made;
use crate::steps::Steps;
use lift_graph::Place;
use std::alloc::{AllocError, Global};

/// A predicate weakened by the newest cases of these edges; the first of them where there is none.
#[tactic(auto, using(crate::proofs::GatherLemmas::gathered_next))]
pub(crate) fn gather<S: Steps>(
    alloc: Global,
    steps: &S,
    made: &[Made<S::Pred>],
    places: &[Place],
    start: Option<S::Pred>,
) -> Result<Option<S::Pred>, AllocError>
    requires made { All (λ m. IsHeld (S.has steps.now) m) made.now }
    requires start { IfSome start (λ p. S.has steps.now p) }
    ensures value { IfOk result (λ p. option_map (S.read steps.now) p ≡ gathered (S.meaning steps.now) (option_map (S.read steps.now) start) (incoming (reading (S.read steps.now) made.now) places.now)) }
    ensures inside { IfOk result (λ p. IfSome p (λ q. S.has steps.now q)) }
{
    let mut so_far = start;
    for place in places {
        if let Some(case) = case_of(steps, made, *place) {
            so_far = join(alloc, steps, so_far, case)?;
        }
    }
    Ok(so_far)
}

/// The newest case of an edge.
#[tactic(auto, using(crate::proofs::ReadingLemmas::case_at_some, crate::proofs::ReadingLemmas::case_at_none, crate::proofs::ReadingLemmas::case_at_past))]
fn case_of<'m, S: Steps>(steps: &S, made: &'m [Made<S::Pred>], place: Place) -> Option<&'m S::Pred>
    requires made { All (λ m. IsHeld (S.has steps.now) m) made.now }
    ensures value { option_map (λ p. S.read steps.now p.now) result ≡ case_at (reading (S.read steps.now) made.now) place }
    ensures inside { IfSome result (λ p. S.has steps.now p.now) }
{
    if made.len() <= place.vertex {
        return None;
    }
    let cases = made[place.vertex].cases.as_slice();
    if cases.len() <= place.case {
        return None;
    }
    Some(&cases[place.case].pred)
}

/// A predicate weakened by one more.
fn join<S: Steps>(
    alloc: Global,
    steps: &S,
    so_far: Option<S::Pred>,
    case: &S::Pred,
) -> Result<Option<S::Pred>, AllocError>
    requires so_far { IfSome so_far (λ p. S.has steps.now p) }
    requires case { S.has steps.now case.now }
    ensures value { IfOk result (λ p. option_map (S.read steps.now) p ≡ gathered (S.meaning steps.now) (option_map (S.read steps.now) so_far) (S.read steps.now case.now ∷ [])) }
    ensures inside { IfOk result (λ p. IfSome p (λ q. S.has steps.now q)) }
{
    match so_far {
        None => {
            let copy = steps.copy(alloc, case)?;
            Ok(Some(copy))
        }
        Some(mut pred) => {
            steps.weaken(&mut pred, case);
            Ok(Some(pred))
        }
    }
}
