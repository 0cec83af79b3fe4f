// Copies of what was found and of what is known.
ghost use Rattle.std.specs.Prelude.{◌≡◌, ℕ, map, IfOk, IfSome};
ghost use Rattle.std.specs.List.{All};
ghost use Rattle.std.specs.Option.{option_map};
ghost use Rattle.lift_graph.specs.Graph.{IsGraph};
ghost use Rattle.lift_rounds.specs.Known.{IsHeld, case_reading, known_of, reading};
ghost use Rattle.lift_openings.specs.Copies.{IsCopy, rows_of};
ghost use Rattle.lift_openings.specs.Lifted.{IsBegun, IsLifted};

use crate::lift::Lift;
use lift_graph::Place;
use lift_rounds::{Case, Graph, Made, Steps};
use no_memory::NoMemory;
use std::alloc::{AllocError, Global};

/// Equal rows.
fn copy_rows<T: Copy>(alloc: Global, rows: &[Vec<T>]) -> Result<Vec<Vec<T>>, AllocError>
    ensures { IfOk result (λ copies. rows_of copies.items ≡ rows_of rows.now) }
{
    let mut copies = Vec::new(alloc);
    for row in rows {
        copies.push(Vec::from_slice(alloc, row.as_slice())?)?;
    }
    Ok(copies)
}

/// The same vertices and edges.
fn copy_graph(alloc: Global, graph: &Graph) -> Result<Graph, AllocError>
    requires { IsGraph graph.now }
    ensures graph { IfOk result (λ g. IsGraph g) }
    ensures copy { IfOk result (λ g. IsCopy graph.now g) }
{
    let keys = Vec::from_slice(alloc, graph.keys.as_slice())?;
    let targets: Vec<Vec<usize>> = copy_rows(alloc, graph.targets.as_slice())?;
    let inward: Vec<Vec<Place>> = copy_rows(alloc, graph.inward.as_slice())?;
    let keeps = Vec::from_slice(alloc, graph.keeps.as_slice())?;
    let index = graph.index.clone()?;
    Ok(Graph {
        keys,
        targets,
        index,
        tags: graph.tags,
        inward,
        keeps,
    })
}

/// Equal cases.
fn copy_cases<S: Steps>(
    alloc: Global,
    steps: &S,
    cases: &[Case<S::Pred>],
) -> Result<Vec<Case<S::Pred>>, AllocError>
    requires { All (λ c. S.has steps.now c.pred) cases.now }
    ensures value { IfOk result (λ cs. map (case_reading (S.read steps.now)) cs.items ≡ map (case_reading (S.read steps.now)) cases.now) }
    ensures inside { IfOk result (λ cs. All (λ c. S.has steps.now c.pred) cs.items) }
{
    let mut copies = Vec::new(alloc);
    for case in cases {
        let pred = steps.copy(alloc, &case.pred)?;
        copies.push(Case {
            address: case.address,
            pred,
        })?;
    }
    Ok(copies)
}

/// An equal predicate, where there is one.
fn copy_pred<S: Steps>(
    alloc: Global,
    steps: &S,
    pred: &Option<S::Pred>,
) -> Result<Option<S::Pred>, AllocError>
    requires { IfSome pred.now (λ p. S.has steps.now p) }
    ensures value { IfOk result (λ p. option_map (S.read steps.now) p ≡ option_map (S.read steps.now) pred.now) }
    ensures inside { IfOk result (λ p. IfSome p (λ q. S.has steps.now q)) }
{
    match pred {
        None => Ok(None),
        Some(pred) => {
            let copy = steps.copy(alloc, pred)?;
            Ok(Some(copy))
        }
    }
}

/// What is known at a vertex, copied.
fn copy_one<S: Steps>(
    alloc: Global,
    steps: &S,
    made: &Made<S::Pred>,
) -> Result<Made<S::Pred>, AllocError>
    requires { IsHeld (S.has steps.now) made.now }
    ensures value { IfOk result (λ m. known_of (S.read steps.now) m ≡ known_of (S.read steps.now) made.now) }
    ensures inside { IfOk result (λ m. IsHeld (S.has steps.now) m) }
{
    let pred = copy_pred(alloc, steps, &made.pred)?;
    let cases = copy_cases(alloc, steps, made.cases.as_slice())?;
    Ok(Made { pred, cases })
}

/// What is known at the vertices, copied.
fn copy_made<S: Steps>(
    alloc: Global,
    steps: &S,
    made: &[Made<S::Pred>],
) -> Result<Vec<Made<S::Pred>>, AllocError>
    requires { All (λ m. IsHeld (S.has steps.now) m) made.now }
    ensures value { IfOk result (λ ms. reading (S.read steps.now) ms.items ≡ reading (S.read steps.now) made.now) }
    ensures inside { IfOk result (λ ms. All (λ m. IsHeld (S.has steps.now) m) ms.items) }
{
    let mut copies = Vec::new(alloc);
    for one in made {
        copies.push(copy_one(alloc, steps, one)?)?;
    }
    Ok(copies)
}

/// What was found and is known, copied.
#[tactic(auto, using(crate::proofs::FoundLemmas::lifted_copied, crate::proofs::FoundLemmas::begun_copied))]
pub(crate) fn copy_lift<S: Steps>(
    alloc: Global,
    steps: &S,
    lift: &Lift<S::Pred>,
) -> Result<Lift<S::Pred>, NoMemory>
    requires { IsLifted (S.meaning steps.now) (S.has steps.now) (S.read steps.now) lift.now }
    ensures lifted { IfOk result (λ l. IsLifted (S.meaning steps.now) (S.has steps.now) (S.read steps.now) l) }
    ensures begun { IfOk result (λ l. (address : ℕ) (start : S.Plain) → IsBegun (S.read steps.now) lift.now address start → IsBegun (S.read steps.now) l address start) }
{
    let graph = copy_graph(alloc, &lift.graph)?;
    let made = copy_made(alloc, steps, lift.made.as_slice())?;
    Ok(Lift { graph, made })
}
