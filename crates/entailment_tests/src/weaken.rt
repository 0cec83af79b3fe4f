use crate::facts::{Bounds, Facts, Unmade, made, nothing};
use predicates::{Pred, entry_pred};
use std::alloc::Global;
use sym_terms::NoMemory;

/// The number of conjuncts that stay where these facts are known.
fn weight_left(alloc: Global, pred: &mut Pred, known: &Facts<'_>) -> Result<u64, Unmade> {
    let known = made(alloc, known)?;
    pred.weaken(&known);
    Ok(pred.weight())
}

/// How many bounds of the constants 0, 1 and 2 from 1 to 5 stay where these are known.
fn bounds_left(alloc: Global, known: Bounds<'_>) -> Result<u64, Unmade> {
    let bounds = Bounds::Ranges(0, 3, 1, 5);
    let mut pred = made(
        alloc,
        &Facts {
            bounds,
            ..nothing()
        },
    )?;
    let bounds = known;
    weight_left(
        alloc,
        &mut pred,
        &Facts {
            bounds,
            ..nothing()
        },
    )
}

#[test]
fn bounds_stay_that_the_other_holds(rt: HostRuntime) {
    for (first, many, low, high, left) in [
        (0, 3, 1, 5, 3),
        // Inside, of the last two.
        (1, 2, 2, 4, 2),
        // A lower end, and another key.
        (0, 3, 0, 5, 0),
        (3, 1, 1, 5, 0),
    ] {
        let known = Bounds::Ranges(first, many, low, high);
        assert_eq!(rt; bounds_left(rt.alloc(), known), Ok(left), "bounds");
    }
}

fn weight_left_by_entry(alloc: Global, pred: &mut Pred) -> Result<u64, NoMemory> {
    let entry = entry_pred(alloc)?;
    pred.weaken(&entry);
    Ok(pred.weight())
}

/// The number of the entry's conjuncts that stay where the entry is known, and then one other register.
fn entry_left(alloc: Global) -> Result<(u64, u64), Unmade> {
    let mut pred = entry_pred(alloc)?;
    let by_entry = weight_left_by_entry(alloc, &mut pred)?;
    let known = Some((3, 7));
    let by_register = weight_left(alloc, &mut pred, &Facts { known, ..nothing() })?;
    Ok((by_entry, by_register))
}

#[test]
fn what_the_other_does_not_know_goes(rt: HostRuntime) {
    // Registers and the return address.
    assert_eq!(rt; entry_left(rt.alloc()), Ok((17, 0)));
}
