use crate::facts::{Bounds, Facts, Unmade, nothing, weight};
use bits_core::Width;

/// The facts with bounds alone.
fn bounded(bounds: Bounds<'_>) -> Facts<'_> {
    Facts {
        bounds,
        ..nothing()
    }
}

#[test]
fn bounds_ascend_and_are_at_most_16(rt: HostRuntime) {
    for (first, many, low, high, wanted) in [
        (5, 16, 3, 3, Ok(16)),
        (5, 17, 3, 3, Err(Unmade::NotInForm)),
        // A low end over the high end, and keys that descend.
        (5, 1, 4, 3, Err(Unmade::NotInForm)),
        (u64::MAX, 2, 3, 3, Err(Unmade::NotInForm)),
    ] {
        let facts = bounded(Bounds::Ranges(first, many, low, high));
        assert_eq!(rt; weight(rt.alloc(), &facts), wanted, "ranges");
    }
}

#[test]
fn a_list_has_ascending_numbers(rt: HostRuntime) {
    let alloc = rt.alloc();
    let unformed = Err(Unmade::NotInForm);
    assert_eq!(rt; weight(alloc, &bounded(Bounds::List(0, &[1, 2, 9]))), Ok(1));
    assert_eq!(rt;
        weight(alloc, &bounded(Bounds::List(0, &[]))),
        unformed,
        "an empty list"
    );
    assert_eq!(rt;
        weight(alloc, &bounded(Bounds::List(0, &[1, 1]))),
        unformed,
        "a number twice"
    );
    assert_eq!(rt;
        weight(alloc, &bounded(Bounds::List(0, &[2, 1]))),
        unformed,
        "numbers descend"
    );
}

#[test]
fn a_predicate_has_16_registers(rt: HostRuntime) {
    // A flag fact and two bounds.
    for (registers, wanted) in [
        (16, Ok(3)),
        (15, Err(Unmade::NotInForm)),
        (17, Err(Unmade::NotInForm)),
    ] {
        let facts = Facts {
            registers,
            flags: Some((Width::W32, 1, 2)),
            bounds: Bounds::Ranges(0, 2, 0, 9),
            ..nothing()
        };
        assert_eq!(rt; weight(rt.alloc(), &facts), wanted, "registers");
    }
}
