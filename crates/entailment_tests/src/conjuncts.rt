use crate::facts::{Bounds, Facts, Nodes, Unmade, follow, missing, nothing};
use bits_core::Width;
use predicates::Conjunct;
use std::alloc::Global;

/// One register, if any, by number and value.
fn registers(known: Option<(u64, u64)>) -> Facts<'static> {
    Facts { known, ..nothing() }
}

#[test]
fn a_register_known_in_the_target_has_the_same_term(rt: HostRuntime) {
    for (wanted, first) in [
        (None, None),
        (Some((3, 7)), None),
        (Some((3, 8)), Some(Conjunct::Register(3))),
        (Some((0, 7)), Some(Conjunct::Register(0))),
        (Some((15, 7)), Some(Conjunct::Register(15))),
    ] {
        let found = missing(rt.alloc(), &registers(Some((3, 7))), &registers(wanted));
        assert_eq!(rt; found, Ok(first), "a register");
    }
}

/// Whether the flags of 1 minus 2 at 32 bits are known to be these.
fn has_flags(alloc: Global, width: Width, left: u64, right: u64) -> Result<bool, Unmade> {
    let held = Facts {
        flags: Some((Width::W32, 1, 2)),
        ..nothing()
    };
    let wanted = Facts {
        flags: Some((width, left, right)),
        ..nothing()
    };
    follow(alloc, &held, &wanted)
}

#[test]
fn a_flag_fact_follows_from_the_same_one_alone(rt: HostRuntime) {
    let alloc = rt.alloc();
    assert_eq!(rt; has_flags(alloc, Width::W32, 1, 2), Ok(true), "the same");
    assert_eq!(rt;
        has_flags(alloc, Width::W64, 1, 2),
        Ok(false),
        "another width"
    );
    assert_eq!(rt;
        has_flags(alloc, Width::W32, 2, 2),
        Ok(false),
        "another left"
    );
    assert_eq!(rt;
        has_flags(alloc, Width::W32, 1, 1),
        Ok(false),
        "another right"
    );
}

/// Whether bounds follow from bounds.
fn are_within(alloc: Global, held: Bounds<'_>, wanted: Bounds<'_>) -> Result<bool, Unmade> {
    let held = Facts {
        bounds: held,
        ..nothing()
    };
    let wanted = Facts {
        bounds: wanted,
        ..nothing()
    };
    follow(alloc, &held, &wanted)
}

#[test]
fn a_range_follows_from_one_inside_it(rt: HostRuntime) {
    // The same, inside, a lower end, a higher end.
    for (low, high, wanted) in [(1, 5, true), (2, 4, true), (0, 5, false), (1, 6, false)] {
        let (held, outer) = (Bounds::Ranges(0, 1, low, high), Bounds::Ranges(0, 1, 1, 5));
        assert_eq!(rt; are_within(rt.alloc(), held, outer), Ok(wanted), "a range");
    }
}

#[test]
fn a_bound_follows_from_one_of_its_own_key(rt: HostRuntime) {
    let (held, other) = (Bounds::Ranges(0, 1, 1, 5), Bounds::Ranges(1, 1, 1, 5));
    assert_eq!(rt; are_within(rt.alloc(), held, other), Ok(false));
}

/// Whether a list gives the range from 1 to 5, and whether it gives the list of 2, 3 and 4.
fn list_gives(alloc: Global, numbers: &[u64]) -> Result<(bool, bool), Unmade> {
    let held = Bounds::List(0, numbers);
    let in_range = are_within(alloc, held, Bounds::Ranges(0, 1, 1, 5))?;
    let in_list = are_within(alloc, held, Bounds::List(0, &[2, 3, 4]))?;
    Ok((in_range, in_list))
}

#[test]
fn a_list_gives_each_range_or_list_that_has_its_numbers(rt: HostRuntime) {
    let alloc = rt.alloc();
    assert_eq!(rt; list_gives(alloc, &[2, 4]), Ok((true, true)));
    assert_eq!(rt; list_gives(alloc, &[1, 5]), Ok((true, false)));
    assert_eq!(rt; list_gives(alloc, &[2, 3, 4, 6]), Ok((false, false)));
}

#[test]
fn a_range_never_gives_a_list(rt: HostRuntime) {
    let (held, list) = (Bounds::Ranges(0, 1, 2, 2), Bounds::List(0, &[2]));
    assert_eq!(rt; are_within(rt.alloc(), held, list), Ok(false));
}

#[test]
fn flags_come_before_bounds_and_bounds_before_nodes(rt: HostRuntime) {
    for (flags, many, first) in [
        (Some((Width::W8, 1, 2)), 1, Conjunct::Flags),
        (None, 2, Conjunct::Bound(0)),
        (None, 0, Conjunct::Cell(0)),
    ] {
        let wanted = Facts {
            flags,
            bounds: Bounds::Ranges(0, many, 0, 9),
            nodes: Nodes::OfEntry,
            ..nothing()
        };
        let found = missing(rt.alloc(), &nothing(), &wanted);
        assert_eq!(rt; found, Ok(Some(first)), "flags, a bound and a node");
    }
}
