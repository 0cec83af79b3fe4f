use crate::sample::{At, image, region};
use mem_forest::{Context, Region, Relation};
use memory_regions::relate;
use std::alloc::Global;
use std::test::Fail;

/// Two regions, by addresses and sizes, and how the first lies to the second.
type Case = (At, u8, At, u8, Relation);

const TOP: At = At::Constant(0xffff_ffff_ffff_fffc);

static BY_DIFFERENCE: [Case; 9] = [
    (TOP, 8, At::Constant(2), 4, Relation::Overlap),
    (TOP, 8, At::Constant(4), 4, Relation::Separate),
    (TOP, 8, At::Constant(0), 4, Relation::Around),
    (At::Constant(0), 4, TOP, 8, Relation::Inside),
    (TOP, 4, At::Constant(0), 8, Relation::Separate),
    (TOP, 4, TOP, 4, Relation::Alias),
    (TOP, 4, TOP, 8, Relation::Inside),
    (At::Entry(7, 0), 8, At::Entry(7, 4), 4, Relation::Around),
    (At::Entry(7, 0), 8, At::Entry(6, 0), 8, Relation::Unknown),
];

static IN_THE_FRAME_OR_LISTED: [Case; 7] = [
    (
        At::Entry(4, 0),
        8,
        At::Constant(0x40_0ff8),
        8,
        Relation::Separate,
    ),
    (
        At::Constant(0x40_0000),
        4,
        At::Entry(4, 4088),
        8,
        Relation::Separate,
    ),
    (
        At::Entry(4, 0),
        8,
        At::Constant(0x40_0ff9),
        8,
        Relation::Unknown,
    ),
    (
        At::Entry(4, 4089),
        8,
        At::Constant(0x40_0000),
        8,
        Relation::Unknown,
    ),
    (At::Entry(7, 0), 8, At::Entry(4, 0), 8, Relation::Separate),
    (At::Entry(4, 0), 8, At::Entry(7, 0), 8, Relation::Separate),
    (At::Entry(4, 0), 4, At::Entry(7, 0), 8, Relation::Unknown),
];

fn is_related(alloc: Global, case: &Case, context: &Context) -> Result<bool, Fail> {
    let (x, a, y, b, wanted) = *case;
    let first = region(alloc, x, a)?;
    let second = region(alloc, y, b)?;
    Ok(relate(&first, &second, context) == wanted)
}

/// The place of the first case with another relation, where these regions are taken as separate.
fn first_other(
    alloc: Global,
    cases: &[Case],
    seps: &[(Region, Region)],
) -> Result<Option<usize>, Fail> {
    let image = image(alloc)?;
    let context = Context {
        image: &image,
        below: 65_536,
        above: 4096,
        seps,
    };
    for (place, case) in cases.iter().enumerate() {
        if !is_related(alloc, case, &context)? {
            return Ok(Some(place));
        }
    }
    Ok(None)
}

#[test]
fn constant_regions_lie_by_their_difference_with_wrap_around(rt: HostRuntime) -> Result<(), Fail> {
    assert_eq!(rt; first_other(rt.alloc(), &BY_DIFFERENCE, &[])?, None);
    Ok(())
}

#[test]
fn the_frame_and_a_listed_pair_tell_regions_apart(rt: HostRuntime) -> Result<(), Fail> {
    let alloc = rt.alloc();
    let first = region(alloc, At::Entry(7, 0), 8)?;
    let second = region(alloc, At::Entry(4, 0), 8)?;
    let seps = [(first, second)];
    assert_eq!(rt; first_other(alloc, &IN_THE_FRAME_OR_LISTED, &seps)?, None);
    Ok(())
}
