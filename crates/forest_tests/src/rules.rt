use crate::sample::{At, Row, Step, apply, image, region, rows_after};
use mem_forest::{Context, Forest, Region};
use std::test::Fail;

const RSP: u8 = 4;

const RDX: u8 = 2;

const RSI: u8 = 6;

const RDI: u8 = 7;

const R12: u8 = 12;

/// The 8 bytes below the entry's stack pointer.
const SAVED: At = At::Entry(RSP, 0xffff_ffff_ffff_fff8);

const RETURN: Step = Step::Store(At::Entry(RSP, 0), 8, Some(R12));

fn row(level: u32, at: At, bytes: u8, value: Option<u8>) -> Row {
    Row {
        level,
        names: 1,
        at,
        bytes,
        value,
    }
}

/// Whether the steps leave these nodes, where the pairs are taken as separate.
fn leaves(
    rt: &HostRuntime,
    seps: &[(Region, Region)],
    steps: &[Step],
    rows: &[Row],
) -> Result<bool, Fail> {
    let alloc = rt.alloc();
    let image = image(alloc)?;
    let context = Context {
        image: &image,
        below: 65_536,
        above: 4096,
        seps,
    };
    let mut forest = Forest::empty(alloc);
    for step in steps {
        apply(alloc, &mut forest, *step, &context)?;
    }
    Ok(rows_after(alloc, forest.nodes(), rows, 0)?.is_empty())
}

#[test]
fn a_store_inside_a_node_comes_under_it(rt: HostRuntime) -> Result<(), Fail> {
    let steps = [
        RETURN,
        Step::Store(SAVED, 8, Some(RDI)),
        Step::Store(SAVED, 4, Some(RSI)),
        Step::Store(SAVED, 2, Some(RDX)),
    ];
    let rows = [
        row(0, At::Entry(RSP, 0), 8, Some(R12)),
        row(0, SAVED, 8, None),
        row(1, SAVED, 4, None),
        row(2, SAVED, 2, Some(RDX)),
    ];
    assert!(rt; leaves(&rt, &[], &steps, &rows)?);
    let again = [
        steps[0],
        steps[1],
        steps[2],
        steps[3],
        Step::Store(SAVED, 4, None),
    ];
    assert!(rt; leaves(&rt, &[], &again, &rows[..3])?, "the node is found");
    Ok(())
}

#[test]
fn a_store_takes_what_may_overlap_unless_a_pair_is_listed(rt: HostRuntime) -> Result<(), Fail> {
    let alloc = rt.alloc();
    let store = Step::Store(At::Entry(RDI, 0), 8, Some(RSI));
    let cell = row(0, At::Entry(RDI, 0), 8, Some(RSI));
    assert!(rt; leaves(&rt, &[], &[RETURN, store], &[cell])?);
    let pair = (
        region(alloc, At::Entry(RDI, 0), 8)?,
        region(alloc, At::Entry(RSP, 0), 8)?,
    );
    let rows = [row(0, At::Entry(RSP, 0), 8, Some(R12)), cell];
    assert!(rt;
        leaves(&rt, &[pair], &[RETURN, store], &rows)?,
        "a listed pair"
    );
    Ok(())
}

#[test]
fn a_load_names_a_value_only_where_a_name_is_given(rt: HostRuntime) -> Result<(), Fail> {
    let top = row(0, At::Entry(RSP, 0), 8, Some(R12));
    let part = row(1, At::Entry(RSP, 0), 4, Some(RDX));
    let without = [RETURN, Step::Load(At::Entry(RSP, 0), 4, None)];
    assert!(rt; leaves(&rt, &[], &without, &[top])?, "no name");
    let with = [RETURN, Step::Load(At::Entry(RSP, 0), 4, Some(RDX))];
    assert!(rt;
        leaves(&rt, &[], &with, &[top, part])?,
        "one address at two sizes"
    );
    let held = [RETURN, Step::Load(At::Entry(RSP, 0), 8, Some(RDX))];
    assert!(rt; leaves(&rt, &[], &held, &[top])?, "a value stands there");
    let over = [
        Step::Store(At::Entry(RSP, 4), 4, Some(RSI)),
        Step::Load(At::Entry(RSP, 0), 8, Some(RDX)),
    ];
    let rows = [
        row(0, At::Entry(RSP, 0), 8, Some(RDX)),
        row(1, At::Entry(RSP, 4), 4, Some(RSI)),
    ];
    assert!(rt;
        leaves(&rt, &[], &over, &rows)?,
        "over a node that lies in it"
    );
    let beside = [RETURN, Step::Load(At::Entry(RDI, 0), 8, Some(RDX))];
    assert!(rt;
        leaves(&rt, &[], &beside, &[top])?,
        "a node that may overlap"
    );
    Ok(())
}

#[test]
fn a_node_has_at_most_8_addresses(rt: HostRuntime) -> Result<(), Fail> {
    let cell = Step::Store(At::Entry(RDI, 0), 8, Some(RSI));
    let alias = Step::Alias(At::Entry(RDX, 0), At::Entry(RDI, 0), 8);
    let mut two = row(0, At::Entry(RDX, 0), 8, Some(RSI));
    two.names = 2;
    assert!(rt; leaves(&rt, &[], &[cell, alias], &[two])?);
    assert!(rt;
        leaves(&rt, &[], &[cell, alias, alias], &[two])?,
        "it is found already"
    );
    let other = Step::Alias(At::Entry(RDX, 0), At::Entry(R12, 0), 8);
    assert!(rt;
        leaves(
            &rt,
            &[],
            &[cell, other],
            &[row(0, At::Entry(RDI, 0), 8, Some(RSI))]
        )?,
        "no node"
    );
    let many = [
        cell,
        Step::Alias(At::Entry(8, 0), At::Entry(RDI, 0), 8),
        Step::Alias(At::Entry(9, 0), At::Entry(RDI, 0), 8),
        Step::Alias(At::Entry(10, 0), At::Entry(RDI, 0), 8),
        Step::Alias(At::Entry(11, 0), At::Entry(RDI, 0), 8),
        Step::Alias(At::Entry(12, 0), At::Entry(RDI, 0), 8),
        Step::Alias(At::Entry(13, 0), At::Entry(RDI, 0), 8),
        Step::Alias(At::Entry(14, 0), At::Entry(RDI, 0), 8),
        Step::Alias(At::Entry(15, 0), At::Entry(RDI, 0), 8),
    ];
    let mut full = row(0, At::Entry(RDI, 0), 8, Some(RSI));
    full.names = 8;
    assert!(rt; leaves(&rt, &[], &many, &[full])?, "a ninth address");
    Ok(())
}

#[test]
fn a_symbol_goes_with_the_names_and_values_that_mention_it(rt: HostRuntime) -> Result<(), Fail> {
    let steps = [
        Step::Store(At::Entry(RDI, 0), 8, Some(RSI)),
        Step::Alias(At::Entry(RDX, 0), At::Entry(RDI, 0), 8),
        Step::Store(At::Entry(RDI, 4), 4, Some(RDI)),
    ];
    let mut cell = row(0, At::Entry(RDX, 0), 8, None);
    cell.names = 2;
    let part = row(1, At::Entry(RDI, 4), 4, Some(RDI));
    assert!(rt; leaves(&rt, &[], &steps, &[cell, part])?);
    let value = [steps[0], Step::Forget(RSI)];
    assert!(rt;
        leaves(&rt, &[], &value, &[row(0, At::Entry(RDI, 0), 8, None)])?,
        "a value"
    );
    let name = [steps[0], steps[1], steps[2], Step::Forget(RDI)];
    assert!(rt;
        leaves(&rt, &[], &name, &[row(0, At::Entry(RDX, 0), 8, None)])?,
        "a name, and a node"
    );
    let all = [steps[0], Step::Forget(RDI)];
    assert!(rt; leaves(&rt, &[], &all, &[])?, "the one name");
    Ok(())
}

#[test]
fn only_kept_values_stay(rt: HostRuntime) -> Result<(), Fail> {
    let steps = [
        RETURN,
        Step::Store(SAVED, 8, Some(RDI)),
        Step::KeepValue(SAVED, 8),
    ];
    let rows = [
        row(0, At::Entry(RSP, 0), 8, None),
        row(0, SAVED, 8, Some(RDI)),
    ];
    assert!(rt; leaves(&rt, &[], &steps, &rows)?);
    assert!(rt;
        leaves(&rt, &[], &[RETURN, Step::Clear], &[])?,
        "no node stays"
    );
    Ok(())
}

#[test]
fn a_forest_takes_64_nodes(rt: HostRuntime) -> Result<(), Fail> {
    let alloc = rt.alloc();
    let image = image(alloc)?;
    let context = Context {
        image: &image,
        below: 65_536,
        above: 4096,
        seps: &[],
    };
    let mut forest = Forest::empty(alloc);
    for k in 0u64..65 {
        let step = Step::Store(At::Constant(k.wrapping_mul(8)), 8, Some(RDI));
        apply(alloc, &mut forest, step, &context)?;
    }
    assert_eq!(rt; forest.count(), 64, "the 65th is not taken");
    apply(
        alloc,
        &mut forest,
        Step::Load(At::Constant(4096), 8, Some(RDX)),
        &context,
    )?;
    assert_eq!(rt; forest.count(), 64, "nor by a load");
    apply(
        alloc,
        &mut forest,
        Step::Store(At::Constant(4), 8, Some(RDX)),
        &context,
    )?;
    assert_eq!(rt; forest.count(), 63, "two nodes go, and one comes");
    Ok(())
}
