use crate::facts::{Case, Facts, Nodes, Unmade, missing, nothing};
use predicates::Conjunct;
use std::alloc::Global;

const LOW: Case = (0, 2, 8, Some(5));

const HIGH: Case = (8, 1, 8, None);

const INSIDE: Case = (16, 2, 4, Some(7));

const EMPTY: Case = (20, 1, 4, None);

const FIRST: Option<Conjunct> = Some(Conjunct::Cell(0));

const SECOND: Option<Conjunct> = Some(Conjunct::Cell(1));

/// The first missing conjunct of nodes, where `INSIDE` and `EMPTY` stand under `LOW`, beside `HIGH`.
fn missing_node<'a>(
    alloc: Global,
    top: &'a [Case],
    under: &'a [Case],
) -> Result<Option<Conjunct>, Unmade> {
    let held = Facts {
        nodes: Nodes::Of(&[LOW, HIGH], &[INSIDE, EMPTY]),
        ..nothing()
    };
    let wanted = Facts {
        nodes: Nodes::Of(top, under),
        ..nothing()
    };
    missing(alloc, &held, &wanted)
}

/// A node, one under it, and the first that is missing.
static PAIRS: [(Case, Case, Option<Conjunct>); 9] = [
    (LOW, INSIDE, None),
    // Fewer names, and no value.
    ((0, 1, 8, None), (16, 1, 4, None), None),
    // Another value, one more name, another first name, another size.
    ((0, 2, 8, Some(6)), INSIDE, FIRST),
    ((0, 3, 8, Some(5)), INSIDE, FIRST),
    ((1, 1, 8, Some(5)), INSIDE, FIRST),
    ((0, 2, 4, Some(5)), INSIDE, FIRST),
    // The same inside, and a value where none is known.
    (LOW, (16, 2, 4, Some(8)), SECOND),
    (LOW, (16, 3, 4, Some(7)), SECOND),
    (LOW, (20, 1, 4, Some(7)), SECOND),
];

#[test]
fn a_node_follows_from_one_with_its_names_and_value(rt: HostRuntime) {
    for (first, inside, missing) in &PAIRS {
        let found = missing_node(rt.alloc(), &[*first], &[*inside]);
        assert_eq!(rt; found, Ok(*missing), "a node and one under it");
    }
}

#[test]
fn a_node_has_the_same_parents(rt: HostRuntime) {
    let missing = missing_node(rt.alloc(), &[HIGH], &[INSIDE]);
    assert_eq!(rt; missing, Ok(SECOND), "another parent");
    let missing = missing_node(rt.alloc(), &[INSIDE], &[]);
    assert_eq!(rt; missing, Ok(FIRST), "no parent");
}

#[test]
fn nodes_count_in_preorder(rt: HostRuntime) {
    let missing = missing_node(rt.alloc(), &[LOW, HIGH, (9, 1, 8, None)], &[INSIDE, EMPTY]);
    assert_eq!(rt; missing, Ok(Some(Conjunct::Cell(4))));
}
