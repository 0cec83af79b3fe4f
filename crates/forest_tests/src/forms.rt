use mem_forest::{Forest, Node, Region};
use std::alloc::{AllocError, Global};
use std::test::Fail;
use sym_terms::{NoMemory, Term};

/// A node as a case writes it: its first name, the number of its names, and its size.
type Case = (u64, u64, u8);

/// The constants from `first` on.
fn names(alloc: Global, first: u64, many: u64) -> Result<Vec<Term>, NoMemory> {
    let mut names = Vec::new(alloc);
    for k in 0..many {
        names
            .push(Term::constant(alloc, first.wrapping_add(k)))
            .map_err(AllocError::from)?;
    }
    Ok(names)
}

fn node(alloc: Global, case: Case, under: Vec<Node>) -> Result<Node, NoMemory> {
    let (first, many, bytes) = case;
    let names = names(alloc, first, many)?;
    Ok(Node {
        names,
        bytes,
        value: Some(Term::constant(alloc, first)),
        under,
    })
}

fn level(alloc: Global, cases: &[Case]) -> Result<Vec<Node>, NoMemory> {
    let mut nodes = Vec::new(alloc);
    for case in cases {
        let node = node(alloc, *case, Vec::new(alloc))?;
        nodes.push(node).map_err(AllocError::from)?;
    }
    Ok(nodes)
}

fn is_forest(alloc: Global, cases: &[Case]) -> Result<bool, NoMemory> {
    let nodes = level(alloc, cases)?;
    Ok(Forest::of_nodes(nodes).is_some())
}

/// One node over others.
fn over(alloc: Global, case: Case, cases: &[Case]) -> Result<Option<Forest>, NoMemory> {
    let under = level(alloc, cases)?;
    let mut nodes = Vec::new(alloc);
    let top = node(alloc, case, under)?;
    nodes.push(top).map_err(AllocError::from)?;
    Ok(Forest::of_nodes(nodes))
}

/// Nodes one under the other, `deep` of them.
fn chain(alloc: Global, deep: u64) -> Result<Option<Forest>, NoMemory> {
    let mut nodes = Vec::new(alloc);
    for k in 0..deep {
        let mut above = Vec::new(alloc);
        let top = node(alloc, (k, 1, 8), nodes)?;
        above.push(top).map_err(AllocError::from)?;
        nodes = above;
    }
    Ok(Forest::of_nodes(nodes))
}

#[test]
fn siblings_stand_in_order_of_first_name_and_size(rt: HostRuntime) -> Result<(), Fail> {
    let alloc = rt.alloc();
    assert!(rt; is_forest(alloc, &[(0, 1, 8), (8, 1, 8)])?);
    assert!(rt;
        is_forest(alloc, &[(0, 1, 4), (0, 1, 8)])?,
        "one name, sizes ascend"
    );
    assert!(rt;
        !is_forest(alloc, &[(8, 1, 8), (0, 1, 8)])?,
        "names descend"
    );
    assert!(rt;
        !is_forest(alloc, &[(0, 1, 8), (0, 1, 4)])?,
        "one name, sizes descend"
    );
    Ok(())
}

#[test]
fn a_node_has_1_to_8_names_and_a_written_size(rt: HostRuntime) -> Result<(), Fail> {
    let alloc = rt.alloc();
    assert!(rt; is_forest(alloc, &[(0, 8, 2)])?, "eight names");
    assert!(rt; !is_forest(alloc, &[(0, 9, 2)])?, "nine names");
    assert!(rt; !is_forest(alloc, &[(0, 0, 2)])?, "no name");
    assert!(rt; !is_forest(alloc, &[(0, 1, 3)])?, "three bytes");
    assert!(rt; !is_forest(alloc, &[(u64::MAX, 2, 1)])?, "names descend");
    Ok(())
}

#[test]
fn a_region_stands_once_at_whatever_level(rt: HostRuntime) -> Result<(), Fail> {
    let alloc = rt.alloc();
    assert!(rt;
        !is_forest(alloc, &[(0, 2, 8), (1, 1, 8)])?,
        "a common second name"
    );
    assert!(rt;
        is_forest(alloc, &[(0, 2, 8), (1, 1, 4)])?,
        "with another size"
    );
    assert!(rt;
        over(alloc, (0, 2, 8), &[(1, 1, 8)])?.is_none(),
        "at two levels"
    );
    assert!(rt;
        over(alloc, (0, 2, 8), &[(1, 1, 4)])?.is_some(),
        "at two levels, two sizes"
    );
    Ok(())
}

#[test]
fn a_forest_has_at_most_64_nodes(rt: HostRuntime) -> Result<(), Fail> {
    let alloc = rt.alloc();
    let most = chain(alloc, 64)?.ok_or("64 nodes")?;
    assert_eq!(rt; most.count(), 64);
    assert!(rt; chain(alloc, 65)?.is_none(), "65 nodes");
    assert_eq!(rt; Forest::empty(alloc).count(), 0);
    Ok(())
}

fn value_at(forest: &Forest, at: Term, bytes: u8) -> Option<u64> {
    let node = forest.find(&Region { at, bytes })?;
    node.value.as_ref()?.as_constant()
}

#[test]
fn a_node_is_found_by_size_and_any_name(rt: HostRuntime) -> Result<(), Fail> {
    let alloc = rt.alloc();
    let forest = over(alloc, (16, 2, 8), &[(20, 3, 4)])?.ok_or("two nodes")?;
    let copy = forest.copy(alloc)?;
    assert_eq!(rt; copy.nodes().len(), 1);
    assert_eq!(rt; value_at(&copy, Term::constant(alloc, 17), 8), Some(16));
    assert_eq!(rt; value_at(&copy, Term::constant(alloc, 22), 4), Some(20));
    assert_eq!(rt; value_at(&copy, Term::constant(alloc, 22), 8), None);
    assert_eq!(rt; value_at(&copy, Term::constant(alloc, 23), 4), None);
    Ok(())
}
