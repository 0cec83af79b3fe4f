use bits_core::Width;
use mem_forest::{Forest, Node};
use predicates::{Bound, Conjunct, FlagFact, Pred, Values, entry_pred};
use sqlite_items::Items;
use std::alloc::{AllocError, Global};
use sym_terms::{NoMemory, Term};

/// Bounds as a test writes them; keys are constants.
#[derive(Clone, Copy)]
pub(crate) enum Bounds<'a> {
    /// The first key, how many there are, and the ends of the range of each.
    Ranges(u64, u64, u64, u64),
    /// The key of the only one, and its numbers.
    List(u64, &'a [u64]),
}

/// A node as a test writes it: its first name, the number of its names, its size and its value; names are constants.
pub(crate) type Case = (u64, u64, u8, Option<u64>);

/// Nodes as a test writes them.
#[derive(Clone, Copy)]
pub(crate) enum Nodes<'a> {
    /// Those at the top, and those under the first of them.
    Of(&'a [Case], &'a [Case]),
    OfEntry,
}

/// A predicate as a test writes it.
#[derive(Clone, Copy)]
pub(crate) struct Facts<'a> {
    /// How many registers there are, and the number and the value of the one that is known.
    pub(crate) registers: u64,
    pub(crate) known: Option<(u64, u64)>,
    pub(crate) flags: Option<(Width, u64, u64)>,
    pub(crate) bounds: Bounds<'a>,
    pub(crate) nodes: Nodes<'a>,
}

/// What says nothing.
pub(crate) fn nothing() -> Facts<'static> {
    Facts {
        registers: 16,
        known: None,
        flags: None,
        bounds: Bounds::Ranges(0, 0, 0, 0),
        nodes: Nodes::Of(&[], &[]),
    }
}

/// Why there is no predicate.
#[derive(Clone, Copy, Debug, PartialEq, Eq)]
pub(crate) enum Unmade {
    NotInForm,
    NoMemory,
}

impl From<NoMemory> for Unmade {
    fn from(_: NoMemory) -> Unmade {
        Unmade::NoMemory
    }
}

impl From<AllocError> for Unmade {
    fn from(_: AllocError) -> Unmade {
        Unmade::NoMemory
    }
}

fn known(alloc: Global, known: Option<(u64, u64)>, number: u64) -> Option<Term> {
    match known {
        Some((register, value)) if register == number => Some(Term::constant(alloc, value)),
        _ => None,
    }
}

fn registers(alloc: Global, facts: &Facts<'_>) -> Result<Vec<Option<Term>>, AllocError> {
    let mut registers = Vec::new(alloc);
    for number in 0..facts.registers {
        registers.push(known(alloc, facts.known, number))?;
    }
    Ok(registers)
}

fn flags(alloc: Global, flags: Option<(Width, u64, u64)>) -> Option<FlagFact> {
    match flags {
        Some((width, left, right)) => Some(FlagFact {
            width,
            left: Term::constant(alloc, left),
            right: Term::constant(alloc, right),
        }),
        None => None,
    }
}

fn range(alloc: Global, key: u64, low: u64, high: u64) -> Bound {
    Bound {
        key: Term::constant(alloc, key),
        set: Values::Range(low, high),
    }
}

fn ranges(
    alloc: Global,
    first: u64,
    many: u64,
    low: u64,
    high: u64,
) -> Result<Vec<Bound>, AllocError> {
    let mut bounds = Vec::new(alloc);
    for number in 0..many {
        bounds.push(range(alloc, first.wrapping_add(number), low, high))?;
    }
    Ok(bounds)
}

fn list(alloc: Global, key: u64, numbers: &[u64]) -> Result<Bound, AllocError> {
    let numbers = Items::from_slice(alloc, numbers)?;
    Ok(Bound {
        key: Term::constant(alloc, key),
        set: Values::OneOf(numbers),
    })
}

fn lists(alloc: Global, key: u64, numbers: &[u64]) -> Result<Vec<Bound>, AllocError> {
    let mut bounds = Vec::new(alloc);
    bounds.push(list(alloc, key, numbers)?)?;
    Ok(bounds)
}

fn bounds_of(alloc: Global, bounds: Bounds<'_>) -> Result<Vec<Bound>, AllocError> {
    match bounds {
        Bounds::Ranges(first, many, low, high) => ranges(alloc, first, many, low, high),
        Bounds::List(key, numbers) => lists(alloc, key, numbers),
    }
}

fn names(alloc: Global, first: u64, many: u64) -> Result<Vec<Term>, AllocError> {
    let mut names = Vec::new(alloc);
    for number in 0..many {
        names.push(Term::constant(alloc, first.wrapping_add(number)))?;
    }
    Ok(names)
}

fn constant(alloc: Global, value: Option<u64>) -> Option<Term> {
    match value {
        Some(value) => Some(Term::constant(alloc, value)),
        None => None,
    }
}

fn node(alloc: Global, case: Case) -> Result<Node, AllocError> {
    let (first, many, bytes, value) = case;
    let names = names(alloc, first, many)?;
    Ok(Node {
        names,
        bytes,
        value: constant(alloc, value),
        under: Vec::new(alloc),
    })
}

fn level(alloc: Global, cases: &[Case]) -> Result<Vec<Node>, AllocError> {
    let mut nodes = Vec::new(alloc);
    for case in cases {
        nodes.push(node(alloc, *case)?)?;
    }
    Ok(nodes)
}

fn put_under(alloc: Global, node: &mut Node, cases: &[Case]) -> Result<(), AllocError> {
    node.under = level(alloc, cases)?;
    Ok(())
}

fn listed(alloc: Global, top: &[Case], under: &[Case]) -> Result<Vec<Node>, AllocError> {
    let mut nodes = level(alloc, top)?;
    if let Some(first) = nodes.first_mut() {
        put_under(alloc, first, under)?;
    }
    Ok(nodes)
}

fn forest_of(alloc: Global, top: &[Case], under: &[Case]) -> Result<Forest, Unmade> {
    let nodes = listed(alloc, top, under)?;
    Forest::of_nodes(nodes).ok_or(Unmade::NotInForm)
}

fn forest_of_entry(alloc: Global) -> Result<Forest, NoMemory> {
    let entry = entry_pred(alloc)?;
    entry.forest.copy(alloc)
}

fn forest(alloc: Global, nodes: Nodes<'_>) -> Result<Forest, Unmade> {
    match nodes {
        Nodes::Of(top, under) => forest_of(alloc, top, under),
        Nodes::OfEntry => Ok(forest_of_entry(alloc)?),
    }
}

fn with_bounds(
    alloc: Global,
    facts: &Facts<'_>,
    bounds: Vec<Bound>,
    forest: Forest,
) -> Result<Pred, Unmade> {
    let registers = registers(alloc, facts)?;
    let pred = Pred::of_parts(registers, flags(alloc, facts.flags), bounds, forest);
    pred.ok_or(Unmade::NotInForm)
}

fn with_forest(alloc: Global, facts: &Facts<'_>, forest: Forest) -> Result<Pred, Unmade> {
    let bounds = bounds_of(alloc, facts.bounds)?;
    with_bounds(alloc, facts, bounds, forest)
}

/// The predicate with these facts, if they have its form.
pub(crate) fn made(alloc: Global, facts: &Facts<'_>) -> Result<Pred, Unmade> {
    let forest = forest(alloc, facts.nodes)?;
    with_forest(alloc, facts, forest)
}

/// The number of its conjuncts.
pub(crate) fn weight(alloc: Global, facts: &Facts<'_>) -> Result<u64, Unmade> {
    let pred = made(alloc, facts)?;
    Ok(pred.weight())
}

fn missing_from(
    alloc: Global,
    held: &Pred,
    wanted: &Facts<'_>,
) -> Result<Option<Conjunct>, Unmade> {
    let wanted = made(alloc, wanted)?;
    Ok(held.first_missing(&wanted))
}

/// The first conjunct of the second that doesn't follow from the first.
pub(crate) fn missing(
    alloc: Global,
    held: &Facts<'_>,
    wanted: &Facts<'_>,
) -> Result<Option<Conjunct>, Unmade> {
    let held = made(alloc, held)?;
    missing_from(alloc, &held, wanted)
}

/// Whether the facts follow from the predicate.
pub(crate) fn follow_from(alloc: Global, held: &Pred, wanted: &Facts<'_>) -> Result<bool, Unmade> {
    let wanted = made(alloc, wanted)?;
    Ok(held.entails(&wanted))
}

/// Whether the second follow from the first.
pub(crate) fn follow(alloc: Global, held: &Facts<'_>, wanted: &Facts<'_>) -> Result<bool, Unmade> {
    let held = made(alloc, held)?;
    follow_from(alloc, &held, wanted)
}
