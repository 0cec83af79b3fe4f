use crate::made::{Made, RAX, RCX, Step, term_of};
use std::alloc::Global;
use std::cmp::Ordering;
use sym_terms::{Fit, NoMemory, Pair, Sym, Term};

static ASCENDING: [Made; 16] = [
    Made::Constant(0),
    Made::Symbol(RAX),
    Made::OfEntries(Step::Add),
    Made::OfEntries(Step::Scale(2)),
    Made::Symbol(RCX),
    Made::Symbol(Sym::Entry(4)),
    Made::Symbol(Sym::Entry(10)),
    Made::Symbol(Sym::Ra),
    Made::Symbol(Sym::FsBase),
    Made::Symbol(Sym::Named(9)),
    Made::Symbol(Sym::Named(10)),
    Made::OfEntries(Step::Fit(Fit::Zx16)),
    Made::OfEntries(Step::Fit(Fit::Sx8)),
    Made::OfEntries(Step::Pair(Pair::And)),
    Made::OfEntries(Step::Pair(Pair::Sar)),
    Made::Constant(1),
];

/// The order of a term and a copy of another one.
fn order_of_copy(alloc: Global, left: &Term, right: &Term) -> Result<Option<Ordering>, NoMemory> {
    let copy = right.copy(alloc)?;
    Ok(Some(left.compare(&copy)))
}

fn order_with(alloc: Global, left: &Term, right: Made) -> Result<Option<Ordering>, NoMemory> {
    match term_of(alloc, right)? {
        Some(right) => order_of_copy(alloc, left, &right),
        None => Ok(None),
    }
}

fn order_of(alloc: Global, left: Made, right: Made) -> Result<Option<Ordering>, NoMemory> {
    match term_of(alloc, left)? {
        Some(left) => order_with(alloc, &left, right),
        None => Ok(None),
    }
}

#[test]
fn terms_compare_by_constant_then_by_their_pieces(rt: HostRuntime) {
    for (i, left) in ASCENDING.iter().enumerate() {
        for (j, right) in ASCENDING.iter().enumerate() {
            let order = order_of(rt.alloc(), *left, *right);
            assert_eq!(rt; order, Ok(Some(i.cmp(&j))), "the order of two terms");
        }
    }
}

/// How far rax0 moves by a constant, and how what is moved back compares with it.
fn moved_there_and_back(alloc: Global, by: u64) -> Result<(Option<u64>, Ordering), NoMemory> {
    let rax = Term::symbol(alloc, RAX)?;
    let moved = rax.copy(alloc)?.add_constant(by);
    let offset = moved.offset_from(&rax);
    let back = moved.add_constant(by.wrapping_neg());
    Ok((offset, back.compare(&rax)))
}

#[test]
fn a_constant_is_added_in_place(rt: HostRuntime) {
    let found = moved_there_and_back(rt.alloc(), u64::MAX);
    assert_eq!(rt; found, Ok((Some(u64::MAX), Ordering::Equal)));
}
