use crate::made::{Made, RAX, RCX, SIGN, Step, apply, term_of};
use std::alloc::Global;
use std::process::Abort;
use sym_terms::{Atom, Fit, NoMemory, Pair, Sum, Sym, Term};

/// What a result is.
#[derive(Clone, Copy)]
enum Wanted {
    Constant(u64),
    /// rax0 so many times.
    Multiple(u64),
    /// rax0 and rcx0 so many times.
    Both(u64, u64),
    /// The step itself as one atom, as zx32(rax0) and and(rax0,rcx0) are.
    Atom,
    /// A term of so many nodes.
    Nodes(u32),
    /// A symbol alone, or none.
    Symbol(Option<Sym>),
    /// rax0 and a constant, or no such term.
    Offset(Option<u64>),
    /// A term in which a symbol stands, or doesn't.
    Mentions(Sym, bool),
    /// A term of over 32 nodes.
    TooLarge,
}

/// A step, what it is done on, and what it gives.
type Row = (Step, Made, Made, Wanted);

fn with_right(
    alloc: Global,
    step: Step,
    left: &Term,
    right: Made,
) -> Result<Option<Term>, NoMemory> {
    match term_of(alloc, right)? {
        Some(right) => apply(alloc, step, left, &right),
        None => Ok(None),
    }
}

fn result_of(alloc: Global, step: Step, left: Made, right: Made) -> Result<Option<Term>, NoMemory> {
    match term_of(alloc, left)? {
        Some(left) => with_right(alloc, step, &left, right),
        None => Ok(None),
    }
}

fn is_piece(piece: &(Atom, u64), symbol: Sym, coefficient: u64) -> bool {
    match piece {
        (Atom::Sym(this), times) => *this == symbol && *times == coefficient,
        _ => false,
    }
}

fn is_multiple(sum: &Sum, symbol: Sym, coefficient: u64) -> bool {
    match sum.atoms.as_slice() {
        [piece] => sum.constant == 0 && is_piece(piece, symbol, coefficient),
        _ => false,
    }
}

fn are_both(sum: &Sum, rax: u64, rcx: u64) -> bool {
    match sum.atoms.as_slice() {
        [first, second] => {
            sum.constant == 0 && is_piece(first, RAX, rax) && is_piece(second, RCX, rcx)
        }
        _ => false,
    }
}

fn is_atom(sum: &Sum, step: Step) -> bool {
    match (step, sum.atoms.as_slice()) {
        (Step::Fit(f), [(Atom::Fit(kind, argument), times)]) => {
            f == *kind && *times == 1 && is_multiple(argument.get(), RAX, 1)
        }
        (Step::Pair(p), [(Atom::Pair(kind, left, right), times)]) => {
            p == *kind
                && *times == 1
                && is_multiple(left.get(), RAX, 1)
                && is_multiple(right.get(), RCX, 1)
        }
        _ => false,
    }
}

fn offset_from_rax(alloc: Global, term: &Term) -> Result<Option<u64>, NoMemory> {
    let rax = Term::symbol(alloc, RAX)?;
    Ok(term.offset_from(&rax))
}

fn is_so(alloc: Global, term: &Term, step: Step, wanted: Wanted) -> bool {
    match wanted {
        Wanted::Constant(number) => term.as_constant() == Some(number),
        Wanted::Multiple(times) => is_multiple(term.as_sum(), RAX, times),
        Wanted::Both(rax, rcx) => are_both(term.as_sum(), rax, rcx),
        Wanted::Atom => is_atom(term.as_sum(), step),
        Wanted::Nodes(count) => term.size() == count,
        Wanted::Symbol(symbol) => term.as_symbol() == symbol,
        Wanted::Offset(offset) => offset_from_rax(alloc, term) == Ok(offset),
        Wanted::Mentions(symbol, does) => term.mentions(symbol) == does,
        Wanted::TooLarge => false,
    }
}

fn holds(alloc: Global, row: &Row) -> bool {
    let (step, left, right, wanted) = *row;
    match result_of(alloc, step, left, right) {
        Ok(Some(term)) => is_so(alloc, &term, step, wanted),
        Ok(None) => matches!(wanted, Wanted::TooLarge),
        Err(_) => false,
    }
}

fn assert_all(rt: &impl Abort, alloc: Global, rows: &[Row]) {
    let first_other = rows.iter().position(|row| !holds(alloc, row));
    assert_eq!(rt; first_other, None);
}

const A: Made = Made::Symbol(RAX);

const C: Made = Made::Symbol(RCX);

static AT_THE_LIMIT: [Row; 6] = [
    (
        Step::Add,
        Made::Names(31),
        Made::Constant(0),
        Wanted::Nodes(32),
    ),
    (
        Step::Add,
        Made::Names(32),
        Made::Constant(0),
        Wanted::TooLarge,
    ),
    (
        Step::Fit(Fit::Sx8),
        Made::Names(29),
        Made::Names(0),
        Wanted::Nodes(32),
    ),
    (
        Step::Fit(Fit::Sx8),
        Made::Names(30),
        Made::Names(0),
        Wanted::TooLarge,
    ),
    (
        Step::Pair(Pair::Shr),
        Made::Names(14),
        Made::Names(14),
        Wanted::Nodes(32),
    ),
    (
        Step::Pair(Pair::Shr),
        Made::Names(14),
        Made::Names(15),
        Wanted::TooLarge,
    ),
];

#[test]
fn terms_have_32_nodes_at_most(rt: HostRuntime) {
    assert_all(&rt, rt.alloc(), &AT_THE_LIMIT);
}

// rax0-rcx0, 3*rax0, rax0+rcx0
static LINEAR: [Row; 3] = [
    (Step::Sub, A, C, Wanted::Both(1, u64::MAX)),
    (Step::Scale(3), A, C, Wanted::Multiple(3)),
    (Step::Add, A, C, Wanted::Both(1, 1)),
];

#[test]
fn sums_differences_and_multiples_have_their_coefficients(rt: HostRuntime) {
    assert_all(&rt, rt.alloc(), &LINEAR);
}

static ATOMS: [Row; 7] = [
    (Step::Fit(Fit::Zx8), A, C, Wanted::Atom),
    (Step::Fit(Fit::Zx32), A, C, Wanted::Atom),
    (Step::Fit(Fit::Sx16), A, C, Wanted::Atom),
    (Step::Pair(Pair::And), A, C, Wanted::Atom),
    (Step::Pair(Pair::Xor), A, C, Wanted::Atom),
    (Step::Pair(Pair::Mul), A, C, Wanted::Atom),
    (Step::Pair(Pair::Sar), A, C, Wanted::Atom),
];

#[test]
fn fits_and_pairs_of_symbols_are_atoms(rt: HostRuntime) {
    assert_all(&rt, rt.alloc(), &ATOMS);
}

/// A step on two constants, and the constant that it gives.
type Numbers = (Step, u64, u64, u64);

// Numbers wrap at 2^64; shifts are by the second number modulo 64.
static CONSTANTS: [Numbers; 19] = [
    (Step::Add, u64::MAX, 1, 0),
    (Step::Sub, 1, u64::MAX, 2),
    (Step::Scale(3), u64::MAX, 0, u64::MAX - 2),
    (Step::Fit(Fit::Zx8), 0x1ff, 0, 0xff),
    (Step::Fit(Fit::Zx16), 0x1_8000, 0, 0x8000),
    (Step::Fit(Fit::Zx32), u64::MAX, 0, 0xffff_ffff),
    (Step::Fit(Fit::Sx8), 0x17f, 0, 0x7f),
    (Step::Fit(Fit::Sx8), 0x80, 0, 0xffff_ffff_ffff_ff80),
    (Step::Fit(Fit::Sx16), 0x8000, 0, 0xffff_ffff_ffff_8000),
    (Step::Fit(Fit::Sx32), 0x8000_0000, 0, 0xffff_ffff_8000_0000),
    (Step::Pair(Pair::And), 0b1100, 0b1010, 0b1000),
    (Step::Pair(Pair::Or), 0b1100, 0b1010, 0b1110),
    (Step::Pair(Pair::Xor), 0b1100, 0b1010, 0b0110),
    (Step::Pair(Pair::Mul), SIGN, 2, 0),
    (Step::Pair(Pair::Shr), SIGN, 63, 1),
    (Step::Pair(Pair::Shr), SIGN, 64, SIGN),
    (Step::Pair(Pair::Sar), SIGN, 65, SIGN + SIGN / 2),
    (Step::Pair(Pair::Sar), SIGN - 1, 62, 1),
    (Step::Pair(Pair::Sar), SIGN, 63, u64::MAX),
];

#[test]
fn operations_on_constants_give_constants(rt: HostRuntime) {
    for (step, left, right, wanted) in &CONSTANTS {
        let (left, right) = (Made::Constant(*left), Made::Constant(*right));
        let row = (*step, left, right, Wanted::Constant(*wanted));
        assert!(rt; holds(rt.alloc(), &row), "a row of constants");
    }
}

const HALF: Made = Made::OfEntries(Step::Scale(SIGN));

// The coefficient 2^63 twice, and an atom less itself.
static GONE: [Row; 2] = [
    (Step::Add, HALF, HALF, Wanted::Constant(0)),
    (Step::Sub, A, A, Wanted::Constant(0)),
];

#[test]
fn an_atom_whose_coefficient_becomes_0_is_gone(rt: HostRuntime) {
    assert_all(&rt, rt.alloc(), &GONE);
}

static FITS: [Fit; 6] = [
    Fit::Zx8,
    Fit::Zx16,
    Fit::Zx32,
    Fit::Sx8,
    Fit::Sx16,
    Fit::Sx32,
];

/// The nodes of a fit of each fit of rax0: 4 where the outer fit changes nothing, else 6.
static FITS_OF_FITS: [(Fit, [u32; 6]); 6] = [
    (Fit::Zx8, [4, 6, 6, 6, 6, 6]),
    (Fit::Zx16, [4, 4, 6, 6, 6, 6]),
    (Fit::Zx32, [4, 4, 4, 6, 6, 6]),
    (Fit::Sx8, [6, 6, 6, 6, 6, 6]),
    (Fit::Sx16, [4, 6, 6, 6, 6, 6]),
    (Fit::Sx32, [4, 4, 6, 6, 6, 6]),
];

fn fits_have_sizes(alloc: Global, outer: Fit, sizes: &[u32]) -> bool {
    FITS.iter().zip(sizes).all(|(inner, size)| {
        let inner = Made::OfEntries(Step::Fit(*inner));
        holds(alloc, &(Step::Fit(outer), inner, A, Wanted::Nodes(*size)))
    })
}

#[test]
fn a_fit_leaves_narrow_fits_by_zeros(rt: HostRuntime) {
    for (outer, sizes) in &FITS_OF_FITS {
        assert!(rt; fits_have_sizes(rt.alloc(), *outer, sizes), "fits of fits");
    }
}

static OF_ITSELF: [Row; 3] = [
    (Step::Pair(Pair::And), A, A, Wanted::Multiple(1)),
    (Step::Pair(Pair::Or), A, A, Wanted::Multiple(1)),
    (Step::Pair(Pair::Xor), A, A, Wanted::Constant(0)),
];

#[test]
fn and_or_and_xor_of_a_term_with_itself_are_no_atoms(rt: HostRuntime) {
    assert_all(&rt, rt.alloc(), &OF_ITSELF);
}

static PRODUCTS: [Row; 3] = [
    (
        Step::Pair(Pair::Mul),
        A,
        Made::Constant(0),
        Wanted::Constant(0),
    ),
    (
        Step::Pair(Pair::Mul),
        A,
        Made::Constant(1),
        Wanted::Multiple(1),
    ),
    (
        Step::Pair(Pair::Mul),
        A,
        Made::Constant(5),
        Wanted::Multiple(5),
    ),
];

#[test]
fn a_product_with_a_constant_is_a_multiple(rt: HostRuntime) {
    assert_all(&rt, rt.alloc(), &PRODUCTS);
}

// mul(rax0,rax0), shr(rax0,rax0), shr(rax0,0), and(rax0,0)
static OTHER_PAIRS: [Row; 4] = [
    (Step::Pair(Pair::Mul), A, A, Wanted::Nodes(6)),
    (Step::Pair(Pair::Shr), A, A, Wanted::Nodes(6)),
    (
        Step::Pair(Pair::Shr),
        A,
        Made::Constant(0),
        Wanted::Nodes(5),
    ),
    (
        Step::Pair(Pair::And),
        A,
        Made::Constant(0),
        Wanted::Nodes(5),
    ),
];

#[test]
fn other_pairs_are_atoms(rt: HostRuntime) {
    assert_all(&rt, rt.alloc(), &OTHER_PAIRS);
}

const FITTED: Made = Made::OfEntries(Step::Fit(Fit::Zx8));

const PAIRED: Made = Made::OfEntries(Step::Pair(Pair::Or));

// zx8(rax0)+or(rax0,rcx0)
static MENTIONED: [Row; 4] = [
    (Step::Add, FITTED, PAIRED, Wanted::Mentions(RAX, true)),
    (Step::Add, FITTED, PAIRED, Wanted::Mentions(RCX, true)),
    (
        Step::Add,
        FITTED,
        PAIRED,
        Wanted::Mentions(Sym::Entry(2), false),
    ),
    (Step::Add, FITTED, PAIRED, Wanted::Mentions(Sym::Ra, false)),
];

#[test]
fn a_symbol_is_mentioned_at_any_depth(rt: HostRuntime) {
    assert_all(&rt, rt.alloc(), &MENTIONED);
}

static OFFSETS: [Row; 3] = [
    (Step::Add, A, Made::Constant(8), Wanted::Offset(Some(8))),
    (
        Step::Sub,
        A,
        Made::Constant(8),
        Wanted::Offset(Some(u64::MAX - 7)),
    ),
    (Step::Scale(2), A, Made::Constant(0), Wanted::Offset(None)),
];

#[test]
fn an_offset_is_known_where_the_difference_is_constant(rt: HostRuntime) {
    assert_all(&rt, rt.alloc(), &OFFSETS);
}

static SYMBOLS: [Row; 5] = [
    (Step::Pair(Pair::And), A, A, Wanted::Symbol(Some(RAX))),
    (Step::Add, A, C, Wanted::Symbol(None)),
    (Step::Scale(2), A, C, Wanted::Symbol(None)),
    (Step::Fit(Fit::Zx8), A, C, Wanted::Symbol(None)),
    (Step::Add, A, Made::Constant(1), Wanted::Symbol(None)),
];

#[test]
fn a_term_is_a_symbol_where_nothing_else_stands_in_it(rt: HostRuntime) {
    assert_all(&rt, rt.alloc(), &SYMBOLS);
}
