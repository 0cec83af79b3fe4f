use std::alloc::Global;
use sym_terms::{Fit, NoMemory, Pair, Sym, Term};

pub(crate) const SIGN: u64 = 1 << 63;

pub(crate) const RAX: Sym = Sym::Entry(0);

pub(crate) const RCX: Sym = Sym::Entry(1);

/// One operation on the term at hand, and on a second one where it takes two.
#[derive(Clone, Copy)]
pub(crate) enum Step {
    Add,
    Sub,
    Scale(u64),
    Fit(Fit),
    Pair(Pair),
}

/// A term that is made.
#[derive(Clone, Copy)]
pub(crate) enum Made {
    Constant(u64),
    /// A symbol; of a register from 16 on there is none.
    Symbol(Sym),
    /// The sum of the values that so many addresses from 0 on name.
    Names(u64),
    /// What a step makes of rax0, and rcx0 where it takes two.
    OfEntries(Step),
}

pub(crate) fn apply(
    alloc: Global,
    step: Step,
    left: &Term,
    right: &Term,
) -> Result<Option<Term>, NoMemory> {
    match step {
        Step::Add => left.add(alloc, right),
        Step::Sub => left.sub(alloc, right),
        Step::Scale(k) => left.scale(alloc, k),
        Step::Fit(f) => left.fit(alloc, f),
        Step::Pair(p) => left.pair(alloc, p, right),
    }
}

fn with_rcx(alloc: Global, step: Step, left: &Term) -> Result<Option<Term>, NoMemory> {
    let rcx = Term::symbol(alloc, RCX)?;
    apply(alloc, step, left, &rcx)
}

fn on_entries(alloc: Global, step: Step) -> Result<Option<Term>, NoMemory> {
    let rax = Term::symbol(alloc, RAX)?;
    with_rcx(alloc, step, &rax)
}

fn symbol(alloc: Global, symbol: Sym) -> Result<Option<Term>, NoMemory> {
    match symbol {
        Sym::Entry(register) if register > 15 => Ok(None),
        _ => Term::symbol(alloc, symbol).map(Some),
    }
}

fn with_name(alloc: Global, term: &Term, address: u64) -> Result<Option<Term>, NoMemory> {
    let name = Term::symbol(alloc, Sym::Named(address))?;
    term.add(alloc, &name)
}

fn names(alloc: Global, count: u64) -> Result<Option<Term>, NoMemory> {
    let mut all = Some(Term::constant(alloc, 0));
    for address in 0..count {
        all = match &all {
            Some(term) => with_name(alloc, term, address)?,
            None => None,
        };
    }
    Ok(all)
}

/// The term, and `None` where there is none within the limit of 32 nodes.
pub(crate) fn term_of(alloc: Global, what: Made) -> Result<Option<Term>, NoMemory> {
    match what {
        Made::Constant(number) => Ok(Some(Term::constant(alloc, number))),
        Made::Symbol(name) => symbol(alloc, name),
        Made::Names(count) => names(alloc, count),
        Made::OfEntries(step) => on_entries(alloc, step),
    }
}
