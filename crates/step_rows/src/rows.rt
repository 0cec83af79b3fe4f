use crate::sample::Facts;
use predicates::Conjunct;

/// What is not known at a case: a register, the flags, a bound or a cell by its place, with the line or the lines that
/// would say it.
pub enum More {
    Register(u8, &'static str),
    Flags(&'static str),
    Bound(u32, &'static str),
    Cell(u32, &'static str),
}

/// A case: its address, what is known there, and what is not.
pub struct Case {
    pub address: u64,
    pub known: Facts,
    pub unknown: &'static [More],
}

/// An instruction at a site, from a predicate, and its cases; none where they are not known.
pub struct Row {
    pub what: &'static str,
    pub code: &'static [u8],
    pub site: &'static str,
    pub before: Facts,
    pub cases: Option<&'static [Case]>,
}

/// A row: what it shows; bytes; the site; registers, flags, bounds and cells before; for each case its address and the
/// same four after, and what is not known.
macro_rules! row {
    ($what:literal; $code:literal; $site:literal; $r:literal $z:literal $b:literal $c:literal => unresolved) => {
        Row {
            what: $what,
            code: $code,
            site: $site,
            before: Facts { registers: $r, flags: $z, bounds: $b, cells: $c },
            cases: None,
        }
    };
    ($what:literal; $code:literal; $site:literal; $r:literal $z:literal $b:literal $c:literal =>
     $($address:literal $rs:literal $zs:literal $bs:literal $cs:literal [$($more:expr),*]);*) => {
        Row {
            what: $what,
            code: $code,
            site: $site,
            before: Facts { registers: $r, flags: $z, bounds: $b, cells: $c },
            cases: Some(&[$(Case {
                address: $address,
                known: Facts { registers: $rs, flags: $zs, bounds: $bs, cells: $cs },
                unknown: &[$($more),*],
            }),*]),
        }
    };
}

pub(crate) use row;

/// The facts with one more, and the conjunct that it makes.
pub fn with_more(known: Facts, more: &More) -> (Facts, Conjunct) {
    let mut facts = known;
    let conjunct = match more {
        More::Register(register, line) => {
            facts.registers = line;
            Conjunct::Register(*register)
        }
        More::Flags(line) => {
            facts.flags = line;
            Conjunct::Flags
        }
        More::Bound(place, lines) => {
            facts.bounds = lines;
            Conjunct::Bound(*place)
        }
        More::Cell(place, lines) => {
            facts.cells = lines;
            Conjunct::Cell(*place)
        }
    };
    (facts, conjunct)
}
