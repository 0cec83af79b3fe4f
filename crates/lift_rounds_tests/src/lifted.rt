use crate::toy::{Toy, Way};
use lift_rounds::{Graph, Made, Stop, first_known, run_rounds};
use std::alloc::{AllocError, Global};
use std::process::Abort;

/// An address that no program has.
const NOWHERE: u64 = 99;

/// The numbers at the vertices.
fn preds_of(alloc: Global, made: &[Made<u64>]) -> Result<Vec<u64>, AllocError> {
    let mut preds = Vec::new(alloc);
    for known in made {
        preds.push(known.pred.unwrap_or(0))?;
    }
    Ok(preds)
}

/// The ways of a program, by where each leads from and to, and the bound from which on numbers are lost.
fn ways_of(alloc: Global, rows: &[(u64, u64, u64)]) -> Result<Vec<Way>, AllocError> {
    let mut ways = Vec::new(alloc);
    for (from, to, most) in rows {
        ways.push(Way {
            from: *from,
            to: *to,
            most: *most,
        })?;
    }
    Ok(ways)
}

/// The numbers at the vertices of a program, in order of discovery, where 9 is known at its entry, address 0.
fn lift(alloc: Global, rows: &[(u64, u64, u64)], jump: u64, least: u64) -> Result<Vec<u64>, Stop> {
    let ways = ways_of(alloc, rows)?;
    let mut steps = Toy { ways, jump, least };
    let mut graph = Graph::new(alloc, 0)?;
    let mut made = first_known(alloc, &steps, &graph, 9)?;
    let _calm = run_rounds(alloc, &mut steps, &mut graph, &mut made)?;
    let preds = preds_of(alloc, made.as_slice())?;
    Ok(preds)
}

static CHAIN: [(u64, u64, u64); 2] = [(0, 1, 8), (1, 2, 9)];

static JOIN: [(u64, u64, u64); 4] = [(0, 1, 9), (0, 2, 6), (1, 3, 7), (2, 3, 9)];

static LOOP: [(u64, u64, u64); 4] = [(0, 1, 9), (1, 2, 9), (1, 3, 9), (2, 1, 5)];

static NESTED: [(u64, u64, u64); 5] = [(0, 1, 9), (1, 2, 9), (2, 2, 7), (2, 3, 9), (3, 1, 8)];

static TO_ENTRY: [(u64, u64, u64); 2] = [(0, 1, 9), (1, 0, 4)];

/// Whether a program has these numbers at its vertices.
fn assert_lifted(rt: &impl Abort, alloc: Global, rows: &[(u64, u64, u64)], preds: &[u64]) {
    let found = lift(alloc, rows, NOWHERE, 0).expect(rt, "memory");
    assert!(rt; found.as_slice() == preds, "what is known at the vertices");
}

#[test]
fn vertices_know_what_comes_to_them(rt: HostRuntime) {
    let alloc = rt.alloc();
    assert_lifted(&rt, alloc, &CHAIN, &[9, 8, 8]);
    assert_lifted(&rt, alloc, &JOIN, &[9, 9, 6, 6]);
    assert_lifted(&rt, alloc, &LOOP, &[9, 5, 5, 5]);
    assert_lifted(&rt, alloc, &NESTED, &[9, 7, 7, 7]);
    assert_lifted(&rt, alloc, &TO_ENTRY, &[9, 4, 4]);
}

#[test]
fn a_lost_jump_is_told(rt: HostRuntime) {
    let alloc = rt.alloc();
    assert!(rt; lift(alloc, &LOOP, 2, 6).is_err_and(|stop| stop == Stop::Lost));
    assert!(rt; lift(alloc, &LOOP, 2, 5).is_ok());
}
