use simulation_example::{
    Function, Graph, Image, Instr, Kind, Pred, Region, Site, Term, Vertex, accept,
};
use std::alloc::{AllocError, Global};
use std::process::Abort;

// What an entry knows: each register has its entry value, and the return address is there.
const ENTRY: Pred = Pred {
    rax: Term::EntryRax,
    rbx: Term::EntryRbx,
    cell: true,
};

// What a return needs, and no more.
const SAVED: Pred = Pred {
    rax: Term::Unknown,
    rbx: Term::EntryRbx,
    cell: true,
};

// The places of the graph below in which a case of a table differs.
#[derive(Clone, Copy)]
struct Plan {
    entry: Pred,
    sep: bool,
    fork: bool,
    first: (u64, u32),
    second: Option<(u64, u32)>,
    call: Instr,
    callee: u64,
    keep: Option<u64>,
    at_return: Pred,
    last: Kind,
}

// A function at 0 that calls itself unless rax is 0, keeps its return address, and returns.
const PLAN: Plan = Plan {
    entry: ENTRY,
    sep: false,
    fork: false,
    first: (1, 0),
    second: Some((2, 0)),
    call: Instr::Call(0),
    callee: 0,
    keep: Some(0),
    at_return: SAVED,
    last: Kind::Return,
};

fn vertex(
    alloc: Global,
    pred: Pred,
    first: Option<(u64, u32)>,
    second: Option<(u64, u32)>,
) -> Result<Vec<Vertex>, AllocError> {
    let mut out = Vec::new(alloc);
    if let Some(edge) = first {
        out.push(edge)?;
    }
    if let Some(edge) = second {
        out.push(edge)?;
    }
    let mut vertices = Vec::new(alloc);
    vertices.push(Vertex { pred, out })?;
    Ok(vertices)
}

// The site at 0, a branch to 2 that goes on at 1.
fn branch_site(alloc: Global, plan: Plan) -> Result<Site, AllocError> {
    let pair = (Region { offset: 0 }, Region { offset: 8 });
    let mut seps = Vec::new(alloc);
    if plan.sep {
        seps.push(pair)?;
    }
    Ok(Site {
        address: 0,
        kind: Kind::Step,
        seps,
        fork: if plan.fork { Some(pair) } else { None },
        keeps: Vec::new(alloc),
        vertices: vertex(alloc, plan.entry, Some(plan.first), plan.second)?,
    })
}

// The site at 1, a call.
fn call_site(alloc: Global, plan: Plan) -> Result<Site, AllocError> {
    let mut keeps = Vec::new(alloc);
    if let Some(offset) = plan.keep {
        keeps.push(Region { offset })?;
    }
    Ok(Site {
        address: 1,
        kind: Kind::Call(plan.callee),
        seps: Vec::new(alloc),
        fork: None,
        keeps,
        vertices: vertex(alloc, ENTRY, Some((2, 0)), None)?,
    })
}

// The site at 2, a return.
fn last_site(alloc: Global, plan: Plan) -> Result<Site, AllocError> {
    Ok(Site {
        address: 2,
        kind: plan.last,
        seps: Vec::new(alloc),
        fork: None,
        keeps: Vec::new(alloc),
        vertices: vertex(alloc, plan.at_return, None, None)?,
    })
}

fn graph(alloc: Global, plan: Plan) -> Result<Graph, AllocError> {
    let mut sites = Vec::new(alloc);
    sites.push(branch_site(alloc, plan)?)?;
    sites.push(call_site(alloc, plan)?)?;
    sites.push(last_site(alloc, plan)?)?;
    let mut functions = Vec::new(alloc);
    functions.push(Function {
        entry: 0,
        below: 8,
        above: 8,
        refused: false,
        sites,
    })?;
    Ok(Graph { functions })
}

fn accepts(alloc: Global, plan: Plan) -> Result<bool, AllocError> {
    let mut code = Vec::new(alloc);
    code.push(Instr::Branch(2))?;
    code.push(plan.call)?;
    code.push(Instr::Ret)?;
    let graph = graph(alloc, plan)?;
    Ok(accept(&Image { code }, &graph))
}

// A function whose instructions follow one another, with what is known at each.
fn accepts_straight(alloc: Global, rows: &[(Instr, Kind, Pred)]) -> Result<bool, AllocError> {
    let mut code = Vec::new(alloc);
    let mut sites = Vec::new(alloc);
    let mut address = 0u64;
    for (instr, kind, pred) in rows {
        code.push(*instr)?;
        sites.push(straight_site(alloc, address, *kind, *pred)?)?;
        address = address.wrapping_add(1);
    }
    let mut functions = Vec::new(alloc);
    functions.push(Function {
        entry: 0,
        below: 8,
        above: 8,
        refused: false,
        sites,
    })?;
    Ok(accept(&Image { code }, &Graph { functions }))
}

// A site whose one edge leads to the next address; a return has none, and the others keep the cell.
fn straight_site(alloc: Global, address: u64, kind: Kind, pred: Pred) -> Result<Site, AllocError> {
    let next = match kind {
        Kind::Return | Kind::End => None,
        _ => Some((address.wrapping_add(1), 0)),
    };
    let mut keeps = Vec::new(alloc);
    if let Kind::Outside = kind {
        keeps.push(Region { offset: 0 })?;
    }
    Ok(Site {
        address,
        kind,
        seps: Vec::new(alloc),
        fork: None,
        keeps,
        vertices: vertex(alloc, pred, next, None)?,
    })
}

#[test]
fn recursion_is_accepted_with_its_kept_region(rt: HostRuntime) {
    assert!(rt; accepts(rt.alloc(), PLAN).is_ok_and(|yes| yes));
    let forgotten = Plan { keep: None, ..PLAN };
    assert!(rt; accepts(rt.alloc(), forgotten).is_ok_and(|yes| !yes));
}

// Each graph, which breaks one rule, is refused.
fn refuses(rt: &impl Abort, alloc: Global, rows: &[(&str, Plan)]) {
    for (broken, plan) in rows {
        assert!(rt; accepts(alloc, *plan).is_ok_and(|yes| !yes), "{broken}");
    }
}

#[test]
fn a_site_that_is_not_what_it_says_is_refused(rt: HostRuntime) {
    let rows = [
        (
            "the entry vertex knows less than an entry",
            Plan {
                entry: SAVED,
                ..PLAN
            },
        ),
        (
            "a step stands at a return",
            Plan {
                last: Kind::Step,
                ..PLAN
            },
        ),
        (
            "the callee is not there",
            Plan {
                call: Instr::Call(7),
                callee: 7,
                ..PLAN
            },
        ),
        ("a pair is decided", Plan { sep: true, ..PLAN }),
    ];
    refuses(&rt, rt.alloc(), &rows);
}

#[test]
fn a_call_that_is_not_as_it_says_is_refused(rt: HostRuntime) {
    let rows = [
        (
            "a pair to be told apart is decided",
            Plan { fork: true, ..PLAN },
        ),
        (
            "the call goes elsewhere",
            Plan {
                call: Instr::Call(2),
                ..PLAN
            },
        ),
        (
            "a kept region is no cell",
            Plan {
                keep: Some(8),
                ..PLAN
            },
        ),
        (
            "a case has no edge",
            Plan {
                second: None,
                ..PLAN
            },
        ),
    ];
    refuses(&rt, rt.alloc(), &rows);
}

#[test]
fn a_return_that_does_not_hold_is_refused(rt: HostRuntime) {
    let rows = [
        (
            "rbx is not restored at the return",
            Plan {
                at_return: Pred {
                    rbx: Term::Unknown,
                    ..SAVED
                },
                ..PLAN
            },
        ),
        (
            "the return address is lost at the return",
            Plan {
                at_return: Pred {
                    cell: false,
                    ..SAVED
                },
                ..PLAN
            },
        ),
    ];
    refuses(&rt, rt.alloc(), &rows);
}

#[test]
fn an_edge_that_does_not_hold_is_refused(rt: HostRuntime) {
    let rows = [
        (
            "an edge has another address",
            Plan {
                first: (2, 0),
                ..PLAN
            },
        ),
        (
            "an edge has no vertex",
            Plan {
                first: (1, 1),
                ..PLAN
            },
        ),
        (
            "an edge asks for a register that the call changed",
            Plan {
                at_return: ENTRY,
                ..PLAN
            },
        ),
    ];
    refuses(&rt, rt.alloc(), &rows);
}

#[test]
fn straight_code_is_accepted_where_what_is_known_follows(rt: HostRuntime) {
    let swapped = Pred {
        rax: Term::EntryRbx,
        rbx: Term::EntryRax,
        cell: true,
    };
    let drawn = Pred {
        rax: Term::Name(2),
        ..ENTRY
    };
    let code = [
        (Instr::Swap, Kind::Step, ENTRY),
        (Instr::Swap, Kind::Step, swapped),
        (Instr::Draw, Kind::Step, ENTRY),
        (Instr::Syscall, Kind::Outside, drawn),
        (Instr::Call(9), Kind::Outside, SAVED),
        (Instr::Nop, Kind::Step, SAVED),
        (Instr::Ret, Kind::Return, SAVED),
    ];
    assert!(rt; accepts_straight(rt.alloc(), &code).is_ok_and(|yes| yes));
    let stale = [
        (Instr::Syscall, Kind::Outside, ENTRY),
        (Instr::Ret, Kind::Return, ENTRY),
    ];
    assert!(rt; accepts_straight(rt.alloc(), &stale).is_ok_and(|yes| !yes));
    let stopped = [
        (Instr::Nop, Kind::Step, ENTRY),
        (Instr::Syscall, Kind::End, ENTRY),
    ];
    assert!(rt; accepts_straight(rt.alloc(), &stopped).is_ok_and(|yes| yes));
}
