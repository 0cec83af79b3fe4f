ghost use Rattle.std.specs.Prelude.{◌≡◌};
ghost use Rattle.sym_terms.specs.View.{plain};
ghost use Rattle.memory_regions.specs.Relate.{by_offset, is_stack, above_stack, in_frame, framed, listed, relate};
ghost use Rattle.memory_regions.specs.Context.{known};

use crate::region::{Context, Region, Relation, is_pair};
use sym_terms::{Atom, Sym, Term};

/// How `a` lies to `b`; takes no memory. `Unknown` exactly where the difference of the addresses isn't
/// constant, and neither the frame nor a listed pair tells the regions apart.
pub fn relate(a: &Region, b: &Region, context: &Context) -> Relation
    ensures { result ≡ relate (known context.now) a.now.at a.now.bytes b.now.at b.now.bytes }
{
    relate_at(&a.at, a.bytes, &b.at, b.bytes, context)
}

/// How the `a` bytes at `x` lie to the `b` bytes at `y`; takes no memory.
#[tactic(auto, unfolding(crate::specs::Relate::relate))]
pub fn relate_at(x: &Term, a: u8, y: &Term, b: u8, context: &Context) -> Relation
    ensures { result ≡ relate (known context.now) x.now a y.now b }
{
    if let Some(offset) = y.offset_from(x) {
        return by_offset(offset, a, b);
    }
    if framed(x, a, y, b, context)
        || framed(y, b, x, a, context)
        || listed(context.seps, x, a, y, b)
    {
        Relation::Separate
    } else {
        Relation::Unknown
    }
}

/// How `a` bytes lie to `b` bytes that begin `offset` after them, modulo 2^64.
fn by_offset(offset: u64, a: u8, b: u8) -> Relation
    ensures { result ≡ by_offset offset a b }
{
    let (a, b) = (u64::from(a), u64::from(b));
    let before = offset.wrapping_neg();
    if offset == 0 && a == b {
        Relation::Alias
    } else if a <= offset && b <= before {
        Relation::Separate
    } else if b <= a && offset <= a - b {
        Relation::Around
    } else if a <= b && before <= b - a {
        Relation::Inside
    } else {
        Relation::Overlap
    }
}

fn is_stack(atom: &Atom) -> bool
    ensures { result ≡ is_stack (plain atom.now) }
{
    match atom {
        Atom::Sym(s) => s.compare(Sym::Entry(4)).is_eq(),
        Atom::Fit(..) | Atom::Pair(..) => false,
    }
}

/// The distance from rsp0 to a term, where it is constant.
fn above_stack(term: &Term) -> Option<u64>
    ensures { result ≡ above_stack term.now }
{
    let sum = term.as_sum();
    match sum.atoms.as_slice() {
        [(atom, coefficient)] => {
            if is_stack(atom) && *coefficient == 1 {
                Some(sum.constant)
            } else {
                None
            }
        }
        _ => None,
    }
}

/// Whether `bytes` bytes from `rsp0 + at` on, `at` read with its sign, lie in the frame.
fn in_frame(context: &Context, at: u64, bytes: u8) -> bool
    ensures { result ≡ in_frame context.now.below context.now.above at bytes }
{
    let bytes = u64::from(bytes);
    if at < 1 << 63 {
        at + bytes <= context.above
    } else {
        let up = at.wrapping_neg();
        up <= context.below && (bytes <= up || bytes - up <= context.above)
    }
}

/// Whether the first region lies in the frame, and the second in one segment.
fn framed(x: &Term, a: u8, y: &Term, b: u8, context: &Context) -> bool
    ensures { result ≡ framed (known context.now) x.now a y.now b }
{
    match (above_stack(x), y.as_constant()) {
        (Some(at), Some(constant)) => {
            in_frame(context, at, a) && b >= 1 && context.image.covers(constant, u64::from(b))
        }
        _ => false,
    }
}

fn listed(seps: &[(Region, Region)], x: &Term, a: u8, y: &Term, b: u8) -> bool
    ensures { result ≡ listed seps.now x.now a y.now b }
{
    seps.iter().any(|pair| is_pair(pair, x, a, y, b))
}
