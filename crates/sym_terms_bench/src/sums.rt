ghost use Rattle.std.specs.Prelude.{◌≤◌, IfOk};

use std::alloc::Global;
use sym_terms::{Fit, NoMemory, Sym, Term};

/// Adds 0, 1, 2 and so on to one term, and counts the sums that come after the one before.
pub fn ascents(alloc: Global, count: u64) -> Result<u64, NoMemory>
    ensures { IfOk result (λ ascents. ascents ≤ count) }
{
    let base = base(alloc)?;
    let mut last = base.copy(alloc)?;
    let mut ascents = 0;
    for i in 0..count {
        let Some(sum) = base.add(alloc, &Term::constant(alloc, i))? else {
            break;
        };
        if sum.compare(&last).is_gt() {
            ascents += 1;
        }
        last = sum;
    }
    Ok(ascents)
}

// rsp0+8*zx32(rax0), or a part of it.
fn base(alloc: Global) -> Result<Term, NoMemory> {
    let index = index(alloc)?;
    let rsp = Term::symbol(alloc, Sym::Entry(4))?;
    Ok(rsp.add(alloc, &index)?.unwrap_or(rsp))
}

fn index(alloc: Global) -> Result<Term, NoMemory> {
    let rax = Term::symbol(alloc, Sym::Entry(0))?;
    let low = rax.fit(alloc, Fit::Zx32)?.unwrap_or(rax);
    Ok(low.scale(alloc, 8)?.unwrap_or(low))
}
