// Where every instruction leads, and what is known there.
ghost use Rattle.std.specs.Prelude.{◌≡◌, ◌∷◌, ◌++◌, [], IfOk, OnOk, Some, map};
ghost use Rattle.std.specs.Option.{option_map};
ghost use Rattle.x86_machine.specs.Next.{next_address};
ghost use Rattle.step_rules.specs.View.{parted};
ghost use Rattle.step_rules.specs.Bounds.{where_holds, opposite_of};
ghost use Rattle.step_rules.specs.Executed.{executed};
ghost use Rattle.step_rules.specs.Cases.{direct, aliased, goes_on, branches, jump_cases, cases};
ghost use Rattle.pred_moves.specs.Views.{view_of};
ghost use Rattle.pred_step.specs.Led.{plain_case, led_cases};

use crate::calls::{drop_name, next_address, returned};
use crate::executed::executed;
use crate::jumps::jumps;
use mem_forest::{Context, Region};
use pred_moves::assume;
use predicates::{Pred, SiteView};
use std::alloc::{AllocError, Global};
use sym_terms::NoMemory;
use x86_instr::{Class, Instr, Op, Operand};

/// The addresses to which an instruction leads.
#[derive(Drop)]
pub enum Led {
    /// With the predicate that is known at each.
    Apart(Vec<(u64, Pred)>),
    /// With the predicate that was made in place, at all of them.
    Alike(Vec<u64>),
}

/// One address.
pub(crate) fn only(alloc: Global, address: u64) -> Result<Vec<u64>, NoMemory>
    ensures { IfOk result (λ v. v.items ≡ address ∷ []) }
{
    Ok(Vec::from_array(alloc, [address]).map_err(AllocError::from)?)
}

// ---- a pair that is told apart

fn push_case(cases: &mut Vec<(u64, Pred)>, address: u64, p: Pred) -> Result<(), NoMemory>
    ensures { OnOk result (cases.new.items ≡ cases.old.items ++ (address, p) ∷ []) }
{
    cases.push((address, p)).map_err(AllocError::from)?;
    Ok(())
}

// One more case: after the step of a predicate.
fn add_stepped(
    alloc: Global,
    v: &SiteView,
    i: &Instr,
    p: Pred,
    cases: &mut Vec<(u64, Pred)>,
) -> Result<(), NoMemory>
    ensures { OnOk result (cases.new.items ≡ cases.old.items ++ (next_address i.now, executed i.now.op (view_of v.now) i.now p) ∷ []) }
{
    let mut stepped = p;
    executed(alloc, v, i, &mut stepped)?;
    push_case(cases, next_address(i), stepped)?;
    Ok(())
}

// Where the first region's address is one more name of the second's cell.
fn aliased(alloc: Global, p: &Pred, pair: &(Region, Region)) -> Result<Pred, NoMemory>
    ensures { IfOk result (λ q. q ≡ aliased p.now pair.now) }
{
    let mut aliased = p.copy(alloc)?;
    aliased.forest.alias(&pair.0, &pair.1)?;
    Ok(aliased)
}

fn push_pair(
    alloc: Global,
    out: &mut Vec<(Region, Region)>,
    pair: &(Region, Region),
) -> Result<(), NoMemory>
    ensures { OnOk result (out.new.items ≡ out.old.items ++ pair.now ∷ []) }
{
    let first = Region {
        at: pair.0.at.copy(alloc)?,
        bytes: pair.0.bytes,
    };
    let second = Region {
        at: pair.1.at.copy(alloc)?,
        bytes: pair.1.bytes,
    };
    out.push((first, second)).map_err(AllocError::from)?;
    Ok(())
}

// The pairs with one more in front.
fn with_pair(
    alloc: Global,
    pairs: &[(Region, Region)],
    pair: &(Region, Region),
) -> Result<Vec<(Region, Region)>, NoMemory>
    ensures { IfOk result (λ out. out.items ≡ pair.now ∷ pairs.now) }
{
    let mut out = Vec::new(alloc);
    push_pair(alloc, &mut out, pair)?;
    for other in pairs {
        push_pair(alloc, &mut out, other)?;
    }
    Ok(out)
}

// One more case: after the step where one more pair is separate.
fn add_parted(
    alloc: Global,
    pair: &(Region, Region),
    v: &SiteView,
    i: &Instr,
    p: &Pred,
    cases: &mut Vec<(u64, Pred)>,
) -> Result<(), NoMemory>
    ensures { OnOk result (cases.new.items ≡ cases.old.items ++ (next_address i.now, executed i.now.op (parted (view_of v.now) pair.now) i.now p.now) ∷ []) }
{
    let seps = with_pair(alloc, v.context.seps, pair)?;
    let known = &v.context;
    let context = Context {
        image: known.image,
        below: known.below,
        above: known.above,
        seps: seps.as_slice(),
    };
    let parted = SiteView {
        context,
        fork: v.fork,
        keeps: v.keeps,
    };
    add_stepped(alloc, &parted, i, p.copy(alloc)?, cases)?;
    Ok(())
}

// The three cases of a pair: aliased, separate, and as before.
fn tell_apart(
    alloc: Global,
    pair: &(Region, Region),
    v: &SiteView,
    i: &Instr,
    p: &Pred,
    cases: &mut Vec<(u64, Pred)>,
) -> Result<(), NoMemory>
    requires { cases.old.items ≡ [] }
    ensures { OnOk result (map plain_case cases.new.items ≡ goes_on (view_of v.now) i.now p.now (Some pair.now)) }
{
    add_stepped(alloc, v, i, aliased(alloc, p, pair)?, cases)?;
    add_parted(alloc, pair, v, i, p, cases)?;
    add_stepped(alloc, v, i, p.copy(alloc)?, cases)?;
    Ok(())
}

fn told_apart(
    alloc: Global,
    pair: &(Region, Region),
    v: &SiteView,
    i: &Instr,
    p: &Pred,
) -> Result<Vec<(u64, Pred)>, NoMemory>
    ensures { IfOk result (λ cs. map plain_case cs.items ≡ goes_on (view_of v.now) i.now p.now (Some pair.now)) }
{
    let mut cases = Vec::new(alloc);
    tell_apart(alloc, pair, v, i, p, &mut cases)?;
    Ok(cases)
}

fn goes_on(alloc: Global, v: &SiteView, i: &Instr, p: &mut Pred) -> Result<Led, NoMemory>
    ensures { IfOk result (λ l. led_cases p.new l ≡ goes_on (view_of v.now) i.now p.old (view_of v.now).fork) }
{
    match v.fork {
        Some(pair) => Ok(Led::Apart(told_apart(alloc, pair, v, i, p)?)),
        None => {
            executed(alloc, v, i, p)?;
            Ok(Led::Alike(only(alloc, next_address(i))?))
        }
    }
}

// ---- jumps

// The number of an immediate first operand, and 0 for every other.
fn direct(i: &Instr) -> u64
    ensures { result ≡ direct i.now.dst }
{
    let Operand::Imm(target) = &i.dst else {
        return 0;
    };
    *target
}

// The opposite of a condition: the other number of its pair.
fn opposite_of(cc: u8) -> u8
    ensures { result ≡ opposite_of cc }
{
    match cc % 2 {
        1 => cc - 1,
        _ => cc + 1,
    }
}

fn where_holds(alloc: Global, p: &Pred, cc: u8) -> Result<Pred, NoMemory>
    ensures { IfOk result (λ q. q ≡ where_holds cc p.now) }
{
    let mut holding = p.copy(alloc)?;
    assume(alloc, &mut holding, cc)?;
    Ok(holding)
}

fn branches(alloc: Global, v: &SiteView, i: &Instr, p: &Pred) -> Result<Vec<(u64, Pred)>, NoMemory>
    ensures { IfOk result (λ cs. map plain_case cs.items ≡ branches (view_of v.now) i.now p.now) }
{
    let taken = where_holds(alloc, p, i.cc)?;
    let passed = where_holds(alloc, p, opposite_of(i.cc))?;
    let cases = [(direct(i), taken), (next_address(i), passed)];
    Ok(Vec::from_array(alloc, cases).map_err(AllocError::from)?)
}

fn jump_cases(alloc: Global, v: &SiteView, i: &Instr, p: &mut Pred) -> Result<Option<Led>, NoMemory>
    ensures { IfOk result (λ r. option_map (led_cases p.new) r ≡ jump_cases i.now.op (view_of v.now) i.now p.old) }
{
    match i.op {
        Op::Jcc => Ok(Some(Led::Apart(branches(alloc, v, i, p)?))),
        Op::Jmp => match jumps(alloc, v, i, p)? {
            Some(addresses) => Ok(Some(Led::Alike(addresses))),
            None => Ok(None),
        },
        _ => Ok(None),
    }
}

// ---- every instruction

/// Where an instruction leads, with what is known there, in part in place of what was known; `None` exactly where it is an
/// indirect jump of which isn't known where it leads.
pub fn led_of(p: &mut Pred, alloc: Global, v: &SiteView, i: &Instr) -> Result<Option<Led>, NoMemory>
    ensures { IfOk result (λ r. option_map (led_cases p.new) r ≡ cases (view_of v.now) i.now p.old) }
{
    match i.op.class() {
        Class::Calculation | Class::Transfer | Class::Division => {
            drop_name(p, i);
            Ok(Some(goes_on(alloc, v, i, p)?))
        }
        Class::Jump => {
            drop_name(p, i);
            jump_cases(alloc, v, i, p)
        }
        Class::Call | Class::SystemCall => {
            returned(alloc, v, i, p)?;
            Ok(Some(Led::Alike(only(alloc, next_address(i))?)))
        }
        Class::Return | Class::Stop => Ok(Some(Led::Alike(Vec::new(alloc)))),
    }
}
