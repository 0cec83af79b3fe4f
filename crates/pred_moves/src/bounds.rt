// What a condition says of a term that was compared with a number, and where that goes among the bounds.
ghost use Rattle.std.specs.Prelude.{◌≡◌, ◌++◌, ◌∷◌, ◌≤◌, ◌+◌, ◌-◌, ◌^◌, ◌==◌, [], if◌then◌else◌, IfOk, IfSome, IsTrue, OnOk, None, Some};
ghost use Rattle.std.specs.Option.{option_and_then, option_copied};
ghost use Rattle.bits_core.specs.Width.{bits_of};
ghost use Rattle.bits_core.specs.LowBits.{cut_of};
ghost use Rattle.predicates.specs.Bounds.{are_bounds, are_values};
ghost use Rattle.step_rules.specs.Bounds.{telling, range_without, range_of, met, inserted, with_bound, by_comparison, by_fact, where_holds};

use crate::terms::cut;
use bits_core::{Width, cut as low_bits};
use predicates::{Bound, FlagFact, MOST_BOUNDS, Pred, Values};
use sqlite_items::Items;
use std::alloc::Global;
use std::cmp::Ordering;
use sym_terms::{NoMemory, Term};

// ---- the values that a condition leaves

// A range as values, where it has a number and lacks one of 0 to `most`.
fn telling(most: u64, low: u64, high: u64) -> Option<Values>
    ensures value { result ≡ telling most low high }
    ensures formed { IfSome result (λ s. IsTrue (are_values s)) }
{
    let is_all = low == 0 && most <= high;
    if low <= high && !is_all {
        Some(Values::Range(low, high))
    } else {
        None
    }
}

// From 0 to just below a number.
fn ends_below(right: u64, most: u64) -> Option<(u64, u64)>
    ensures { option_and_then (λ e. telling most e.0 e.1) result ≡ (if right == 0 then None else telling most 0 (right - 1)) }
{
    if right == 0 {
        None
    } else {
        Some((0, right - 1))
    }
}

// From just above a number to the most.
fn ends_above(right: u64, most: u64) -> Option<(u64, u64)>
    requires { right ≤ most }
    ensures { option_and_then (λ e. telling most e.0 e.1) result ≡ telling most (right + 1) most }
{
    if right < most {
        Some((right + 1, most))
    } else {
        None
    }
}

// All but a number, where that is the first or the last.
fn ends_beside(right: u64, most: u64) -> Option<(u64, u64)>
    requires { right ≤ most }
    ensures { option_and_then (λ e. telling most e.0 e.1) result ≡ range_without right most }
{
    if right == 0 {
        Some((1, most))
    } else if right == most {
        Some((0, most - 1))
    } else {
        None
    }
}

// The first and the last of the numbers of 0 to `most` for which a condition holds against `right`, where they are a range.
fn ends_of(cc: u8, right: u64, most: u64) -> Option<(u64, u64)>
    requires { right ≤ most }
    ensures { option_and_then (λ e. telling most e.0 e.1) result ≡ range_of cc right most }
{
    match cc {
        2 => ends_below(right, most),
        3 => Some((right, most)),
        4 => Some((right, right)),
        5 => ends_beside(right, most),
        6 => Some((0, right)),
        7 => ends_above(right, most),
        _ => None,
    }
}

// The greatest number of a width.
#[tactic(auto, using(crate::proofs::WidthLemmas::most_of_width))]
fn most_of(w: Width) -> u64
    ensures { result ≡ 2 ^ bits_of w - 1 }
{
    low_bits(w, u64::MAX)
}

// The values that a condition leaves to what was compared with a number at a width.
fn values_against(cc: u8, w: Width, right: u64) -> Option<Values>
    ensures value { result ≡ range_of cc (cut_of w right) (2 ^ bits_of w - 1) }
    ensures formed { IfSome result (λ s. IsTrue (are_values s)) }
{
    let most = most_of(w);
    match ends_of(cc, low_bits(w, right), most) {
        Some((low, high)) => telling(most, low, high),
        None => None,
    }
}

// ---- one more bound

// What two ranges share; the first, where that is nothing.
fn shared(low: u64, high: u64, least: u64, most: u64) -> Values
    ensures { result ≡ met (Values.Range low high) (Values.Range least most) }
{
    let first = low.max(least);
    let last = high.min(most);
    if first <= last {
        Values::Range(first, last)
    } else {
        Values::Range(low, high)
    }
}

fn met(alloc: Global, old: &Values, new: &Values) -> Result<Values, NoMemory>
    ensures { IfOk result (λ v. v ≡ met old.now new.now) }
{
    match old {
        Values::OneOf(_) => old.copy(alloc),
        Values::Range(low, high) => match new {
            Values::OneOf(_) => new.copy(alloc),
            Values::Range(least, most) => Ok(shared(*low, *high, *least, *most)),
        },
    }
}

fn push_bound(
    alloc: Global,
    out: &mut Items<Bound>,
    key: &Term,
    set: Values,
) -> Result<(), NoMemory>
    ensures { OnOk result (out.new ≡ out.old ++ record { key = key.now; set = set } ∷ []) }
{
    let key = key.copy(alloc)?;
    out.push(Bound { key, set })?;
    Ok(())
}

fn push_all(alloc: Global, out: &mut Items<Bound>, bounds: &[Bound]) -> Result<(), NoMemory>
    ensures { OnOk result (out.new ≡ out.old ++ bounds.now) }
{
    for bound in bounds {
        push_bound(alloc, out, &bound.key, bound.set.copy(alloc)?)?;
    }
    Ok(())
}

// A bound in front of others; those alone, where there is no room for it.
fn push_before(
    alloc: Global,
    out: &mut Items<Bound>,
    others: &[Bound],
    room: bool,
    key: &Term,
    set: &Values,
) -> Result<(), NoMemory>
    ensures { OnOk result (out.new ≡ out.old ++ (if room then record { key = key.now; set = set.now } ∷ others.now else others.now)) }
{
    if !room {
        return push_all(alloc, out, others);
    }
    push_bound(alloc, out, key, set.copy(alloc)?)?;
    push_all(alloc, out, others)
}

// A bound in its place among those with ascending keys; a new key only where there is room.
fn inserted(
    alloc: Global,
    bounds: &[Bound],
    room: bool,
    key: &Term,
    set: &Values,
) -> Result<Items<Bound>, NoMemory>
    ensures { IfOk result (λ out. out ≡ inserted room key.now set.now bounds.now) }
{
    let mut out = Items::new(alloc);
    for (at, bound) in bounds.iter().enumerate() {
        match key.compare(&bound.key) {
            Ordering::Greater => push_bound(alloc, &mut out, &bound.key, bound.set.copy(alloc)?)?,
            Ordering::Equal => {
                let both = met(alloc, &bound.set, set)?;
                push_before(alloc, &mut out, &bounds[at + 1..], true, &bound.key, &both)?;
                return Ok(out);
            }
            Ordering::Less => {
                push_before(alloc, &mut out, &bounds[at..], room, key, set)?;
                return Ok(out);
            }
        }
    }
    push_before(alloc, &mut out, &[], room, key, set)?;
    Ok(out)
}

/// The bounds with one more; where 16 stand, a new key is not added.
#[tactic(auto, unfolding(step_rules::specs::Bounds::with_bound), using(crate::proofs::BoundLemmas::bounds_with))]
pub(crate) fn add_bound(
    alloc: Global,
    bounds: &mut Items<Bound>,
    key: &Term,
    set: &Values,
) -> Result<(), NoMemory>
    requires set { IsTrue (are_values set.now) }
    requires bounds { IsTrue (are_bounds bounds.old) }
    ensures value { OnOk result (bounds.new ≡ with_bound key.now set.now bounds.old) }
    ensures formed { IsTrue (are_bounds bounds.new) }
{
    let room = bounds.len() < MOST_BOUNDS;
    *bounds = inserted(alloc, bounds.as_slice(), room, key, set)?;
    Ok(())
}

// The bounds with what a condition leaves to the left side of a comparison with a number, where that says anything.
#[tactic(auto, using(crate::proofs::BoundLemmas::no_values))]
fn assume_comparison(
    alloc: Global,
    cc: u8,
    fact: &FlagFact,
    right: u64,
    bounds: &mut Items<Bound>,
) -> Result<(), NoMemory>
    requires { IsTrue (are_bounds bounds.old) }
    ensures value { OnOk result (bounds.new ≡ by_comparison cc fact.now None (Some right) bounds.old) }
    ensures formed { IsTrue (are_bounds bounds.new) }
{
    let Some(set) = values_against(cc, fact.width, right) else {
        return Ok(());
    };
    match cut(alloc, fact.width, Some(&fact.left))? {
        Some(key) => add_bound(alloc, bounds, &key, &set),
        None => Ok(()),
    }
}

fn assume_fact(
    alloc: Global,
    cc: u8,
    fact: Option<&FlagFact>,
    bounds: &mut Items<Bound>,
) -> Result<(), NoMemory>
    requires { IsTrue (are_bounds bounds.old) }
    ensures value { OnOk result (bounds.new ≡ by_fact cc (option_copied fact.entry) bounds.old) }
    ensures formed { IsTrue (are_bounds bounds.new) }
{
    let Some(fact) = fact else {
        return Ok(());
    };
    match (fact.left.as_constant(), fact.right.as_constant()) {
        (None, Some(right)) => assume_comparison(alloc, cc, fact, right, bounds),
        _ => Ok(()),
    }
}

/// Where a condition holds, by its number in a jump's opcode.
#[tactic(auto, unfolding(step_rules::specs::Bounds::where_holds))]
pub fn assume(alloc: Global, p: &mut Pred, cc: u8) -> Result<(), NoMemory>
    ensures { OnOk result (p.new ≡ where_holds cc p.old) }
{
    assume_fact(alloc, cc, p.flags.as_ref(), &mut p.bounds)
}
