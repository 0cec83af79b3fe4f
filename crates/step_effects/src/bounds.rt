// What a condition says of a term that was compared with a number, and where that goes among the bounds.
ghost use Rattle.std.specs.Prelude.{◌≡◌, ◌++◌, ◌∷◌, ◌≤◌, ◌-◌, ◌+◌, ◌^◌, [], IfOk, IfSome, IsTrue, OnOk, None, Some};
ghost use Rattle.std.specs.Option.{option_copied};
ghost use Rattle.bits_core.specs.Width.{bits_of};
ghost use Rattle.bits_core.specs.LowBits.{cut_of};
ghost use Rattle.step_rules.specs.Terms.{cut_term};
ghost use Rattle.step_rules.specs.Bounds.{telling, range_without, range_of, met, inserted, with_bound, with_bound_if, by_comparison, by_fact, opposite_of};
ghost use Rattle.step_values.specs.Ordered.{is_ordered, are_ordered};
ghost use Rattle.step_effects.specs.Chosen.{bounds_or};

use bits_core::{Width, cut as cut_number};
use predicates::{Bound, FlagFact, MOST_BOUNDS, Values};
use sqlite_items::Items;
use std::alloc::Global;
use std::cmp::Ordering;
use step_values::{Slot, cut};
use sym_terms::{NoMemory, Term};

/// The range, where it isn't empty and leaves something of 0 to `most` out.
fn telling(most: u64, low: u64, high: u64) -> Option<Values>
    ensures value { result ≡ telling most low high }
    ensures ordered { IfSome result (λ s. IsTrue (is_ordered s)) }
{
    if high < low || low == 0 && most <= high {
        None
    } else {
        Some(Values::Range(low, high))
    }
}

// The range above a number, which is empty where that is the most.
fn above(most: u64, right: u64) -> Option<Values>
    requires { right ≤ most }
    ensures value { result ≡ telling most (right + 1) most }
    ensures ordered { IfSome result (λ s. IsTrue (is_ordered s)) }
{
    if right < most {
        telling(most, right + 1, most)
    } else {
        None
    }
}

// The range up to a number.
fn up_to(most: u64, right: u64) -> Option<Values>
    ensures value { result ≡ telling most 0 right }
    ensures ordered { IfSome result (λ s. IsTrue (is_ordered s)) }
{
    telling(most, 0, right)
}

// The numbers other than this one, where they are a range.
fn range_without(right: u64, most: u64) -> Option<Values>
    requires { right ≤ most }
    ensures value { result ≡ range_without right most }
    ensures ordered { IfSome result (λ s. IsTrue (is_ordered s)) }
{
    if right == 0 {
        telling(most, 1, most)
    } else if right == most {
        telling(most, 0, most - 1)
    } else {
        None
    }
}

/// The numbers of 0 to `most` for which a condition holds against `right`, where they are a range that tells something.
fn range_of(cc: u8, right: u64, most: u64) -> Option<Values>
    requires { right ≤ most }
    ensures value { result ≡ range_of cc right most }
    ensures ordered { IfSome result (λ s. IsTrue (is_ordered s)) }
{
    if cc == 2 {
        if right == 0 {
            None
        } else {
            telling(most, 0, right - 1)
        }
    } else if cc == 3 {
        telling(most, right, most)
    } else if cc == 4 {
        telling(most, right, right)
    } else if cc == 5 {
        range_without(right, most)
    } else if cc == 6 {
        up_to(most, right)
    } else if cc == 7 {
        above(most, right)
    } else {
        None
    }
}

/// The values of a key that has old ones: the intersection of two ranges, unless it is empty.
fn met(alloc: Global, old: &Values, new: &Values) -> Result<Values, NoMemory>
    ensures { IfOk result (λ v. v ≡ met old.now new.now) }
{
    match (old, new) {
        (Values::Range(low, high), Values::Range(least, most)) => {
            let from = (*low).max(*least);
            let to = (*high).min(*most);
            if from <= to {
                Ok(Values::Range(from, to))
            } else {
                Ok(Values::Range(*low, *high))
            }
        }
        (Values::Range(_, _), Values::OneOf(_)) => new.copy(alloc),
        (Values::OneOf(_), _) => old.copy(alloc),
    }
}

fn push_copies(alloc: Global, out: &mut Items<Bound>, bounds: &[Bound]) -> Result<(), NoMemory>
    ensures { OnOk result (out.new ≡ out.old ++ bounds.now) }
{
    for bound in bounds {
        out.push(bound.copy(alloc)?)?;
    }
    Ok(())
}

fn push_new(alloc: Global, out: &mut Items<Bound>, key: &Term, set: &Values) -> Result<(), NoMemory>
    ensures { OnOk result (out.new ≡ out.old ++ record { key = key.now; set = set.now } ∷ []) }
{
    let key = key.copy(alloc)?;
    let set = set.copy(alloc)?;
    out.push(Bound { key, set })?;
    Ok(())
}

fn inserted(
    alloc: Global,
    room: bool,
    key: &Term,
    set: &Values,
    bounds: &[Bound],
) -> Result<Items<Bound>, NoMemory>
    ensures { IfOk result (λ b. b ≡ inserted room key.now set.now bounds.now) }
{
    let mut out = Items::new(alloc);
    for i in 0..bounds.len() {
        let bound = &bounds[i];
        match key.compare(&bound.key) {
            Ordering::Less => {
                if room {
                    push_new(alloc, &mut out, key, set)?;
                }
                push_copies(alloc, &mut out, &bounds[i..])?;
                return Ok(out);
            }
            Ordering::Equal => {
                let both = met(alloc, &bound.set, set)?;
                push_new(alloc, &mut out, &bound.key, &both)?;
                push_copies(alloc, &mut out, &bounds[i + 1..])?;
                return Ok(out);
            }
            Ordering::Greater => out.push(bound.copy(alloc)?)?,
        }
    }
    if room {
        push_new(alloc, &mut out, key, set)?;
    }
    Ok(out)
}

/// The bounds with one more; where 16 stand, a new key is not added.
#[tactic(auto, unfolding(step_rules::specs::Bounds::with_bound), using(crate::proofs::BoundLemmas::inserted_ordered))]
pub(crate) fn with_bound(
    alloc: Global,
    key: &Term,
    set: &Values,
    bounds: &[Bound],
) -> Result<Items<Bound>, NoMemory>
    requires bounds { IsTrue (are_ordered bounds.now) }
    requires set { IsTrue (is_ordered set.now) }
    ensures value { IfOk result (λ b. b ≡ with_bound key.now set.now bounds.now) }
    ensures ordered { IfOk result (λ b. IsTrue (are_ordered b)) }
{
    inserted(alloc, bounds.len() < MOST_BOUNDS, key, set, bounds)
}

// The greatest number of a width.
fn most_of(w: Width) -> u64
    ensures { result ≡ 2 ^ bits_of w - 1 }
{
    match w {
        Width::W8 => 0xff,
        Width::W16 => 0xffff,
        Width::W32 => 0xffff_ffff,
        Width::W64 => u64::MAX,
    }
}

// The values that the condition leaves to the left side of a comparison with a number.
fn values_of(cc: u8, width: Width, right: u64) -> Option<Values>
    ensures value { result ≡ range_of cc (cut_of width right) (2 ^ bits_of width - 1) }
    ensures ordered { IfSome result (λ s. IsTrue (is_ordered s)) }
{
    range_of(cc, cut_number(width, right), most_of(width))
}

// The bounds with values of a key, where that is known.
fn with_known(
    alloc: Global,
    key: Option<&Term>,
    set: &Values,
    bounds: &[Bound],
) -> Result<Option<Items<Bound>>, NoMemory>
    requires bounds { IsTrue (are_ordered bounds.now) }
    requires set { IsTrue (is_ordered set.now) }
    ensures value { IfOk result (λ b. bounds_or b bounds.now ≡ with_bound_if (option_copied key.entry) (Some set.now) bounds.now) }
    ensures ordered { IfOk result (λ b. IfSome b (λ b. IsTrue (are_ordered b))) }
{
    match key {
        Some(key) => Ok(Some(with_bound(alloc, key, set, bounds)?)),
        None => Ok(None),
    }
}

// The bounds with values of the left side of a comparison.
fn with_left(
    alloc: Global,
    fact: &FlagFact,
    set: &Values,
    bounds: &[Bound],
) -> Result<Option<Items<Bound>>, NoMemory>
    requires bounds { IsTrue (are_ordered bounds.now) }
    requires set { IsTrue (is_ordered set.now) }
    ensures value { IfOk result (λ b. bounds_or b bounds.now ≡ with_bound_if (cut_term fact.now.width (Some fact.now.left)) (Some set.now) bounds.now) }
    ensures ordered { IfOk result (λ b. IfSome b (λ b. IsTrue (are_ordered b))) }
{
    let key = cut(alloc, fact.width, Slot::kept(Some(&fact.left)))?;
    with_known(alloc, key.get(), set, bounds)
}

// The bounds with what the condition leaves to the left side, where that says anything.
#[tactic(auto, using(crate::proofs::BoundLemmas::no_values))]
fn bounds_by(
    alloc: Global,
    cc: u8,
    fact: &FlagFact,
    right: u64,
    bounds: &[Bound],
) -> Result<Option<Items<Bound>>, NoMemory>
    requires { IsTrue (are_ordered bounds.now) }
    ensures value { IfOk result (λ b. bounds_or b bounds.now ≡ by_comparison cc fact.now None (Some right) bounds.now) }
    ensures ordered { IfOk result (λ b. IfSome b (λ b. IsTrue (are_ordered b))) }
{
    match values_of(cc, fact.width, right) {
        Some(set) => with_left(alloc, fact, &set, bounds),
        None => Ok(None),
    }
}

/// The bounds with what the condition says by the flag fact; `None` where that says nothing.
pub fn bounds_where(
    alloc: Global,
    cc: u8,
    fact: Option<&FlagFact>,
    bounds: &[Bound],
) -> Result<Option<Items<Bound>>, NoMemory>
    requires { IsTrue (are_ordered bounds.now) }
    ensures value { IfOk result (λ b. bounds_or b bounds.now ≡ by_fact cc (option_copied fact.entry) bounds.now) }
    ensures ordered { IfOk result (λ b. IfSome b (λ b. IsTrue (are_ordered b))) }
{
    let Some(fact) = fact else {
        return Ok(None);
    };
    match (fact.left.as_constant(), fact.right.as_constant()) {
        (None, Some(right)) => bounds_by(alloc, cc, fact, right, bounds),
        _ => Ok(None),
    }
}

/// The opposite of a condition: the other number of its pair.
pub fn opposite_of(cc: u8) -> u8
    ensures { result ≡ opposite_of cc }
{
    if cc % 2 == 1 { cc - 1 } else { cc + 1 }
}
