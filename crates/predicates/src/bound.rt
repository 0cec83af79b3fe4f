ghost use Rattle.std.specs.Prelude.{◌≡◌, ◌&&◌, nat_le, IfOk, IsTrue};
ghost use Rattle.std.specs.List.{list_all};
ghost use Rattle.predicates.specs.Bounds.{numbers_ascend, values_ascend, is_list, are_values, keys_ascend, are_formed};
ghost use Rattle.predicates.specs.Holding.{same_fact, is_among, are_within, holds_bound};

use bits_core::Width;
use sqlite_items::Items;
use std::alloc::Global;
use sym_terms::{NoMemory, Term};

/// That the four flags are those of `left` minus `right` at a width.
#[derive(Drop)]
pub struct FlagFact {
    pub width: Width,
    pub left: Term,
    pub right: Term,
}

/// Unsigned numbers of 64 bits: from a low end to a high end, both included, or those of a list.
#[derive(Drop)]
pub enum Values {
    Range(u64, u64),
    OneOf(Items<u64>),
}

/// That a term's value is one of these.
#[derive(Drop)]
pub struct Bound {
    pub key: Term,
    pub set: Values,
}

impl FlagFact {
    pub(crate) fn is(&self, other: &FlagFact) -> bool
        ensures { result ≡ same_fact self.now other.now }
    {
        self.width.bits() == other.width.bits()
            && self.left.compare(&other.left).is_eq()
            && self.right.compare(&other.right).is_eq()
    }

    /// An equal flag fact.
    pub fn copy(&self, alloc: Global) -> Result<FlagFact, NoMemory>
        ensures { IfOk result (λ f. f ≡ self.now) }
    {
        let left = self.left.copy(alloc)?;
        let right = self.right.copy(alloc)?;
        Ok(FlagFact {
            width: self.width,
            left,
            right,
        })
    }
}

/// The most numbers of a list.
pub const MOST_NUMBERS: usize = 1024;

impl Values {
    /// Whether a low end isn't over the high end, and the numbers of a list ascend.
    pub fn ascend(&self) -> bool
        ensures { result ≡ values_ascend self.now }
    {
        match self {
            Values::Range(low, high) => *low <= *high,
            Values::OneOf(numbers) => ascend(numbers.as_slice()),
        }
    }

    fn is_formed(&self) -> bool
        ensures { result ≡ are_values self.now }
    {
        match self {
            Values::Range(low, high) => *low <= *high,
            Values::OneOf(numbers) => is_list(numbers.as_slice()),
        }
    }

    fn are_within(&self, other: &Values) -> bool
        requires { IsTrue (are_values other.now) }
        ensures { result ≡ are_within self.now other.now }
    {
        match (self, other) {
            (Values::Range(low, high), Values::Range(least, most)) => least <= low && high <= most,
            (Values::Range(..), Values::OneOf(_)) => false,
            (Values::OneOf(numbers), Values::Range(least, most)) => {
                lie_between(numbers.as_slice(), *least, *most)
            }
            (Values::OneOf(numbers), Values::OneOf(others)) => {
                are_among(numbers.as_slice(), others.as_slice())
            }
        }
    }

    /// Equal values.
    pub fn copy(&self, alloc: Global) -> Result<Values, NoMemory>
        ensures { IfOk result (λ v. v ≡ self.now) }
    {
        match self {
            Values::Range(low, high) => Ok(Values::Range(*low, *high)),
            Values::OneOf(numbers) => {
                let numbers = Items::from_slice(alloc, numbers.as_slice())?;
                Ok(Values::OneOf(numbers))
            }
        }
    }
}

impl Bound {
    pub(crate) fn is_held(&self, held: &[Bound]) -> bool
        requires { IsTrue (are_values self.now.set) }
        ensures { result ≡ holds_bound held.now self.now }
    {
        for bound in held {
            if bound.key.compare(&self.key).is_eq() && bound.set.are_within(&self.set) {
                return true;
            }
        }
        false
    }

    /// An equal bound.
    pub fn copy(&self, alloc: Global) -> Result<Bound, NoMemory>
        ensures { IfOk result (λ b. b ≡ self.now) }
    {
        let key = self.key.copy(alloc)?;
        let set = self.set.copy(alloc)?;
        Ok(Bound { key, set })
    }
}

fn is_list(numbers: &[u64]) -> bool
    ensures { result ≡ is_list numbers.now }
{
    !numbers.is_empty() && numbers.len() <= MOST_NUMBERS && ascend(numbers)
}

fn ascend(numbers: &[u64]) -> bool
    ensures { result ≡ numbers_ascend numbers.now }
{
    numbers.is_sorted_by(|number, next| number < next)
}

fn lie_between(numbers: &[u64], least: u64, most: u64) -> bool
    ensures { result ≡ list_all (λ n. nat_le least n && nat_le n most) numbers.now }
{
    numbers.iter().all(|n| least <= *n && *n <= most)
}

fn are_among(numbers: &[u64], others: &[u64]) -> bool
    requires { IsTrue (numbers_ascend others.now) }
    ensures { result ≡ list_all (λ n. is_among n others.now) numbers.now }
{
    for number in numbers {
        if !is_among(*number, others) {
            return false;
        }
    }
    true
}

fn is_among(number: u64, numbers: &[u64]) -> bool
    requires { IsTrue (numbers_ascend numbers.now) }
    ensures { result ≡ is_among number numbers.now }
{
    numbers.binary_search(&number).is_ok()
}

pub(crate) fn ascend_by_key(bounds: &[Bound]) -> bool
    ensures { result ≡ keys_ascend bounds.now }
{
    bounds.is_sorted_by(|bound, next| bound.key.compare(&next.key).is_lt())
}

pub(crate) fn have_values(bounds: &[Bound]) -> bool
    ensures { result ≡ are_formed bounds.now }
{
    bounds.iter().all(|bound| bound.set.is_formed())
}

pub(crate) fn copy_bounds(alloc: Global, bounds: &[Bound]) -> Result<Items<Bound>, NoMemory>
    ensures { IfOk result (λ copies. copies ≡ bounds.now) }
{
    let mut copies = Items::from_vec(Vec::with_capacity(alloc, bounds.len())?);
    for bound in bounds {
        copies.push(bound.copy(alloc)?)?;
    }
    Ok(copies)
}
