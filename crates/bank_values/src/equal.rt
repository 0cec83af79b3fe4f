// Whether two predicates of numbers say the same: over terms that differ, exactly where their numbers are the same.
ghost use Rattle.std.specs.Prelude.{◌≡◌, ◌↔◌, List, length, IsTrue};
ghost use Rattle.sym_terms.specs.Plain.{PlainSum};
ghost use Rattle.term_bank.specs.Terms.{AreApart};
ghost use Rattle.bank_values.specs.Numbered.{level};
ghost use Rattle.bank_values.specs.ReadBack.{predicate_at, IsBelow};
ghost use Rattle.bank_values.specs.Same.{HasSameMemory, HasSameRegisters, HasSameSpot};

use crate::node::BankNode;
use crate::pred::BankPred;
use bits_core::Width;
use predicates::Values;

fn are_same_values(left: &Values, right: &Values) -> bool
    ensures { IsTrue result ↔ (left.now ≡ right.now) }
{
    match (left, right) {
        (Values::Range(low, high), Values::Range(least, most)) => low == least && high == most,
        (Values::OneOf(numbers), Values::OneOf(others)) => numbers.as_slice() == others.as_slice(),
        _ => false,
    }
}

fn are_same_bounds(left: &[(u64, Values)], right: &[(u64, Values)]) -> bool
    ensures { IsTrue result ↔ (left.now ≡ right.now) }
{
    if left.len() != right.len() {
        return false;
    }
    for i in 0..left.len() {
        if left[i].0 != right[i].0 || !are_same_values(&left[i].1, &right[i].1) {
            return false;
        }
    }
    true
}

fn is_same_spot(left: &BankNode, right: &BankNode) -> bool
    ensures { IsTrue result ↔ HasSameSpot left.now right.now }
{
    left.bytes == right.bytes
        && left.value == right.value
        && left.names.as_slice() == right.names.as_slice()
}

#[tactic(auto, using(crate::proofs::SameLemmas::node_exactly))]
#[cycle(same)]
fn is_same_node(left: &BankNode, right: &BankNode) -> bool
    ensures { IsTrue result ↔ (left.now ≡ right.now) }
{
    is_same_spot(left, right) && are_same_nodes(left.under.as_slice(), right.under.as_slice())
}

#[cycle(same)]
fn are_same_nodes(left: &[BankNode], right: &[BankNode]) -> bool
    ensures { IsTrue result ↔ (left.now ≡ right.now) }
{
    if left.len() != right.len() {
        return false;
    }
    for i in 0..left.len() {
        if !is_same_node(&left[i], &right[i]) {
            return false;
        }
    }
    true
}

fn are_same_numbers(left: &[Option<u64>], right: &[Option<u64>]) -> bool
    ensures { IsTrue result ↔ (left.now ≡ right.now) }
{
    if left.len() != right.len() {
        return false;
    }
    for i in 0..left.len() {
        if left[i] != right[i] {
            return false;
        }
    }
    true
}

fn is_same_fact(left: Option<(Width, u64, u64)>, right: Option<(Width, u64, u64)>) -> bool
    ensures { IsTrue result ↔ (left ≡ right) }
{
    match (left, right) {
        (None, None) => true,
        (Some((w, first, second)), Some((v, low, high))) => {
            w == v && first == low && second == high
        },
        _ => false,
    }
}

fn have_same_registers(left: &BankPred, right: &BankPred) -> bool
    ensures { IsTrue result ↔ HasSameRegisters left.now right.now }
{
    are_same_numbers(left.regs.as_slice(), right.regs.as_slice())
        && is_same_fact(left.flags, right.flags)
}

#[tactic(auto, using(crate::proofs::SameLemmas::levels_exactly))]
fn have_same_memory(left: &BankPred, right: &BankPred) -> bool
    ensures { IsTrue result ↔ HasSameMemory left.now right.now }
{
    are_same_bounds(left.bounds.as_slice(), right.bounds.as_slice())
        && are_same_nodes(left.nodes.as_slice(), right.nodes.as_slice())
}

impl BankPred {
    /// Whether both read the same over terms that differ.
    #[tactic(auto, using(crate::proofs::SameLemmas::same_exactly))]
    pub fn is_same(&self, other: &BankPred) -> bool
        ensures { (terms : List PlainSum) → AreApart terms → IsBelow (length terms) self.now → IsBelow (length terms) other.now
            → (IsTrue result ↔ (predicate_at terms self.now ≡ predicate_at terms other.now)) }
    {
        have_same_registers(self, other) && have_same_memory(self, other)
    }
}
