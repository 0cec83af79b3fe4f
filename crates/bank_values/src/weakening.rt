ghost use Rattle.std.specs.Prelude.{◌≡◌, ◌&&◌, ℕ, IsTrue, None, if◌then◌else◌, List, length, filter, map, nat_le};
ghost use Rattle.std.specs.List.{list_all};
ghost use Rattle.std.specs.Option.{option_copied};
ghost use Rattle.sym_terms.specs.Plain.{PlainSum};
ghost use Rattle.predicates.specs.Bounds.{numbers_ascend, values_ascend};
ghost use Rattle.predicates.specs.Holding.{is_among, are_within};
ghost use Rattle.predicates.specs.Weaken.{weaken};
ghost use Rattle.term_bank.specs.Terms.{AreApart};
ghost use Rattle.bank_values.specs.Numbered.{level};
ghost use Rattle.bank_values.specs.ReadBack.{predicate_at, IsBelow, IsPred};
ghost use Rattle.bank_values.specs.Weaken.{holds_number, weaker_numbers, holds_fact, weaker_fact, holds_limit, has_number, begins_with, number_sibling, holds_numbers, number_holder, weaker_forest};

use crate::node::BankNode;
use crate::pred::BankPred;
use bits_core::Width;
use predicates::Values;

fn holds_number(held: Option<u64>, wanted: Option<u64>) -> bool
    ensures { result ≡ holds_number held wanted }
{
    match (held, wanted) {
        (_, None) => true,
        (None, Some(_)) => false,
        (Some(held), Some(wanted)) => held == wanted,
    }
}

fn weaker_number(held: Option<u64>, number: Option<u64>) -> Option<u64>
    ensures { result ≡ (if holds_number held number then number else None) }
{
    if holds_number(held, number) {
        number
    } else {
        None
    }
}

fn weaken_each(regs: &mut Vec<Option<u64>>, held: &[Option<u64>])
    requires { length held.now ≡ length regs.old.items }
    ensures { regs.new.items ≡ weaker_numbers held.now regs.old.items }
{
    for i in 0..held.len() {
        regs[i] = weaker_number(held[i], regs[i]);
    }
}

// The numbers stay that are the same in the other list, where that is as long.
fn weaken_registers(regs: &mut Vec<Option<u64>>, held: &[Option<u64>])
    ensures { length held.now ≡ length regs.old.items → regs.new.items ≡ weaker_numbers held.now regs.old.items }
{
    if held.len() == regs.len() {
        weaken_each(regs, held);
    }
}

fn holds_fact(held: Option<(Width, u64, u64)>, wanted: Option<(Width, u64, u64)>) -> bool
    ensures { result ≡ holds_fact held wanted }
{
    match (held, wanted) {
        (_, None) => true,
        (None, Some(_)) => false,
        (Some((w, left, right)), Some((v, first, second))) => {
            w.bits() == v.bits() && left == first && right == second
        }
    }
}

fn weaken_fact(fact: &mut Option<(Width, u64, u64)>, held: Option<(Width, u64, u64)>)
    ensures { fact.new ≡ weaker_fact held fact.old }
{
    if !holds_fact(held, *fact) {
        *fact = None;
    }
}

#[tactic(auto, using(predicates::proofs::AmongLemmas::found_among))]
fn is_among(number: u64, numbers: &[u64]) -> bool
    requires { IsTrue (numbers_ascend numbers.now) }
    ensures { result ≡ is_among number numbers.now }
{
    numbers.binary_search(&number).is_ok()
}

// Whether each number is one of the others, which ascend.
fn are_among(numbers: &[u64], others: &[u64]) -> bool
    requires { IsTrue (numbers_ascend others.now) }
    ensures { result ≡ list_all (λ n. is_among n others.now) numbers.now }
{
    for number in numbers {
        if !is_among(*number, others) {
            return false;
        }
    }
    true
}

fn are_between(numbers: &[u64], least: u64, most: u64) -> bool
    ensures { result ≡ list_all (λ n. nat_le least n && nat_le n most) numbers.now }
{
    numbers.iter().all(|n| least <= *n && *n <= most)
}

// Whether the values are some of the others; a range is taken for no list.
fn are_within(values: &Values, others: &Values) -> bool
    requires { IsTrue (values_ascend others.now) }
    ensures { result ≡ are_within values.now others.now }
{
    match (values, others) {
        (Values::Range(low, high), Values::Range(least, most)) => least <= low && high <= most,
        (Values::Range(..), Values::OneOf(_)) => false,
        (Values::OneOf(numbers), Values::Range(least, most)) => {
            are_between(numbers.as_slice(), *least, *most)
        }
        (Values::OneOf(numbers), Values::OneOf(others)) => {
            are_among(numbers.as_slice(), others.as_slice())
        }
    }
}

fn is_limit_held(limit: &(u64, Values), held: &[(u64, Values)]) -> bool
    requires { IsTrue (values_ascend limit.now.1) }
    ensures { result ≡ holds_limit held.now limit.now }
{
    for (key, set) in held {
        if *key == limit.0 && are_within(set, &limit.1) {
            return true;
        }
    }
    false
}

fn weaken_bounds(bounds: &mut Vec<(u64, Values)>, held: &[(u64, Values)])
    requires { IsTrue (list_all (λ b. values_ascend b.1) bounds.old.items) }
    ensures { bounds.new.items ≡ filter (holds_limit held.now) bounds.old.items }
{
    let mut left = bounds.len();
    while left > 0 {
        left -= 1;
        if !is_limit_held(&bounds[left], held) {
            bounds.remove(left);
        }
    }
}

fn do_ascend(bounds: &[(u64, Values)]) -> bool
    ensures { result ≡ list_all (λ b. values_ascend b.1) bounds.now }
{
    bounds.iter().all(|bound| bound.1.ascend())
}

// The bounds stay that the others hold, where each has its values in order.
fn weaken_limits(bounds: &mut Vec<(u64, Values)>, held: &[(u64, Values)])
    ensures { IsTrue (list_all (λ b. values_ascend b.1) bounds.old.items) → bounds.new.items ≡ filter (holds_limit held.now) bounds.old.items }
{
    if do_ascend(bounds.as_slice()) {
        weaken_bounds(bounds, held);
    }
}

fn has_number(n: u64, names: &[u64]) -> bool
    ensures { result ≡ has_number n names.now }
{
    names.iter().any(|name| *name == n)
}

fn begins_with(n: u64, names: &[u64]) -> bool
    ensures { result ≡ begins_with n names.now }
{
    match names.first() {
        Some(first) => *first == n,
        None => false,
    }
}

fn find_sibling(nodes: &[BankNode], at: u64, bytes: u8) -> Option<&BankNode>
    ensures { option_copied result ≡ number_sibling at bytes (level nodes.now) }
{
    for node in nodes {
        if node.bytes == bytes && begins_with(at, node.names.as_slice()) {
            return Some(node);
        }
    }
    None
}

fn has_numbers(names: &[u64], wanted: &[u64]) -> bool
    ensures { result ≡ list_all (λ n. has_number n names.now) wanted.now }
{
    wanted.iter().all(|n| has_number(*n, names))
}

fn holds_numbers(node: &BankNode, wanted: &BankNode) -> bool
    ensures { result ≡ holds_numbers node.now wanted.now.names wanted.now.value }
{
    has_numbers(node.names.as_slice(), wanted.names.as_slice())
        && holds_number(node.value, wanted.value)
}

fn find_holder<'a>(nodes: &'a [BankNode], wanted: &BankNode) -> Option<&'a BankNode>
    ensures { option_copied result ≡ number_holder (level nodes.now) wanted.now.names wanted.now.bytes wanted.now.value }
{
    let first = wanted.names.first()?;
    let node = find_sibling(nodes, *first, wanted.bytes)?;
    if holds_numbers(node, wanted) {
        Some(node)
    } else {
        None
    }
}

#[cycle(weakening)]
fn weaken_nodes(nodes: &mut Vec<BankNode>, held: &[BankNode])
    ensures { level nodes.new.items ≡ weaker_forest (level held.now) (level nodes.old.items) }
{
    let mut left = nodes.len();
    while left > 0 {
        left -= 1;
        let node = &mut nodes[left];
        match find_holder(held, node) {
            Some(holder) => weaken_nodes(&mut node.under, holder.under.as_slice()),
            None => {
                nodes.remove(left);
            }
        }
    }
}

impl BankPred {
    /// Exactly what `other` says too stays, as `Pred::weaken` has it, where equal terms are equal numbers. Takes no
    /// memory.
    pub fn weaken(&mut self, other: &BankPred)
        ensures value { (terms : List PlainSum) → AreApart terms → IsBelow (length terms) self.old → IsBelow (length terms) other.now
            → IsPred (predicate_at terms self.old) → IsPred (predicate_at terms other.now)
            → predicate_at terms self.new ≡ weaken (predicate_at terms self.old) (predicate_at terms other.now) }
        ensures within { (terms : List PlainSum) → IsBelow (length terms) self.old
            → IsPred (predicate_at terms self.old) → IsPred (predicate_at terms other.now) → IsBelow (length terms) self.new }
    {
        weaken_registers(&mut self.regs, other.regs.as_slice());
        weaken_fact(&mut self.flags, other.flags);
        weaken_limits(&mut self.bounds, other.bounds.as_slice());
        weaken_nodes(&mut self.nodes, other.nodes.as_slice());
    }
}
