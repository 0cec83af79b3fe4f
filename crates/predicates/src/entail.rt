ghost use Rattle.std.specs.Prelude.{◌≡◌, ◌↔◌, ◌<◌, ◌≤◌, ◌+◌, ◌^◌, length, IsTrue, IsNone, IfOk};
ghost use Rattle.std.specs.Option.{option_copied};
ghost use Rattle.std.specs.Result.{result_err};
ghost use Rattle.mem_forest.specs.Plain.{cells, count};
ghost use Rattle.mem_forest.specs.Shape.{IsForest};
ghost use Rattle.predicates.specs.Bounds.{are_formed};
ghost use Rattle.predicates.specs.Holding.{holds_flags};
ghost use Rattle.predicates.specs.Missing.{missing_register, missing_bound, missing_cell, missing};

use crate::bound::{Bound, FlagFact};
use crate::conjunct::Conjunct;
use crate::pred::Pred;
use mem_forest::{Node, find_holder, holds_term};
use sym_terms::Term;

impl Pred {
    ghost use Rattle.predicates.specs.Entails.{Entails};

    /// The first conjunct of `q` that `self` doesn't entail, in the order registers, flags, bounds, nodes
    /// in preorder, and `None` exactly where `self` entails `q`. Takes no memory.
    pub fn first_missing(&self, q: &Pred) -> Option<Conjunct>
        ensures first { result ≡ missing self.now q.now }
        ensures none { IsNone result ↔ Entails self.now q.now }
    {
        find_missing(self, q)
    }

    /// Whether each conjunct of `q` follows from the like conjunct of `self`: a known register or the flag
    /// fact from the same one; a bound from one with its key and values within its own, though a list never
    /// from a range; a node from one with its first name and size under parents with the same, that has its
    /// names and, where it has one, its value. Takes no memory.
    pub fn entails(&self, q: &Pred) -> bool
        ensures { IsTrue result ↔ Entails self.now q.now }
    {
        self.first_missing(q).is_none()
    }
}

fn find_missing(held: &Pred, wanted: &Pred) -> Option<Conjunct>
    ensures first { result ≡ missing held.now wanted.now }
    ensures sixteen { length held.now.regs ≡ length wanted.now.regs }
    ensures forest { IsForest wanted.now.forest }
{
    let nodes = wanted.forest.nodes();
    if let Some(register) = missing_register(held.regs.as_slice(), wanted.regs.as_slice()) {
        return Some(Conjunct::Register(register));
    }
    if !holds_flags(held.flags.as_ref(), wanted.flags.as_ref()) {
        return Some(Conjunct::Flags);
    }
    if let Some(place) = missing_bound(held.bounds.as_slice(), wanted.bounds.as_slice()) {
        return Some(Conjunct::Bound(place));
    }
    match check_nodes(nodes, held.forest.nodes(), 0) {
        Ok(_) => None,
        Err(place) => Some(Conjunct::Cell(place)),
    }
}

fn missing_register(held: &[Option<Term>], wanted: &[Option<Term>]) -> Option<u8>
    requires held { length held.now ≡ 16 }
    requires wanted { length wanted.now ≡ 16 }
    ensures { result ≡ missing_register held.now wanted.now }
{
    for number in 0..16 {
        let at = usize::from(number);
        if !holds_term(held[at].as_ref(), wanted[at].as_ref()) {
            return Some(number);
        }
    }
    None
}

/// Whether the second flag fact, where there is one, is the first.
pub fn holds_flags(held: Option<&FlagFact>, wanted: Option<&FlagFact>) -> bool
    ensures { result ≡ holds_flags (option_copied held.entry) (option_copied wanted.entry) }
{
    match (held, wanted) {
        (_, None) => true,
        (None, Some(_)) => false,
        (Some(held), Some(wanted)) => held.is(wanted),
    }
}

/// The place of the first bound of the second list that none of the first holds; takes no memory.
pub fn missing_bound(held: &[Bound], wanted: &[Bound]) -> Option<u32>
    requires few { length wanted.now ≤ 16 }
    requires formed { IsTrue (are_formed wanted.now) }
    ensures { result ≡ missing_bound held.now wanted.now }
{
    let mut place = 0;
    for bound in wanted {
        if !bound.is_held(held) {
            return Some(place);
        }
        place += 1;
    }
    None
}

/// The place after these nodes in preorder, of which the first has place `first`, or as an error the
/// place of the first that isn't held. It calls itself once for each level, of which a forest has at most 64.
#[cycle(cells)]
pub fn check_nodes(wanted: &[Node], held: &[Node], first: u32) -> Result<u32, u32>
    requires { first + count (cells wanted.now) < 2 ^ 32 }
    ensures missing { result_err result ≡ missing_cell first (cells held.now) (cells wanted.now) }
    ensures next { IfOk result (λ n. n ≡ first + count (cells wanted.now)) }
{
    let mut place = first;
    for node in wanted {
        let Some(holder) = find_holder(held, node) else {
            return Err(place);
        };
        place = check_nodes(node.under.as_slice(), holder.under.as_slice(), place + 1)?;
    }
    Ok(place)
}
