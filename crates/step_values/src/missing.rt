ghost use Rattle.std.specs.Prelude.{◌≡◌, length};
ghost use Rattle.predicates.specs.Missing.{missing_register, missing};
ghost use Rattle.step_values.specs.Parts.{with_bounds};

use crate::after::After;
use crate::slot::Slot;
use mem_forest::holds_term;
use predicates::{Bound, Conjunct, Pred, check_nodes, holds_flags, missing_bound};
use sym_terms::Term;

pub(crate) fn missing_register(held: &[Slot], wanted: &[Option<Term>]) -> Option<u8>
    requires held { length held.now ≡ 16 }
    requires wanted { length wanted.now ≡ 16 }
    ensures { result ≡ missing_register held.now wanted.now }
{
    for number in 0..16 {
        let at = usize::from(number);
        let slot = &held[at];
        if !holds_term(slot.get(), wanted[at].as_ref()) {
            return Some(number);
        }
    }
    None
}

impl<'p> After<'p> {
    /// The first conjunct of `q` that doesn't hold, `None` where each holds; takes no memory.
    pub fn first_missing(&self, q: &Pred) -> Option<Conjunct>
        ensures { result ≡ missing self.now q.now }
    {
        self.first_missing_with(self.bounds(), q)
    }

    /// The same where other bounds are known; takes no memory.
    pub fn first_missing_with(&self, bounds: &[Bound], q: &Pred) -> Option<Conjunct>
        ensures { result ≡ missing (with_bounds self.now bounds.now) q.now }
    {
        let nodes = q.forest.nodes();
        if let Some(register) = missing_register(self.registers(), q.regs.as_slice()) {
            return Some(Conjunct::Register(register));
        }
        if !holds_flags(self.fact(), q.flags.as_ref()) {
            return Some(Conjunct::Flags);
        }
        if let Some(place) = missing_bound(bounds, q.bounds.as_slice()) {
            return Some(Conjunct::Bound(place));
        }
        match check_nodes(nodes, self.memory().forest().nodes(), 0) {
            Ok(_) => None,
            Err(place) => Some(Conjunct::Cell(place)),
        }
    }
}
