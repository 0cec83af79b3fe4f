ghost use Rattle.std.specs.Prelude.{◌≡◌, length, IsTrue};
ghost use Rattle.std.specs.Option.{option_copied};
ghost use Rattle.predicates.specs.Bounds.{are_formed};
ghost use Rattle.predicates.specs.Holding.{holds_flags};
ghost use Rattle.predicates.specs.Weaken.{weaker_registers, weaker_flags, weaker_bounds, weaken};

use crate::bound::{Bound, FlagFact};
use crate::entail::holds_flags;
use crate::pred::Pred;
use mem_forest::holds_term;
use sqlite_items::Items;
use sym_terms::Term;

impl Pred {
    /// Exactly the conjuncts stay that `other` entails; a node of the forest that goes takes those under
    /// it. Takes no memory.
    pub fn weaken(&mut self, other: &Pred)
        ensures { self.new ≡ weaken self.old other.now }
    {
        weaken_registers(&mut self.regs, other.regs.as_slice());
        weaken_flags(&mut self.flags, other.flags.as_ref());
        weaken_bounds(&mut self.bounds, other.bounds.as_slice());
        self.forest.weaken(&other.forest);
    }
}

fn weaken_registers(regs: &mut Items<Option<Term>>, held: &[Option<Term>])
    requires { length held.now ≡ length regs.old }
    ensures { regs.new ≡ weaker_registers held.now regs.old }
{
    for i in 0..held.len() {
        let term = &regs.as_slice()[i];
        if !holds_term(held[i].as_ref(), term.as_ref()) {
            regs.set(i, None);
        }
    }
}

fn weaken_flags(flags: &mut Option<FlagFact>, held: Option<&FlagFact>)
    ensures { flags.new ≡ weaker_flags (option_copied held.entry) flags.old }
{
    if !holds_flags(held, flags.as_ref()) {
        *flags = None;
    }
}

fn weaken_bounds(bounds: &mut Items<Bound>, held: &[Bound])
    requires { IsTrue (are_formed bounds.old) }
    ensures { bounds.new ≡ weaker_bounds held.now bounds.old }
{
    let mut left = bounds.len();
    while left > 0 {
        left -= 1;
        if !bounds.as_slice()[left].is_held(held) {
            bounds.remove(left);
        }
    }
}
