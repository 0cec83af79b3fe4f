ghost use Rattle.std.specs.Prelude.{◌≡◌, map};
ghost use Rattle.step_rules.specs.Drop.{term_without};

use crate::slot::Slot;
use sym_terms::Sym;

/// The terms go that mention a symbol.
pub(crate) fn forget_terms(regs: &mut Vec<Slot>, s: Sym)
    ensures { regs.new.items ≡ map (term_without s) regs.old.items }
{
    for r in 0..regs.len() {
        let slot = &regs[r];
        if slot.mentions(s) {
            regs[r] = Slot::unknown();
        }
    }
}
