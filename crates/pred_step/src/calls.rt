// What is known after the return of a call, and where a call leads (System V x86-64 psABI, 3.2.1).
ghost use Rattle.std.specs.Prelude.{◌≡◌, IfOk, OnOk};
ghost use Rattle.x86_instr.specs.Classes.{class_of};
ghost use Rattle.x86_machine.specs.Next.{next_address};
ghost use Rattle.step_rules.specs.Drop.{dropped};
ghost use Rattle.step_rules.specs.Calls.{begin, changed_by, cleared, after, target_by};
ghost use Rattle.pred_moves.specs.Views.{view_of};

use crate::moves::below_top;
use bits_core::Width;
use pred_moves::{forget, known, name, set_flags, set_register, store};
use predicates::{Pred, SiteView};
use std::alloc::Global;
use sym_terms::{NoMemory, Sym, Term};
use x86_instr::{Class, Instr, RAX};

/// The address after an instruction.
pub(crate) fn next_address(i: &Instr) -> u64
    ensures { result ≡ next_address i.now }
{
    i.addr.wrapping_add(u64::from(i.len))
}

/// The facts that don't mention the name of the instruction's site.
pub(crate) fn drop_name(p: &mut Pred, i: &Instr)
    ensures { p.new ≡ dropped i.now p.old }
{
    forget(p, Sym::Named(i.addr));
}

/// What is known where the callee begins: a call has stored the next address. `NoMemory` where memory runs out.
pub fn begin(alloc: Global, v: &SiteView, i: &Instr, p: &mut Pred) -> Result<(), NoMemory>
    ensures { OnOk result (p.new ≡ begin (view_of v.now) i.now p.old) }
{
    drop_name(p, i);
    match i.op.class() {
        Class::Call => {
            let next = Term::constant(alloc, next_address(i));
            let below = below_top(alloc, p)?;
            store(v, p, Width::W64, below, Some(&next))
        }
        _ => Ok(()),
    }
}

/// rax, rcx, rdx, rsi, rdi and r8 to r11, which a callee may change.
const OF_CALLEE: [u8; 9] = [0, 1, 2, 6, 7, 8, 9, 10, 11];

/// rax, rcx and r11, which a system call may change.
const OF_SYSTEM: [u8; 3] = [0, 1, 11];

fn clear(p: &mut Pred, registers: &[u8])
    ensures { p.new ≡ cleared registers.now p.old }
{
    for r in registers {
        set_register(p, *r, None);
    }
}

fn clear_changed(p: &mut Pred, class: Class)
    ensures { p.new ≡ cleared (changed_by class) p.old }
{
    match class {
        Class::Call => clear(p, &OF_CALLEE),
        Class::SystemCall => clear(p, &OF_SYSTEM),
        _ => {}
    }
}

/// What is known after the return: rax is the name.
pub(crate) fn returned(alloc: Global, v: &SiteView, i: &Instr, p: &mut Pred) -> Result<(), NoMemory>
    ensures { OnOk result (p.new ≡ after (view_of v.now) i.now p.old) }
{
    begin(alloc, v, i, p)?;
    clear_changed(p, i.op.class());
    p.forest.clear_values(v.keeps);
    set_flags(p, None);
    drop_name(p, i);
    let name = name(alloc, i)?;
    set_register(p, RAX, Some(name));
    Ok(())
}

/// The constant to which a call leads, from what is known without its site's old name: its operand, read before the push.
/// `None` where it isn't constant, and at any other instruction.
pub(crate) fn call_target(
    alloc: Global,
    v: &SiteView,
    i: &Instr,
    p: &Pred,
) -> Result<Option<u64>, NoMemory>
    ensures { IfOk result (λ t. t ≡ target_by (class_of i.now.op) (view_of v.now) i.now p.now) }
{
    match i.op.class() {
        Class::Call => match known(alloc, v, i, p, Width::W64, &i.dst)? {
            Some(target) => Ok(target.as_constant()),
            None => Ok(None),
        },
        _ => Ok(None),
    }
}
