// What is known where a callee begins and after its return, and where a call leads (System V x86-64 psABI, 3.2.1).
ghost use Rattle.std.specs.Prelude.{◌≡◌, ◌↔◌, IfOk, IsTrue, OnOk, is_some};
ghost use Rattle.std.specs.List.{list_all};
ghost use Rattle.std.specs.Option.{option_and_then};
ghost use Rattle.bits_core.specs.declared.width.Width.TheVariants.{W64};
ghost use Rattle.sym_terms.specs.Plain.{constant_alone};
ghost use Rattle.mem_forest.specs.Search.{value_at};
ghost use Rattle.x86_instr.specs.Classes.{class_of};
ghost use Rattle.x86_instr.specs.Fits.{InForm};
ghost use Rattle.x86_machine.specs.Next.{next_address};
ghost use Rattle.step_rules.specs.Drop.{dropped};
ghost use Rattle.step_rules.specs.Access.{known_term};
ghost use Rattle.step_rules.specs.Calls.{begun, changed_by, cleared, call_target, KeepsHold};
ghost use Rattle.step_values.specs.Views.{view_of};
ghost use Rattle.sym_step.specs.Kept.{are_kept};
ghost use Rattle.sym_step.specs.Returned.{returned};

use bits_core::Width;
use mem_forest::Region;
use predicates::{Pred, SiteView};
use std::alloc::Global;
use step_effects::below_top;
use step_values::{After, Fact, Memory, Slot, name};
use sym_terms::{NoMemory, Sym, Term};
use x86_instr::{Class, Instr, RAX};

/// The address after an instruction.
pub(crate) fn next_address(i: &Instr) -> u64
    ensures { result ≡ next_address i.now }
{
    i.addr.wrapping_add(u64::from(i.len))
}

// The facts go that mention the name of the instruction's site.
fn drop_name(after: &mut After, alloc: Global, i: &Instr) -> Result<(), NoMemory>
    ensures { OnOk result (after.new ≡ dropped i.now after.old) }
{
    after.forget(alloc, Sym::Named(i.addr))
}

/// The facts that don't mention the name of the instruction's site.
pub(crate) fn dropped<'p>(alloc: Global, i: &Instr, p: &'p Pred) -> Result<After<'p>, NoMemory>
    ensures { IfOk result (λ a. a ≡ dropped i.now p.now) }
{
    let mut after = After::kept(alloc, p)?;
    match drop_name(&mut after, alloc, i) {
        Ok(()) => Ok(after),
        Err(e) => Err(e),
    }
}

// What is known where the callee begins: a call has stored the next address.
fn begin(after: &mut After, alloc: Global, v: &SiteView, i: &Instr) -> Result<(), NoMemory>
    ensures { OnOk result (after.new ≡ begun (class_of i.now.op) (view_of v.now) i.now after.old) }
{
    match i.op.class() {
        Class::Call => {
            let next = Term::constant(alloc, next_address(i));
            let below = below_top(after, alloc)?;
            after.store(alloc, v, Width::W64, below, Some(&next))
        }
        _ => Ok(()),
    }
}

/// rax, rcx, rdx, rsi, rdi and r8 to r11.
const CHANGED_BY_CALLEE: [u8; 9] = [0, 1, 2, 6, 7, 8, 9, 10, 11];

/// rax, rcx and r11.
const CHANGED_BY_SYSTEM: [u8; 3] = [0, 1, 11];

// The registers that may be changed when an instruction of the class is done.
fn changed_by(class: Class) -> &'static [u8]
    ensures { result.now ≡ changed_by class }
{
    match class {
        Class::Call => &CHANGED_BY_CALLEE,
        Class::SystemCall => &CHANGED_BY_SYSTEM,
        _ => &[],
    }
}

fn clear(after: &mut After, registers: &[u8])
    ensures { after.new ≡ cleared registers.now after.old }
{
    for r in registers {
        after.set_register(*r, Slot::unknown());
    }
}

/// What is known after the return: rax is the name.
pub(crate) fn returned(
    after: &mut After,
    alloc: Global,
    v: &SiteView,
    i: &Instr,
) -> Result<(), NoMemory>
    ensures { OnOk result (after.new ≡ returned (view_of v.now) i.now after.old) }
{
    begin(after, alloc, v, i)?;
    clear(after, changed_by(i.op.class()));
    after.clear_values(alloc, v.keeps)?;
    after.set_fact(Fact::unknown());
    drop_name(after, alloc, i)?;
    let name = name(alloc, i)?;
    after.set_register(RAX, Slot::made(Some(name)));
    Ok(())
}

// The constant of the operand of a call.
fn operand_target(
    after: &After,
    alloc: Global,
    v: &SiteView,
    i: &Instr,
) -> Result<Option<u64>, NoMemory>
    ensures { IfOk result (λ t. t ≡ option_and_then constant_alone (known_term (view_of v.now) i.now after.now W64 i.now.dst)) }
{
    let target = after.known(alloc, v, i, Width::W64, &i.dst)?;
    match target.get() {
        Some(target) => Ok(target.as_constant()),
        None => Ok(None),
    }
}

/// The constant to which a call leads: its operand, read before the push. `None` where it isn't constant, and at any other
/// instruction.
pub fn call_target(
    alloc: Global,
    v: &SiteView,
    i: &Instr,
    p: &Pred,
) -> Result<Option<u64>, NoMemory>
    requires { InForm i.now }
    ensures { IfOk result (λ t. t ≡ call_target (view_of v.now) i.now p.now) }
{
    match i.op.class() {
        Class::Call => {
            let after = dropped(alloc, i, p)?;
            operand_target(&after, alloc, v, i)
        }
        _ => Ok(None),
    }
}

fn have_values(memory: &Memory, keeps: &[Region]) -> bool
    ensures { result ≡ list_all (λ k. is_some (value_at k.at k.bytes memory.now)) keeps.now }
{
    keeps.iter().all(|region| memory.has_value(region))
}

// Whether each region that the callee keeps has a value once it has begun.
fn kept_at_begin(
    after: &mut After,
    alloc: Global,
    v: &SiteView,
    i: &Instr,
) -> Result<bool, NoMemory>
    ensures { IfOk result (λ b. b ≡ list_all (λ k. is_some (value_at k.at k.bytes (begun (class_of i.now.op) (view_of v.now) i.now after.old).forest)) (view_of v.now).keeps) }
{
    begin(after, alloc, v, i)?;
    Ok(have_values(after.memory(), v.keeps))
}

fn are_kept(alloc: Global, v: &SiteView, i: &Instr, p: &Pred) -> Result<bool, NoMemory>
    ensures { IfOk result (λ b. b ≡ are_kept (view_of v.now) i.now p.now) }
{
    let mut after = dropped(alloc, i, p)?;
    kept_at_begin(&mut after, alloc, v, i)
}

/// Whether each region that the callee keeps is a cell with a value where it begins.
pub fn keeps_hold(alloc: Global, v: &SiteView, i: &Instr, p: &Pred) -> Result<bool, NoMemory>
    requires { InForm i.now }
    ensures test { IfOk result (λ b. b ≡ are_kept (view_of v.now) i.now p.now) }
    ensures exact { IfOk result (λ b. IsTrue b ↔ KeepsHold (view_of v.now) i.now p.now) }
{
    let held = are_kept(alloc, v, i, p)?;
    Ok(held)
}
