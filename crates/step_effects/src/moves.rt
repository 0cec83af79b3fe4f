// What is known after instructions that move data.
ghost use Rattle.std.specs.Prelude.{◌≡◌, IfOk, OnOk, Some};
ghost use Rattle.std.specs.Option.{option_copied, option_map, option_or};
ghost use Rattle.std.specs.Vec.{vec_items};
ghost use Rattle.bits_core.specs.declared.width.Width.TheVariants.{W64};
ghost use Rattle.x86_instr.specs.Registers.{rsp};
ghost use Rattle.x86_machine.specs.Moves.{half_of};
ghost use Rattle.step_rules.specs.Names.{name_term, store_name as store_name_of};
ghost use Rattle.step_rules.specs.Terms.{plus_number};
ghost use Rattle.step_rules.specs.Access.{register, with_register, loaded_from, after_read, write_term};
ghost use Rattle.step_rules.specs.Tables.{table_of};
ghost use Rattle.step_rules.specs.Moves.{by_table, moved, extended_by_sign, addressed, exchanged, below_top, pushed, operand_pushed, quad_at, popped, after_leave, widened, after_cwd, swapped, after_setcc};
ghost use Rattle.step_values.specs.Views.{view_of};

use crate::steps::operands;
use crate::tables::{table_of, with_values};
use crate::terms::{minus_number, plus_number, sext};
use bits_core::Width;
use predicates::SiteView;
use std::alloc::Global;
use step_values::{After, Slot, cut, name, store_name};
use sym_terms::{NoMemory, Term, copy_known};
use x86_instr::{Instr, Operand, RAX, RBP, RDX, RSP};

// A loaded number replaces the first operand; one of a table's is the name, which is one of its numbers.
fn by_table<'p>(
    after: &mut After<'p>,
    alloc: Global,
    v: &SiteView,
    i: &Instr,
    numbers: Option<Vec<u64>>,
    term: Slot<'p>,
) -> Result<(), NoMemory>
    ensures { OnOk result (after.new ≡ by_table (view_of v.now) i.now after.old (option_map vec_items numbers) term.entry) }
{
    match numbers {
        Some(numbers) => {
            with_values(after, alloc, i, numbers)?;
            after.write(alloc, v, i, i.width, &i.dst, Slot::unknown())
        }
        None => after.write(alloc, v, i, i.width, &i.dst, term),
    }
}

// The second operand was read; its term, or the name as one of a table's numbers, replaces the first.
fn taken<'p>(
    after: &mut After<'p>,
    alloc: Global,
    v: &SiteView,
    i: &Instr,
    signed: bool,
    term: Slot<'p>,
) -> Result<(), NoMemory>
    ensures { OnOk result (
        let read = after_read (view_of v.now) i.now after.old i.now.src_width i.now.src in
        after.new ≡ by_table (view_of v.now) i.now read (table_of (view_of v.now) i.now after.old signed) term.entry) }
{
    let numbers = table_of(after, alloc, v, i, signed)?;
    after.note(alloc, v, i, i.src_width, &i.src)?;
    by_table(after, alloc, v, i, numbers, term)
}

/// mov, movzx.
pub(crate) fn moved(
    after: &mut After,
    alloc: Global,
    v: &SiteView,
    i: &Instr,
) -> Result<(), NoMemory>
    ensures { OnOk result (after.new ≡ moved (view_of v.now) i.now after.old) }
{
    let operand = after.read(alloc, v, i, i.src_width, &i.src)?;
    let term = cut(alloc, i.width, operand)?;
    taken(after, alloc, v, i, false, term)
}

/// movsx.
pub(crate) fn extended_by_sign(
    after: &mut After,
    alloc: Global,
    v: &SiteView,
    i: &Instr,
) -> Result<(), NoMemory>
    ensures { OnOk result (after.new ≡ extended_by_sign (view_of v.now) i.now after.old) }
{
    let operand = after.known(alloc, v, i, i.src_width, &i.src)?;
    let term = cut(alloc, i.width, sext(alloc, i.src_width, operand)?)?;
    taken(after, alloc, v, i, true, term)
}

/// lea.
pub(crate) fn addressed(
    after: &mut After,
    alloc: Global,
    v: &SiteView,
    i: &Instr,
) -> Result<(), NoMemory>
    ensures { OnOk result (after.new ≡ addressed (view_of v.now) i.now after.old) }
{
    let address = after.address_of(alloc, &i.src)?;
    let term = cut(alloc, i.width, Slot::made(address))?;
    after.write(alloc, v, i, i.width, &i.dst, term)
}

// After both operands were read: the first takes the second's term, and the second the first's.
fn write_both<'p>(
    after: &mut After<'p>,
    alloc: Global,
    v: &SiteView,
    i: &Instr,
    first: Slot<'p>,
    second: Slot<'p>,
) -> Result<(), NoMemory>
    ensures { OnOk result (
        let written = write_term (view_of v.now) i.now after.old i.now.width i.now.dst second.entry in
        after.new ≡ write_term (view_of v.now) i.now written i.now.width i.now.src first.entry) }
{
    after.write(alloc, v, i, i.width, &i.dst, second)?;
    after.write(alloc, v, i, i.width, &i.src, first)
}

/// xchg.
pub(crate) fn exchanged(
    after: &mut After,
    alloc: Global,
    v: &SiteView,
    i: &Instr,
) -> Result<(), NoMemory>
    ensures { OnOk result (after.new ≡ exchanged (view_of v.now) i.now after.old) }
{
    let (first, second) = operands(after, alloc, v, i)?;
    after.note(alloc, v, i, i.width, &i.dst)?;
    write_both(after, alloc, v, i, first, second)
}

/// The address of the eight bytes that the stack grows by.
pub fn below_top(after: &After, alloc: Global) -> Result<Option<Term>, NoMemory>
    ensures { IfOk result (λ t. t ≡ below_top after.now) }
{
    minus_number(alloc, 8, after.peek(RSP))
}

/// The address of the eight bytes that a push stores to: the name, where that stands for it and no more is known.
pub fn push_address(after: &After, alloc: Global, i: &Instr) -> Result<Option<Term>, NoMemory>
    ensures { IfOk result (λ t. t ≡ option_or (below_top after.now) (store_name_of i.now)) }
{
    match below_top(after, alloc)? {
        Some(at) => Ok(Some(at)),
        None => store_name(alloc, i),
    }
}

// The stack grows by eight bytes, which take a term.
fn pushed(
    after: &mut After,
    alloc: Global,
    v: &SiteView,
    i: &Instr,
    term: Option<&Term>,
) -> Result<(), NoMemory>
    ensures { OnOk result (after.new ≡ pushed (view_of v.now) i.now after.old (option_copied term.entry)) }
{
    let below = Slot::made(below_top(after, alloc)?);
    let at = push_address(after, alloc, i)?;
    after.store(alloc, v, Width::W64, at, term)?;
    after.set_register(RSP, below);
    Ok(())
}

/// push.
pub(crate) fn operand_pushed(
    after: &mut After,
    alloc: Global,
    v: &SiteView,
    i: &Instr,
) -> Result<(), NoMemory>
    ensures { OnOk result (after.new ≡ operand_pushed (view_of v.now) i.now after.old) }
{
    let term = after.read(alloc, v, i, Width::W64, &i.dst)?;
    after.note(alloc, v, i, Width::W64, &i.dst)?;
    pushed(after, alloc, v, i, term.get())
}

fn by_name<'q>(alloc: Global, i: &Instr) -> Result<Slot<'q>, NoMemory>
    ensures { IfOk result (λ t. t ≡ Some (name_term i.now)) }
{
    Ok(Slot::made(Some(name(alloc, i)?)))
}

// The eight bytes at an address, by the name where no more is known.
fn quad_at<'p>(
    after: &After<'p>,
    alloc: Global,
    v: &SiteView,
    i: &Instr,
    at: Option<Term>,
) -> Result<Slot<'p>, NoMemory>
    ensures { IfOk result (λ t. t ≡ quad_at (view_of v.now) i.now after.now at) }
{
    let term = after.bytes_at(alloc, v, Width::W64, at)?;
    match term.get() {
        Some(_) => Ok(term),
        None => by_name(alloc, i),
    }
}

// The eight bytes at the address in a register were read, and the stack begins behind them.
fn read_past(
    after: &mut After,
    alloc: Global,
    v: &SiteView,
    i: &Instr,
    r: u8,
) -> Result<(), NoMemory>
    ensures { OnOk result (
        let read = loaded_from (view_of v.now) i.now after.old W64 (register after.old r) in
        after.new ≡ with_register read rsp (plus_number 8 (register after.old r))) }
{
    let at = copy_known(alloc, after.peek(r))?;
    let behind = Slot::made(plus_number(alloc, 8, at.as_ref())?);
    after.load(alloc, v, i, Width::W64, at)?;
    after.set_register(RSP, behind);
    Ok(())
}

/// pop.
pub(crate) fn popped(
    after: &mut After,
    alloc: Global,
    v: &SiteView,
    i: &Instr,
) -> Result<(), NoMemory>
    ensures { OnOk result (after.new ≡ popped (view_of v.now) i.now after.old) }
{
    let top = copy_known(alloc, after.peek(RSP))?;
    let term = quad_at(after, alloc, v, i, top)?;
    read_past(after, alloc, v, i, RSP)?;
    after.write(alloc, v, i, Width::W64, &i.dst, term)
}

/// leave: rsp is the address after the saved rbp, which comes back.
pub(crate) fn after_leave(
    after: &mut After,
    alloc: Global,
    v: &SiteView,
    i: &Instr,
) -> Result<(), NoMemory>
    ensures { OnOk result (after.new ≡ after_leave (view_of v.now) i.now after.old) }
{
    let frame = copy_known(alloc, after.peek(RBP))?;
    let term = quad_at(after, alloc, v, i, frame)?;
    read_past(after, alloc, v, i, RBP)?;
    after.set_register(RBP, term);
    Ok(())
}

fn half_of(w: Width) -> Width
    ensures { result ≡ half_of w }
{
    match w {
        Width::W8 | Width::W16 => Width::W8,
        Width::W32 => Width::W16,
        Width::W64 => Width::W32,
    }
}

/// cbw, cwde, cdqe.
pub(crate) fn widened(
    after: &mut After,
    alloc: Global,
    v: &SiteView,
    i: &Instr,
) -> Result<(), NoMemory>
    ensures { OnOk result (after.new ≡ widened (view_of v.now) i.now after.old) }
{
    let half = sext(alloc, half_of(i.width), after.register(alloc, RAX)?)?;
    let term = cut(alloc, i.width, half)?;
    after.write(alloc, v, i, i.width, &Operand::Reg(RAX), term)
}

/// cwd, cdq, cqo: nothing is known of the sign.
pub(crate) fn after_cwd(
    after: &mut After,
    alloc: Global,
    v: &SiteView,
    i: &Instr,
) -> Result<(), NoMemory>
    ensures { OnOk result (after.new ≡ after_cwd (view_of v.now) i.now after.old) }
{
    after.write(alloc, v, i, i.width, &Operand::Reg(RDX), Slot::unknown())
}

/// bswap, cmov: nothing is known of the result.
pub(crate) fn swapped(
    after: &mut After,
    alloc: Global,
    v: &SiteView,
    i: &Instr,
) -> Result<(), NoMemory>
    ensures { OnOk result (after.new ≡ swapped (view_of v.now) i.now after.old) }
{
    after.write(alloc, v, i, i.width, &i.dst, Slot::unknown())
}

/// setcc: nothing is known of the choice.
pub(crate) fn after_setcc(
    after: &mut After,
    alloc: Global,
    v: &SiteView,
    i: &Instr,
) -> Result<(), NoMemory>
    ensures { OnOk result (after.new ≡ after_setcc (view_of v.now) i.now after.old) }
{
    after.write(alloc, v, i, Width::W8, &i.dst, Slot::unknown())
}
