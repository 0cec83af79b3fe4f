// What is known after instructions that move data.
ghost use Rattle.std.specs.Prelude.{◌≡◌, IfOk, IfSome, IsTrue, OnOk};
ghost use Rattle.std.specs.Option.{option_copied, option_map, option_or};
ghost use Rattle.std.specs.Vec.{vec_items};
ghost use Rattle.predicates.specs.Bounds.{is_list};
ghost use Rattle.x86_machine.specs.Moves.{half_of};
ghost use Rattle.bits_core.specs.declared.width.Width.TheVariants.{W64};
ghost use Rattle.step_rules.specs.Terms.{cut_term, sext_term};
ghost use Rattle.step_rules.specs.Access.{register as register_of, known_term, read_term, after_read, loaded_from, write_term};
ghost use Rattle.step_rules.specs.Names.{store_name as store_name_of};
ghost use Rattle.step_rules.specs.Moves.{by_table, moved, extended_by_sign, addressed, exchanged, below_top, pushed, operand_pushed, quad_at, popped, after_leave, widened};
ghost use Rattle.pred_moves.specs.Views.{view_of};

use bits_core::Width;
use pred_moves::{
    add_values, address_of, bytes_at, cut, known, minus_number, name, note_load, note_read,
    plus_number, read, register, set_register, sext, store, store_name, table_of, write,
};
use predicates::{Pred, SiteView};
use std::alloc::Global;
use sym_terms::{NoMemory, Term, copy_known};
use x86_instr::{Instr, Operand, RAX, RBP, RSP};

// A loaded number replaces the first operand; one of a table's is the name, which is one of its numbers.
fn by_table(
    alloc: Global,
    v: &SiteView,
    i: &Instr,
    p: &mut Pred,
    numbers: Option<Vec<u64>>,
    term: Option<Term>,
) -> Result<(), NoMemory>
    requires { IfSome (option_map vec_items numbers) (λ ns. IsTrue (is_list ns)) }
    ensures { OnOk result (p.new ≡ by_table (view_of v.now) i.now p.old (option_map vec_items numbers) term) }
{
    match numbers {
        Some(numbers) => {
            add_values(alloc, i, p, numbers)?;
            write(alloc, v, i, p, i.width, &i.dst, None)
        }
        None => write(alloc, v, i, p, i.width, &i.dst, term),
    }
}

// The second operand, extended by zeros.
fn moved_term(alloc: Global, v: &SiteView, i: &Instr, p: &Pred) -> Result<Option<Term>, NoMemory>
    ensures { IfOk result (λ t. t ≡ cut_term i.now.width (read_term (view_of v.now) i.now p.now i.now.src_width i.now.src)) }
{
    let operand = read(alloc, v, i, p, i.src_width, &i.src)?;
    cut(alloc, i.width, operand.as_ref())
}

/// mov, movzx.
pub(crate) fn moved(alloc: Global, v: &SiteView, i: &Instr, p: &mut Pred) -> Result<(), NoMemory>
    ensures { OnOk result (p.new ≡ moved (view_of v.now) i.now p.old) }
{
    let term = moved_term(alloc, v, i, p)?;
    let numbers = table_of(alloc, v, i, p, false)?;
    note_read(alloc, v, i, p, i.src_width, &i.src)?;
    by_table(alloc, v, i, p, numbers, term)
}

// The second operand, extended by its sign.
fn signed_term(alloc: Global, v: &SiteView, i: &Instr, p: &Pred) -> Result<Option<Term>, NoMemory>
    ensures { IfOk result (λ t. t ≡ cut_term i.now.width
        (sext_term i.now.src_width (known_term (view_of v.now) i.now p.now i.now.src_width i.now.src))) }
{
    let operand = known(alloc, v, i, p, i.src_width, &i.src)?;
    let signed = sext(alloc, i.src_width, operand.as_ref())?;
    cut(alloc, i.width, signed.as_ref())
}

/// movsx.
pub(crate) fn extended_by_sign(
    alloc: Global,
    v: &SiteView,
    i: &Instr,
    p: &mut Pred,
) -> Result<(), NoMemory>
    ensures { OnOk result (p.new ≡ extended_by_sign (view_of v.now) i.now p.old) }
{
    let term = signed_term(alloc, v, i, p)?;
    let numbers = table_of(alloc, v, i, p, true)?;
    note_read(alloc, v, i, p, i.src_width, &i.src)?;
    by_table(alloc, v, i, p, numbers, term)
}

/// lea.
pub(crate) fn addressed(
    alloc: Global,
    v: &SiteView,
    i: &Instr,
    p: &mut Pred,
) -> Result<(), NoMemory>
    ensures { OnOk result (p.new ≡ addressed (view_of v.now) i.now p.old) }
{
    let address = address_of(alloc, p, &i.src)?;
    let term = cut(alloc, i.width, address.as_ref())?;
    write(alloc, v, i, p, i.width, &i.dst, term)
}

// The first operand takes the second's term; it was read before.
fn taken(alloc: Global, v: &SiteView, i: &Instr, p: &mut Pred) -> Result<(), NoMemory>
    ensures { OnOk result (
        let noted = after_read (view_of v.now) i.now p.old i.now.width i.now.dst in
        p.new ≡ write_term (view_of v.now) i.now noted i.now.width i.now.dst (read_term (view_of v.now) i.now p.old i.now.width i.now.src)) }
{
    let second = read(alloc, v, i, p, i.width, &i.src)?;
    note_read(alloc, v, i, p, i.width, &i.dst)?;
    write(alloc, v, i, p, i.width, &i.dst, second)
}

/// xchg.
pub(crate) fn exchanged(
    alloc: Global,
    v: &SiteView,
    i: &Instr,
    p: &mut Pred,
) -> Result<(), NoMemory>
    ensures { OnOk result (p.new ≡ exchanged (view_of v.now) i.now p.old) }
{
    let first = read(alloc, v, i, p, i.width, &i.dst)?;
    taken(alloc, v, i, p)?;
    write(alloc, v, i, p, i.width, &i.src, first)
}

/// The address of the eight bytes that the stack grows by.
pub(crate) fn below_top(alloc: Global, p: &Pred) -> Result<Option<Term>, NoMemory>
    ensures { IfOk result (λ t. t ≡ below_top p.now) }
{
    minus_number(alloc, register(p, RSP), 8)
}

/// The address of the eight bytes that a push stores to: the name, where that stands for it and no more is known.
pub(crate) fn push_address(alloc: Global, i: &Instr, p: &Pred) -> Result<Option<Term>, NoMemory>
    ensures { IfOk result (λ t. t ≡ option_or (below_top p.now) (store_name_of i.now)) }
{
    match below_top(alloc, p)? {
        Some(at) => Ok(Some(at)),
        None => store_name(alloc, i),
    }
}

// The stack grows by eight bytes, which take a term.
fn pushed(
    alloc: Global,
    v: &SiteView,
    i: &Instr,
    p: &mut Pred,
    term: Option<&Term>,
) -> Result<(), NoMemory>
    ensures { OnOk result (p.new ≡ pushed (view_of v.now) i.now p.old (option_copied term.entry)) }
{
    let below = below_top(alloc, p)?;
    let at = push_address(alloc, i, p)?;
    store(v, p, Width::W64, at, term)?;
    set_register(p, RSP, below);
    Ok(())
}

/// push.
pub(crate) fn operand_pushed(
    alloc: Global,
    v: &SiteView,
    i: &Instr,
    p: &mut Pred,
) -> Result<(), NoMemory>
    ensures { OnOk result (p.new ≡ operand_pushed (view_of v.now) i.now p.old) }
{
    let term = read(alloc, v, i, p, Width::W64, &i.dst)?;
    note_read(alloc, v, i, p, Width::W64, &i.dst)?;
    pushed(alloc, v, i, p, term.as_ref())
}

// The eight bytes at an address, by the name where no more is known.
fn quad_at(
    alloc: Global,
    v: &SiteView,
    i: &Instr,
    p: &Pred,
    at: Option<&Term>,
) -> Result<Option<Term>, NoMemory>
    ensures { IfOk result (λ t. t ≡ quad_at (view_of v.now) i.now p.now (option_copied at.entry)) }
{
    match bytes_at(alloc, v, p, Width::W64, copy_known(alloc, at)?)? {
        Some(term) => Ok(Some(term)),
        None => Ok(Some(name(alloc, i)?)),
    }
}

// After a load of eight bytes from the address in a register.
fn note_quad(alloc: Global, v: &SiteView, i: &Instr, p: &mut Pred, r: u8) -> Result<(), NoMemory>
    ensures { OnOk result (p.new ≡ loaded_from (view_of v.now) i.now p.old W64 (register_of p.old r)) }
{
    let at = copy_known(alloc, register(p, r))?;
    note_load(alloc, v, i, p, Width::W64, at)
}

/// pop.
pub(crate) fn popped(alloc: Global, v: &SiteView, i: &Instr, p: &mut Pred) -> Result<(), NoMemory>
    ensures { OnOk result (p.new ≡ popped (view_of v.now) i.now p.old) }
{
    let term = quad_at(alloc, v, i, p, register(p, RSP))?;
    let above = plus_number(alloc, register(p, RSP), 8)?;
    note_quad(alloc, v, i, p, RSP)?;
    set_register(p, RSP, above);
    write(alloc, v, i, p, Width::W64, &i.dst, term)
}

/// leave: rsp is the address after the saved rbp, which comes back.
pub(crate) fn after_leave(
    alloc: Global,
    v: &SiteView,
    i: &Instr,
    p: &mut Pred,
) -> Result<(), NoMemory>
    ensures { OnOk result (p.new ≡ after_leave (view_of v.now) i.now p.old) }
{
    let saved = quad_at(alloc, v, i, p, register(p, RBP))?;
    let above = plus_number(alloc, register(p, RBP), 8)?;
    note_quad(alloc, v, i, p, RBP)?;
    set_register(p, RSP, above);
    set_register(p, RBP, saved);
    Ok(())
}

// The width that cbw, cwde and cdqe extend from.
fn half_of(w: Width) -> Width
    ensures { result ≡ half_of w }
{
    match w {
        Width::W64 => Width::W32,
        Width::W32 => Width::W16,
        Width::W16 | Width::W8 => Width::W8,
    }
}

/// cbw, cwde, cdqe.
pub(crate) fn widened(alloc: Global, v: &SiteView, i: &Instr, p: &mut Pred) -> Result<(), NoMemory>
    ensures { OnOk result (p.new ≡ widened (view_of v.now) i.now p.old) }
{
    let signed = sext(alloc, half_of(i.width), register(p, RAX))?;
    let term = cut(alloc, i.width, signed.as_ref())?;
    write(alloc, v, i, p, i.width, &Operand::Reg(RAX), term)
}
