// What is known of operands, and what is known after they are read and written.
ghost use Rattle.std.specs.Prelude.{◌≡◌, IfOk, OnOk, None, Some};
ghost use Rattle.std.specs.Option.{option_copied, option_and_then};
ghost use Rattle.bits_core.specs.Width.{bytes_of};
ghost use Rattle.elf_image.specs.Image.{fixed_of};
ghost use Rattle.sym_terms.specs.declared.kinds.Fit.TheVariants.{Zx8};
ghost use Rattle.sym_terms.specs.declared.kinds.Pair.TheVariants.{Shr};
ghost use Rattle.sym_terms.specs.Plain.{constant_alone};
ghost use Rattle.sym_terms.specs.Normal.{fit, pair};
ghost use Rattle.mem_forest.specs.Search.{value_at};
ghost use Rattle.step_rules.specs.Terms.{number, apply};
ghost use Rattle.step_rules.specs.Access.{part_term, address_term, address_term_of, store_term, bytes_term, known_term, operand_name, read_term, fixed_term, loaded_from, after_read, with_register, merged_term, with_bytes, write_term};
ghost use Rattle.pred_moves.specs.Views.{view_of};

use crate::facts::{register, set_register};
use crate::names::{load_name, register_name, store_name};
use crate::terms::{cut, shifted_by};
use bits_core::Width;
use mem_forest::{Forest, Region};
use predicates::{Pred, SiteView};
use std::alloc::Global;
use sym_terms::{Fit, NoMemory, Pair, Term, copy_known};
use x86_instr::{Instr, Operand, Place};

// The term of a base or an index, 0 where there is none.
#[tactic(auto, unfolding(step_rules::specs::Access::part_term))]
fn part<'a>(p: &'a Pred, r: Option<u8>, zero: &'a Term) -> Option<&'a Term>
    requires { zero.now ≡ number 0 }
    ensures { option_copied result ≡ part_term p.now r }
{
    match r {
        Some(r) => register(p, r),
        None => Some(zero),
    }
}

#[tactic(auto, unfolding(step_rules::specs::Access::address_term))]
fn address(alloc: Global, p: &Pred, place: &Place) -> Result<Option<Term>, NoMemory>
    ensures { IfOk result (λ t. t ≡ address_term p.now place.now) }
{
    let zero = Term::constant(alloc, 0);
    match (part(p, place.base, &zero), part(p, place.index, &zero)) {
        (Some(base), Some(index)) => {
            base.place(alloc, u64::from(place.scale), index, place.disp, place.fs)
        }
        _ => Ok(None),
    }
}

/// The effective address of an operand in memory.
#[tactic(auto, unfolding(step_rules::specs::Access::address_term_of))]
pub fn address_of(alloc: Global, p: &Pred, operand: &Operand) -> Result<Option<Term>, NoMemory>
    ensures { IfOk result (λ t. t ≡ address_term_of p.now operand.now) }
{
    match operand {
        Operand::Mem(place) => address(alloc, p, place),
        _ => Ok(None),
    }
}

/// The address of a place; the site's name, where that stands for the address of the store and no more is known.
pub fn store_address(
    alloc: Global,
    i: &Instr,
    p: &Pred,
    place: &Place,
) -> Result<Option<Term>, NoMemory>
    ensures { IfOk result (λ t. t ≡ store_term i.now p.now place.now) }
{
    match address(alloc, p, place)? {
        Some(at) => Ok(Some(at)),
        None => store_name(alloc, i),
    }
}

// The number in the fixed bytes of a width at a constant address.
fn fixed_number(v: &SiteView, w: Width, at: &Term) -> Option<u64>
    ensures { result ≡ option_and_then (λ c. fixed_of v.now.context.image.now c (bytes_of w)) (constant_alone at.now) }
{
    match at.as_constant() {
        Some(constant) => v.context.image.fixed(constant, w.bytes()),
        None => None,
    }
}

fn cell_value<'a>(forest: &'a Forest, region: &Region) -> Option<&'a Term>
    ensures { option_copied result ≡ value_at region.now.at region.now.bytes forest.now }
{
    match forest.find(region) {
        Some(node) => node.value.as_ref(),
        None => None,
    }
}

/// The bytes of a width at an address: fixed ones, else those of a cell.
#[tactic(auto, unfolding(step_rules::specs::Access::bytes_term))]
pub fn bytes_at(
    alloc: Global,
    v: &SiteView,
    p: &Pred,
    w: Width,
    at: Option<Term>,
) -> Result<Option<Term>, NoMemory>
    ensures { IfOk result (λ t. t ≡ bytes_term (view_of v.now) p.now.forest (bytes_of w) at) }
{
    let Some(at) = at else {
        return Ok(None);
    };
    match fixed_number(v, w, &at) {
        Some(n) => Ok(Some(Term::constant(alloc, n))),
        None => {
            let region = Region {
                at,
                bytes: w.bytes(),
            };
            copy_known(alloc, cell_value(&p.forest, &region))
        }
    }
}

// Bits 8 to 15 of a term.
fn high_byte(alloc: Global, term: Option<&Term>) -> Result<Option<Term>, NoMemory>
    ensures { IfOk result (λ t. t ≡ apply (fit Zx8) (apply (λ t. pair Shr t (number 8)) (option_copied term.entry))) }
{
    match shifted_by(alloc, term, Pair::Shr, 8)? {
        Some(upper) => upper.fit(alloc, Fit::Zx8),
        None => Ok(None),
    }
}

/// An operand at a width, where no name is needed for a load.
#[tactic(auto, unfolding(step_rules::specs::Access::known_term))]
pub fn known(
    alloc: Global,
    v: &SiteView,
    i: &Instr,
    p: &Pred,
    w: Width,
    operand: &Operand,
) -> Result<Option<Term>, NoMemory>
    ensures { IfOk result (λ t. t ≡ known_term (view_of v.now) i.now p.now w operand.now) }
{
    match operand {
        Operand::None => Ok(None),
        Operand::Reg(r) => cut(alloc, w, register(p, *r)),
        Operand::High(r) => high_byte(alloc, register(p, *r)),
        Operand::Imm(n) => Ok(Some(Term::constant(alloc, *n))),
        Operand::Mem(place) => {
            let at = store_address(alloc, i, p, place)?;
            bytes_at(alloc, v, p, w, at)
        }
    }
}

fn operand_name(
    alloc: Global,
    i: &Instr,
    operand: &Operand,
    w: Width,
) -> Result<Option<Term>, NoMemory>
    ensures { IfOk result (λ t. t ≡ operand_name i.now w operand.now) }
{
    match operand {
        Operand::Mem(_) => load_name(alloc, i, w),
        _ => Ok(None),
    }
}

/// An operand at a width; a load by its name where no more is known.
#[tactic(auto, unfolding(step_rules::specs::Access::read_term))]
pub fn read(
    alloc: Global,
    v: &SiteView,
    i: &Instr,
    p: &Pred,
    w: Width,
    operand: &Operand,
) -> Result<Option<Term>, NoMemory>
    ensures { IfOk result (λ t. t ≡ read_term (view_of v.now) i.now p.now w operand.now) }
{
    match known(alloc, v, i, p, w, operand)? {
        Some(term) => Ok(Some(term)),
        None => operand_name(alloc, i, operand, w),
    }
}

// After a load from the bytes of a width that no fixed bytes are: their cell may get the name.
#[tactic(auto, using(crate::proofs::WidthLemmas::size_of_width))]
fn name_cell(
    alloc: Global,
    v: &SiteView,
    i: &Instr,
    p: &mut Pred,
    w: Width,
    region: &Region,
) -> Result<(), NoMemory>
    requires size { region.now.bytes ≡ bytes_of w }
    requires not_fixed { fixed_term (view_of v.now) region.now.at (bytes_of w) ≡ None }
    ensures { OnOk result (p.new ≡ loaded_from (view_of v.now) i.now p.old w (Some region.now.at)) }
{
    let name = load_name(alloc, i, w)?;
    p.forest.load(region, name.as_ref(), &v.context)?;
    Ok(())
}

/// After a load of a width from an address that may be unknown; one of fixed bytes tells nothing new.
pub fn note_load(
    alloc: Global,
    v: &SiteView,
    i: &Instr,
    p: &mut Pred,
    w: Width,
    at: Option<Term>,
) -> Result<(), NoMemory>
    ensures { OnOk result (p.new ≡ loaded_from (view_of v.now) i.now p.old w at) }
{
    let Some(at) = at else {
        return Ok(());
    };
    let bytes = w.bytes();
    match fixed_number(v, w, &at) {
        Some(_) => Ok(()),
        None => name_cell(alloc, v, i, p, w, &Region { at, bytes }),
    }
}

/// After an operand was read at a width.
#[tactic(auto, unfolding(step_rules::specs::Access::after_read))]
pub fn note_read(
    alloc: Global,
    v: &SiteView,
    i: &Instr,
    p: &mut Pred,
    w: Width,
    operand: &Operand,
) -> Result<(), NoMemory>
    ensures { OnOk result (p.new ≡ after_read (view_of v.now) i.now p.old w operand.now) }
{
    let at = address_of(alloc, p, operand)?;
    note_load(alloc, v, i, p, w, at)
}

/// After a term was stored to the bytes of a width at an address; where that is unknown, nothing is known of memory.
#[tactic(auto, unfolding(step_rules::specs::Access::with_bytes), using(crate::proofs::WidthLemmas::size_of_width))]
pub fn store(
    v: &SiteView,
    p: &mut Pred,
    w: Width,
    at: Option<Term>,
    term: Option<&Term>,
) -> Result<(), NoMemory>
    ensures { OnOk result (p.new ≡ with_bytes (view_of v.now) p.old (bytes_of w) at (option_copied term.entry)) }
{
    let Some(at) = at else {
        p.forest.clear();
        return Ok(());
    };
    let region = Region {
        at,
        bytes: w.bytes(),
    };
    p.forest.store(&region, term, &v.context)?;
    Ok(())
}

// The term of a register after a result of a width.
#[tactic(auto, unfolding(step_rules::specs::Access::merged_term))]
fn merged(
    alloc: Global,
    i: &Instr,
    r: u8,
    w: Width,
    term: Option<Term>,
) -> Result<Option<Term>, NoMemory>
    ensures { IfOk result (λ t. t ≡ merged_term i.now r w term) }
{
    match (w, term) {
        (Width::W32 | Width::W64, Some(term)) => Ok(Some(term)),
        _ => register_name(alloc, i, r),
    }
}

fn write_register(
    alloc: Global,
    i: &Instr,
    r: u8,
    p: &mut Pred,
    w: Width,
    term: Option<Term>,
) -> Result<(), NoMemory>
    ensures { OnOk result (p.new ≡ with_register p.old r (merged_term i.now r w term)) }
{
    let term = merged(alloc, i, r, w, term)?;
    set_register(p, r, term);
    Ok(())
}

/// After a result, which may be unknown, was written to an operand at a width; bits 8 to 15 of a register leave its name, as a
/// result of 8 bits does.
#[tactic(auto, unfolding(step_rules::specs::Access::write_term, step_rules::specs::Access::merged_term))]
pub fn write(
    alloc: Global,
    v: &SiteView,
    i: &Instr,
    p: &mut Pred,
    w: Width,
    operand: &Operand,
    term: Option<Term>,
) -> Result<(), NoMemory>
    ensures { OnOk result (p.new ≡ write_term (view_of v.now) i.now p.old w operand.now term) }
{
    match operand {
        Operand::None | Operand::Imm(_) => Ok(()),
        Operand::Reg(r) => write_register(alloc, i, *r, p, w, term),
        Operand::High(r) => write_register(alloc, i, *r, p, Width::W8, None),
        Operand::Mem(place) => {
            let at = store_address(alloc, i, p, place)?;
            store(v, p, w, at, term.as_ref())
        }
    }
}
