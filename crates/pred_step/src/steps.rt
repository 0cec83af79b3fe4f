// What is known after arithmetic, comparisons and shifts.
ghost use Rattle.std.specs.Prelude.{◌≡◌, IfOk, OnOk, None, Some};
ghost use Rattle.std.specs.Option.{option_copied};
ghost use Rattle.step_rules.specs.Terms.{number};
ghost use Rattle.step_rules.specs.Access.{read_term};
ghost use Rattle.step_rules.specs.Results.{alu_term, alu_fact, negated_term, comparison};
ghost use Rattle.step_rules.specs.Steps.{gives, operated, operated_fact, combined, compared, inverted, negated, counted, multiplied, scaled, shifted};
ghost use Rattle.pred_moves.specs.Views.{view_of};

use bits_core::{Alu, Shift};
use pred_moves::{
    alu_fact, alu_term, comparison, inverted_term, negated_term, note_read, product_term, read,
    set_flags, shift_term, write,
};
use predicates::{FlagFact, Pred, SiteView};
use std::alloc::Global;
use sym_terms::{NoMemory, Term};
use x86_instr::{Instr, Operand, RAX, RDX};

/// What an operation gives: its result, and the flags after it.
#[derive(Drop)]
struct Outcome {
    term: Option<Term>,
    flags: Option<FlagFact>,
}

// The outcome replaces the first operand.
fn give(
    alloc: Global,
    v: &SiteView,
    i: &Instr,
    p: &mut Pred,
    outcome: Outcome,
) -> Result<(), NoMemory>
    ensures { OnOk result (p.new ≡ gives (view_of v.now) i.now p.old outcome.term outcome.flags) }
{
    let Outcome { term, flags } = outcome;
    write(alloc, v, i, p, i.width, &i.dst, term)?;
    set_flags(p, flags);
    Ok(())
}

fn outcome_of_terms(
    alloc: Global,
    i: &Instr,
    alu: Alu,
    left: Option<&Term>,
    right: Option<&Term>,
) -> Result<Outcome, NoMemory>
    ensures term { IfOk result (λ o. o.term ≡ alu_term alu i.now.width (option_copied left.entry) (option_copied right.entry)) }
    ensures flags { IfOk result (λ o. o.flags ≡ alu_fact alu i.now (option_copied left.entry) (option_copied right.entry)
        (alu_term alu i.now.width (option_copied left.entry) (option_copied right.entry))) }
{
    let term = alu_term(alloc, alu, left, right, i.width)?;
    let flags = alu_fact(alloc, i, alu, left, right, term.as_ref())?;
    Ok(Outcome { term, flags })
}

// The outcome of an operation on both operands.
fn outcome_of_operands(
    alloc: Global,
    v: &SiteView,
    i: &Instr,
    p: &Pred,
    alu: Alu,
) -> Result<Outcome, NoMemory>
    ensures term { IfOk result (λ o. o.term ≡ operated alu (view_of v.now) i.now p.now) }
    ensures flags { IfOk result (λ o. o.flags ≡ operated_fact alu (view_of v.now) i.now p.now) }
{
    let left = read(alloc, v, i, p, i.width, &i.dst)?;
    let right = read(alloc, v, i, p, i.width, &i.src)?;
    outcome_of_terms(alloc, i, alu, left.as_ref(), right.as_ref())
}

/// add, or, adc, sbb, and, sub, xor.
pub(crate) fn combined(
    alloc: Global,
    v: &SiteView,
    i: &Instr,
    p: &mut Pred,
    alu: Alu,
) -> Result<(), NoMemory>
    ensures { OnOk result (p.new ≡ combined alu (view_of v.now) i.now p.old) }
{
    let outcome = outcome_of_operands(alloc, v, i, p, alu)?;
    give(alloc, v, i, p, outcome)
}

/// cmp, test.
pub(crate) fn compared(
    alloc: Global,
    v: &SiteView,
    i: &Instr,
    p: &mut Pred,
    alu: Alu,
) -> Result<(), NoMemory>
    ensures { OnOk result (p.new ≡ compared alu (view_of v.now) i.now p.old) }
{
    let Outcome { flags, .. } = outcome_of_operands(alloc, v, i, p, alu)?;
    note_read(alloc, v, i, p, i.width, &i.dst)?;
    note_read(alloc, v, i, p, i.width, &i.src)?;
    set_flags(p, flags);
    Ok(())
}

/// not.
pub(crate) fn inverted(alloc: Global, v: &SiteView, i: &Instr, p: &mut Pred) -> Result<(), NoMemory>
    ensures { OnOk result (p.new ≡ inverted (view_of v.now) i.now p.old) }
{
    let operand = read(alloc, v, i, p, i.width, &i.dst)?;
    let term = inverted_term(alloc, operand.as_ref(), i.width)?;
    write(alloc, v, i, p, i.width, &i.dst, term)
}

// The flags are those of 0 less the operand.
fn negation(alloc: Global, i: &Instr, operand: Option<&Term>) -> Result<Outcome, NoMemory>
    ensures term { IfOk result (λ o. o.term ≡ negated_term i.now.width (option_copied operand.entry)) }
    ensures flags { IfOk result (λ o. o.flags ≡ comparison i.now.width (Some (number 0)) (option_copied operand.entry)) }
{
    let zero = Term::constant(alloc, 0);
    let flags = comparison(alloc, Some(&zero), operand, i.width)?;
    let term = negated_term(alloc, operand, i.width)?;
    Ok(Outcome { term, flags })
}

/// neg.
pub(crate) fn negated(alloc: Global, v: &SiteView, i: &Instr, p: &mut Pred) -> Result<(), NoMemory>
    ensures { OnOk result (p.new ≡ negated (view_of v.now) i.now p.old) }
{
    let operand = read(alloc, v, i, p, i.width, &i.dst)?;
    let outcome = negation(alloc, i, operand.as_ref())?;
    give(alloc, v, i, p, outcome)
}

// A result of whose flags nothing is known.
fn give_alone(
    alloc: Global,
    v: &SiteView,
    i: &Instr,
    p: &mut Pred,
    term: Option<Term>,
) -> Result<(), NoMemory>
    ensures { OnOk result (p.new ≡ gives (view_of v.now) i.now p.old term None) }
{
    let flags = None;
    give(alloc, v, i, p, Outcome { term, flags })
}

/// inc, dec.
pub(crate) fn counted(
    alloc: Global,
    v: &SiteView,
    i: &Instr,
    p: &mut Pred,
    alu: Alu,
) -> Result<(), NoMemory>
    ensures { OnOk result (p.new ≡ counted alu (view_of v.now) i.now p.old) }
{
    let one = Term::constant(alloc, 1);
    let operand = read(alloc, v, i, p, i.width, &i.dst)?;
    let term = alu_term(alloc, alu, operand.as_ref(), Some(&one), i.width)?;
    give_alone(alloc, v, i, p, term)
}

/// mul, imul with one operand, div, idiv: nothing is known of the two halves in rdx:rax.
pub(crate) fn multiplied(
    alloc: Global,
    v: &SiteView,
    i: &Instr,
    p: &mut Pred,
) -> Result<(), NoMemory>
    ensures { OnOk result (p.new ≡ multiplied (view_of v.now) i.now p.old) }
{
    write(alloc, v, i, p, i.width, &Operand::Reg(RAX), None)?;
    write(alloc, v, i, p, i.width, &Operand::Reg(RDX), None)?;
    set_flags(p, None);
    Ok(())
}

// The product of two factors.
fn scaled(
    alloc: Global,
    v: &SiteView,
    i: &Instr,
    p: &mut Pred,
    left: Option<&Term>,
    right: Option<&Term>,
) -> Result<(), NoMemory>
    ensures { OnOk result (p.new ≡ scaled (option_copied left.entry) (option_copied right.entry) (view_of v.now) i.now p.old) }
{
    let term = product_term(alloc, left, right, i.width)?;
    give_alone(alloc, v, i, p, term)
}

/// imul with two operands.
pub(crate) fn scaled_by_operand(
    alloc: Global,
    v: &SiteView,
    i: &Instr,
    p: &mut Pred,
) -> Result<(), NoMemory>
    ensures { OnOk result (
        let left = read_term (view_of v.now) i.now p.old i.now.width i.now.dst in
        let right = read_term (view_of v.now) i.now p.old i.now.width i.now.src in
        p.new ≡ scaled left right (view_of v.now) i.now p.old) }
{
    let left = read(alloc, v, i, p, i.width, &i.dst)?;
    let right = read(alloc, v, i, p, i.width, &i.src)?;
    scaled(alloc, v, i, p, left.as_ref(), right.as_ref())
}

/// imul with three operands.
pub(crate) fn scaled_by_number(
    alloc: Global,
    v: &SiteView,
    i: &Instr,
    p: &mut Pred,
) -> Result<(), NoMemory>
    ensures { OnOk result (
        let left = read_term (view_of v.now) i.now p.old i.now.width i.now.src in
        p.new ≡ scaled left (Some (number i.now.extra)) (view_of v.now) i.now p.old) }
{
    let left = read(alloc, v, i, p, i.width, &i.src)?;
    let factor = Term::constant(alloc, i.extra);
    scaled(alloc, v, i, p, left.as_ref(), Some(&factor))
}

/// rol, ror, shl, shr, sar.
pub(crate) fn shifted(
    alloc: Global,
    v: &SiteView,
    i: &Instr,
    p: &mut Pred,
    shift: Shift,
) -> Result<(), NoMemory>
    ensures { OnOk result (p.new ≡ shifted shift (view_of v.now) i.now p.old) }
{
    let operand = read(alloc, v, i, p, i.width, &i.dst)?;
    let term = shift_term(alloc, shift, operand.as_ref(), &i.src, i.width)?;
    give_alone(alloc, v, i, p, term)
}
