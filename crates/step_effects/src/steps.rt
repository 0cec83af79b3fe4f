// What is known after arithmetic, comparisons and shifts.
ghost use Rattle.std.specs.Prelude.{◌≡◌, IfOk, OnOk, Some};
ghost use Rattle.std.specs.Option.{option_copied};
ghost use Rattle.step_rules.specs.Terms.{number};
ghost use Rattle.step_rules.specs.Access.{read_term, after_read};
ghost use Rattle.step_rules.specs.Results.{alu_term, alu_fact, negated_term, comparison};
ghost use Rattle.step_rules.specs.Steps.{gives, operated_fact, combined, compared, inverted, negated, counted, with_halves, multiplied, scaled, shifted};
ghost use Rattle.step_values.specs.Views.{view_of};

use crate::results::{
    alu_fact, alu_term, comparison, inverted_term, negated_term, product_term, shift_term,
};
use bits_core::{Alu, Shift, Width};
use predicates::SiteView;
use std::alloc::Global;
use step_values::{After, Fact, Slot};
use sym_terms::{NoMemory, Term};
use x86_instr::{Instr, Operand, RAX, RDX};

// A result that replaces the first operand, and the flags after it.
fn gives<'p>(
    after: &mut After<'p>,
    alloc: Global,
    v: &SiteView,
    i: &Instr,
    term: Slot<'p>,
    fact: Fact<'p>,
) -> Result<(), NoMemory>
    ensures { OnOk result (after.new ≡ gives (view_of v.now) i.now after.old term.entry fact.entry) }
{
    after.write(alloc, v, i, i.width, &i.dst, term)?;
    after.set_fact(fact);
    Ok(())
}

// The result of an operation on two terms, and its flags.
fn operated(
    after: &mut After,
    alloc: Global,
    alu: Alu,
    v: &SiteView,
    i: &Instr,
    left: Option<&Term>,
    right: Option<&Term>,
) -> Result<(), NoMemory>
    ensures { OnOk result (
        let term = alu_term alu i.now.width (option_copied left.entry) (option_copied right.entry) in
        let fact = alu_fact alu i.now (option_copied left.entry) (option_copied right.entry) term in
        after.new ≡ gives (view_of v.now) i.now after.old term fact) }
{
    let term = alu_term(alloc, alu, i.width, left, right)?;
    let fact = alu_fact(alloc, alu, i, left, right, term.get())?;
    gives(after, alloc, v, i, term, fact)
}

/// Both operands, the first and the second.
pub(crate) fn operands<'p>(
    after: &After<'p>,
    alloc: Global,
    v: &SiteView,
    i: &Instr,
) -> Result<(Slot<'p>, Slot<'p>), NoMemory>
    ensures first { IfOk result (λ o. o.0 ≡ read_term (view_of v.now) i.now after.now i.now.width i.now.dst) }
    ensures second { IfOk result (λ o. o.1 ≡ read_term (view_of v.now) i.now after.now i.now.width i.now.src) }
{
    let first = after.read(alloc, v, i, i.width, &i.dst)?;
    let second = after.read(alloc, v, i, i.width, &i.src)?;
    Ok((first, second))
}

/// add, or, adc, sbb, and, sub, xor.
pub(crate) fn combined(
    after: &mut After,
    alloc: Global,
    alu: Alu,
    v: &SiteView,
    i: &Instr,
) -> Result<(), NoMemory>
    ensures { OnOk result (after.new ≡ combined alu (view_of v.now) i.now after.old) }
{
    let (left, right) = operands(after, alloc, v, i)?;
    operated(after, alloc, alu, v, i, left.get(), right.get())
}

// The flags of an operation on two terms.
fn flags_of<'p>(
    alloc: Global,
    alu: Alu,
    i: &Instr,
    left: Option<&Term>,
    right: Option<&Term>,
) -> Result<Fact<'p>, NoMemory>
    ensures { IfOk result (λ f.
        let term = alu_term alu i.now.width (option_copied left.entry) (option_copied right.entry) in
        f ≡ alu_fact alu i.now (option_copied left.entry) (option_copied right.entry) term) }
{
    let term = alu_term(alloc, alu, i.width, left, right)?;
    alu_fact(alloc, alu, i, left, right, term.get())
}

// The flags of an operation on both operands.
fn operated_fact<'p>(
    after: &After,
    alloc: Global,
    alu: Alu,
    v: &SiteView,
    i: &Instr,
) -> Result<Fact<'p>, NoMemory>
    ensures { IfOk result (λ f. f ≡ operated_fact alu (view_of v.now) i.now after.now) }
{
    let (left, right) = operands(after, alloc, v, i)?;
    flags_of(alloc, alu, i, left.get(), right.get())
}

// After both operands were read.
fn note_both(after: &mut After, alloc: Global, v: &SiteView, i: &Instr) -> Result<(), NoMemory>
    ensures { OnOk result (
        let first = after_read (view_of v.now) i.now after.old i.now.width i.now.dst in
        after.new ≡ after_read (view_of v.now) i.now first i.now.width i.now.src) }
{
    after.note(alloc, v, i, i.width, &i.dst)?;
    after.note(alloc, v, i, i.width, &i.src)
}

/// cmp, test.
pub(crate) fn compared(
    after: &mut After,
    alloc: Global,
    alu: Alu,
    v: &SiteView,
    i: &Instr,
) -> Result<(), NoMemory>
    ensures { OnOk result (after.new ≡ compared alu (view_of v.now) i.now after.old) }
{
    let fact = operated_fact(after, alloc, alu, v, i)?;
    note_both(after, alloc, v, i)?;
    after.set_fact(fact);
    Ok(())
}

/// not.
pub(crate) fn inverted(
    after: &mut After,
    alloc: Global,
    v: &SiteView,
    i: &Instr,
) -> Result<(), NoMemory>
    ensures { OnOk result (after.new ≡ inverted (view_of v.now) i.now after.old) }
{
    let operand = after.read(alloc, v, i, i.width, &i.dst)?;
    let term = inverted_term(alloc, i.width, operand.get())?;
    after.write(alloc, v, i, i.width, &i.dst, term)
}

// The flags of 0 less a term.
fn zero_less<'q>(alloc: Global, w: Width, term: Option<&Term>) -> Result<Fact<'q>, NoMemory>
    ensures { IfOk result (λ f. f ≡ comparison w (Some (number 0)) (option_copied term.entry)) }
{
    let zero = Term::constant(alloc, 0);
    comparison(alloc, w, Some(&zero), term)
}

// The negative of a term, and the flags of 0 less the term.
fn negative_of(
    after: &mut After,
    alloc: Global,
    v: &SiteView,
    i: &Instr,
    term: Option<&Term>,
) -> Result<(), NoMemory>
    ensures { OnOk result (
        let negative = negated_term i.now.width (option_copied term.entry) in
        let fact = comparison i.now.width (Some (number 0)) (option_copied term.entry) in
        after.new ≡ gives (view_of v.now) i.now after.old negative fact) }
{
    let fact = zero_less(alloc, i.width, term)?;
    let negative = negated_term(alloc, i.width, term)?;
    gives(after, alloc, v, i, negative, fact)
}

/// neg.
pub(crate) fn negated(
    after: &mut After,
    alloc: Global,
    v: &SiteView,
    i: &Instr,
) -> Result<(), NoMemory>
    ensures { OnOk result (after.new ≡ negated (view_of v.now) i.now after.old) }
{
    let operand = after.read(alloc, v, i, i.width, &i.dst)?;
    negative_of(after, alloc, v, i, operand.get())
}

// A term and one more, or one less.
fn next_term<'q>(
    alloc: Global,
    alu: Alu,
    w: Width,
    term: Option<&Term>,
) -> Result<Slot<'q>, NoMemory>
    ensures { IfOk result (λ t. t ≡ alu_term alu w (option_copied term.entry) (Some (number 1))) }
{
    let one = Term::constant(alloc, 1);
    alu_term(alloc, alu, w, term, Some(&one))
}

/// inc, dec.
pub(crate) fn counted(
    after: &mut After,
    alloc: Global,
    alu: Alu,
    v: &SiteView,
    i: &Instr,
) -> Result<(), NoMemory>
    ensures { OnOk result (after.new ≡ counted alu (view_of v.now) i.now after.old) }
{
    let operand = after.read(alloc, v, i, i.width, &i.dst)?;
    let term = next_term(alloc, alu, i.width, operand.get())?;
    gives(after, alloc, v, i, term, Fact::unknown())
}

/// mul, imul with one operand, div, idiv: two halves in rdx:rax, of which nothing is known.
pub(crate) fn multiplied(
    after: &mut After,
    alloc: Global,
    v: &SiteView,
    i: &Instr,
) -> Result<(), NoMemory>
    ensures { OnOk result (after.new ≡ multiplied (view_of v.now) i.now after.old) }
{
    after.write(alloc, v, i, i.width, &Operand::Reg(RAX), Slot::unknown())?;
    after.write(alloc, v, i, i.width, &Operand::Reg(RDX), Slot::unknown())?;
    after.set_fact(Fact::unknown());
    Ok(())
}

// The product of two factors.
fn scaled(
    after: &mut After,
    alloc: Global,
    v: &SiteView,
    i: &Instr,
    left: Option<&Term>,
    right: Option<&Term>,
) -> Result<(), NoMemory>
    ensures { OnOk result (after.new ≡ scaled (option_copied left.entry) (option_copied right.entry) (view_of v.now) i.now after.old) }
{
    let term = product_term(alloc, i.width, left, right)?;
    gives(after, alloc, v, i, term, Fact::unknown())
}

/// imul with two operands.
pub(crate) fn scaled_by_operand(
    after: &mut After,
    alloc: Global,
    v: &SiteView,
    i: &Instr,
) -> Result<(), NoMemory>
    ensures { OnOk result (
        let left = read_term (view_of v.now) i.now after.old i.now.width i.now.dst in
        let right = read_term (view_of v.now) i.now after.old i.now.width i.now.src in
        after.new ≡ scaled left right (view_of v.now) i.now after.old) }
{
    let (left, right) = operands(after, alloc, v, i)?;
    scaled(after, alloc, v, i, left.get(), right.get())
}

/// imul with three operands.
pub(crate) fn scaled_by_number(
    after: &mut After,
    alloc: Global,
    v: &SiteView,
    i: &Instr,
) -> Result<(), NoMemory>
    ensures { OnOk result (
        let left = read_term (view_of v.now) i.now after.old i.now.width i.now.src in
        after.new ≡ scaled left (Some (number i.now.extra)) (view_of v.now) i.now after.old) }
{
    let left = after.read(alloc, v, i, i.width, &i.src)?;
    let factor = Term::constant(alloc, i.extra);
    scaled(after, alloc, v, i, left.get(), Some(&factor))
}

/// rol, ror, shl, shr, sar.
pub(crate) fn shifted(
    after: &mut After,
    alloc: Global,
    shift: Shift,
    v: &SiteView,
    i: &Instr,
) -> Result<(), NoMemory>
    ensures { OnOk result (after.new ≡ shifted shift (view_of v.now) i.now after.old) }
{
    let operand = after.read(alloc, v, i, i.width, &i.dst)?;
    let term = shift_term(alloc, shift, i.width, operand.get(), &i.src)?;
    gives(after, alloc, v, i, term, Fact::unknown())
}
