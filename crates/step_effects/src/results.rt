// What is known of the results of operations, and of the flags that they set.
ghost use Rattle.std.specs.Prelude.{◌≡◌, ◌<◌, ◌≤◌, IfOk, Some};
ghost use Rattle.std.specs.Option.{option_copied, option_map};
ghost use Rattle.bits_core.specs.declared.width.Width.TheVariants.{W32};
ghost use Rattle.bits_core.specs.declared.operations.Shift.TheVariants.{Shl, Shr, Sar};
ghost use Rattle.bits_core.specs.Shifts.{count_modulus};
ghost use Rattle.step_rules.specs.Terms.{zeros_term};
ghost use Rattle.step_rules.specs.Names.{register_name};
ghost use Rattle.step_rules.specs.Results.{alu_term, negated_term, inverted_term, product_term, shifted_term, shift_term, comparison, name_result, against_zero, alu_fact};

use crate::terms::{minus_number, multiple, paired, sext, whole};
use bits_core::{Alu, Shift, Width};
use predicates::FlagFact;
use std::alloc::Global;
use step_values::{Fact, Slot, cut, cut_name, register_name, shifted};
use sym_terms::{NoMemory, Pair, Term};
use x86_instr::{Instr, Operand};
use x86_machine::named_register;

/// The result of add, or, adc, sbb, and, sub, xor at a width.
#[tactic(auto, unfolding(step_rules::specs::Results::alu_term))]
pub(crate) fn alu_term<'p>(
    alloc: Global,
    alu: Alu,
    w: Width,
    left: Option<&Term>,
    right: Option<&Term>,
) -> Result<Slot<'p>, NoMemory>
    ensures { IfOk result (λ t. t ≡ alu_term alu w (option_copied left.entry) (option_copied right.entry)) }
{
    cut(alloc, w, Slot::made(whole(alloc, alu, left, right)?))
}

/// The negative of a term at a width.
#[tactic(auto, unfolding(step_rules::specs::Results::negated_term))]
pub(crate) fn negated_term<'p>(
    alloc: Global,
    w: Width,
    term: Option<&Term>,
) -> Result<Slot<'p>, NoMemory>
    ensures { IfOk result (λ t. t ≡ negated_term w (option_copied term.entry)) }
{
    cut(alloc, w, Slot::made(multiple(alloc, u64::MAX, term)?))
}

/// The bits of a term turned over at a width.
#[tactic(auto, unfolding(step_rules::specs::Results::inverted_term))]
pub(crate) fn inverted_term<'p>(
    alloc: Global,
    w: Width,
    term: Option<&Term>,
) -> Result<Slot<'p>, NoMemory>
    ensures { IfOk result (λ t. t ≡ inverted_term w (option_copied term.entry)) }
{
    let negative = multiple(alloc, u64::MAX, term)?;
    cut(
        alloc,
        w,
        Slot::made(minus_number(alloc, 1, negative.as_ref())?),
    )
}

/// The product of two terms at a width.
#[tactic(auto, unfolding(step_rules::specs::Results::product_term))]
pub(crate) fn product_term<'p>(
    alloc: Global,
    w: Width,
    left: Option<&Term>,
    right: Option<&Term>,
) -> Result<Slot<'p>, NoMemory>
    ensures { IfOk result (λ t. t ≡ product_term w (option_copied left.entry) (option_copied right.entry)) }
{
    cut(alloc, w, Slot::made(paired(alloc, Pair::Mul, left, right)?))
}

fn count_modulus(w: Width) -> u64
    ensures value { result ≡ count_modulus w }
    ensures least { 1 ≤ result }
    ensures most { result ≤ 64 }
{
    match w {
        Width::W64 => 64,
        _ => 32,
    }
}

fn shifted_left<'q>(
    alloc: Global,
    w: Width,
    term: Option<&Term>,
    k: u64,
) -> Result<Slot<'q>, NoMemory>
    requires { k < 64 }
    ensures { IfOk result (λ t. t ≡ shifted_term Shl w (option_copied term.entry) k) }
{
    cut(alloc, w, Slot::made(multiple(alloc, 1 << k, term)?))
}

fn shifted_right<'q>(
    alloc: Global,
    w: Width,
    term: Option<&Term>,
    k: u64,
) -> Result<Slot<'q>, NoMemory>
    ensures { IfOk result (λ t. t ≡ shifted_term Shr w (option_copied term.entry) k) }
{
    cut(alloc, w, Slot::made(shifted(alloc, Pair::Shr, term, k)?))
}

fn shifted_by_sign<'q>(
    alloc: Global,
    w: Width,
    term: Option<&Term>,
    k: u64,
) -> Result<Slot<'q>, NoMemory>
    ensures { IfOk result (λ t. t ≡ shifted_term Sar w (option_copied term.entry) k) }
{
    let term = sext(alloc, w, Slot::kept(term))?;
    let shifted = shifted(alloc, Pair::Sar, term.get(), k)?;
    cut(alloc, w, Slot::made(shifted))
}

/// A shift by a count below the width; rotations are unknown.
fn shifted_term<'q>(
    alloc: Global,
    shift: Shift,
    w: Width,
    term: Option<&Term>,
    k: u64,
) -> Result<Slot<'q>, NoMemory>
    requires { k < 64 }
    ensures { IfOk result (λ t. t ≡ shifted_term shift w (option_copied term.entry) k) }
{
    match shift {
        Shift::Shl => shifted_left(alloc, w, term, k),
        Shift::Shr => shifted_right(alloc, w, term, k),
        Shift::Sar => shifted_by_sign(alloc, w, term, k),
        Shift::Rol | Shift::Ror => Ok(Slot::unknown()),
    }
}

/// A shift by an immediate, masked; by CL it is unknown.
#[tactic(auto, unfolding(step_rules::specs::Results::shift_term))]
pub(crate) fn shift_term<'q>(
    alloc: Global,
    shift: Shift,
    w: Width,
    term: Option<&Term>,
    count: &Operand,
) -> Result<Slot<'q>, NoMemory>
    ensures { IfOk result (λ t. t ≡ shift_term shift w (option_copied term.entry) count.now) }
{
    match count {
        Operand::Imm(n) => {
            let k = *n % count_modulus(w);
            if k < u64::from(w.bits()) {
                shifted_term(alloc, shift, w, term, k)
            } else {
                Ok(Slot::unknown())
            }
        }
        _ => Ok(Slot::unknown()),
    }
}

/// The flags of the comparison of two terms, where both are known.
pub(crate) fn comparison<'p>(
    alloc: Global,
    width: Width,
    left: Option<&Term>,
    right: Option<&Term>,
) -> Result<Fact<'p>, NoMemory>
    ensures { IfOk result (λ f. f ≡ comparison width (option_copied left.entry) (option_copied right.entry)) }
{
    match (left, right) {
        (Some(left), Some(right)) => {
            let left = left.copy(alloc)?;
            let right = right.copy(alloc)?;
            Ok(Fact::made(FlagFact { width, left, right }))
        }
        _ => Ok(Fact::unknown()),
    }
}

/// An unknown result of 32 or 64 bits, as the low bits of the name that its register took.
fn name_result(
    alloc: Global,
    i: &Instr,
    w: Width,
    operand: &Operand,
) -> Result<Option<Term>, NoMemory>
    ensures { IfOk result (λ t. t ≡ name_result i.now w operand.now) }
{
    match (w, operand) {
        (Width::W32, Operand::Reg(r)) => low_name(alloc, i, *r),
        (Width::W64, Operand::Reg(r)) => register_name(alloc, i, *r),
        _ => Ok(None),
    }
}

// The low 32 bits of the name, where it stands for the register.
#[tactic(auto, using(step_values::proofs::NameLemmas::by_register))]
fn low_name(alloc: Global, i: &Instr, r: u8) -> Result<Option<Term>, NoMemory>
    ensures { IfOk result (λ t. t ≡ option_map (zeros_term W32) (register_name i.now r)) }
{
    match named_register(i) {
        Some(named) => {
            if r == named {
                cut_name(alloc, i, Width::W32)
            } else {
                Ok(None)
            }
        }
        None => Ok(None),
    }
}

// The flags of the comparison of an unknown result with 0, by the name.
fn name_against<'p>(alloc: Global, i: &Instr, zero: &Term) -> Result<Fact<'p>, NoMemory>
    ensures { IfOk result (λ f. f ≡ comparison i.now.width (name_result i.now i.now.width i.now.dst) (Some zero.now)) }
{
    let name = name_result(alloc, i, i.width, &i.dst)?;
    comparison(alloc, i.width, name.as_ref(), Some(zero))
}

/// The flags of the comparison of a result with 0.
fn against_zero<'p>(alloc: Global, i: &Instr, term: Option<&Term>) -> Result<Fact<'p>, NoMemory>
    ensures { IfOk result (λ f. f ≡ against_zero i.now (option_copied term.entry)) }
{
    let zero = Term::constant(alloc, 0);
    match term {
        Some(term) => comparison(alloc, i.width, Some(term), Some(&zero)),
        None => name_against(alloc, i, &zero),
    }
}

/// The flags after an operation on two operands, with its result.
#[tactic(auto, unfolding(step_rules::specs::Results::alu_fact))]
pub(crate) fn alu_fact<'p>(
    alloc: Global,
    alu: Alu,
    i: &Instr,
    left: Option<&Term>,
    right: Option<&Term>,
    term: Option<&Term>,
) -> Result<Fact<'p>, NoMemory>
    ensures { IfOk result (λ f. f ≡ alu_fact alu i.now (option_copied left.entry) (option_copied right.entry) (option_copied term.entry)) }
{
    match alu {
        Alu::Sub => comparison(alloc, i.width, left, right),
        Alu::And | Alu::Or | Alu::Xor => against_zero(alloc, i, term),
        Alu::Add | Alu::Adc | Alu::Sbb => Ok(Fact::unknown()),
    }
}
