// The results of operations on terms that may be unknown, and the flags after them.
ghost use Rattle.std.specs.Prelude.{◌≡◌, ◌<◌, ◌%◌, IfOk, None, Some};
ghost use Rattle.std.specs.Option.{option_copied, option_map};
ghost use Rattle.bits_core.specs.declared.width.Width.TheVariants.{W32};
ghost use Rattle.bits_core.specs.Shifts.{count_modulus};
ghost use Rattle.sym_terms.specs.Normal.{pair};
ghost use Rattle.step_rules.specs.Terms.{zeros_term, apply_both};
ghost use Rattle.step_rules.specs.Names.{register_name as register_name_of};
ghost use Rattle.step_rules.specs.Results.{whole_term, alu_term, negative, negated_term, inverted_term, product_term, shifted_term, shift_term, comparison, name_result, against_zero, alu_fact};

use crate::names::register_name;
use crate::terms::{cut, minus_number, sext, shifted_by, times_number};
use bits_core::{Alu, Shift, Width};
use predicates::FlagFact;
use std::alloc::Global;
use sym_terms::{NoMemory, Pair, Term};
use x86_instr::{Instr, Operand};

// A sum, a difference, or a combination bit by bit, before it is cut; adc and sbb depend on the carry.
#[tactic(auto, unfolding(step_rules::specs::Results::whole_term))]
fn whole(alloc: Global, alu: Alu, left: &Term, right: &Term) -> Result<Option<Term>, NoMemory>
    ensures { IfOk result (λ t. t ≡ whole_term alu (Some left.now) (Some right.now)) }
{
    match alu {
        Alu::Add => left.add(alloc, right),
        Alu::Sub => left.sub(alloc, right),
        Alu::And => left.pair(alloc, Pair::And, right),
        Alu::Or => left.pair(alloc, Pair::Or, right),
        Alu::Xor => left.pair(alloc, Pair::Xor, right),
        Alu::Adc | Alu::Sbb => Ok(None),
    }
}

#[tactic(auto, using(crate::proofs::ResultLemmas::no_left, crate::proofs::ResultLemmas::no_right))]
fn whole_of(
    alloc: Global,
    left: Option<&Term>,
    alu: Alu,
    right: Option<&Term>,
) -> Result<Option<Term>, NoMemory>
    ensures { IfOk result (λ t. t ≡ whole_term alu (option_copied left.entry) (option_copied right.entry)) }
{
    let Some(left) = left else {
        return Ok(None);
    };
    match right {
        Some(right) => whole(alloc, alu, left, right),
        None => Ok(None),
    }
}

/// add, or, adc, sbb, and, sub, xor at a width.
#[tactic(auto, unfolding(step_rules::specs::Results::alu_term))]
pub fn alu_term(
    alloc: Global,
    alu: Alu,
    left: Option<&Term>,
    right: Option<&Term>,
    w: Width,
) -> Result<Option<Term>, NoMemory>
    ensures { IfOk result (λ t. t ≡ alu_term alu w (option_copied left.entry) (option_copied right.entry)) }
{
    let whole = whole_of(alloc, left, alu, right)?;
    cut(alloc, w, whole.as_ref())
}

fn negative(alloc: Global, term: Option<&Term>) -> Result<Option<Term>, NoMemory>
    ensures { IfOk result (λ t. t ≡ negative (option_copied term.entry)) }
{
    times_number(alloc, term, u64::MAX)
}

/// neg at a width.
#[tactic(auto, unfolding(step_rules::specs::Results::negated_term))]
pub fn negated_term(alloc: Global, term: Option<&Term>, w: Width) -> Result<Option<Term>, NoMemory>
    ensures { IfOk result (λ t. t ≡ negated_term w (option_copied term.entry)) }
{
    let negative = negative(alloc, term)?;
    cut(alloc, w, negative.as_ref())
}

/// not at a width.
#[tactic(auto, unfolding(step_rules::specs::Results::inverted_term))]
pub fn inverted_term(alloc: Global, term: Option<&Term>, w: Width) -> Result<Option<Term>, NoMemory>
    ensures { IfOk result (λ t. t ≡ inverted_term w (option_copied term.entry)) }
{
    let negative = negative(alloc, term)?;
    let one_less = minus_number(alloc, negative.as_ref(), 1)?;
    cut(alloc, w, one_less.as_ref())
}

fn product(
    alloc: Global,
    left: Option<&Term>,
    right: Option<&Term>,
) -> Result<Option<Term>, NoMemory>
    ensures { IfOk result (λ t. t ≡ apply_both (pair Pair.Mul) (option_copied left.entry) (option_copied right.entry)) }
{
    let (Some(left), Some(right)) = (left, right) else {
        return Ok(None);
    };
    left.pair(alloc, Pair::Mul, right)
}

/// A product at a width.
#[tactic(auto, unfolding(step_rules::specs::Results::product_term))]
pub fn product_term(
    alloc: Global,
    left: Option<&Term>,
    right: Option<&Term>,
    w: Width,
) -> Result<Option<Term>, NoMemory>
    ensures { IfOk result (λ t. t ≡ product_term w (option_copied left.entry) (option_copied right.entry)) }
{
    let product = product(alloc, left, right)?;
    cut(alloc, w, product.as_ref())
}

// A shift by a count below the width; rotations are unknown.
fn shifted_term(
    alloc: Global,
    shift: Shift,
    term: Option<&Term>,
    k: u64,
    w: Width,
) -> Result<Option<Term>, NoMemory>
    requires { k < 64 }
    ensures { IfOk result (λ t. t ≡ shifted_term shift w (option_copied term.entry) k) }
{
    match shift {
        Shift::Rol | Shift::Ror => Ok(None),
        Shift::Shl => {
            let multiple = times_number(alloc, term, 1 << k)?;
            cut(alloc, w, multiple.as_ref())
        }
        Shift::Shr => {
            let lower = shifted_by(alloc, term, Pair::Shr, k)?;
            cut(alloc, w, lower.as_ref())
        }
        Shift::Sar => {
            let signed = sext(alloc, w, term)?;
            let lower = shifted_by(alloc, signed.as_ref(), Pair::Sar, k)?;
            cut(alloc, w, lower.as_ref())
        }
    }
}

// A count as it is masked at a width.
fn masked_count(n: u64, w: Width) -> u64
    ensures value { result ≡ n % count_modulus w }
    ensures small { result < 64 }
{
    match w {
        Width::W8 | Width::W16 | Width::W32 => n % 32,
        Width::W64 => n % 64,
    }
}

/// A shift by an immediate, once masked; by CL it is unknown.
#[tactic(auto, unfolding(step_rules::specs::Results::shift_term))]
pub fn shift_term(
    alloc: Global,
    shift: Shift,
    term: Option<&Term>,
    count: &Operand,
    w: Width,
) -> Result<Option<Term>, NoMemory>
    ensures { IfOk result (λ t. t ≡ shift_term shift w (option_copied term.entry) count.now) }
{
    let Operand::Imm(n) = count else {
        return Ok(None);
    };
    let k = masked_count(*n, w);
    if k < u64::from(w.bits()) {
        shifted_term(alloc, shift, term, k, w)
    } else {
        Ok(None)
    }
}

/// The flags of the comparison of two terms, where both are known.
pub fn comparison(
    alloc: Global,
    left: Option<&Term>,
    right: Option<&Term>,
    width: Width,
) -> Result<Option<FlagFact>, NoMemory>
    ensures { IfOk result (λ f. f ≡ comparison width (option_copied left.entry) (option_copied right.entry)) }
{
    let (Some(left), Some(right)) = (left, right) else {
        return Ok(None);
    };
    let left = left.copy(alloc)?;
    let right = right.copy(alloc)?;
    Ok(Some(FlagFact { width, left, right }))
}

// The low 32 bits of the name, where that stands for the register.
#[tactic(auto, using(crate::proofs::NameLemmas::register_name_cut))]
fn low_register_name(alloc: Global, i: &Instr, r: u8) -> Result<Option<Term>, NoMemory>
    ensures { IfOk result (λ t. t ≡ option_map (zeros_term W32) (register_name_of i.now r)) }
{
    let name = register_name(alloc, i, r)?;
    cut(alloc, Width::W32, name.as_ref())
}

// An unknown result of 32 or 64 bits, as the low bits of the name that its register took.
fn name_result(
    alloc: Global,
    i: &Instr,
    operand: &Operand,
    w: Width,
) -> Result<Option<Term>, NoMemory>
    ensures { IfOk result (λ t. t ≡ name_result i.now w operand.now) }
{
    let Operand::Reg(r) = operand else {
        return Ok(None);
    };
    match w {
        Width::W64 => register_name(alloc, i, *r),
        Width::W32 => low_register_name(alloc, i, *r),
        Width::W8 | Width::W16 => Ok(None),
    }
}

fn against_zero(alloc: Global, i: &Instr, term: Option<&Term>) -> Result<Option<FlagFact>, NoMemory>
    ensures { IfOk result (λ f. f ≡ against_zero i.now (option_copied term.entry)) }
{
    let zero = Term::constant(alloc, 0);
    match term {
        None => {
            let name = name_result(alloc, i, &i.dst, i.width)?;
            comparison(alloc, name.as_ref(), Some(&zero), i.width)
        }
        Some(term) => comparison(alloc, Some(term), Some(&zero), i.width),
    }
}

/// The flags after an operation on two operands, with its result.
#[tactic(auto, unfolding(step_rules::specs::Results::alu_fact))]
pub fn alu_fact(
    alloc: Global,
    i: &Instr,
    alu: Alu,
    left: Option<&Term>,
    right: Option<&Term>,
    term: Option<&Term>,
) -> Result<Option<FlagFact>, NoMemory>
    ensures { IfOk result (λ f. f ≡ alu_fact alu i.now (option_copied left.entry) (option_copied right.entry) (option_copied term.entry)) }
{
    match alu {
        Alu::Add | Alu::Adc | Alu::Sbb => Ok(None),
        Alu::Sub => comparison(alloc, left, right, i.width),
        Alu::And | Alu::Or | Alu::Xor => against_zero(alloc, i, term),
    }
}
