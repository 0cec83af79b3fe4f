// Which kind a site is.
ghost use Rattle.std.specs.Prelude.{◌≡◌, ◌∷◌, if◌then◌else◌, map, IfOk, Some};
ghost use Rattle.std.specs.List.{list_all};
ghost use Rattle.std.specs.Option.{option_copied};
ghost use Rattle.x86_instr.specs.Classes.{class_of};
ghost use Rattle.step_rules.specs.Calls.{call_target};
ghost use Rattle.pred_step.specs.Restored.{are_restored};
ghost use Rattle.site_lines.specs.Kinds.{bare_view, call_kind, common, common_target, is_same_target, kind_at, kind_by, kind_here};
ghost use Rattle.site_lines.specs.Subject.{subject_of};

use crate::subject::Program;
use pred_step::facts_of;
use predicates::{Kind, Pred, Reason};
use std::alloc::Global;
use sym_terms::NoMemory;
use x86_instr::{Class, Instr};

/// The constant to which a call leads.
fn target_of(
    alloc: Global,
    program: &Program,
    i: &Instr,
    pred: &Pred,
) -> Result<Option<u64>, NoMemory>
    ensures { IfOk result (λ t. t ≡ call_target (bare_view program.now.image.now) i.now pred.now) }
{
    let mut known = pred.copy(alloc)?;
    let facts = facts_of(&mut known, alloc, &program.bare_view(), i)?;
    Ok(facts.target)
}

/// Whether both are the same address.
fn is_same_target(target: Option<u64>, other: Option<u64>) -> bool
    ensures { result ≡ is_same_target target other }
{
    match (target, other) {
        (Some(address), Some(next)) => next == address,
        _ => false,
    }
}

/// Whether a call leads to the same constant in each of these vertices.
fn are_alike(
    alloc: Global,
    program: &Program,
    i: &Instr,
    target: Option<u64>,
    preds: &[Pred],
) -> Result<bool, NoMemory>
    ensures { IfOk result (λ b. b ≡ list_all (is_same_target target) (map (call_target (bare_view program.now.image.now) i.now) preds.now)) }
{
    for pred in preds {
        let other = target_of(alloc, program, i, pred)?;
        if !is_same_target(target, other) {
            return Ok(false);
        }
    }
    Ok(true)
}

/// The constant to which a call leads in every vertex.
pub fn common_target(
    alloc: Global,
    program: &Program,
    i: &Instr,
    preds: &[Pred],
) -> Result<Option<u64>, NoMemory>
    ensures { IfOk result (λ t. t ≡ common_target program.now.image.now i.now preds.now) }
{
    let [first, others @ ..] = preds else {
        return Ok(None);
    };
    let target = target_of(alloc, program, i, first)?;
    if are_alike(alloc, program, i, target, others)? {
        Ok(target)
    } else {
        Ok(None)
    }
}

/// The kind of a call, by the constant to which it leads.
fn call_kind(program: &Program, target: Option<u64>) -> Kind
    ensures { result ≡ call_kind (subject_of program.now) target }
{
    match target {
        Some(target) if program.is_inside(target) => Kind::Call(target),
        _ => Kind::Outside,
    }
}

/// Whether a return is verified.
#[tactic(auto, using(pred_step::proofs::ReturnLemmas::returns_exactly))]
fn returns(alloc: Global, program: &Program, i: &Instr, pred: &Pred) -> Result<bool, NoMemory>
    ensures { IfOk result (λ b. b ≡ are_restored pred.now) }
{
    let mut known = pred.copy(alloc)?;
    let facts = facts_of(&mut known, alloc, &program.bare_view(), i)?;
    Ok(facts.returns)
}

/// The kind of a return: verified where it is so in every vertex.
fn return_kind(
    alloc: Global,
    program: &Program,
    i: &Instr,
    preds: &[Pred],
) -> Result<Kind, NoMemory>
    ensures { IfOk result (λ k. k ≡ (if list_all are_restored preds.now then Kind.Return else Kind.End Reason.BadReturn)) }
{
    for pred in preds {
        if !returns(alloc, program, i, pred)? {
            return Ok(Kind::End(Reason::BadReturn));
        }
    }
    Ok(Kind::Return)
}

/// The kind of an instruction at an address.
fn kind_by(
    alloc: Global,
    program: &Program,
    address: u64,
    i: &Instr,
    preds: &[Pred],
) -> Result<Kind, NoMemory>
    ensures { IfOk result (λ k. k ≡ kind_by (class_of i.now.op) (subject_of program.now) address i.now preds.now) }
{
    match i.op.class() {
        Class::Calculation | Class::Transfer | Class::Division => Ok(Kind::Step),
        Class::Jump if program.is_shut(address, i) => Ok(Kind::End(Reason::Unresolved)),
        Class::Jump => Ok(Kind::Step),
        Class::Call => {
            let target = common_target(alloc, program, i, preds)?;
            Ok(call_kind(program, target))
        }
        Class::Return => return_kind(alloc, program, i, preds),
        Class::SystemCall => Ok(Kind::Outside),
        Class::Stop => Ok(Kind::End(Reason::Stop)),
    }
}

/// The kind of the site at an address, of what stands there and what is known at its vertices.
pub(crate) fn kind_at(
    alloc: Global,
    program: &Program,
    address: u64,
    i: Option<&Instr>,
    preds: &[Pred],
) -> Result<Kind, NoMemory>
    ensures { IfOk result (λ k. k ≡ kind_at (subject_of program.now) address (option_copied i.entry) preds.now) }
{
    if program.is_extern(address) {
        return Ok(Kind::End(Reason::Extern));
    }
    match i {
        None => Ok(Kind::End(Reason::Unsupported)),
        Some(i) => kind_by(alloc, program, address, i, preds),
    }
}
