// Where a jump leads.
ghost use Rattle.std.specs.Prelude.{◌≡◌, ◌∷◌, [], IfOk, IfSome, IsTrue, false, map, None, Some};
ghost use Rattle.std.specs.Option.{option_copied, option_map};
ghost use Rattle.std.specs.Vec.{vec_items};
ghost use Rattle.sym_terms.specs.Plain.{constant_alone};
ghost use Rattle.predicates.specs.Bounds.{is_list};
ghost use Rattle.bits_core.specs.declared.width.Width.TheVariants.{W64};
ghost use Rattle.step_rules.specs.Access.{address_term_of};
ghost use Rattle.step_rules.specs.Tables.{loaded_values};
ghost use Rattle.step_rules.specs.Cases.{case, constant_target, jump_targets, cases_to, jumped, jumps_to, jumps};
ghost use Rattle.pred_moves.specs.Views.{view_of};

use crate::cases::only;
use bits_core::Width;
use pred_moves::{add_values, address_of, chosen_targets, loaded_values, name, note_read, read};
use predicates::{Pred, SiteView};
use std::alloc::Global;
use sym_terms::{NoMemory, Term};
use x86_instr::{Instr, Operand};

// A constant, where it is code.
fn constant_target(v: &SiteView, term: &Term) -> Option<u64>
    ensures { option_map (λ c. c ∷ []) result ≡ constant_target (view_of v.now) (constant_alone term.now) }
{
    let constant = term.as_constant()?;
    if v.context.image.is_code(constant) {
        Some(constant)
    } else {
        None
    }
}

// The addresses to which a jump to a term leads; `None` where that isn't known.
fn jump_targets(
    alloc: Global,
    v: &SiteView,
    p: &Pred,
    term: Option<&Term>,
) -> Result<Option<Vec<u64>>, NoMemory>
    ensures { IfOk result (λ r. option_map vec_items r ≡ jump_targets (view_of v.now) p.now (option_copied term.entry)) }
{
    let Some(term) = term else {
        return Ok(None);
    };
    match constant_target(v, term) {
        Some(target) => Ok(Some(only(alloc, target)?)),
        None => chosen_targets(alloc, v.context.image, p.bounds.as_slice(), term),
    }
}

// The same, with what is known there.
fn cases_to(
    alloc: Global,
    v: &SiteView,
    p: &Pred,
    term: Option<&Term>,
) -> Result<Option<Vec<u64>>, NoMemory>
    ensures { IfOk result (λ r. option_map (λ ts. map (λ a. case a p.now) ts.items) r ≡ cases_to (view_of v.now) p.now (option_copied term.entry)) }
{
    jump_targets(alloc, v, p, term)
}

// An indirect jump; the target is the name where that is one of a table's numbers.
fn jumped(
    alloc: Global,
    v: &SiteView,
    i: &Instr,
    p: &mut Pred,
    numbers: Option<Vec<u64>>,
    term: Option<&Term>,
) -> Result<Option<Vec<u64>>, NoMemory>
    requires { IfSome (option_map vec_items numbers) (λ ns. IsTrue (is_list ns)) }
    ensures { IfOk result (λ r. option_map (λ ts. map (λ a. case a p.new) ts.items) r
        ≡ jumped (view_of v.now) i.now p.old (option_map vec_items numbers) (option_copied term.entry)) }
{
    match numbers {
        Some(numbers) => {
            add_values(alloc, i, p, numbers)?;
            let name = name(alloc, i)?;
            cases_to(alloc, v, p, Some(&name))
        }
        None => cases_to(alloc, v, p, term),
    }
}

// The numbers of which the operand's eight bytes are one, where a table tells.
fn table_numbers(
    alloc: Global,
    v: &SiteView,
    p: &Pred,
    operand: &Operand,
) -> Result<Option<Vec<u64>>, NoMemory>
    ensures value { IfOk result (λ r. option_map vec_items r ≡ loaded_values (view_of v.now) p.now W64 false (address_term_of p.now operand.now)) }
    ensures listed { IfOk result (λ r. IfSome (option_map vec_items r) (λ ns. IsTrue (is_list ns))) }
{
    let at = address_of(alloc, p, operand)?;
    loaded_values(alloc, v, p, Width::W64, false, at.as_ref())
}

fn jumps_to(
    alloc: Global,
    v: &SiteView,
    i: &Instr,
    p: &mut Pred,
    operand: &Operand,
) -> Result<Option<Vec<u64>>, NoMemory>
    ensures { IfOk result (λ r. option_map (λ ts. map (λ a. case a p.new) ts.items) r ≡ jumps_to (view_of v.now) i.now p.old operand.now) }
{
    let term = read(alloc, v, i, p, Width::W64, operand)?;
    let numbers = table_numbers(alloc, v, p, operand)?;
    note_read(alloc, v, i, p, Width::W64, operand)?;
    jumped(alloc, v, i, p, numbers, term.as_ref())
}

/// The addresses to which a jump by its operand leads, where all that is known is the same; `None` where that isn't known.
pub(crate) fn jumps(
    alloc: Global,
    v: &SiteView,
    i: &Instr,
    p: &mut Pred,
) -> Result<Option<Vec<u64>>, NoMemory>
    ensures { IfOk result (λ r. option_map (λ ts. map (λ a. case a p.new) ts.items) r ≡ jumps (view_of v.now) i.now p.old i.now.dst) }
{
    match &i.dst {
        Operand::Imm(target) => Ok(Some(only(alloc, *target)?)),
        operand => jumps_to(alloc, v, i, p, operand),
    }
}
