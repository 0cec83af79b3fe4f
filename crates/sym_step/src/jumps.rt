// Where a jump leads.
ghost use Rattle.std.specs.Prelude.{◌≡◌, ◌∷◌, [], IfOk, map};
ghost use Rattle.std.specs.Option.{option_copied, option_map};
ghost use Rattle.std.specs.Vec.{vec_items};
ghost use Rattle.x86_machine.specs.Next.{next_address};
ghost use Rattle.step_rules.specs.Bounds.{where_holds, opposite_of};
ghost use Rattle.step_rules.specs.Cases.{case, direct, constant_target, jump_targets, jumped, jumps_to, jumps};
ghost use Rattle.step_values.specs.Views.{view_of};
ghost use Rattle.sym_step.specs.Led.{led_cases};

use crate::calls::next_address;
use crate::cases::Led;
use bits_core::Width;
use predicates::SiteView;
use std::alloc::{AllocError, Global};
use step_effects::{bounds_where, chosen_targets, loaded_values, opposite_of, with_values};
use step_values::{After, name};
use sym_terms::{NoMemory, Term};
use x86_instr::{Instr, Operand};

// The number of an immediate operand, and 0 for every other.
fn direct(operand: &Operand) -> u64
    ensures { result ≡ direct operand.now }
{
    match operand {
        Operand::Imm(n) => *n,
        _ => 0,
    }
}

/// A conditional jump: its target where the condition holds, and the next address where it doesn't. The two cases share all
/// but the bounds.
#[tactic(auto, unfolding(step_rules::specs::Bounds::where_holds))]
pub(crate) fn branches<'q>(after: &After, alloc: Global, i: &Instr) -> Result<Led<'q>, NoMemory>
    ensures { IfOk result (λ l. led_cases l after.now ≡
        case (direct i.now.dst) (where_holds i.now.cc after.now)
        ∷ case (next_address i.now) (where_holds (opposite_of i.now.cc) after.now)
        ∷ []) }
{
    let holding = bounds_where(alloc, i.cc, after.fact(), after.bounds())?;
    let failing = bounds_where(alloc, opposite_of(i.cc), after.fact(), after.bounds())?;
    Ok(Led::Branch(direct(&i.dst), next_address(i), holding, failing))
}

// A constant, where it is code.
fn constant_target(v: &SiteView, constant: Option<u64>) -> Option<u64>
    ensures { option_map (λ c. c ∷ []) result ≡ constant_target (view_of v.now) constant }
{
    match constant {
        Some(c) => {
            if v.context.image.is_code(c) {
                Some(c)
            } else {
                None
            }
        }
        None => None,
    }
}

fn jump_targets(
    after: &After,
    alloc: Global,
    v: &SiteView,
    term: Option<&Term>,
) -> Result<Option<Vec<u64>>, NoMemory>
    ensures { IfOk result (λ r. option_map vec_items r ≡ jump_targets (view_of v.now) after.now (option_copied term.entry)) }
{
    match term {
        Some(term) => match constant_target(v, term.as_constant()) {
            Some(target) => {
                let targets = Vec::from_array(alloc, [target]).map_err(AllocError::from)?;
                Ok(Some(targets))
            }
            None => chosen_targets(alloc, v.context.image, term, after.bounds()),
        },
        None => Ok(None),
    }
}

// The addresses to which a jump leads, whose target is the name where that is one of a table's numbers.
fn jumped(
    after: &mut After,
    alloc: Global,
    v: &SiteView,
    i: &Instr,
    numbers: Option<Vec<u64>>,
    term: Option<&Term>,
) -> Result<Option<Vec<u64>>, NoMemory>
    ensures { IfOk result (λ r. option_map (map (λ a. case a after.new)) (option_map vec_items r) ≡ jumped (view_of v.now) i.now after.old (option_map vec_items numbers) (option_copied term.entry)) }
{
    match numbers {
        Some(numbers) => {
            with_values(after, alloc, i, numbers)?;
            let name = name(alloc, i)?;
            jump_targets(after, alloc, v, Some(&name))
        }
        None => jump_targets(after, alloc, v, term),
    }
}

// The addresses to which an indirect jump to its operand leads.
fn jumps_to(
    after: &mut After,
    alloc: Global,
    v: &SiteView,
    i: &Instr,
    operand: &Operand,
) -> Result<Option<Vec<u64>>, NoMemory>
    ensures { IfOk result (λ r. option_map (map (λ a. case a after.new)) (option_map vec_items r) ≡ jumps_to (view_of v.now) i.now after.old operand.now) }
{
    let term = after.read(alloc, v, i, Width::W64, operand)?;
    let at = after.address_of(alloc, operand)?;
    let numbers = loaded_values(after, alloc, v, Width::W64, false, at)?;
    after.note(alloc, v, i, Width::W64, operand)?;
    jumped(after, alloc, v, i, numbers, term.get())
}

// The same, as cases.
fn cases_to<'q>(
    after: &mut After,
    alloc: Global,
    v: &SiteView,
    i: &Instr,
    operand: &Operand,
) -> Result<Option<Led<'q>>, NoMemory>
    ensures { IfOk result (λ r. option_map (λ l. led_cases l after.new) r ≡ jumps_to (view_of v.now) i.now after.old operand.now) }
{
    match jumps_to(after, alloc, v, i, operand)? {
        Some(targets) => Ok(Some(Led::Each(targets))),
        None => Ok(None),
    }
}

/// A jump by its operand.
pub(crate) fn jumps<'q>(
    after: &mut After,
    alloc: Global,
    v: &SiteView,
    i: &Instr,
) -> Result<Option<Led<'q>>, NoMemory>
    ensures { IfOk result (λ r. option_map (λ l. led_cases l after.new) r ≡ jumps (view_of v.now) i.now after.old i.now.dst) }
{
    match &i.dst {
        Operand::Imm(target) => Ok(Some(Led::At(*target))),
        operand => cases_to(after, alloc, v, i, operand),
    }
}
