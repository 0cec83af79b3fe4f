// What is asked of a site beside its cases: where it stores and calls, and whether it returns as it should.
ghost use Rattle.std.specs.Prelude.{◌≡◌, ◌↔◌, IfOk, IsTrue, OnOk, Some};
ghost use Rattle.std.specs.List.{list_all};
ghost use Rattle.std.specs.Option.{option_copied, option_map};
ghost use Rattle.sym_terms.specs.declared.kinds.Sym.TheVariants.{Ra};
ghost use Rattle.sym_terms.specs.Plain.{IsSymbol, single_atom, symbol};
ghost use Rattle.mem_forest.specs.Search.{value_at};
ghost use Rattle.x86_instr.specs.Groups.{group_of};
ghost use Rattle.predicate_meaning.specs.Returns.{Returns, saved_registers};
ghost use Rattle.step_rules.specs.Drop.{dropped};
ghost use Rattle.step_rules.specs.Site.{region_of, place_region, push_region, store_region_in, store_region};
ghost use Rattle.step_rules.specs.Calls.{call_target};
ghost use Rattle.pred_moves.specs.Views.{view_of};
ghost use Rattle.pred_step.specs.Restored.{is_symbol, is_restored, are_restored};

use crate::calls::{call_target, drop_name};
use crate::moves::push_address;
use mem_forest::{Forest, Region};
use pred_moves::{register, store_address};
use predicates::{Pred, SiteView};
use std::alloc::Global;
use sym_terms::{NoMemory, Sym, Term};
use x86_instr::{Instr, Op, Operand, RSP};

/// What is known of a site beside its cases.
#[derive(Drop)]
pub struct Facts {
    /// The region to which the instruction stores, where it stores and its address is known.
    pub store: Option<Region>,
    /// The constant to which a call leads, where it is one.
    pub target: Option<u64>,
    /// Whether a return there is verified: the stack pointer and the registers that a callee keeps are those of the entry,
    /// and the return address is in its place (System V x86-64 psABI, section 3.2.1).
    pub returns: bool,
}

fn region_at(at: Option<Term>, bytes: u8) -> Option<Region>
    ensures { result ≡ option_map (region_of bytes) at }
{
    let at = at?;
    Some(Region { at, bytes })
}

// The region of the first operand, where that is in memory.
fn written(alloc: Global, i: &Instr, p: &Pred) -> Result<Option<Region>, NoMemory>
    ensures { IfOk result (λ r. r ≡ place_region i.now p.now i.now.dst) }
{
    let Operand::Mem(place) = &i.dst else {
        return Ok(None);
    };
    let at = store_address(alloc, i, p, place)?;
    Ok(region_at(at, i.width.bytes()))
}

// The region that the stack grows by.
fn pushed(alloc: Global, i: &Instr, p: &Pred) -> Result<Option<Region>, NoMemory>
    ensures { IfOk result (λ r. r ≡ push_region i.now p.now) }
{
    let at = push_address(alloc, i, p)?;
    Ok(region_at(at, 8))
}

// The region of an instruction's store, from what is known without its site's old name.
fn store_region(alloc: Global, i: &Instr, p: &Pred) -> Result<Option<Region>, NoMemory>
    ensures { IfOk result (λ r. r ≡ store_region_in (group_of i.now.op) i.now p.now) }
{
    match i.op {
        Op::Push | Op::Call => pushed(alloc, i, p),
        Op::Mov | Op::Xchg | Op::Setcc => written(alloc, i, p),
        Op::Add | Op::Or | Op::Adc | Op::Sbb | Op::And | Op::Sub | Op::Xor => written(alloc, i, p),
        Op::Not | Op::Neg | Op::Inc | Op::Dec => written(alloc, i, p),
        Op::Rol | Op::Ror | Op::Shl | Op::Shr | Op::Sar => written(alloc, i, p),
        _ => Ok(None),
    }
}

// ---- returns

fn is_symbol(alloc: Global, term: Option<&Term>, s: Sym) -> Result<bool, NoMemory>
    requires { IsSymbol s }
    ensures { IfOk result (λ b. b ≡ is_symbol s (option_copied term.entry)) }
{
    let Some(term) = term else {
        return Ok(false);
    };
    let symbol = Term::symbol(alloc, s)?;
    Ok(term.compare(&symbol).is_eq())
}

/// rbx, rbp and r12 to r15, which a callee gives back (System V x86-64 psABI, section 3.2.1).
const GIVEN_BACK: [u8; 6] = [3, 5, 12, 13, 14, 15];

// Whether they have their own entry symbols.
fn are_restored(alloc: Global, p: &Pred) -> Result<bool, NoMemory>
    ensures { IfOk result (λ b. b ≡ list_all (is_restored p.now) saved_registers) }
{
    for r in GIVEN_BACK {
        if !is_symbol(alloc, register(p, r), Sym::Entry(r))? {
            return Ok(false);
        }
    }
    Ok(true)
}

// The value of the cell of eight bytes at the entry's stack pointer.
fn return_cell<'a>(forest: &'a Forest, at: &Region) -> Option<&'a Term>
    requires { at.now ≡ region_of 8 (single_atom (symbol (Sym.Entry 4))) }
    ensures { option_copied result ≡ value_at (single_atom (symbol (Sym.Entry 4))) 8 forest.now }
{
    match forest.find(at) {
        Some(node) => node.value.as_ref(),
        None => None,
    }
}

fn is_returned(alloc: Global, p: &Pred) -> Result<bool, NoMemory>
    ensures { IfOk result (λ b. b ≡ are_restored p.now) }
{
    if !are_restored(alloc, p)? || !is_symbol(alloc, register(p, RSP), Sym::Entry(RSP))? {
        return Ok(false);
    }
    let at = Term::symbol(alloc, Sym::Entry(RSP))?;
    let top = Region { at, bytes: 8 };
    is_symbol(alloc, return_cell(&p.forest, &top), Sym::Ra)
}

/// What is known of a site, of which in the end only what doesn't mention its name is left.
#[tactic(auto, using(crate::proofs::ReturnLemmas::returns_exactly))]
pub fn facts_of(p: &mut Pred, alloc: Global, v: &SiteView, i: &Instr) -> Result<Facts, NoMemory>
    ensures store { IfOk result (λ f. f.store ≡ store_region i.now p.old) }
    ensures target { IfOk result (λ f. f.target ≡ call_target (view_of v.now) i.now p.old) }
    ensures returns { IfOk result (λ f. IsTrue f.returns ↔ Returns p.old) }
    ensures dropped { OnOk result (p.new ≡ dropped i.now p.old) }
{
    let returns = is_returned(alloc, p)?;
    drop_name(p, i);
    let target = call_target(alloc, v, i, p)?;
    let store = store_region(alloc, i, p)?;
    Ok(Facts {
        store,
        target,
        returns,
    })
}
