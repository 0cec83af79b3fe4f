// What the rules of a graph ask of a site beside its cases.
ghost use Rattle.std.specs.Prelude.{◌≡◌, ◌↔◌, IfOk, IsTrue};
ghost use Rattle.std.specs.List.{list_all};
ghost use Rattle.std.specs.Option.{option_copied, option_map};
ghost use Rattle.bits_core.specs.Width.{bytes_of};
ghost use Rattle.x86_instr.specs.Fits.{InForm};
ghost use Rattle.sym_terms.specs.declared.kinds.Sym.TheVariants.{Ra};
ghost use Rattle.mem_forest.specs.Search.{value_at};
ghost use Rattle.x86_instr.specs.Groups.{group_of};
ghost use Rattle.x86_instr.specs.Registers.{rsp};
ghost use Rattle.predicate_meaning.specs.Sat.{register};
ghost use Rattle.predicate_meaning.specs.Returns.{Returns, saved_registers};
ghost use Rattle.step_rules.specs.Site.{region_of, place_region, push_region, store_region_in, store_region, can_fork, fork_holds};
ghost use Rattle.step_values.specs.Views.{view_of};
ghost use Rattle.sym_step.specs.Restored.{is_known, is_restored, is_top_restored, is_returned};

use crate::calls::dropped;
use crate::lookup::{can_alias_without, find_at};
use bits_core::Width;
use mem_forest::Region;
use predicates::{Pred, SiteView};
use std::alloc::Global;
use step_effects::push_address;
use step_values::After;
use sym_terms::{NoMemory, Sym, Term};
use x86_instr::{Class, Instr, Op, Operand, RSP};

// The bytes of a width at an address, where that is known.
fn region_at(w: Width, at: Option<Term>) -> Option<Region>
    ensures { result ≡ option_map (region_of (bytes_of w)) at }
{
    match at {
        Some(at) => Some(Region {
            at,
            bytes: w.bytes(),
        }),
        None => None,
    }
}

fn place_region(
    after: &After,
    alloc: Global,
    i: &Instr,
    operand: &Operand,
) -> Result<Option<Region>, NoMemory>
    ensures { IfOk result (λ r. r ≡ place_region i.now after.now operand.now) }
{
    match operand {
        Operand::Mem(place) => Ok(region_at(i.width, after.store_address(alloc, i, place)?)),
        _ => Ok(None),
    }
}

fn push_region(after: &After, alloc: Global, i: &Instr) -> Result<Option<Region>, NoMemory>
    ensures { IfOk result (λ r. r ≡ push_region i.now after.now) }
{
    Ok(region_at(Width::W64, push_address(after, alloc, i)?))
}

// The region of a store, from what is known without the site's old name.
fn stored_region(after: &After, alloc: Global, i: &Instr) -> Result<Option<Region>, NoMemory>
    ensures { IfOk result (λ r. r ≡ store_region_in (group_of i.now.op) i.now after.now) }
{
    match i.op {
        Op::Push | Op::Call => push_region(after, alloc, i),
        Op::Cmp | Op::Test | Op::Lea | Op::Movzx | Op::Movsx => Ok(None),
        Op::Mul | Op::Imul1 | Op::Div | Op::Idiv | Op::Imul2 | Op::Imul3 => Ok(None),
        Op::Pop | Op::Leave | Op::Widen | Op::Signs | Op::Bswap | Op::Cmov => Ok(None),
        Op::Jcc | Op::Jmp | Op::Ret | Op::Nop | Op::Syscall => Ok(None),
        Op::Hlt | Op::Ud2 | Op::Int3 => Ok(None),
        _ => place_region(after, alloc, i, &i.dst),
    }
}

/// The region to which the instruction stores; `None` where it stores nothing, or to an unknown address.
pub fn store_region(alloc: Global, i: &Instr, p: &Pred) -> Result<Option<Region>, NoMemory>
    requires { InForm i.now }
    ensures { IfOk result (λ r. r ≡ store_region i.now p.now) }
{
    let after = dropped(alloc, i, p)?;
    stored_region(&after, alloc, i)
}

fn can_fork(class: Class) -> bool
    ensures { result ≡ can_fork class }
{
    match class {
        Class::Calculation | Class::Transfer | Class::Division => true,
        Class::Jump | Class::Call | Class::Return | Class::SystemCall | Class::Stop => false,
    }
}

/// Whether the site's pair may be told apart: at an instruction that goes on, where the first region's address can be one
/// more name of the second's cell; a site without a pair may. Takes no memory.
pub fn fork_holds(v: &SiteView, i: &Instr, p: &Pred) -> bool
    requires { InForm i.now }
    ensures { result ≡ fork_holds (view_of v.now) i.now p.now }
{
    match v.fork {
        Some((region, other)) => {
            can_fork(i.op.class())
                && can_alias_without(&p.forest, Sym::Named(i.addr), region, other)
        }
        None => true,
    }
}

// Whether a term is known and is a symbol alone.
fn is_known(term: Option<&Term>, s: Sym) -> bool
    ensures { result ≡ is_known s (option_copied term.entry) }
{
    match term {
        Some(term) => match term.as_symbol() {
            Some(own) => own.compare(s).is_eq(),
            None => false,
        },
        None => false,
    }
}

// Whether a register has its own entry symbol.
#[tactic(auto, unfolding(predicate_meaning::specs::Sat::register), using(std::proofs::lemmas::List::get_or_past))]
fn is_restored(p: &Pred, r: u8) -> bool
    ensures { result ≡ is_restored p.now r }
{
    let at = usize::from(r);
    if at < p.regs.len() {
        is_known(p.regs.as_slice()[at].as_ref(), Sym::Entry(r))
    } else {
        false
    }
}

/// rbx, rbp and r12 to r15 (System V x86-64 psABI, section 3.2.1).
const SAVED: [u8; 6] = [3, 5, 12, 13, 14, 15];

fn are_restored(p: &Pred) -> bool
    ensures { result ≡ list_all (is_restored p.now) saved_registers }
{
    SAVED.iter().all(|r| is_restored(p, *r))
}

// Whether the 8 bytes at an address are the return address.
fn has_return_address(p: &Pred, at: &Term) -> bool
    ensures { result ≡ is_known Ra (value_at at.now 8 p.now.forest) }
{
    match find_at(p.forest.nodes(), at, 8) {
        Some(node) => is_known(node.value.as_ref(), Sym::Ra),
        None => false,
    }
}

/// Whether a return is verified: the stack pointer and the registers that a callee keeps are those of the entry, and the
/// return address is in its place (System V x86-64 psABI, section 3.2.1). Takes no memory.
#[tactic(auto, using(crate::proofs::SymbolLemmas::returns_exactly))]
pub fn return_holds(p: &Pred) -> bool
    ensures test { result ≡ is_returned p.now }
    ensures exact { IsTrue result ↔ Returns p.now }
{
    are_restored(p) && is_top_restored(p)
}

// Whether the stack pointer is that of the entry, and the 8 bytes there are the return address.
#[tactic(auto, unfolding(predicate_meaning::specs::Sat::register), using(std::proofs::lemmas::List::get_or_past))]
fn is_top_restored(p: &Pred) -> bool
    ensures { result ≡ is_top_restored p.now (register p.now rsp) }
{
    let at = usize::from(RSP);
    if at >= p.regs.len() {
        return false;
    }
    match &p.regs.as_slice()[at] {
        Some(top) => is_known(Some(top), Sym::Entry(RSP)) && has_return_address(p, top),
        None => false,
    }
}
