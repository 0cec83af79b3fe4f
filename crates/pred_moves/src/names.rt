// What the name of a site stands for.
ghost use Rattle.std.specs.Prelude.{◌≡◌, if◌then◌else◌, IfOk, None, Some};
ghost use Rattle.sym_terms.specs.declared.kinds.Sym.TheVariants.{Named};
ghost use Rattle.sym_terms.specs.Plain.{single_atom, symbol};
ghost use Rattle.step_rules.specs.Terms.{zeros_term};
ghost use Rattle.step_rules.specs.Names.{name_term, register_name, store_name, is_low_register, names_load, load_name};

use crate::terms::cut;
use bits_core::Width;
use std::alloc::Global;
use sym_terms::{NoMemory, Sym, Term};
use x86_instr::{Instr, Op, Operand};
use x86_machine::{named_register, names_store};

fn name_of(alloc: Global, address: u64) -> Result<Term, NoMemory>
    ensures { IfOk result (λ t. t ≡ single_atom (symbol (Named address))) }
{
    Term::symbol(alloc, Sym::Named(address))
}

/// The name of the instruction's site, as a term.
pub fn name(alloc: Global, i: &Instr) -> Result<Term, NoMemory>
    ensures { IfOk result (λ t. t ≡ name_term i.now) }
{
    name_of(alloc, i.addr)
}

fn name_if(alloc: Global, i: &Instr, is_named: bool) -> Result<Option<Term>, NoMemory>
    ensures { IfOk result (λ t. t ≡ (if is_named then Some (name_term i.now) else None)) }
{
    if is_named {
        Ok(Some(name(alloc, i)?))
    } else {
        Ok(None)
    }
}

/// The name, where it stands for this register after the step.
#[tactic(auto, using(crate::proofs::NameLemmas::register_by_parts))]
pub fn register_name(alloc: Global, i: &Instr, r: u8) -> Result<Option<Term>, NoMemory>
    ensures { IfOk result (λ t. t ≡ register_name i.now r) }
{
    match named_register(i) {
        Some(named) => name_if(alloc, i, r == named),
        None => Ok(None),
    }
}

/// The name, where it stands for the address of the store.
#[tactic(auto, using(crate::proofs::NameLemmas::store_by_parts))]
pub fn store_name(alloc: Global, i: &Instr) -> Result<Option<Term>, NoMemory>
    ensures { IfOk result (λ t. t ≡ store_name i.now) }
{
    name_if(alloc, i, names_store(i))
}

/// Whether an operand is a register from bit 0 on, of any width.
pub(crate) fn is_low_register(operand: &Operand) -> bool
    ensures { result ≡ is_low_register operand.now }
{
    matches!(operand, Operand::Reg(_))
}

fn names_load(i: &Instr) -> bool
    ensures { result ≡ names_load i.now.op i.now }
{
    match i.op {
        Op::Mov | Op::Movzx | Op::Movsx => is_low_register(&i.dst),
        Op::Xchg => is_low_register(&i.src),
        Op::Cmp | Op::Test | Op::Push | Op::Pop | Op::Leave | Op::Jmp => true,
        _ => false,
    }
}

/// The low bits of the name, extended by zeros.
#[tactic(auto, using(crate::proofs::NameLemmas::name_cut))]
fn low_name(alloc: Global, i: &Instr, w: Width) -> Result<Option<Term>, NoMemory>
    ensures { IfOk result (λ t. t ≡ Some (zeros_term w (name_term i.now))) }
{
    let whole = name(alloc, i)?;
    match w {
        Width::W64 => Ok(Some(whole)),
        _ => cut(alloc, w, Some(&whole)),
    }
}

/// What a load of a width gives, by the name, where that stands for it.
pub(crate) fn load_name(alloc: Global, i: &Instr, w: Width) -> Result<Option<Term>, NoMemory>
    ensures { IfOk result (λ t. t ≡ load_name i.now w) }
{
    if names_load(i) {
        low_name(alloc, i, w)
    } else {
        Ok(None)
    }
}
