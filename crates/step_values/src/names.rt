// What the name of a site stands for.
ghost use Rattle.std.specs.Prelude.{◌≡◌, IfOk, None, Some};
ghost use Rattle.sym_terms.specs.declared.kinds.Sym.TheVariants.{Named};
ghost use Rattle.sym_terms.specs.Plain.{single_atom, symbol};
ghost use Rattle.step_rules.specs.Terms.{zeros_term};
ghost use Rattle.step_rules.specs.Names.{name as name_of, name_term, register_name, store_name, is_low_register, names_load, load_name};

use bits_core::Width;
use std::alloc::Global;
use sym_terms::{Fit, NoMemory, Sym, Term};
use x86_instr::{Instr, Op, Operand};
use x86_machine::{named_register, names_store};

/// The name of the instruction's site, as a term.
pub fn name(alloc: Global, i: &Instr) -> Result<Term, NoMemory>
    ensures { IfOk result (λ t. t ≡ name_term i.now) }
{
    named_at(alloc, i.addr)
}

fn named_at(alloc: Global, address: u64) -> Result<Term, NoMemory>
    ensures { IfOk result (λ t. t ≡ single_atom (symbol (Named address))) }
{
    Term::symbol(alloc, Sym::Named(address))
}

/// The name, where it stands for this register after the step.
#[tactic(auto, using(crate::proofs::NameLemmas::by_register))]
pub fn register_name(alloc: Global, i: &Instr, r: u8) -> Result<Option<Term>, NoMemory>
    ensures { IfOk result (λ t. t ≡ register_name i.now r) }
{
    match named_register(i) {
        Some(named) => {
            if r == named {
                Ok(Some(name(alloc, i)?))
            } else {
                Ok(None)
            }
        }
        None => Ok(None),
    }
}

/// The name, where it stands for the address of the store.
#[tactic(auto, using(crate::proofs::NameLemmas::by_store))]
pub fn store_name(alloc: Global, i: &Instr) -> Result<Option<Term>, NoMemory>
    ensures { IfOk result (λ t. t ≡ store_name i.now) }
{
    if names_store(i) {
        Ok(Some(name(alloc, i)?))
    } else {
        Ok(None)
    }
}

/// Whether an operand is a register from bit 0 on, of any width.
pub fn is_low_register(operand: &Operand) -> bool
    ensures { result ≡ is_low_register operand.now }
{
    match operand {
        Operand::Reg(_) => true,
        _ => false,
    }
}

fn names_load(i: &Instr) -> bool
    ensures { result ≡ names_load i.now.op i.now }
{
    match i.op {
        Op::Cmp | Op::Test | Op::Push | Op::Jmp | Op::Pop | Op::Leave => true,
        Op::Mov | Op::Movzx | Op::Movsx => is_low_register(&i.dst),
        Op::Xchg => is_low_register(&i.src),
        _ => false,
    }
}

/// The low bits of the name.
#[tactic(auto, using(crate::proofs::NameLemmas::small_name))]
pub fn cut_name(alloc: Global, i: &Instr, w: Width) -> Result<Option<Term>, NoMemory>
    ensures { IfOk result (λ t. t ≡ Some (zeros_term w (name_term i.now))) }
{
    let name = name(alloc, i)?;
    match w {
        Width::W8 => name.fit(alloc, Fit::Zx8),
        Width::W16 => name.fit(alloc, Fit::Zx16),
        Width::W32 => name.fit(alloc, Fit::Zx32),
        Width::W64 => Ok(Some(name)),
    }
}

/// A loaded number of a width as the low bits of the name, where it is those.
pub fn load_name(alloc: Global, i: &Instr, w: Width) -> Result<Option<Term>, NoMemory>
    ensures { IfOk result (λ t. t ≡ load_name i.now w) }
{
    if names_load(i) {
        cut_name(alloc, i, w)
    } else {
        Ok(None)
    }
}
