ghost use Rattle.std.specs.Prelude.{◌≡◌};
ghost use Rattle.x86_instr.specs.Fits.{is_place};
ghost use Rattle.x86_machine.specs.Named.{names, written, exchange_name};
ghost use Rattle.x86_machine.specs.NameParts.{named_register, names_store};

use x86_instr::{Instr, Op, Operand, RAX, RBP, RDX};

fn is_place(operand: &Operand) -> bool
    ensures { result ≡ is_place operand.now }
{
    match operand {
        Operand::Mem(_) => true,
        _ => false,
    }
}

fn written_register(operand: &Operand) -> Option<u8>
    ensures { result ≡ named_register (written operand.now) }
{
    match operand {
        Operand::Reg(r) | Operand::High(r) => Some(*r),
        _ => None,
    }
}

fn exchanged_register(first: &Operand, source: &Operand) -> Option<u8>
    ensures { result ≡ named_register (exchange_name first.now source.now) }
{
    match first {
        Operand::Mem(_) => written_register(source),
        _ => None,
    }
}

/// The register whose 64 bits after the step the instruction names; `None` where it names another value, or none.
pub fn named_register(i: &Instr) -> Option<u8>
    ensures { result ≡ named_register (names i.now) }
{
    match i.op {
        Op::Call | Op::Syscall | Op::Mul | Op::Imul1 | Op::Div | Op::Idiv | Op::Widen => Some(RAX),
        Op::Signs => Some(RDX),
        Op::Leave => Some(RBP),
        Op::Xchg => exchanged_register(&i.dst, &i.src),
        Op::Cmp | Op::Test | Op::Push | Op::Jmp => None,
        Op::Jcc | Op::Ret | Op::Nop | Op::Hlt | Op::Ud2 | Op::Int3 => None,
        _ => written_register(&i.dst),
    }
}

/// Whether the instruction names the address of its store.
pub fn names_store(i: &Instr) -> bool
    ensures { result ≡ names_store (names i.now) }
{
    match i.op {
        Op::Push => !is_place(&i.dst),
        Op::Xchg => is_place(&i.dst) && is_place(&i.src),
        Op::Call | Op::Syscall | Op::Mul | Op::Imul1 | Op::Div | Op::Idiv | Op::Widen => false,
        Op::Signs | Op::Leave | Op::Cmp | Op::Test | Op::Jmp => false,
        Op::Jcc | Op::Ret | Op::Nop | Op::Hlt | Op::Ud2 | Op::Int3 => false,
        _ => is_place(&i.dst),
    }
}
