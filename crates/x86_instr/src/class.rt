ghost use Rattle.std.specs.Prelude.{◌≡◌};
ghost use Rattle.x86_instr.specs.Classes.{class_of};

use crate::instr::Op;

/// How control goes on after an operation (Intel SDM volume 1, 5.1.7: control transfer).
#[derive(Clone, Copy, Debug, PartialEq, Eq)]
pub enum Class {
    /// At the next instruction; the operation calculates, compares or shifts.
    Calculation,
    /// At the next instruction; the operation moves data, or does nothing.
    Transfer,
    /// At the next instruction, unless the division is by 0 or its quotient does not fit.
    Division,
    /// At the target, or at the next instruction where the condition is false.
    Jump,
    /// At the target, with the address of the next instruction on the stack.
    Call,
    /// At the address on the stack.
    Return,
    /// In the operating system.
    SystemCall,
    /// Nowhere.
    Stop,
}

impl Op {
    /// The class of the operation.
    pub fn class(self) -> Class
        ensures { result ≡ class_of self }
    {
        match self {
            Op::Mov
            | Op::Lea
            | Op::Movzx
            | Op::Movsx
            | Op::Push
            | Op::Pop
            | Op::Leave
            | Op::Widen
            | Op::Signs
            | Op::Xchg
            | Op::Bswap
            | Op::Cmov
            | Op::Setcc
            | Op::Nop => Class::Transfer,
            Op::Div | Op::Idiv => Class::Division,
            Op::Jcc | Op::Jmp => Class::Jump,
            Op::Call => Class::Call,
            Op::Ret => Class::Return,
            Op::Syscall => Class::SystemCall,
            Op::Hlt | Op::Ud2 | Op::Int3 => Class::Stop,
            _ => Class::Calculation,
        }
    }
}
