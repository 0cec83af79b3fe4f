use bits_core::Width;

/// What an instruction does. The name is the SDM's mnemonic (Intel SDM volume 2, chapters 3 to 5); several
/// mnemonics of one operation are one variant.
///
/// Which operand is where, for each of them, is told at [`Instr`].
#[derive(Clone, Copy, Debug, PartialEq, Eq)]
pub enum Op {
    Add,
    Or,
    Adc,
    Sbb,
    And,
    Sub,
    Xor,
    Cmp,
    Test,
    Mov,
    Lea,
    Movzx,
    /// MOVSX and MOVSXD.
    Movsx,
    Not,
    Neg,
    Mul,
    /// IMUL with one operand: the product of rax and the operand in rdx:rax.
    Imul1,
    Div,
    Idiv,
    /// IMUL with two operands.
    Imul2,
    /// IMUL with three operands, the third a constant factor.
    Imul3,
    Inc,
    Dec,
    Rol,
    Ror,
    Shl,
    Shr,
    Sar,
    Push,
    Pop,
    Leave,
    /// CBW, CWDE and CDQE, by the width.
    Widen,
    /// CWD, CDQ and CQO, by the width.
    Signs,
    Xchg,
    Bswap,
    Cmov,
    Setcc,
    Jcc,
    Jmp,
    Call,
    Ret,
    /// NOP, with and without a ModRM byte, and ENDBR64.
    Nop,
    Syscall,
    Hlt,
    Ud2,
    Int3,
}

/// A place in memory. Its effective address is `base + index * scale + disp` modulo 2^64, and with `fs` the
/// FS base is added.
///
/// Registers are numbered as in an encoding: rax 0, rcx 1, rdx 2, rbx 3, rsp 4, rbp 5, rsi 6, rdi 7, r8 8 to
/// r15 15. An index is never 4.
#[derive(Clone, Copy, Debug, PartialEq, Eq)]
pub struct Place {
    pub base: Option<u8>,
    pub index: Option<u8>,
    /// 1, 2, 4 or 8, and 1 where there is no index.
    pub scale: u8,
    /// The displacement, sign-extended to 64 bits. An operand relative to the next instruction has its
    /// absolute address here, and no base.
    pub disp: u64,
    pub fs: bool,
}

/// An operand, whose width the instruction tells.
#[derive(Clone, Copy, Debug, PartialEq, Eq)]
pub enum Operand {
    None,
    /// The low bits of a register, from 0 to 15.
    Reg(u8),
    /// Bits 8 to 15 of a register, of 8 bits: 0 for AH, 1 for CH, 2 for DH, 3 for BH.
    High(u8),
    /// A number below 2 to the width: an immediate that was sign-extended and cut to the width, or the
    /// absolute address of a direct target.
    Imm(u64),
    Mem(Place),
}

/// A decoded instruction.
///
/// - `width` is the operand size in bits, and 64 for an instruction that has none.
/// - `dst` is the SDM's first operand, `src` the second. An instruction with one operand has it in `dst`,
///   whether it is written (`not`, `pop`, `setcc`) or read (`push`, `mul`, `div`, `jmp`, `call`).
/// - A direct target (of `jcc`, `jmp`, `call`) is an `Imm` in `dst`, the address modulo 2^64.
/// - A shift's or rotation's count is its `src`: the immediate byte as it stands, from 0 to 255 and not masked;
///   `Imm(1)`; or `Reg(1)`, which stands for CL and is 8 bits wide at each width.
/// - `xchg` of the opcodes 90 to 97 has rax in `dst` and the other register in `src`.
/// - Registers that the SDM leaves unnamed (rax and rdx of `mul` and its kin, rsp of `push`) are no operands.
#[derive(Clone, Copy, Debug, PartialEq, Eq)]
pub struct Instr {
    /// The address of its first byte.
    pub addr: u64,
    /// How many bytes it has, from 1 to 15.
    pub len: u8,
    pub op: Op,
    pub width: Width,
    /// The width of `src`: that of the narrower source in `movzx` and `movsx`, else `width`.
    pub src_width: Width,
    /// The condition of `jcc`, `setcc` and `cmov`, by its number in the opcode, from 0 to 15, not 10 or 11.
    /// In other instructions 0.
    pub cc: u8,
    pub dst: Operand,
    pub src: Operand,
    /// The constant factor of [`Op::Imul3`], sign-extended and cut to the width. In other instructions 0.
    pub extra: u64,
}
