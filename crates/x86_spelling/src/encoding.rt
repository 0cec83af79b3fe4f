use bits_core::Width;
use x86_instr::Op;

/// Which fields of an encoding give the operands, with the SDM's code for it in its "Op/En" column.
#[derive(Clone, Copy, Debug, PartialEq, Eq)]
pub enum Form {
    /// MR: r/m, then reg.
    RmReg,
    /// RM: reg, then r/m.
    RegRm,
    /// MI: r/m, then the immediate.
    RmImm,
    /// MI: r/m, then the immediate as a count of bits.
    RmCount,
    /// I: the accumulator, then the immediate.
    AccImm,
    /// OI: the register in the opcode, then the immediate.
    OpImm,
    /// O: the register in the opcode.
    OpReg,
    /// M: r/m.
    Rm,
    /// D: the offset of a target from the next instruction.
    Offset,
    /// I: the immediate alone.
    ImmOnly,
    /// RMI: reg, r/m, and the immediate as a factor.
    RegRmImm,
    /// M1: r/m, and the number 1.
    RmOne,
    /// MC: r/m, and CL.
    RmCl,
    /// O: the accumulator, then the register in the opcode.
    AccOp,
    /// M: r/m, which stands there and is neither read nor written.
    RmIgnored,
    /// ZO: no operand.
    Nothing,
}

/// The operand size that an opcode has, with the SDM's code (Intel SDM volume 2, A.2.2).
#[derive(Clone, Copy, Debug, PartialEq, Eq)]
pub enum Size {
    /// b: 8 bits.
    Byte,
    /// v: 64 bits with REX.W, else 16 with the prefix 66, else 32.
    V,
    /// y: 64 bits with REX.W, else 32.
    Y,
    /// q: 64 bits.
    Quad,
}

/// How many bytes the immediate has, with the SDM's code (Intel SDM volume 2, A.2.2).
#[derive(Clone, Copy, Debug, PartialEq, Eq)]
pub enum ImmSize {
    /// There is none.
    Absent,
    /// b: 1.
    Byte,
    /// b: 1, a count of bits that isn't 0 after masking.
    Count,
    /// d: 4.
    Double,
    /// z: 2 at the operand size 16, else 4.
    Z,
    /// v: as many as the operand has.
    V,
}

/// Which prefixes may stand before an opcode, beside 26, 2E, 36 and 3E, which may stand before each.
#[derive(Clone, Copy, Debug, PartialEq, Eq)]
pub enum PrefixRule {
    /// 64 once, before a memory operand.
    Segment,
    /// 66 once, and 64 once before a memory operand.
    SizeSegment,
    /// 66 once.
    Size,
    /// 66 any number of times.
    Sizes,
    /// F2 once, and 64 once before a memory operand.
    Branch,
    /// F2 once and 67 once.
    Call,
    /// F2 once and F3 once.
    Return,
}

/// A row of the opcode map: what one opcode or a few in sequence mean.
#[derive(Clone, Copy, Debug, PartialEq, Eq)]
pub struct Row {
    /// The opcode comes after the escape byte 0F.
    pub escaped: bool,
    pub opcode: u8,
    /// How many opcodes from `opcode` on, as for `+r` and `+cc`.
    pub span: u8,
    /// The ModRM byte's reg field, where it extends the opcode.
    pub digit: Option<u8>,
    /// REX.B, where it belongs to the opcode.
    pub rex_b: Option<u8>,
    /// REX.W, where it belongs to the opcode.
    pub rex_w: Option<u8>,
    pub op: Op,
    pub form: Form,
    pub size: Size,
    /// The width of the source r/m, where it isn't the operand size.
    pub source: Option<Width>,
    pub imm: ImmSize,
    pub prefixes: PrefixRule,
}

/// The SIB byte's fields (Intel SDM volume 2, 2.1.3).
#[derive(Clone, Copy, Debug, PartialEq, Eq)]
pub struct Sib {
    pub scale: u8,
    pub index: u8,
    pub base: u8,
}

/// The ModRM byte's fields, with the SIB byte and the displacement that follow it (Intel SDM volume 2, 2.1.3).
#[derive(Clone, Copy, Debug, PartialEq, Eq)]
pub struct ModRm {
    /// The mod field.
    pub mode: u8,
    pub reg: u8,
    pub rm: u8,
    pub sib: Option<Sib>,
    /// The displacement as it is written, without its sign.
    pub disp: u64,
}

/// What the operands of an instruction are made of.
#[derive(Clone, Copy, Debug, PartialEq, Eq)]
pub struct Parts {
    /// The address of the next instruction.
    pub next: u64,
    pub fs: bool,
    pub width: Width,
    /// The width of the source r/m.
    pub src_width: Width,
    /// The low four bits of REX, if it stands there.
    pub rex: Option<u8>,
    pub opcode: u8,
    pub modrm: Option<ModRm>,
    /// The immediate as it is written, without its sign.
    pub imm: u64,
    /// How many bytes the immediate has.
    pub imm_len: u8,
}
