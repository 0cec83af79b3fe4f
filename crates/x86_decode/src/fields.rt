ghost use Rattle.std.specs.Prelude.{◌≡◌, IsTrue};
ghost use Rattle.x86_spelling.specs.Fields.{rex_w, rex_r, rex_x, rex_b, is_memory};
ghost use Rattle.x86_spelling.specs.Rows.{has_modrm, fits_operand};
ghost use Rattle.x86_spelling.specs.Sizes.{width_of, source_width, imm_len, fits_imm, is_length};

use bits_core::Width;
use x86_instr::Op;
use x86_spelling::{Form, ImmSize, ModRm, Row, Size};

// The low four bits of REX.
#[derive(Clone, Copy)]
pub struct RexBits {
    pub w: u8,
    pub r: u8,
    pub x: u8,
    pub b: u8,
}

pub fn rex_bits(rex: Option<u8>) -> RexBits
    ensures w { result.w ≡ rex_w rex }
    ensures r { result.r ≡ rex_r rex }
    ensures x { result.x ≡ rex_x rex }
    ensures b { result.b ≡ rex_b rex }
{
    match rex {
        Some(wrxb) => RexBits {
            w: wrxb / 8,
            r: wrxb / 4 % 2,
            x: wrxb / 2 % 2,
            b: wrxb % 2,
        },
        None => RexBits {
            w: 0,
            r: 0,
            x: 0,
            b: 0,
        },
    }
}

pub fn width_at(size: Size, w: u8, small: bool) -> Width
    ensures { result ≡ width_of size w small }
{
    match size {
        Size::Byte => Width::W8,
        Size::Quad => Width::W64,
        Size::V | Size::Y if w == 1 => Width::W64,
        Size::V if small => Width::W16,
        Size::V | Size::Y => Width::W32,
    }
}

pub fn source_width_of(row: Row, width: Width) -> Width
    ensures { result ≡ source_width row width }
{
    match row.source {
        Some(source) => source,
        None => width,
    }
}

pub fn imm_length(imm: ImmSize, width: Width) -> u8
    ensures value { result ≡ imm_len imm width }
    ensures length { IsTrue (is_length result) }
{
    match imm {
        ImmSize::Absent => 0,
        ImmSize::Byte | ImmSize::Count => 1,
        ImmSize::Double => 4,
        ImmSize::Z => match width {
            Width::W16 => 2,
            Width::W8 | Width::W32 | Width::W64 => 4,
        },
        ImmSize::V => width.bytes(),
    }
}

pub fn imm_fits(imm: ImmSize, width: Width, n: u64) -> bool
    ensures { result ≡ fits_imm imm width n }
{
    match imm {
        ImmSize::Count => match width {
            Width::W64 => n % 64 != 0,
            Width::W8 | Width::W16 | Width::W32 => n % 32 != 0,
        },
        ImmSize::Absent | ImmSize::Byte | ImmSize::Double | ImmSize::Z | ImmSize::V => true,
    }
}

pub fn is_memory_operand(modrm: Option<ModRm>) -> bool
    ensures { result ≡ is_memory modrm }
{
    match modrm {
        Some(m) => m.mode != 3,
        None => false,
    }
}

pub fn has_modrm_byte(form: Form) -> bool
    ensures { result ≡ has_modrm form }
{
    match form {
        Form::RmReg
        | Form::RegRm
        | Form::RmImm
        | Form::RmCount
        | Form::Rm
        | Form::RegRmImm
        | Form::RmOne
        | Form::RmCl
        | Form::RmIgnored => true,
        Form::AccImm
        | Form::AccOp
        | Form::OpImm
        | Form::OpReg
        | Form::Offset
        | Form::ImmOnly
        | Form::Nothing => false,
    }
}

pub fn operand_fits(op: Op, memory: bool) -> bool
    ensures { result ≡ fits_operand op memory }
{
    match op {
        Op::Lea => memory,
        _ => true,
    }
}
