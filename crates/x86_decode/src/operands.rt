ghost use Rattle.std.specs.Prelude.{◌≡◌, ◌<◌, ◌^◌, ◌*◌, ◌+◌, IsTrue};
ghost use Rattle.std.specs.Option.{ForSome};
ghost use Rattle.x86_spelling.specs.Fields.{base_field, is_baseless, disp_len, FitsSib, FitsModRm};
ghost use Rattle.x86_spelling.specs.Sizes.{is_length, sign_extend};
ghost use Rattle.x86_spelling.specs.Operands.{register, base_of, index_of, scale_of, disp_of, place, rm_operand, reg_operand, opcode_operand, imm_number, target};
ghost use Rattle.x86_spelling.specs.Instructions.{factor, destination, source, condition, instruction, FitsParts};

use crate::fields::rex_bits;
use crate::reading::disp_length;
use bits_core::{Width, cut};
use x86_instr::{Instr, Op, Operand, Place, RAX, RCX, RSP};
use x86_spelling::{Form, ModRm, Parts, Row, Sib};

fn register_of(width: Width, rex: Option<u8>, number: u8) -> Operand
    ensures { result ≡ register width rex number }
{
    match width {
        Width::W8 if rex.is_none() && number >= 4 => Operand::High(number - 4),
        _ => Operand::Reg(number),
    }
}

// The number of len bytes, extended by its sign.
fn extended(len: u8, n: u64) -> u64
    requires len { IsTrue (is_length len) }
    requires n { n < 256 ^ len }
    ensures { result ≡ sign_extend len n }
{
    if len == 0 {
        n
    } else if len == 1 {
        if n < 0x80 {
            n
        } else {
            n + 0xffff_ffff_ffff_ff00
        }
    } else if len == 2 {
        if n < 0x8000 {
            n
        } else {
            n + 0xffff_ffff_ffff_0000
        }
    } else if len == 4 {
        if n < 0x8000_0000 {
            n
        } else {
            n + 0xffff_ffff_0000_0000
        }
    } else {
        n
    }
}

fn index_number(x: u8, sib: Sib) -> u8
    requires x { x < 2 }
    requires sib { FitsSib sib }
    ensures { result ≡ 8 * x + sib.index }
{
    8 * x + sib.index
}

fn index_register(rex: Option<u8>, sib: Option<Sib>) -> Option<u8>
    requires { ForSome sib FitsSib }
    ensures { result ≡ index_of rex sib }
{
    match sib {
        Some(s) => {
            let number = index_number(rex_bits(rex).x, s);
            if number == RSP { None } else { Some(number) }
        }
        None => None,
    }
}

fn power_of_two(scale: u8) -> u8
    requires { scale < 4 }
    ensures { result ≡ 2 ^ scale }
{
    match scale {
        0 => 1,
        1 => 2,
        2 => 4,
        _ => 8,
    }
}

fn scale_factor(rex: Option<u8>, sib: Option<Sib>) -> u8
    requires { ForSome sib FitsSib }
    ensures { result ≡ scale_of rex sib }
{
    match sib {
        Some(s) => {
            let number = index_number(rex_bits(rex).x, s);
            if number == RSP {
                1
            } else {
                power_of_two(s.scale)
            }
        }
        None => 1,
    }
}

fn base_number(rm: u8, sib: Option<Sib>) -> u8
    ensures { result ≡ base_field rm sib }
{
    match sib {
        Some(s) => s.base,
        None => rm,
    }
}

fn is_without_base(m: ModRm) -> bool
    ensures { result ≡ is_baseless m.mode m.rm m.sib }
{
    m.mode == 0 && base_number(m.rm, m.sib) == 5
}

fn base_register(rex: Option<u8>, m: ModRm) -> Option<u8>
    requires { base_field m.rm m.sib < 8 }
    ensures { result ≡ base_of rex m }
{
    if is_without_base(m) {
        None
    } else {
        Some(8 * rex_bits(rex).b + base_number(m.rm, m.sib))
    }
}

fn displacement(next: u64, m: ModRm) -> u64
    requires { m.disp < 256 ^ disp_len m.mode m.rm m.sib }
    ensures { result ≡ disp_of next m }
{
    let len = disp_length(m.mode, m.rm, m.sib);
    let disp = extended(len, m.disp);
    if is_without_base(m) && m.sib.is_none() {
        next.wrapping_add(disp)
    } else {
        disp
    }
}

fn place_of(parts: &Parts, m: ModRm) -> Place
    requires { FitsModRm m }
    ensures { result ≡ place parts.now m }
{
    Place {
        base: base_register(parts.rex, m),
        index: index_register(parts.rex, m.sib),
        scale: scale_factor(parts.rex, m.sib),
        disp: displacement(parts.next, m),
        fs: parts.fs,
    }
}

fn rm_number(b: u8, m: ModRm) -> u8
    requires b { b < 2 }
    requires m { FitsModRm m }
    ensures { result ≡ 8 * b + m.rm }
{
    8 * b + m.rm
}

fn reg_number(r: u8, m: ModRm) -> u8
    requires r { r < 2 }
    requires m { FitsModRm m }
    ensures { result ≡ 8 * r + m.reg }
{
    8 * r + m.reg
}

fn rm_of(width: Width, parts: &Parts) -> Operand
    requires { ForSome parts.now.modrm FitsModRm }
    ensures { result ≡ rm_operand width parts.now parts.now.modrm }
{
    match parts.modrm {
        Some(m) => {
            if m.mode == 3 {
                let number = rm_number(rex_bits(parts.rex).b, m);
                register_of(width, parts.rex, number)
            } else {
                Operand::Mem(place_of(parts, m))
            }
        }
        None => Operand::None,
    }
}

fn reg_of(parts: &Parts) -> Operand
    requires { ForSome parts.now.modrm FitsModRm }
    ensures { result ≡ reg_operand parts.now parts.now.modrm }
{
    match parts.modrm {
        Some(m) => {
            let number = reg_number(rex_bits(parts.rex).r, m);
            register_of(parts.width, parts.rex, number)
        }
        None => Operand::None,
    }
}

fn opcode_register(parts: &Parts) -> Operand
    ensures { result ≡ opcode_operand parts.now }
{
    let number = 8 * rex_bits(parts.rex).b + parts.opcode % 8;
    register_of(parts.width, parts.rex, number)
}

fn immediate(parts: &Parts) -> u64
    requires { FitsParts parts.now }
    ensures { result ≡ imm_number parts.now }
{
    cut(parts.width, extended(parts.imm_len, parts.imm))
}

fn target_of(parts: &Parts) -> Operand
    requires { FitsParts parts.now }
    ensures { result ≡ target parts.now }
{
    Operand::Imm(parts.next.wrapping_add(extended(parts.imm_len, parts.imm)))
}

fn destination_of(form: Form, parts: &Parts) -> Operand
    requires { FitsParts parts.now }
    ensures { result ≡ destination form parts.now }
{
    match form {
        Form::RmReg | Form::RmImm | Form::RmCount | Form::Rm | Form::RmOne | Form::RmCl => {
            rm_of(parts.width, parts)
        }
        Form::RegRm | Form::RegRmImm => reg_of(parts),
        Form::AccImm | Form::AccOp => Operand::Reg(RAX),
        Form::OpImm | Form::OpReg => opcode_register(parts),
        Form::Offset => target_of(parts),
        Form::ImmOnly => Operand::Imm(immediate(parts)),
        Form::RmIgnored | Form::Nothing => Operand::None,
    }
}

fn source_of(form: Form, parts: &Parts) -> Operand
    requires { FitsParts parts.now }
    ensures { result ≡ source form parts.now }
{
    match form {
        Form::RmReg => reg_of(parts),
        Form::RegRm | Form::RegRmImm => rm_of(parts.src_width, parts),
        Form::RmImm | Form::AccImm | Form::OpImm => Operand::Imm(immediate(parts)),
        Form::RmCount => Operand::Imm(cut(Width::W8, parts.imm)),
        Form::RmOne => Operand::Imm(1),
        Form::RmCl => Operand::Reg(RCX),
        Form::AccOp => opcode_register(parts),
        Form::OpReg | Form::Rm | Form::Offset | Form::ImmOnly | Form::RmIgnored | Form::Nothing =>
            Operand::None,
    }
}

fn factor_of(form: Form, parts: &Parts) -> u64
    requires { FitsParts parts.now }
    ensures { result ≡ factor form parts.now }
{
    match form {
        Form::RegRmImm => immediate(parts),
        _ => 0,
    }
}

fn condition_of(op: Op, opcode: u8) -> u8
    ensures { result ≡ condition op opcode }
{
    match op {
        Op::Jcc | Op::Cmov | Op::Setcc => opcode % 16,
        _ => 0,
    }
}

pub fn instruction_of(addr: u64, len: u8, row: Row, parts: Parts) -> Instr
    requires { FitsParts parts }
    ensures { result ≡ instruction addr len row parts }
{
    Instr {
        addr,
        len,
        op: row.op,
        width: parts.width,
        src_width: parts.src_width,
        cc: condition_of(row.op, parts.opcode),
        dst: destination_of(row.form, &parts),
        src: source_of(row.form, &parts),
        extra: factor_of(row.form, &parts),
    }
}
