ghost use Rattle.std.specs.Prelude.{◌≡◌, ◌++◌, ◌||◌, is_some, IfOk, OnOk, codes, decimal};
ghost use Rattle.x86_text.specs.Names.{register_name};
ghost use Rattle.x86_text.specs.InstructionText.{address_text, after, base_text, count_text, disp_text, first_text, hex_text, index_text, is_small_negative, number_text, operand_text, place_text, plus_text, second_text, segment_text, size_text, target_text, text_of, third_text};

use crate::names::{put, put_decimal, put_high, put_mnemonic, put_register};
use bits_core::{Width, sext};
use no_memory::NoMemory;
use std::alloc::Global;
use x86_instr::{Instr, Op, Operand, Place};

/// The text of an instruction: the mnemonic in lower case with its condition, a space, and the operands, the written
/// one first, joined by a comma and a space. A number is decimal from -9999 to 9999, else hexadecimal; a direct target
/// is hexadecimal; a place in memory has its size before its brackets, but in `lea`. `NoMemory` where there is no
/// memory for the text.
pub fn write_instr(alloc: Global, i: &Instr) -> Result<Vec<u8>, NoMemory>
    ensures { IfOk result (λ text. text.items ≡ text_of i.now) }
{
    let mut out = Vec::new(alloc);
    put_mnemonic(&mut out, i)?;
    put_first(alloc, &mut out, i)?;
    put_second(alloc, &mut out, i)?;
    put_third(alloc, &mut out, i)?;
    Ok(out)
}

fn put_hex(alloc: Global, out: &mut Vec<u8>, n: u64) -> Result<(), NoMemory>
    ensures { OnOk result (out.new.items ≡ out.old.items ++ hex_text n) }
{
    match format!(in alloc; "0x{n:x}") {
        Ok(text) => put(out, text.as_bytes()),
        Err(_) => Err(NoMemory),
    }
}

fn is_small_negative(n: u64) -> bool
    ensures { result ≡ is_small_negative n }
{
    n > u64::MAX - 9_999
}

fn put_number(alloc: Global, out: &mut Vec<u8>, n: u64) -> Result<(), NoMemory>
    ensures { OnOk result (out.new.items ≡ out.old.items ++ number_text n) }
{
    if n < 10_000 {
        return put_decimal(out, n);
    }
    if is_small_negative(n) {
        put(out, b"-")?;
        return put_decimal(out, u64::MAX - n + 1);
    }
    put_hex(alloc, out, n)
}

fn put_plus(out: &mut Vec<u8>, follows: bool, n: u64) -> Result<(), NoMemory>
    ensures { OnOk result (out.new.items ≡ out.old.items ++ plus_text follows n) }
{
    if follows && !is_small_negative(n) {
        put(out, b"+")
    } else {
        Ok(())
    }
}

fn put_disp(alloc: Global, out: &mut Vec<u8>, follows: bool, n: u64) -> Result<(), NoMemory>
    ensures { OnOk result (out.new.items ≡ out.old.items ++ disp_text follows n) }
{
    if follows && n == 0 {
        return Ok(());
    }
    put_plus(out, follows, n)?;
    put_number(alloc, out, n)
}

fn put_base(out: &mut Vec<u8>, base: Option<u8>) -> Result<(), NoMemory>
    ensures { OnOk result (out.new.items ≡ out.old.items ++ base_text base) }
{
    match base {
        Some(r) => put_register(out, Width::W64, r),
        None => Ok(()),
    }
}

fn put_scaled(out: &mut Vec<u8>, r: u8, scale: u8) -> Result<(), NoMemory>
    ensures { OnOk result (out.new.items ≡ out.old.items ++ (register_name Width.W64 r ++ (codes "*" ++ decimal scale))) }
{
    put_register(out, Width::W64, r)?;
    put(out, b"*")?;
    put_decimal(out, u64::from(scale))
}

fn put_index(out: &mut Vec<u8>, follows: bool, index: Option<u8>, scale: u8) -> Result<(), NoMemory>
    ensures { OnOk result (out.new.items ≡ out.old.items ++ index_text follows index scale) }
{
    match index {
        Some(r) => {
            if follows {
                put(out, b"+")?;
                return put_scaled(out, r, scale);
            }
            put_scaled(out, r, scale)
        }
        None => Ok(()),
    }
}

fn put_segment(out: &mut Vec<u8>, fs: bool) -> Result<(), NoMemory>
    ensures { OnOk result (out.new.items ≡ out.old.items ++ segment_text fs) }
{
    if fs { put(out, b"fs:") } else { Ok(()) }
}

fn put_place(alloc: Global, out: &mut Vec<u8>, p: Place) -> Result<(), NoMemory>
    ensures { OnOk result (out.new.items ≡ out.old.items ++ place_text p) }
{
    put(out, b"[")?;
    put_segment(out, p.fs)?;
    put_base(out, p.base)?;
    put_index(out, p.base.is_some(), p.index, p.scale)?;
    put_disp(alloc, out, p.base.is_some() || p.index.is_some(), p.disp)?;
    put(out, b"]")
}

fn size_text(w: Width) -> &'static [u8]
    ensures { result.now ≡ size_text w }
{
    match w {
        Width::W8 => b"byte ",
        Width::W16 => b"word ",
        Width::W32 => b"dword ",
        Width::W64 => b"qword ",
    }
}

fn put_sized(alloc: Global, out: &mut Vec<u8>, w: Width, p: Place) -> Result<(), NoMemory>
    ensures { OnOk result (out.new.items ≡ out.old.items ++ (size_text w ++ place_text p)) }
{
    put(out, size_text(w))?;
    put_place(alloc, out, p)
}

fn put_operand(alloc: Global, out: &mut Vec<u8>, w: Width, operand: Operand) -> Result<(), NoMemory>
    ensures { OnOk result (out.new.items ≡ out.old.items ++ operand_text w operand) }
{
    match operand {
        Operand::None => Ok(()),
        Operand::Reg(r) => put_register(out, w, r),
        Operand::High(r) => put_high(out, r),
        Operand::Imm(n) => put_number(alloc, out, sext(w, n)),
        Operand::Mem(p) => put_sized(alloc, out, w, p),
    }
}

fn put_target(alloc: Global, out: &mut Vec<u8>, operand: Operand) -> Result<(), NoMemory>
    ensures { OnOk result (out.new.items ≡ out.old.items ++ target_text operand) }
{
    match operand {
        Operand::Imm(n) => put_hex(alloc, out, n),
        _ => put_operand(alloc, out, Width::W64, operand),
    }
}

fn put_count(alloc: Global, out: &mut Vec<u8>, w: Width, operand: Operand) -> Result<(), NoMemory>
    ensures { OnOk result (out.new.items ≡ out.old.items ++ count_text w operand) }
{
    match operand {
        Operand::Reg(r) => put_register(out, Width::W8, r),
        _ => put_operand(alloc, out, w, operand),
    }
}

fn put_address(alloc: Global, out: &mut Vec<u8>, w: Width, operand: Operand) -> Result<(), NoMemory>
    ensures { OnOk result (out.new.items ≡ out.old.items ++ address_text w operand) }
{
    match operand {
        Operand::Mem(p) => put_place(alloc, out, p),
        _ => put_operand(alloc, out, w, operand),
    }
}

#[tactic(auto, using(crate::proofs::TextLemmas::first_plain))]
fn put_first_operand(alloc: Global, out: &mut Vec<u8>, i: &Instr) -> Result<(), NoMemory>
    ensures { OnOk result (out.new.items ≡ out.old.items ++ first_text i.now.op i.now) }
{
    match i.op {
        Op::Jcc => put_target(alloc, out, i.dst),
        Op::Jmp => put_target(alloc, out, i.dst),
        Op::Call => put_target(alloc, out, i.dst),
        _ => put_operand(alloc, out, i.width, i.dst),
    }
}

#[tactic(auto, using(crate::proofs::TextLemmas::second_plain))]
fn put_second_operand(alloc: Global, out: &mut Vec<u8>, i: &Instr) -> Result<(), NoMemory>
    ensures { OnOk result (out.new.items ≡ out.old.items ++ second_text i.now.op i.now) }
{
    match i.op {
        Op::Lea => put_address(alloc, out, i.src_width, i.src),
        Op::Rol => put_count(alloc, out, i.width, i.src),
        Op::Ror => put_count(alloc, out, i.width, i.src),
        Op::Shl => put_count(alloc, out, i.width, i.src),
        Op::Shr => put_count(alloc, out, i.width, i.src),
        Op::Sar => put_count(alloc, out, i.width, i.src),
        _ => put_operand(alloc, out, i.src_width, i.src),
    }
}

fn put_first(alloc: Global, out: &mut Vec<u8>, i: &Instr) -> Result<(), NoMemory>
    ensures { OnOk result (out.new.items ≡ out.old.items ++ after (codes " ") i.now.dst (first_text i.now.op i.now)) }
{
    match i.dst {
        Operand::None => Ok(()),
        _ => {
            put(out, b" ")?;
            put_first_operand(alloc, out, i)
        }
    }
}

fn put_second(alloc: Global, out: &mut Vec<u8>, i: &Instr) -> Result<(), NoMemory>
    ensures { OnOk result (out.new.items ≡ out.old.items ++ after (codes ", ") i.now.src (second_text i.now.op i.now)) }
{
    match i.src {
        Operand::None => Ok(()),
        _ => {
            put(out, b", ")?;
            put_second_operand(alloc, out, i)
        }
    }
}

#[tactic(auto, using(crate::proofs::TextLemmas::third_none))]
fn put_third(alloc: Global, out: &mut Vec<u8>, i: &Instr) -> Result<(), NoMemory>
    ensures { OnOk result (out.new.items ≡ out.old.items ++ third_text i.now.op i.now) }
{
    match i.op {
        Op::Imul3 => {
            put(out, b", ")?;
            put_number(alloc, out, sext(i.width, i.extra))
        }
        _ => Ok(()),
    }
}
