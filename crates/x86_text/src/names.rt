ghost use Rattle.std.specs.Prelude.{◌≡◌, ◌≢◌, ◌++◌, decimal, length, OnOk};
ghost use Rattle.x86_instr.specs.declared.class.Class.TheVariants as class;
ghost use Rattle.x86_instr.specs.Classes.{class_of};
ghost use Rattle.x86_text.specs.Names.{byte_stem, condition_name, first_name, high_name, letter, mnemonic, name, register_name, signs_name, stem, suffix, suffix_of, widen_name};

use bits_core::Width;
use itoa::Buffer;
use no_memory::NoMemory;
use x86_instr::{Instr, Op};

// Appends a piece.
pub fn put(out: &mut Vec<u8>, piece: &[u8]) -> Result<(), NoMemory>
    ensures { OnOk result (out.new.items ≡ out.old.items ++ piece.now) }
{
    match out.extend_from_slice(piece) {
        Ok(()) => Ok(()),
        Err(_) => Err(NoMemory),
    }
}

pub fn put_decimal(out: &mut Vec<u8>, n: u64) -> Result<(), NoMemory>
    ensures { OnOk result (out.new.items ≡ out.old.items ++ decimal n) }
{
    let mut buffer = Buffer::new();
    put(out, buffer.format(n).as_bytes())
}

// The name at 16 bits of one of the first eight registers.
fn stem(r: u8) -> &'static [u8]
    ensures name { result.now ≡ stem r }
    ensures letters { length result.now ≡ 2 }
{
    match r {
        0 => b"ax",
        1 => b"cx",
        2 => b"dx",
        3 => b"bx",
        4 => b"sp",
        5 => b"bp",
        6 => b"si",
        _ => b"di",
    }
}

fn letter(r: u8) -> &'static [u8]
    ensures { result.now ≡ letter r }
{
    &stem(r)[..1]
}

fn byte_stem(r: u8) -> &'static [u8]
    ensures { result.now ≡ byte_stem r }
{
    if r < 4 { letter(r) } else { stem(r) }
}

fn put_first_name(out: &mut Vec<u8>, w: Width, r: u8) -> Result<(), NoMemory>
    ensures { OnOk result (out.new.items ≡ out.old.items ++ first_name w r) }
{
    match w {
        Width::W8 => {
            put(out, byte_stem(r))?;
            put(out, b"l")
        }
        Width::W16 => put(out, stem(r)),
        Width::W32 => {
            put(out, b"e")?;
            put(out, stem(r))
        }
        Width::W64 => {
            put(out, b"r")?;
            put(out, stem(r))
        }
    }
}

fn suffix(w: Width) -> &'static [u8]
    ensures { result.now ≡ suffix w }
{
    match w {
        Width::W8 => b"b",
        Width::W16 => b"w",
        Width::W32 => b"d",
        Width::W64 => b"",
    }
}

// The name of a register at a width.
pub fn put_register(out: &mut Vec<u8>, w: Width, r: u8) -> Result<(), NoMemory>
    ensures { OnOk result (out.new.items ≡ out.old.items ++ register_name w r) }
{
    if r < 8 {
        return put_first_name(out, w, r);
    }
    put(out, b"r")?;
    put_decimal(out, u64::from(r))?;
    put(out, suffix(w))
}

// ah, ch, dh, bh.
pub fn put_high(out: &mut Vec<u8>, r: u8) -> Result<(), NoMemory>
    ensures { OnOk result (out.new.items ≡ out.old.items ++ high_name r) }
{
    put(out, letter(r))?;
    put(out, b"h")
}

fn condition_name(cc: u8) -> &'static [u8]
    ensures { result.now ≡ condition_name cc }
{
    match cc {
        0 => b"o",
        1 => b"no",
        2 => b"b",
        3 => b"ae",
        4 => b"e",
        5 => b"ne",
        6 => b"be",
        7 => b"a",
        8 => b"s",
        9 => b"ns",
        12 => b"l",
        13 => b"ge",
        14 => b"le",
        _ => b"g",
    }
}

fn widen_name(w: Width) -> &'static [u8]
    ensures { result.now ≡ widen_name w }
{
    match w {
        Width::W8 => b"",
        Width::W16 => b"cbw",
        Width::W32 => b"cwde",
        Width::W64 => b"cdqe",
    }
}

fn signs_name(w: Width) -> &'static [u8]
    ensures { result.now ≡ signs_name w }
{
    match w {
        Width::W8 => b"",
        Width::W16 => b"cwd",
        Width::W32 => b"cdq",
        Width::W64 => b"cqo",
    }
}

#[tactic(auto, using(crate::proofs::TextLemmas::all_others))]
fn other_name(op: Op, w: Width) -> &'static [u8]
    requires { class_of op ≢ class.Calculation }
    ensures { result.now ≡ name op w }
{
    match op {
        Op::Mov => b"mov",
        Op::Lea => b"lea",
        Op::Movzx => b"movzx",
        Op::Movsx => b"movsx",
        Op::Div => b"div",
        Op::Idiv => b"idiv",
        Op::Push => b"push",
        Op::Pop => b"pop",
        Op::Leave => b"leave",
        Op::Widen => widen_name(w),
        Op::Signs => signs_name(w),
        Op::Xchg => b"xchg",
        Op::Bswap => b"bswap",
        Op::Cmov => b"cmov",
        Op::Setcc => b"set",
        Op::Jcc => b"j",
        Op::Jmp => b"jmp",
        Op::Call => b"call",
        Op::Ret => b"ret",
        Op::Nop => b"nop",
        Op::Syscall => b"syscall",
        Op::Hlt => b"hlt",
        Op::Ud2 => b"ud2",
        Op::Int3 => b"int3",
        _ => unreachable!(),
    }
}

// The mnemonic without a condition.
#[tactic(auto, using(crate::proofs::TextLemmas::all_calculations))]
fn name(op: Op, w: Width) -> &'static [u8]
    ensures { result.now ≡ name op w }
{
    match op {
        Op::Add => b"add",
        Op::Or => b"or",
        Op::Adc => b"adc",
        Op::Sbb => b"sbb",
        Op::And => b"and",
        Op::Sub => b"sub",
        Op::Xor => b"xor",
        Op::Cmp => b"cmp",
        Op::Test => b"test",
        Op::Not => b"not",
        Op::Neg => b"neg",
        Op::Mul => b"mul",
        Op::Imul1 => b"imul",
        Op::Imul2 => b"imul",
        Op::Imul3 => b"imul",
        Op::Inc => b"inc",
        Op::Dec => b"dec",
        Op::Rol => b"rol",
        Op::Ror => b"ror",
        Op::Shl => b"shl",
        Op::Shr => b"shr",
        Op::Sar => b"sar",
        _ => other_name(op, w),
    }
}

#[tactic(auto, using(crate::proofs::TextLemmas::suffix_none))]
fn suffix_of(op: Op, cc: u8) -> &'static [u8]
    ensures { result.now ≡ suffix_of op cc }
{
    match op {
        Op::Jcc => condition_name(cc),
        Op::Cmov => condition_name(cc),
        Op::Setcc => condition_name(cc),
        _ => b"",
    }
}

pub fn put_mnemonic(out: &mut Vec<u8>, i: &Instr) -> Result<(), NoMemory>
    ensures { OnOk result (out.new.items ≡ out.old.items ++ mnemonic i.now) }
{
    put(out, name(i.op, i.width))?;
    put(out, suffix_of(i.op, i.cc))
}
