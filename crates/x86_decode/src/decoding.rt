ghost use Rattle.std.specs.Prelude.{◌≡◌, ◌≤◌, length, IfSome, None, ◌↔◌, List, ℕ, take, ◌++◌};
ghost use Rattle.x86_instr.specs.declared.instr.Instr.{Instr};
ghost use Rattle.x86_spelling.specs.Spells.{Spells, SpellsPrefix};
ghost use Rattle.x86_instr.specs.Fits.{InForm};
ghost use Rattle.x86_decode.specs.Laws.{ReadLaw, SpelledLaw};
ghost use Rattle.x86_decode.specs.Reading.{Gives, fields_at, decode_at, instr_at, first_instr, encoding};

use crate::fields::{
    has_modrm_byte, imm_fits, imm_length, is_memory_operand, operand_fits, rex_bits,
    source_width_of, width_at,
};
use crate::operands::instruction_of;
use crate::prefixes::{FS_OVERRIDE, are_allowed, count_byte, count_prefixes, has_size_prefix};
use crate::reading::{digit_of, little_of, modrm_if, opcode_of, rex_of};
use crate::table::row_of;
use bits_core::Width;
use spelling_laws::spelled_in_form;
use x86_instr::{Instr, Op, Operand};
use x86_spelling::{ModRm, Parts, Row};

// What stands after the prefixes and REX.
#[derive(Clone, Copy)]
struct Fields {
    row: Row,
    opcode: u8,
    modrm: Option<ModRm>,
    imm: u64,
}

#[tactic(auto, unfolding(crate::specs::Reading::fields_at))]
fn fields_of<'a>(prefixes: &[u8], rex: Option<u8>, bytes: &'a [u8]) -> Option<(Fields, &'a [u8])>
    ensures { Gives (λ x. (encoding (record { prefixes = prefixes.now; rex = rex }) x.0.row x.0.opcode x.0.modrm x.0.imm, x.1.now)) result (fields_at (record { prefixes = prefixes.now; rex = rex }) bytes.now) }
{
    let (escaped, opcode, rest) = opcode_of(bytes)?;
    let row = row_of(escaped, opcode, digit_of(rest), rex)?;
    let (modrm, rest) = modrm_if(has_modrm_byte(row.form), rest)?;
    let width = width_at(row.size, rex_bits(rex).w, has_size_prefix(prefixes));
    let (imm, rest) = little_of(imm_length(row.imm, width), rest)?;
    let memory = is_memory_operand(modrm);
    if operand_fits(row.op, memory)
        && are_allowed(row.prefixes, memory, prefixes)
        && imm_fits(row.imm, width, imm)
    {
        Some((
            Fields {
                row,
                opcode,
                modrm,
                imm,
            },
            rest,
        ))
    } else {
        None
    }
}

#[tactic(auto, unfolding(crate::specs::Reading::decode_at, crate::specs::Reading::encoding_at, crate::specs::Reading::prefix_len))]
fn decode_row(bytes: &[u8], addr: u64) -> Option<Instr>
    requires { length bytes.now ≤ 15 }
    ensures { result ≡ decode_at addr bytes.now }
{
    let (prefixes, after) = bytes.split_at(count_prefixes(bytes));
    let (rex, after) = rex_of(after);
    let (fields, rest) = fields_of(prefixes, rex, after)?;
    let len = bytes.len() - rest.len();
    let width = width_at(fields.row.size, rex_bits(rex).w, has_size_prefix(prefixes));
    let parts = Parts {
        next: addr.wrapping_add(len as u64),
        fs: count_byte(FS_OVERRIDE, prefixes) > 0,
        width,
        src_width: source_width_of(fields.row, width),
        rex,
        opcode: fields.opcode,
        modrm: fields.modrm,
        imm: fields.imm,
        imm_len: imm_length(fields.row.imm, width),
    };
    Some(instruction_of(addr, len as u8, fields.row, parts))
}

#[tactic(auto, unfolding(crate::specs::Reading::instr_at))]
fn decode_first(bytes: &[u8], addr: u64) -> Option<Instr>
    requires { length bytes.now ≤ 15 }
    ensures { result ≡ instr_at addr bytes.now }
{
    match bytes {
        [0xf3, 0x0f, 0x1e, 0xfa, ..] => Some(Instr {
            addr,
            len: 4,
            op: Op::Nop,
            width: Width::W64,
            src_width: Width::W64,
            cc: 0,
            dst: Operand::None,
            src: Operand::None,
            extra: 0,
        }),
        _ => decode_row(bytes, addr),
    }
}

// The first 15 bytes, or all where there are fewer.
fn first_bytes(bytes: &[u8]) -> &[u8]
    ensures value { result.now ≡ take 15 bytes.now }
    ensures short { length result.now ≤ 15 }
{
    if bytes.len() > 15 {
        &bytes[..15]
    } else {
        bytes
    }
}

/// The instruction at `addr` that a prefix of the bytes spells: a function of the bytes and the address.
pub fn decode(bytes: &[u8], addr: u64) -> Option<Instr>
    ensures value { result ≡ first_instr addr bytes.now }
    ensures found { IfSome result (λ i. (i.addr ≡ addr) × SpellsPrefix i bytes.now) }
    ensures only { (i : Instr) → i.addr ≡ addr → SpellsPrefix i bytes.now → result ≡ Some i }
    ensures none { (result ≡ None) ↔ ((i : Instr) → i.addr ≡ addr → SpellsPrefix i bytes.now → ⊥) }
    ensures in_form { IfSome result InForm }
{
    spelled_in_form();
    decode_first(first_bytes(bytes), addr)
}

/// What is read from a list of numbers is what a prefix of it spells, at every address: what is read is spelled, of any
/// list, and what bytes spell is read. The call does nothing.
pub fn reading_laws()
    ensures found { ReadLaw }
    ensures only { SpelledLaw }
{}

/// Two spellings at one address that begin one list of bytes are of one instruction and of one length.
/// The call does nothing.
pub fn one_spelling()
    ensures { (i j : Instr) (a b x y : List ℕ) → i.addr ≡ j.addr → Spells i a → Spells j b → a ++ x ≡ b ++ y → (i ≡ j) × (length a ≡ length b) }
{}
