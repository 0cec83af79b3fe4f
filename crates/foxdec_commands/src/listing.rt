// The lines that `show` prints.
ghost use Rattle.std.specs.Prelude.{◌≡◌, ◌++◌, ◌≤◌, length, take, IfOk, OnOk};
ghost use Rattle.x86_instr.specs.Fits.{InForm};
ghost use Rattle.x86_text.specs.InstructionText.{text_of};
ghost use Rattle.instr_at.specs.At.{instr_at};
ghost use Rattle.foxdec_commands.specs.Listing.{instruction_line, none_line, listing};

use crate::verdict_line::hex_digits;
use elf_image::Image;
use instr_at::instr_in;
use std::alloc::{AllocError, Global};
use x86_instr::Instr;
use x86_text::write_instr;

/// The lines of at most `count` instructions from `address` on.
pub fn list(alloc: Global, image: &Image, address: u64, count: u64) -> Result<Vec<u8>, AllocError>
    ensures { IfOk result (λ out.
        out.items ≡ listing (instr_at image.now) image.now count address) }
{
    let mut out = Vec::new(alloc);
    let mut at = address;
    let mut left = count;
    while left > 0 {
        let code = image.code_at(at);
        let Some(i) = instr_in(code, at) else {
            put_none(alloc, &mut out, at)?;
            return Ok(out);
        };
        put_instruction(alloc, &mut out, at, code, &i)?;
        at = at.wrapping_add(i.len as u64);
        left -= 1;
    }
    Ok(out)
}

// Adds the line of an address where no instruction stands.
#[tactic(auto, unfolding(crate::specs::Listing::none_line))]
fn put_none(alloc: Global, out: &mut Vec<u8>, at: u64) -> Result<(), AllocError>
    ensures { OnOk result (out.new.items ≡ out.old.items ++ none_line at) }
{
    let mut line = hex_digits(alloc, at)?;
    line.push_str(" none\n")?;
    put(out, line.as_bytes())
}

// Adds the line of an instruction.
#[tactic(auto, unfolding(crate::specs::Listing::instruction_line))]
fn put_instruction(
    alloc: Global,
    out: &mut Vec<u8>,
    at: u64,
    code: &[u8],
    i: &Instr,
) -> Result<(), AllocError>
    requires { InForm i.now }
    ensures { OnOk result (out.new.items ≡ out.old.items ++ instruction_line at code.now i.now) }
{
    let mut line = hex_digits(alloc, at)?;
    line.push_str(" ")?;
    line.push_str(hex::encode(alloc, prefix(code, i.len))?.as_str())?;
    line.push_str(" ")?;
    put(out, line.as_bytes())?;
    put(out, text_of(alloc, i)?.as_slice())?;
    put(out, b"\n")
}

// The first bytes of a code, or all where there are fewer.
fn prefix(code: &[u8], len: u8) -> &[u8]
    ensures { result.now ≡ take len code.now }
{
    let len = len as usize;
    if len < code.len() { &code[..len] } else { code }
}

fn text_of(alloc: Global, i: &Instr) -> Result<Vec<u8>, AllocError>
    requires { InForm i.now }
    ensures { IfOk result (λ text. text.items ≡ text_of i.now) }
{
    match write_instr(alloc, i) {
        Ok(text) => Ok(text),
        Err(_) => Err(AllocError),
    }
}

fn put(out: &mut Vec<u8>, bytes: &[u8]) -> Result<(), AllocError>
    ensures { OnOk result (out.new.items ≡ out.old.items ++ bytes.now) }
{
    out.extend_from_slice(bytes)
}
