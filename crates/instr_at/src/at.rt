ghost use Rattle.std.specs.Prelude.{◌≡◌, IfSome};
ghost use Rattle.x86_instr.specs.Fits.{InForm};
ghost use Rattle.instr_at.specs.At.{instr_in, instr_at, InstrAtLaw, OneLookupLaw};

use elf_image::Image;
use x86_decode::{decode, reading_laws};
use x86_instr::Instr;

/// The instruction at an address (modulo 2^64) of an executable; None where no instruction of the
/// subset begins there, or no code does (Intel SDM volume 2, chapter 2).
pub fn instr_at(image: &Image, address: u64) -> Option<Instr>
    ensures value { result ≡ instr_at image.now address }
    ensures in_form { IfSome result InForm }
{
    instr_in(image.code_at(address), address)
}

/// The instruction with which a code begins that stands at an address (modulo 2^64), as `instr_at`
/// has it.
pub fn instr_in(code: &[u8], address: u64) -> Option<Instr>
    ensures value { result ≡ instr_in address code.now }
    ensures in_form { IfSome result InForm }
{
    decode(code, address)
}

/// The laws of the definitions: an instruction stands at an address exactly where the function
/// `instr_at` of the specification gives it, and no other look-up is right. The call does nothing.
pub fn instr_at_laws()
    ensures found { InstrAtLaw }
    ensures one { OneLookupLaw }
{
    reading_laws();
}
