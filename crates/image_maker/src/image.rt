// The executable of so many functions.
ghost use Rattle.std.specs.Prelude.{◌≡◌, ◌<◌, ◌≤◌, ◌↔◌, ◌+◌, ◌*◌, ◌++◌, OnOk, IfOk, length};
ghost use Rattle.image_maker.specs.declared.refusal.MakeRefusal.TheVariants.{TooMany};
ghost use Rattle.image_maker.specs.Made.{made_of, code_of, most_functions};

use crate::MakeRefusal;
use crate::functions::{FUNCTION_BYTES, RETURN, START_BYTES, put_functions, put_start};
use crate::headers::{HEADER_BYTES, put_headers};
use std::alloc::{AllocError, Global};

/// The most functions.
const MOST_FUNCTIONS: u64 = 20_000;

/// An ELF-64 executable for x86-64 of a start and `count` functions, from 0 to 20,000, of which each
/// calls the next one; where `count` is 0 its code is one return. It is refused by `TooMany` where
/// `count` is greater.
pub fn make_image(alloc: Global, count: u64) -> Result<Vec<u8>, MakeRefusal>
    ensures made { IfOk result (λ file. file.items ≡ made_of count) }
    ensures too_many { (result ≡ Err TooMany) ↔ (most_functions < count) }
{
    if count > MOST_FUNCTIONS {
        return Err(MakeRefusal::TooMany);
    }
    let size = HEADER_BYTES + code_bytes(count);
    let mut file = Vec::with_capacity(alloc, size as usize)?;
    put_headers(&mut file, size)?;
    put_code(&mut file, count as u32)?;
    Ok(file)
}

// The bytes of the code.
#[tactic(auto, using(crate::proofs::SizeLemmas::length_functions))]
fn code_bytes(count: u64) -> u64
    requires { count ≤ 20000 }
    ensures value { result ≡ length (code_of count) }
    ensures bound { result ≤ 8 + 32 * count }
{
    if count == 0 {
        1
    } else {
        START_BYTES + FUNCTION_BYTES * count
    }
}

// Writes the code.
fn put_code(file: &mut Vec<u8>, count: u32) -> Result<(), AllocError>
    ensures { OnOk result (file.new.items ≡ file.old.items ++ code_of count) }
{
    if count == 0 {
        return file.extend_from_slice(&[RETURN]);
    }
    put_start(file)?;
    put_functions(file, count)
}
