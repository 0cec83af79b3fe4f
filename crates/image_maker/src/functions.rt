// The code: a start, and the functions that it leads to, each of which calls the next one.
ghost use Rattle.std.specs.Prelude.{◌≡◌, ◌++◌, ◌-◌, ◌<◌, ◌≤◌, OnOk, vec_len};
ghost use Rattle.image_maker.specs.Functions.{start, kind_of, front_of, back_of, function_of, functions};

use std::alloc::AllocError;

/// The bytes of the start, which calls the first function.
pub const START_BYTES: u64 = 8;

/// The bytes of a function.
pub const FUNCTION_BYTES: u64 = 32;

/// A return, `ret`.
pub const RETURN: u8 = 0xC3;

/// What stands between functions, `int3`.
const FILLING: u8 = 0xCC;

/// A call of what lies a distance behind it, `call`; its distance has four bytes.
const CALL: u8 = 0xE8;

/// What stands in the last function in place of the call, five times `nop`.
const NO_CALL: [u8; 5] = [0x90; 5];

/// What a function does besides its call.
#[derive(Clone, Copy)]
pub enum Kind {
    /// It saves rbx and puts its number into eax.
    Saves,
    /// It counts ecx from 0 to 10.
    Counts,
    /// It stores rsi at rdi.
    Stores,
    /// It jumps over its call where edi is 0.
    Branches,
}

// The kinds take turns.
fn kind_of(number: u32) -> Kind
    ensures { result ≡ kind_of number }
{
    match number % 4 {
        0 => Kind::Saves,
        1 => Kind::Counts,
        2 => Kind::Stores,
        _ => Kind::Branches,
    }
}

/// Writes the start: a call of the first function, and a return.
pub fn put_start(file: &mut Vec<u8>) -> Result<(), AllocError>
    ensures { OnOk result (file.new.items ≡ file.old.items ++ start) }
{
    file.extend_from_slice(&[CALL, 3, 0, 0, 0, RETURN, FILLING, FILLING])
}

/// Writes the functions from number 0 on.
pub fn put_functions(file: &mut Vec<u8>, count: u32) -> Result<(), AllocError>
    ensures { OnOk result (file.new.items ≡ file.old.items ++ functions count count) }
{
    for number in 0..count {
        put_function(file, number, number == count - 1)?;
    }
    Ok(())
}

// Writes a function.
fn put_function(file: &mut Vec<u8>, number: u32, is_last: bool) -> Result<(), AllocError>
    ensures { OnOk result (file.new.items ≡ file.old.items ++ function_of number is_last) }
{
    let end = file.len() + FUNCTION_BYTES as usize;
    put_front(file, number)?;
    if is_last {
        file.extend_from_slice(&NO_CALL)?;
    } else {
        let distance = (end - file.len() - NO_CALL.len()) as u8;
        file.extend_from_slice(&[CALL, distance, 0, 0, 0])?;
    }
    file.extend_from_slice(back_of(kind_of(number)))?;
    file.resize(end, FILLING)
}

// Writes what a function does before its call.
fn put_front(file: &mut Vec<u8>, number: u32) -> Result<(), AllocError>
    ensures { OnOk result (file.new.items ≡ file.old.items ++ front_of number (kind_of number)) }
{
    match kind_of(number) {
        Kind::Saves => {
            file.extend_from_slice(&[0x53, 0xB8])?;
            file.extend_from_slice(&number.to_le_bytes())
        }
        Kind::Counts => {
            file.extend_from_slice(&[0x31, 0xC9, 0xFF, 0xC1, 0x83, 0xF9, 0x0A, 0x75, 0xF9])
        }
        Kind::Stores => file.extend_from_slice(&[0x48, 0x89, 0x37]),
        Kind::Branches => file.extend_from_slice(&[0x85, 0xFF, 0x74, 0x05]),
    }
}

// What a function does after its call.
fn back_of(kind: Kind) -> &'static [u8]
    ensures { result.now ≡ back_of kind }
{
    match kind {
        Kind::Saves => &[0x5B, RETURN],
        Kind::Counts | Kind::Stores | Kind::Branches => &[RETURN],
    }
}
