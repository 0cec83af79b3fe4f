// Reading a file to its end.
ghost use Rattle.std.specs.Prelude.{◌≡◌, ◌+◌, ◌-◌, ◌^◌, ◌<◌, ◌≤◌, length, IfOk, OnOk, IsErrOf, Ok};
ghost use Rattle.wire_io.specs.Counts.{Rose};
ghost use Rattle.wire_io.specs.Shelf.{IsFront, IsAll, IsLonger, GoesOn};

use crate::{Failed, ReadRefusal, Shelf};
use std::alloc::{AllocError, Global};

const PIECE: usize = 65536;

/// Reads the file `name` from its first byte to its end, in pieces of at most 65,536 bytes. It stops
/// as soon as it holds one byte more than `limit`, and answers `TooLong`. A read that failed is
/// `Failed`.
pub fn read_whole<S: Shelf>(
    alloc: Global,
    shelf: &mut S,
    name: &str,
    limit: u64,
) -> Result<Vec<u8>, ReadRefusal>
    requires { limit < 2 ^ 64 - 1 }
    ensures bytes { IfOk result (λ v. IsAll v.items (S.file shelf.old name.now)) }
    ensures within { IfOk result (λ v. length v.items ≤ limit) }
    ensures too_long { IsErrOf result ReadRefusal.TooLong → IsLonger (S.file shelf.old name.now) limit }
    ensures failed { IsErrOf result ReadRefusal.Failed → Rose (S.faults shelf.old name.now) (S.faults shelf.new name.now) }
    ensures shelf { GoesOn (S.file shelf.old) (S.file shelf.new) (S.faults shelf.old) (S.faults shelf.new) }
{
    let mut piece = make_piece(alloc)?;
    let mut whole = Vec::new(alloc);
    while (whole.len() as u64) <= limit {
        let size = (limit + 1 - whole.len() as u64).min(piece.len() as u64) as usize;
        match read_piece(shelf, name, &mut whole, &mut piece[..size]) {
            Ok(0) => return Ok(whole),
            Ok(_) => {}
            Err(refusal) => return Err(refusal),
        }
    }
    Err(ReadRefusal::TooLong)
}

// Reads the next piece of a file, adds it to what has come, and gives how many bytes it was.
fn read_piece<S: Shelf>(
    shelf: &mut S,
    name: &str,
    whole: &mut Vec<u8>,
    piece: &mut [u8],
) -> Result<u64, ReadRefusal>
    requires { 0 < length piece.old }
    ensures count { IfOk result (λ n. length whole.new.items ≡ length whole.old.items + n) }
    ensures fits { IfOk result (λ n. n ≤ length piece.old) }
    ensures front { OnOk result (IsFront whole.old.items (S.file shelf.old name.now) → IsFront whole.new.items (S.file shelf.old name.now)) }
    ensures end { result ≡ Ok 0 → IsFront whole.old.items (S.file shelf.old name.now) → IsAll whole.new.items (S.file shelf.old name.now) }
    ensures failed { IsErrOf result ReadRefusal.Failed → Rose (S.faults shelf.old name.now) (S.faults shelf.new name.now) }
    ensures within { IsErrOf result ReadRefusal.TooLong → ⊥ }
    ensures shelf { GoesOn (S.file shelf.old) (S.file shelf.new) (S.faults shelf.old) (S.faults shelf.new) }
{
    match shelf.read_at(name, whole.len() as u64, piece) {
        Ok(count) => {
            whole.extend_from_slice(&piece[..count as usize])?;
            Ok(count)
        }
        Err(Failed) => Err(ReadRefusal::Failed),
    }
}

// Room for one piece. In a function of its own, so that no goal of the loop has its bytes.
fn make_piece(alloc: Global) -> Result<Vec<u8>, AllocError>
    ensures { IfOk result (λ piece. length piece.items ≡ 65536) }
{
    vec![in alloc; 0; PIECE]
}
