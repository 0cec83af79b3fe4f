ghost use Rattle.std.specs.Prelude.{◌≡◌, ◌+◌, ◌-◌, ◌*◌, ◌^◌, ◌<◌, ◌≤◌, IfOk, OnOk, IsTrue, [], ◌∷◌, ◌++◌};
ghost use Rattle.std.specs.Option.{option_map};
ghost use Rattle.bits_core.specs.Width.{bytes_of};
ghost use Rattle.std.specs.Vec.{vec_items};
ghost use Rattle.jump_tables.specs.declared.table.Table.{Table as PlainTable};
ghost use Rattle.jump_tables.specs.Table.{is_entry_size, width_of, entry_at, entries, is_in_reach, table_values};

use crate::order::ascending;
use bits_core::{Width, sext};
use elf_image::Image;
use no_memory::NoMemory;
use std::alloc::{AllocError, Global};

/// The most entries of a table.
const MOST_ENTRIES: u64 = 1024;

/// A table: the width of its entries and whether they have a sign, its address, and how many bytes its entries lie apart.
#[derive(Clone, Copy)]
pub struct Table {
    pub width: Width,
    pub signed: bool,
    pub base: u64,
    pub scale: u64,
}

impl Table {
    // Entry `x`, extended to 64 bits by its sign or by zeros; `None` where a byte of it isn't fixed.
    fn entry(&self, image: &Image, x: u64) -> Option<u64>
        requires { self.now.base + self.now.scale * x < 2 ^ 64 }
        ensures { result ≡ entry_at image.now self.now x }
    {
        let number = image.fixed(self.base + self.scale * x, self.width.bytes())?;
        if self.signed {
            Some(sext(self.width, number))
        } else {
            Some(number)
        }
    }

    // Whether the entries `low` to `high` are at most 1,024 and end at 2^64 or below.
    fn is_in_reach(&self, low: u64, high: u64) -> bool
        requires { low ≤ high }
        ensures { result ≡ is_in_reach self.now low high }
    {
        let end = self.base as u128
            + self.scale as u128 * high as u128
            + self.width.bytes() as u128;
        high - low < MOST_ENTRIES && end <= 1 << 64
    }

    // The entries `low` to `high`; `None` where one isn't fixed.
    fn entries(
        &self,
        alloc: Global,
        image: &Image,
        low: u64,
        high: u64,
    ) -> Result<Option<Vec<u64>>, NoMemory>
        requires ordered { low ≤ high }
        requires reach { IsTrue (is_in_reach self.now low high) }
        ensures { IfOk result (λ r. option_map vec_items r ≡ entries image.now self.now low (high + 1 - low)) }
    {
        let mut numbers = Vec::new(alloc);
        for k in 0..high - low + 1 {
            let Some(number) = self.entry(image, low + k) else {
                return Ok(None);
            };
            push(&mut numbers, number)?;
        }
        Ok(Some(numbers))
    }
}

/// The entries `lo` to `hi` of the table at `base`, of `bytes` bytes each, `scale` bytes from one to the next: ascending,
/// each once, extended to 64 bits by their sign where `signed`, else by zeros.
///
/// `None` exactly where `hi - lo` is 1,024 or more, where `base + scale * hi + bytes` is over 2^64, or where an entry
/// isn't fixed (it has a byte that no segment holds, or one that the program may change).
pub fn table_values(
    alloc: Global,
    image: &Image,
    base: u64,
    scale: u64,
    lo: u64,
    hi: u64,
    bytes: u8,
    signed: bool,
) -> Result<Option<Vec<u64>>, NoMemory>
    requires ordered { lo ≤ hi }
    requires size { IsTrue (is_entry_size bytes) }
    ensures { let table : PlainTable = record { width = width_of bytes; signed = signed; base = base; scale = scale } in
        IfOk result (λ r. option_map vec_items r ≡ table_values image.now table lo hi) }
{
    let width = width_of(bytes);
    let table = Table {
        width,
        signed,
        base,
        scale,
    };
    if !table.is_in_reach(lo, hi) {
        return Ok(None);
    }
    let Some(numbers) = table.entries(alloc, image, lo, hi)? else {
        return Ok(None);
    };
    Ok(Some(ascending(numbers)))
}

fn push(numbers: &mut Vec<u64>, number: u64) -> Result<(), NoMemory>
    ensures { OnOk result (numbers.new.items ≡ numbers.old.items ++ number ∷ []) }
{
    numbers.push(number).map_err(AllocError::from)?;
    Ok(())
}

// The width of an entry of so many bytes.
fn width_of(bytes: u8) -> Width
    requires { IsTrue (is_entry_size bytes) }
    ensures { result ≡ width_of bytes }
{
    match bytes {
        1 => Width::W8,
        2 => Width::W16,
        4 => Width::W32,
        _ => Width::W64,
    }
}
