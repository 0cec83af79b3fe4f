// The segments that the program headers load.
ghost use Rattle.std.specs.Prelude.{◌≡◌, ℕ, ◌+◌, ◌*◌, ◌≤◌, ◌<◌, List, length, map, All, IfOk, IfErr};
ghost use Rattle.elf_image.specs.File.{table_of, count_of, loaded_of};
ghost use Rattle.elf_image.specs.Constants.{executable_flag, writable_flag};
ghost use Rattle.elf_image.specs.Loaded.{segment_of, has_flag};

use crate::header::{PROGRAM_HEADER_SIZE, ProgramHeader, u16_at, u64_at};
use crate::{ElfRefusal, Segment};
use sqlite_items::Items;
use std::alloc::Global;

/// Bits of `p_flags`.
const PF_X: u32 = 1;

const PF_W: u32 = 2;

/// The program headers that load something, in the order of the file.
pub fn loaded_headers(alloc: Global, file: &[u8]) -> Result<Items<ProgramHeader>, ElfRefusal>
    requires long { 64 ≤ length file.now }
    requires inside { table_of file.now + 56 * count_of file.now ≤ length file.now }
    ensures ok { IfOk result (λ headers. headers ≡ loaded_of file.now) }
    ensures err { IfErr result (λ e. e ≡ ElfRefusal.NoMemory) }
{
    let table = u64_at(file, 32) as usize;
    let count = u16_at(file, 56) as usize;
    let mut loaded = Items::new(alloc);
    for k in 0..count {
        let header = ProgramHeader::read(file, table + PROGRAM_HEADER_SIZE * k);
        if header.is_loaded() {
            loaded.push(header)?;
        }
    }
    Ok(loaded)
}

/// A segment for each header.
pub fn load_segments(
    alloc: Global,
    file: &[u8],
    headers: &[ProgramHeader],
) -> Result<Items<Segment>, ElfRefusal>
    requires { All (λ h. h.offset + h.file_size ≤ length file.now) headers.now }
    ensures ok { IfOk result (λ segs. segs ≡ map (segment_of file.now) headers.now) }
    ensures err { IfErr result (λ e. e ≡ ElfRefusal.NoMemory) }
{
    let mut segs = Items::new(alloc);
    for header in headers {
        segs.push(header.segment(alloc, file)?)?;
    }
    Ok(segs)
}

impl ProgramHeader {
    // The segment, with a copy of its bytes in the file.
    fn segment(&self, alloc: Global, file: &[u8]) -> Result<Segment, ElfRefusal>
        requires { self.now.offset + self.now.file_size ≤ length file.now }
        ensures ok { IfOk result (λ segment. segment ≡ segment_of file.now self.now) }
        ensures err { IfErr result (λ e. e ≡ ElfRefusal.NoMemory) }
    {
        let from = self.offset as usize;
        let part = &file[from..from + self.file_size as usize];
        let bytes = Items::from_slice(alloc, part)?;
        Ok(Segment {
            lo: self.address,
            size: self.memory_size,
            bytes,
            exec: self.flags & PF_X != 0,
            write: self.flags & PF_W != 0,
        })
    }
}
