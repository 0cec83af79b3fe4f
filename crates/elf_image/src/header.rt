// The fields of the file header and of the program headers (ELF-64).
ghost use Rattle.std.specs.Prelude.{◌≡◌, ℕ, ◌+◌, ◌≤◌, ◌<◌, List, length, drop};
ghost use Rattle.byteorder.specs.Endian.{little_number};
ghost use Rattle.elf_image.specs.File.{number_at};

use byteorder::{ByteOrder, LittleEndian};

/// The bytes of the file header.
pub const FILE_HEADER_SIZE: usize = 64;

/// The bytes of a program header.
pub const PROGRAM_HEADER_SIZE: usize = 56;

/// The type of a program header that loads a segment.
const PT_LOAD: u32 = 1;

/// What an image takes of a program header: `p_type`, `p_flags`, `p_offset`, `p_vaddr`, `p_filesz` and `p_memsz`.
#[derive(Clone, Copy, Debug)]
pub struct ProgramHeader {
    pub kind: u32,
    pub flags: u32,
    pub offset: u64,
    pub address: u64,
    pub file_size: u64,
    pub memory_size: u64,
}

impl ProgramHeader {
    ghost use Rattle.elf_image.specs.File.{header_at, is_loaded};

    /// The program header at a place of the file.
    pub fn read(file: &[u8], at: usize) -> ProgramHeader
        requires { at + 56 ≤ length file.now }
        ensures { result ≡ header_at file.now at }
    {
        ProgramHeader {
            kind: u32_at(file, at),
            flags: u32_at(file, at + 4),
            offset: u64_at(file, at + 8),
            address: u64_at(file, at + 16),
            file_size: u64_at(file, at + 32),
            memory_size: u64_at(file, at + 40),
        }
    }

    /// Whether it loads something.
    pub fn is_loaded(&self) -> bool
        ensures { result ≡ is_loaded self.now }
    {
        self.kind == PT_LOAD && !(self.file_size == 0 && self.memory_size == 0)
    }
}

#[tactic(auto, unfolding(crate::specs::File::number_at))]
pub fn u16_at(file: &[u8], at: usize) -> u16
    requires { at + 2 ≤ length file.now }
    ensures { result ≡ number_at 2 at file.now }
{
    LittleEndian::read_u16(&file[at..])
}

#[tactic(auto, unfolding(crate::specs::File::number_at))]
fn u32_at(file: &[u8], at: usize) -> u32
    requires { at + 4 ≤ length file.now }
    ensures { result ≡ number_at 4 at file.now }
{
    LittleEndian::read_u32(&file[at..])
}

#[tactic(auto, unfolding(crate::specs::File::number_at))]
pub fn u64_at(file: &[u8], at: usize) -> u64
    requires { at + 8 ≤ length file.now }
    ensures { result ≡ number_at 8 at file.now }
{
    LittleEndian::read_u64(&file[at..])
}
