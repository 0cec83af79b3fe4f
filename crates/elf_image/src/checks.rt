// The refusals, each tried in its turn.
ghost use Rattle.std.specs.Prelude.{◌≡◌, ℕ, ◌+◌, ◌*◌, ◌≤◌, ◌<◌, List, length, drop, zip, nat_le};
ghost use Rattle.std.specs.List.{list_any};
ghost use Rattle.elf_image.specs.File.{table_of, count_of};
ghost use Rattle.elf_image.specs.Refusal.{first_refusal, identification_tests, header_tests, segment_tests, is_outside, wraps, is_over_memory, overlaps};

use crate::ElfRefusal;
use crate::header::{FILE_HEADER_SIZE, PROGRAM_HEADER_SIZE, ProgramHeader, u16_at, u64_at};

/// The first bytes of each file.
const MAGIC: [u8; 4] = *b"\x7fELF";

/// The class of 64 bits, little-endian numbers, and the version of the format, all in `e_ident`.
const CLASS_64: u8 = 2;

const LITTLE_ENDIAN: u8 = 1;

const VERSION: u8 = 1;

/// An executable at fixed addresses, in `e_type`.
const EXECUTABLE: u16 = 2;

/// x86-64, in `e_machine`.
const X86_64: u16 = 62;

/// The most program headers that are read.
const MOST_HEADERS: u16 = 64;

/// What is wrong with the length of the file or its first bytes.
#[tactic(auto, unfolding(crate::specs::Refusal::identification_tests))]
pub fn identification_refusal(file: &[u8]) -> Option<ElfRefusal>
    ensures value { result ≡ first_refusal (identification_tests file.now) }
    ensures long { result ≡ None → 64 ≤ length file.now }
{
    if file.len() < FILE_HEADER_SIZE {
        return Some(ElfRefusal::TooShort);
    }
    if !file.starts_with(&MAGIC) {
        return Some(ElfRefusal::BadMagic);
    }
    if file[4] != CLASS_64 {
        return Some(ElfRefusal::NotClass64);
    }
    if file[5] != LITTLE_ENDIAN {
        return Some(ElfRefusal::NotLittle);
    }
    if file[6] != VERSION {
        return Some(ElfRefusal::BadVersion);
    }
    None
}

/// What is wrong with the fields of the file header.
#[tactic(auto, unfolding(crate::specs::Refusal::header_tests))]
pub fn header_refusal(file: &[u8]) -> Option<ElfRefusal>
    requires { 64 ≤ length file.now }
    ensures value { result ≡ first_refusal (header_tests file.now) }
    ensures inside { result ≡ None → table_of file.now + 56 * count_of file.now ≤ length file.now }
{
    if u16_at(file, 16) != EXECUTABLE {
        return Some(ElfRefusal::NotExec);
    }
    if u16_at(file, 18) != X86_64 {
        return Some(ElfRefusal::NotX8664);
    }
    if u16_at(file, 54) != PROGRAM_HEADER_SIZE as u16 {
        return Some(ElfRefusal::BadEntrySize);
    }
    let count = u16_at(file, 56);
    if !ends_inside(file.len() as u64, u64_at(file, 32), 56 * count as u64) {
        return Some(ElfRefusal::TableOutside);
    }
    if count > MOST_HEADERS {
        return Some(ElfRefusal::TooManyHeaders);
    }
    None
}

/// What is wrong with the headers that load something, in a file of `size` bytes.
#[tactic(auto, unfolding(crate::specs::Refusal::segment_tests))]
pub fn segment_refusal(size: u64, loaded: &[ProgramHeader]) -> Option<ElfRefusal>
    ensures { result ≡ first_refusal (segment_tests size loaded.now) }
{
    if loaded.is_empty() {
        return Some(ElfRefusal::NoLoad);
    }
    if has_outside(size, loaded) {
        return Some(ElfRefusal::SegmentOutside);
    }
    if has_wrapping(loaded) {
        return Some(ElfRefusal::SegmentWraps);
    }
    if has_over_memory(loaded) {
        return Some(ElfRefusal::FileOverMemory);
    }
    if is_unordered(loaded) {
        return Some(ElfRefusal::SegmentsUnordered);
    }
    None
}

// Whether some file part ends past a file of `size` bytes.
fn has_outside(size: u64, loaded: &[ProgramHeader]) -> bool
    ensures { result ≡ list_any (is_outside size) loaded.now }
{
    loaded.iter().any(|header| header.is_outside(size))
}

// Whether some segment ends at 2^64 or past it.
fn has_wrapping(loaded: &[ProgramHeader]) -> bool
    ensures { result ≡ list_any wraps loaded.now }
{
    loaded.iter().any(|header| header.wraps())
}

// Whether some segment has more bytes in the file than in memory.
fn has_over_memory(loaded: &[ProgramHeader]) -> bool
    ensures { result ≡ list_any is_over_memory loaded.now }
{
    loaded.iter().any(|header| header.is_over_memory())
}

// Whether some segment begins before the end of the one before it.
fn is_unordered(loaded: &[ProgramHeader]) -> bool
    ensures { result ≡ list_any overlaps (zip loaded.now (drop 1 loaded.now)) }
{
    loaded
        .iter()
        .zip(loaded.iter().skip(1))
        .any(|(header, next)| next.begins_before_end(header))
}

// Whether `length` bytes from `from` on lie in a file of `size` bytes.
fn ends_inside(size: u64, from: u64, length: u64) -> bool
    ensures { result ≡ nat_le (from + length) size }
{
    length <= size && from <= size - length
}

impl ProgramHeader {
    fn is_outside(&self, size: u64) -> bool
        ensures { result ≡ is_outside size self.now }
    {
        !ends_inside(size, self.offset, self.file_size)
    }

    fn wraps(&self) -> bool
        ensures { result ≡ wraps self.now }
    {
        self.address.checked_add(self.memory_size).is_none()
    }

    fn is_over_memory(&self) -> bool
        ensures { result ≡ is_over_memory self.now }
    {
        self.file_size > self.memory_size
    }

    // Whether it begins before the segment of the header before it ends.
    fn begins_before_end(&self, before: &ProgramHeader) -> bool
        ensures { result ≡ overlaps (before.now, self.now) }
    {
        self.address < before.address || self.address - before.address < before.memory_size
    }
}
