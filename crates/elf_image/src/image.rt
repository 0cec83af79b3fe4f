// The segments of an executable as they are loaded, and what stands at an address.
ghost use Rattle.std.specs.Prelude.{◌≡◌, ℕ, ◌+◌, ◌-◌, ◌<◌, ◌≤◌, ◌↔◌, List, Bool, true, length, drop, nat_le, find, slice_get, ◌&&◌, IsTrue, IfSome};
ghost use Rattle.std.specs.Option.{option_copied};
ghost use Rattle.byteorder.specs.Endian.{little_number};

use byteorder::{ByteOrder, LittleEndian};
use sqlite_items::Items;
use std::marker::Model;

/// The most bytes that an instruction has (Intel SDM volume 2, section 2.3.11).
const MOST_BYTES: usize = 15;

/// A loaded segment (ELF-64, program header): `size` bytes from the address `lo`, of which the first are those of the
/// file, `bytes`, and the rest zeros.
#[derive(Debug, Drop)]
pub struct Segment {
    pub lo: u64,
    pub size: u64,
    pub bytes: Items<u8>,
    pub exec: bool,
    pub write: bool,
}

/// An executable: the address of its first instruction and its segments. Clauses see it as the record of the two. The
/// segments of each image ascend and do not overlap, each has at least one byte and at most as many file bytes as
/// bytes, and ends below 2^64.
#[derive(Debug, Drop)]
pub struct Image {
    pub entry: u64,
    pub segs: Items<Segment>,
}

impl Model for Image {
    ghost use Rattle.elf_image.specs.Segments.{Executable, AreSegments};

    ghost Value = { Executable };

    ghost view = { λ i. record { entry = i.entry; segs = i.segs } };

    ghost invariant = { λ i. AreSegments i.segs };
}

impl Segment {
    ghost use Rattle.elf_image.specs.Image.{has_code_at, holds_bytes, is_fixed, memory_of};

    // Whether the address is one of the file bytes of an executable segment.
    fn has_code(&self, addr: u64) -> bool
        ensures { result ≡ has_code_at addr self.now }
    {
        self.exec && self.lo <= addr && addr - self.lo < self.bytes.len() as u64
    }

    // Whether `n` bytes from the address on lie in the segment.
    fn holds(&self, addr: u64, n: u64) -> bool
        ensures { result ≡ holds_bytes addr n self.now }
    {
        self.lo <= addr && n <= self.size && addr - self.lo <= self.size - n
    }

    // Whether the segment ends at the address or before it.
    fn ends_by(&self, addr: u64) -> bool
        ensures { result ≡ nat_le (self.now.lo + self.now.size) addr }
    {
        self.size <= addr && self.lo <= addr - self.size
    }

    // Whether the program does not change it.
    fn is_fixed(&self) -> bool
        ensures { result ≡ is_fixed self.now }
    {
        !self.write || self.exec
    }

    // The number in `n` bytes from the place on.
    fn number(&self, at: u64, n: u8) -> u64
        requires low { 1 ≤ n }
        requires high { n ≤ 8 }
        ensures { result ≡ little_number n (drop at (memory_of self.now)) }
    {
        let bytes = self.bytes.as_slice();
        let rest = &bytes[bytes.len().min(at as usize)..];
        let known = rest.len().min(n as usize);
        let mut number = [0; 8];
        number[..known].copy_from_slice(&rest[..known]);
        LittleEndian::read_uint(&number, n as usize)
    }
}

impl Image {
    ghost use Rattle.elf_image.specs.Segments.{IsSegment};
    ghost use Rattle.elf_image.specs.Image.{IsImage, code_of, is_code_at, covers_bytes, fixed_of, has_code_at, is_fixed, holds_bytes};
    ghost use Rattle.elf_image.specs.At.{IsAt, kept};
    ghost use Rattle.elf_image.specs.declared.image.Segment.{Segment as PlainSegment};

    /// The segments, which ascend and do not overlap.
    pub fn segments(&self) -> &[Segment]
        ensures value { result.now ≡ self.now.segs }
        ensures ascending { IsImage self.now }
    {
        self.segs.as_slice()
    }

    /// The file bytes of the executable segment from `addr` on, at most 15, as a borrow of the segment; empty where
    /// there are none. It takes no memory.
    pub fn code_at(&self, addr: u64) -> &[u8]
        ensures { result.now ≡ code_of self.now addr }
    {
        let Some(segment) = self.code_segment(addr) else {
            return &[];
        };
        let code = &segment.bytes.as_slice()[(addr - segment.lo) as usize..];
        &code[..code.len().min(MOST_BYTES)]
    }

    /// Whether code stands at `addr`.
    pub fn is_code(&self, addr: u64) -> bool
        ensures { result ≡ is_code_at self.now addr }
    {
        !self.code_at(addr).is_empty()
    }

    /// Whether one segment has all of the `n` bytes from `addr` on, those of the file or zeros.
    pub fn covers(&self, addr: u64, n: u64) -> bool
        requires { 1 ≤ n }
        ensures { result ≡ covers_bytes self.now addr n }
    {
        let Some(segment) = self.segment_at(addr) else {
            return false;
        };
        segment.holds(addr, n)
    }

    /// The little-endian number in the `n` bytes from `addr` on, where one segment that is not writable or is
    /// executable has them all, those of the file or zeros; else `None`. It takes no memory.
    pub fn fixed(&self, addr: u64, n: u8) -> Option<u64>
        requires low { 1 ≤ n }
        requires high { n ≤ 8 }
        ensures { result ≡ fixed_of self.now addr n }
    {
        let segment = self.fixed_segment(addr, n)?;
        Some(segment.number(addr - segment.lo, n))
    }

    // The executable segment with the address among its file bytes.
    fn code_segment(&self, addr: u64) -> Option<&Segment>
        ensures value { option_copied result ≡ find (has_code_at addr) self.now.segs }
        ensures inside { IfSome result (λ s. IsTrue (has_code_at addr s.now)) }
    {
        let segment = self.segment_at(addr)?;
        if segment.has_code(addr) {
            Some(segment)
        } else {
            None
        }
    }

    // The segment with the bytes that the program does not change.
    fn fixed_segment(&self, addr: u64, n: u8) -> Option<&Segment>
        requires { 1 ≤ n }
        ensures value { option_copied result ≡ find (λ s. is_fixed s && holds_bytes addr n s) self.now.segs }
        ensures inside { IfSome result (λ s. s.now.lo ≤ addr) }
    {
        let segment = self.segment_at(addr)?;
        if segment.is_fixed() && segment.holds(addr, n as u64) {
            Some(segment)
        } else {
            None
        }
    }

    // The first segment that ends past the address: the one segment that may have it.
    fn segment_at(&self, addr: u64) -> Option<&Segment>
        ensures { (p : PlainSegment → Bool) → IsAt addr p → find p self.now.segs ≡ kept p (option_copied result) }
    {
        let at = self
            .segs
            .as_slice()
            .partition_point(|segment| segment.ends_by(addr));
        self.segs.get(at)
    }
}
