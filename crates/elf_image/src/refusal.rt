// Why a file is not read.
ghost use Rattle.std.specs.Prelude.{◌≡◌, ℕ, List};
ghost use Rattle.elf_image.specs.declared.refusal.ElfRefusal.TheVariants.{NoMemory};

use std::alloc::AllocError;
use thiserror::Error;

/// Why a file gives no image. Its text is its name.
#[derive(Clone, Copy, Debug, PartialEq, Eq, Error)]
pub enum ElfRefusal {
    /// Fewer bytes than the file header has.
    #[error("TooShort")]
    TooShort,
    /// It does not begin with the magic number.
    #[error("BadMagic")]
    BadMagic,
    /// Its class is not 64 bits.
    #[error("NotClass64")]
    NotClass64,
    /// Its numbers are not little-endian.
    #[error("NotLittle")]
    NotLittle,
    /// Its version of the format is not 1.
    #[error("BadVersion")]
    BadVersion,
    /// Its type is not an executable at fixed addresses.
    #[error("NotExec")]
    NotExec,
    /// Its machine is not x86-64.
    #[error("NotX8664")]
    NotX8664,
    /// Its program headers are not of 56 bytes.
    #[error("BadEntrySize")]
    BadEntrySize,
    /// Its program headers end past the file.
    #[error("TableOutside")]
    TableOutside,
    /// It has more than 64 program headers.
    #[error("TooManyHeaders")]
    TooManyHeaders,
    /// No program header loads anything.
    #[error("NoLoad")]
    NoLoad,
    /// A segment's file part ends past the file.
    #[error("SegmentOutside")]
    SegmentOutside,
    /// A segment ends past the last address.
    #[error("SegmentWraps")]
    SegmentWraps,
    /// A segment has more bytes in the file than in memory.
    #[error("FileOverMemory")]
    FileOverMemory,
    /// A segment begins before the end of the one before it.
    #[error("SegmentsUnordered")]
    SegmentsUnordered,
    /// There is no memory for the image. It says nothing of the file.
    #[error("out of memory")]
    NoMemory,
}

impl ElfRefusal {
    ghost use Rattle.elf_image.specs.Refusal.{number_of_refusal, name_of_refusal};

    /// Its number, from 1 to 15 in the order in which the refusals are tried; 0 for `NoMemory`.
    pub fn number(self) -> u8
        ensures { result ≡ number_of_refusal self }
    {
        match self {
            ElfRefusal::TooShort => 1,
            ElfRefusal::BadMagic => 2,
            ElfRefusal::NotClass64 => 3,
            ElfRefusal::NotLittle => 4,
            ElfRefusal::BadVersion => 5,
            ElfRefusal::NotExec => 6,
            ElfRefusal::NotX8664 => 7,
            ElfRefusal::BadEntrySize => 8,
            ElfRefusal::TableOutside => 9,
            ElfRefusal::TooManyHeaders => 10,
            ElfRefusal::NoLoad => 11,
            ElfRefusal::SegmentOutside => 12,
            ElfRefusal::SegmentWraps => 13,
            ElfRefusal::FileOverMemory => 14,
            ElfRefusal::SegmentsUnordered => 15,
            ElfRefusal::NoMemory => 0,
        }
    }

    /// Its name in ASCII, as `TooShort`; that of `NoMemory` is `NoMemory`.
    pub fn name(self) -> &'static str
        ensures { result.now ≡ name_of_refusal self }
    {
        match self {
            ElfRefusal::TooShort => "TooShort",
            ElfRefusal::BadMagic => "BadMagic",
            ElfRefusal::NotClass64 => "NotClass64",
            ElfRefusal::NotLittle => "NotLittle",
            ElfRefusal::BadVersion => "BadVersion",
            ElfRefusal::NotExec => "NotExec",
            ElfRefusal::NotX8664 => "NotX8664",
            ElfRefusal::BadEntrySize => "BadEntrySize",
            ElfRefusal::TableOutside => "TableOutside",
            ElfRefusal::TooManyHeaders => "TooManyHeaders",
            ElfRefusal::NoLoad => "NoLoad",
            ElfRefusal::SegmentOutside => "SegmentOutside",
            ElfRefusal::SegmentWraps => "SegmentWraps",
            ElfRefusal::FileOverMemory => "FileOverMemory",
            ElfRefusal::SegmentsUnordered => "SegmentsUnordered",
            ElfRefusal::NoMemory => "NoMemory",
        }
    }
}

impl From<AllocError> for ElfRefusal {
    ghost from_gives = { λ _ e. e ≡ NoMemory };

    fn from(_e: AllocError) -> ElfRefusal {
        ElfRefusal::NoMemory
    }
}
