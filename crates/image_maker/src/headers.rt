// The file header and the one program header (ELF-64).
ghost use Rattle.std.specs.Prelude.{◌≡◌, ◌++◌, OnOk};
ghost use Rattle.image_maker.specs.Executable.{file_header, program_header};

use std::alloc::AllocError;

/// The bytes of both headers, behind which the code stands.
pub const HEADER_BYTES: u64 = 120;

/// The file header of an executable whose entry is its first byte of code.
const FILE_HEADER: [u8; 64] = [
    0x7F, 0x45, 0x4C, 0x46, 2, 1, 1, 0, 0, 0, 0, 0, 0, 0, 0, 0, // e_ident
    2, 0, 0x3E, 0, 1, 0, 0, 0, // e_type, e_machine, e_version
    0x78, 0, 0x40, 0, 0, 0, 0, 0, // e_entry
    64, 0, 0, 0, 0, 0, 0, 0, // e_phoff
    0, 0, 0, 0, 0, 0, 0, 0, // e_shoff
    0, 0, 0, 0, 64, 0, // e_flags, e_ehsize
    56, 0, 1, 0, // e_phentsize, e_phnum
    0, 0, 0, 0, 0, 0, // e_shentsize, e_shnum, e_shstrndx
];

/// The program header down to the sizes.
const SEGMENT_PLACE: [u8; 32] = [
    1, 0, 0, 0, 5, 0, 0, 0, // p_type, p_flags
    0, 0, 0, 0, 0, 0, 0, 0, // p_offset
    0, 0, 0x40, 0, 0, 0, 0, 0, // p_vaddr
    0, 0, 0x40, 0, 0, 0, 0, 0, // p_paddr
];

/// The alignment of the segment, `p_align`.
const ALIGNMENT: u64 = 0x1000;

/// Writes the headers of a file of `size` bytes.
#[tactic(auto, using(crate::proofs::HeaderLemmas::parts_of_headers))]
pub fn put_headers(file: &mut Vec<u8>, size: u64) -> Result<(), AllocError>
    ensures { OnOk result (file.new.items ≡ file.old.items ++ file_header ++ program_header size) }
{
    file.extend_from_slice(&FILE_HEADER)?;
    file.extend_from_slice(&SEGMENT_PLACE)?;
    file.extend_from_slice(&size.to_le_bytes())?;
    file.extend_from_slice(&size.to_le_bytes())?;
    file.extend_from_slice(&ALIGNMENT.to_le_bytes())
}
