// Which files are read and which are refused and why, told from the tables of ELF-64's two headers, and what is found
// in an image.
use elf_image::{ElfRefusal, read_elf};
use std::alloc::Global;
use std::test::Fail;

// The file whose code is `ret`, loaded whole at 0x400000, written byte for byte from ELF-64's tables.
const FILE: [u8; 121] = *b"\x7fELF\x02\x01\x01\0\0\0\0\0\0\0\0\0\
\x02\0\x3e\0\x01\0\0\0\x78\0\x40\0\0\0\0\0\
\x40\0\0\0\0\0\0\0\0\0\0\0\0\0\0\0\
\0\0\0\0\x40\0\x38\0\x01\0\0\0\0\0\0\0\
\x01\0\0\0\x05\0\0\0\0\0\0\0\0\0\0\0\
\0\0\x40\0\0\0\0\0\0\0\x40\0\0\0\0\0\
\x79\0\0\0\0\0\0\0\x79\0\0\0\0\0\0\0\
\0\x10\0\0\0\0\0\0\xc3";

/// Above every number of a field.
const MAX: u64 = u64::MAX;

// Writes a number of `size` bytes at a place of the file, as far as they lie in it.
fn write(file: &mut [u8], place: usize, size: usize, value: u64) {
    let bytes = value.to_le_bytes();
    for k in 0..size {
        if k < 8 && k < file.len() && place < file.len() - k {
            file[place + k] = bytes[k];
        }
    }
}

// What the reading of the file answers in place of an image.
fn refusal(alloc: Global, file: &[u8]) -> Option<ElfRefusal> {
    match read_elf(alloc, file) {
        Ok(_) => None,
        Err(refusal) => Some(refusal),
    }
}

// What it answers for `FILE` with one field turned.
fn refusal_with(alloc: Global, place: usize, size: usize, value: u64) -> Option<ElfRefusal> {
    let mut file = FILE;
    write(&mut file, place, size, value);
    refusal(alloc, &file)
}

#[test]
fn a_file_is_read_and_its_code_found(rt: HostRuntime) -> Result<(), Fail> {
    let image = read_elf(rt.alloc(), &FILE)?;
    assert_eq!(rt; image.entry, 0x40_0078);
    assert_eq!(rt; image.segments().len(), 1);
    assert_eq!(rt; image.code_at(0x40_0078), [0xc3].as_slice());
    assert_eq!(rt; image.code_at(0x40_0000), &FILE[..15]);
    for (addr, code, covered) in [
        (0x40_0078, true, true),
        (0x40_0079, false, false),
        (0x3f_ffff, false, false),
        (u64::MAX, false, false),
    ] {
        assert_eq!(rt; image.is_code(addr), code, "code at {addr:x}");
        assert_eq!(rt; image.covers(addr, 1), covered, "covered at {addr:x}");
    }
    Ok(())
}

#[test]
fn numbers_are_found_where_the_program_does_not_change_them(rt: HostRuntime) -> Result<(), Fail> {
    // flags, address, bytes, and the number that they hold; the segment has nine zeros after the bytes of the file.
    for (flags, addr, n, found) in [
        (5, 0x40_0000, 4, Some(0x464c_457f)),
        (7, 0x40_0000, 1, Some(0x7f)),
        (4, 0x40_0076, 3, Some(0xc3_0000)),
        (0, 0x40_0078, 8, Some(0xc3)),
        (1, 0x40_007a, 8, Some(0)),
        (1, 0x40_007b, 8, None),
        (1, 0x3f_ffff, 2, None),
        (6, 0x40_0000, 1, None),
        (2, 0x40_0000, 8, None),
    ] {
        let mut file = FILE;
        write(&mut file, 68, 4, flags);
        write(&mut file, 104, 8, 130);
        let image = read_elf(rt.alloc(), &file)?;
        assert_eq!(rt;
            image.fixed(addr, n),
            found,
            "flags {flags}, {n} bytes at {addr:x}"
        );
    }
    Ok(())
}

#[test]
fn a_refusal_has_its_name_and_number(rt: HostRuntime) {
    let short = refusal(rt.alloc(), &FILE[..63]);
    let outside = refusal_with(rt.alloc(), 96, 8, 122);
    let shared = refusal_with(rt.alloc(), 16, 2, 3);
    for (refusal, name, number) in [
        (short, "TooShort", 1),
        (outside, "SegmentOutside", 12),
        (shared, "NotExec", 6),
        (Some(ElfRefusal::SegmentsUnordered), "SegmentsUnordered", 15),
        (Some(ElfRefusal::NoMemory), "NoMemory", 0),
    ] {
        let told = refusal.map(|r| (r.name(), r.number()));
        assert_eq!(rt; told, Some((name, number)), "{name}");
    }
}

#[test]
fn a_file_cut_short_is_refused(rt: HostRuntime) {
    // 176 bytes: `FILE` with a table of four numbers after its code.
    let mut file = [0; 176];
    file[..121].copy_from_slice(&FILE);
    write(&mut file, 96, 8, 176);
    write(&mut file, 104, 8, 176);
    for n in 0..=176 {
        let expected = match n {
            0..=63 => Some(ElfRefusal::TooShort),
            64..=119 => Some(ElfRefusal::TableOutside),
            120..=175 => Some(ElfRefusal::SegmentOutside),
            _ => None,
        };
        assert_eq!(rt; refusal(rt.alloc(), &file[..n]), expected, "{n} bytes");
    }
}

#[test]
fn each_field_of_the_first_bytes_is_tried(rt: HostRuntime) {
    use ElfRefusal::*;
    for (place, value, expected) in [
        (0, 0, Some(BadMagic)),
        (0, 0x7e, Some(BadMagic)),
        (3, 0x47, Some(BadMagic)),
        (4, 0, Some(NotClass64)),
        (4, 1, Some(NotClass64)),
        (4, 3, Some(NotClass64)),
        (4, 255, Some(NotClass64)),
        (5, 0, Some(NotLittle)),
        (5, 2, Some(NotLittle)),
        (5, 255, Some(NotLittle)),
        (6, 0, Some(BadVersion)),
        (6, 2, Some(BadVersion)),
        (6, 255, Some(BadVersion)),
        (7, 255, None),
        (15, 255, None),
    ] {
        let answer = refusal_with(rt.alloc(), place, 1, value);
        assert_eq!(rt; answer, expected, "{value} at {place}");
    }
}

#[test]
fn each_field_of_the_file_header_is_tried(rt: HostRuntime) {
    use ElfRefusal::*;
    for (place, size, value, expected) in [
        (16, 2, 0, Some(NotExec)),
        (16, 2, 1, Some(NotExec)),
        (16, 2, 3, Some(NotExec)),
        (16, 2, MAX, Some(NotExec)),
        (18, 2, 0, Some(NotX8664)),
        (18, 2, 1, Some(NotX8664)),
        (18, 2, 61, Some(NotX8664)),
        (18, 2, MAX, Some(NotX8664)),
        (20, 4, MAX, None),
        (24, 8, 0, None),
        (24, 8, 1, None),
        (24, 8, 0x40_0079, None),
        (24, 8, MAX, None),
        (40, 8, MAX, None),
        (48, 4, MAX, None),
        (52, 2, MAX, None),
        (58, 2, MAX, None),
    ] {
        let answer = refusal_with(rt.alloc(), place, size, value);
        assert_eq!(rt; answer, expected, "{value} at {place}");
    }
}

#[test]
fn each_field_of_the_table_of_program_headers_is_tried(rt: HostRuntime) {
    use ElfRefusal::*;
    for (place, size, value, expected) in [
        (32, 8, 0, Some(NoLoad)),
        (32, 8, 1, Some(NoLoad)),
        (32, 8, 63, Some(NoLoad)),
        (32, 8, 65, Some(NoLoad)),
        (32, 8, 66, Some(TableOutside)),
        (32, 8, MAX, Some(TableOutside)),
        (54, 2, 0, Some(BadEntrySize)),
        (54, 2, 1, Some(BadEntrySize)),
        (54, 2, 55, Some(BadEntrySize)),
        (54, 2, 57, Some(BadEntrySize)),
        (54, 2, MAX, Some(BadEntrySize)),
        (56, 2, 0, Some(NoLoad)),
        (56, 2, 1, None),
        (56, 2, 2, Some(TableOutside)),
        (56, 2, MAX, Some(TableOutside)),
    ] {
        let answer = refusal_with(rt.alloc(), place, size, value);
        assert_eq!(rt; answer, expected, "{value} at {place}");
    }
}

#[test]
fn each_field_of_a_program_header_is_tried(rt: HostRuntime) {
    use ElfRefusal::*;
    for (place, size, value, expected) in [
        (64, 4, 0, Some(NoLoad)),
        (64, 4, 1, None),
        (64, 4, 2, Some(NoLoad)),
        (64, 4, MAX, Some(NoLoad)),
        (68, 4, 0, None),
        (68, 4, 1, None),
        (68, 4, MAX, None),
        (72, 8, 0, None),
        (72, 8, 1, Some(SegmentOutside)),
        (72, 8, MAX, Some(SegmentOutside)),
        (80, 8, 0, None),
        (80, 8, 1, None),
        (80, 8, MAX - 121, None),
        (80, 8, MAX - 120, Some(SegmentWraps)),
        (80, 8, MAX, Some(SegmentWraps)),
        (88, 8, MAX, None),
        (112, 8, MAX, None),
    ] {
        let answer = refusal_with(rt.alloc(), place, size, value);
        assert_eq!(rt; answer, expected, "{value} at {place}");
    }
}

#[test]
fn each_size_of_a_segment_is_tried(rt: HostRuntime) {
    use ElfRefusal::*;
    for (file_size, memory_size, expected) in [
        (0, 0, Some(NoLoad)),
        (0, 1, None),
        (1, 1, None),
        (120, 121, None),
        (122, 122, Some(SegmentOutside)),
        (MAX, MAX, Some(SegmentOutside)),
        (121, 0, Some(FileOverMemory)),
        (121, 1, Some(FileOverMemory)),
        (121, 120, Some(FileOverMemory)),
        (121, 122, None),
        (121, MAX - 0x40_0000, None),
        (121, MAX - 0x3f_ffff, Some(SegmentWraps)),
        (121, MAX, Some(SegmentWraps)),
    ] {
        let mut file = FILE;
        write(&mut file, 96, 8, file_size);
        write(&mut file, 104, 8, memory_size);
        let answer = refusal(rt.alloc(), &file);
        assert_eq!(rt; answer, expected, "{file_size} and {memory_size}");
    }
}

// A file of program headers alone, as many as `count`, of which two load zeros, of a length at an address.
fn with_segments(count: u64, first: (u64, u64), second: (u64, u64)) -> [u8; 3704] {
    let mut file = [0; 3704];
    file[..64].copy_from_slice(&FILE[..64]);
    write(&mut file, 56, 2, count);
    for (at, (address, size)) in [(64, first), (120, second)] {
        write(&mut file, at, 4, 1);
        write(&mut file, at + 16, 8, address);
        write(&mut file, at + 40, 8, size);
    }
    file
}

// The address and length of a first and a second segment, why the file is refused, and what the row shows.
static NEIGHBOURS: [((u64, u64), (u64, u64), Option<ElfRefusal>, &str); 10] = [
    ((0x40_0000, 0x1000), (0x40_1000, 1), None, "touching"),
    (
        (0x40_0000, 0x1000),
        (0x40_0fff, 1),
        Some(ElfRefusal::SegmentsUnordered),
        "overlapping",
    ),
    (
        (0x40_0000, 0x1000),
        (0x40_0000, 0x1000),
        Some(ElfRefusal::SegmentsUnordered),
        "the same",
    ),
    (
        (0x40_0000, 0x1000),
        (0x3f_ffff, 1),
        Some(ElfRefusal::SegmentsUnordered),
        "falling",
    ),
    (
        (0x40_0000, 0x1000),
        (0x40_0fff, 0),
        None,
        "an empty one inside",
    ),
    ((0x40_0000, 0), (0x3f_ffff, 1), None, "an empty one first"),
    (
        (0x40_0000, 0),
        (0x40_0000, 0),
        Some(ElfRefusal::NoLoad),
        "two empty ones",
    ),
    ((0, 1), (MAX - 1, 1), None, "the last but one address"),
    (
        (0, 1),
        (MAX, 1),
        Some(ElfRefusal::SegmentWraps),
        "the last address",
    ),
    (
        (0, MAX),
        (MAX, 1),
        Some(ElfRefusal::SegmentWraps),
        "all addresses",
    ),
];

#[test]
fn segments_ascend_and_do_not_overlap(rt: HostRuntime) {
    for (first, second, expected, name) in &NEIGHBOURS {
        let file = with_segments(2, *first, *second);
        assert_eq!(rt; refusal(rt.alloc(), &file), *expected, "{name}");
    }
}

#[test]
fn as_many_as_64_program_headers_are_read(rt: HostRuntime) {
    for (count, expected) in [
        (2, None),
        (64, None),
        (65, Some(ElfRefusal::TooManyHeaders)),
        (66, Some(ElfRefusal::TableOutside)),
    ] {
        let file = with_segments(count, (0x40_0000, 1), (0x50_0000, 1));
        assert_eq!(rt; refusal(rt.alloc(), &file), expected, "{count} headers");
    }
}
