// The numbers of tables and the targets of jumps, in small executables that are written byte for byte.
use elf_image::{Image, read_elf};
use jump_tables::{table_values, targets};
use std::alloc::Global;
use std::test::Fail;
use sym_terms::{Sym, Term};

// The headers of an executable with one segment at 0x400000 (ELF-64), by its flags, its bytes in the file and those in memory.
// The code follows at 0x400078.
macro_rules! head {
    ($flags:literal $file:literal $memory:literal $more:literal) => {
        [
            0x7f, b'E', b'L', b'F', 2, 1, 1, 0, 0, 0, 0, 0, 0, 0, 0, 0, 2, 0, 0x3e, 0, 1, 0, 0, 0,
            0x78, 0, 0x40, 0, 0, 0, 0, 0, 0x40, 0, 0, 0, 0, 0, 0, 0, 0, 0, 0, 0, 0, 0, 0, 0, 0, 0, 0,
            0, 0x40, 0, 0x38, 0, 1, 0, 0, 0, 0, 0, 0, 0, 1, 0, 0, 0, $flags, 0, 0, 0, 0, 0, 0, 0, 0, 0,
            0, 0, 0, 0, 0x40, 0, 0, 0, 0, 0, 0, 0, 0x40, 0, 0, 0, 0, 0, $file, 0, 0, 0, 0, 0, 0, 0,
            $memory, $more, 0, 0, 0, 0, 0, 0, 0, 0x10, 0, 0, 0, 0, 0, 0,
        ]
    };
}

static READ_AND_RUN: [u8; 120] = head!(5 0xb0 0xb0 0);

static READ_AND_WRITE: [u8; 120] = head!(6 0xb0 0xb0 0);

static ALL: [u8; 120] = head!(7 0xb0 0xb0 0);

// With 9,000 zeros after the bytes of the file.
static LONG: [u8; 120] = head!(5 0xb0 0xd8 0x23);

static SHORT: [u8; 120] = head!(5 0xa0 0xa0 0);

// A switch by a table of addresses: cmp edi, 3; ja; mov eax, edi; jmp [rax*8+0x400090]; ret; ret; ret; the table.
static ADDRESSES: [u8; 56] = *b"\x83\xff\x03\x77\x0b\x89\xf8\xff\x24\xc5\x90\0\x40\0\xc3\xc3\
\xc3\xcc\xcc\xcc\xcc\xcc\xcc\xcc\
\x86\0\x40\0\0\0\0\0\x87\0\x40\0\0\0\0\0\x86\0\x40\0\0\0\0\0\x88\0\x40\0\0\0\0\0";

// A switch by a table of offsets: cmp edi, 2; ja; mov edi, edi; lea rdx, [rip+0xe]; movsxd rax, [rdx+rdi*4]; add rax,
// rdx; jmp rax; ret; ret; ret; the table at 0x400094: -4, -3, -3.
static OFFSETS: [u8; 40] = *b"\x83\xff\x02\x77\x15\x89\xff\x48\x8d\x15\x0e\0\0\0\x48\x63\
\x04\xba\x48\x01\xd0\x3e\xff\xe0\xc3\xc3\xc3\xcc\
\xfc\xff\xff\xff\xfd\xff\xff\xff\xfd\xff\xff\xff";

fn executable(alloc: Global, head: &[u8], code: &[u8]) -> Result<Image, Fail> {
    let mut file = Vec::from_slice(alloc, head)?;
    file.extend_from_slice(code)?;
    let image = read_elf(alloc, file.as_slice())?;
    Ok(image)
}

// A table of an executable, and what is found there.
struct Row {
    base: u64,
    scale: u64,
    lo: u64,
    hi: u64,
    bytes: u8,
    signed: bool,
    found: Option<&'static [u64]>,
}

macro_rules! row {
    ($base:literal $scale:literal $lo:literal $hi:literal $bytes:literal $signed:literal $found:expr) => {
        Row {
            base: $base,
            scale: $scale,
            lo: $lo,
            hi: $hi,
            bytes: $bytes,
            signed: $signed,
            found: $found,
        }
    };
}

static BY_ADDRESS: [Row; 10] = [
    row!(0x40_0090 8 0 3 8 false Some(&[0x40_0086, 0x40_0087, 0x40_0088])),
    row!(0x40_0090 8 1 1 8 false Some(&[0x40_0087])),
    // The fifth entry lies past the end of the file; the fourth ends there.
    row!(0x40_0090 8 0 4 8 false None),
    row!(0x40_0091 8 0 3 8 false None),
    row!(0x40_00a8 8 0 0 8 false Some(&[0x40_0088])),
    // Entries of two bytes, four apart, and overlapping ones.
    row!(0x40_0090 4 0 1 2 false Some(&[0, 0x86])),
    row!(0x40_0090 1 0 1 2 false Some(&[0x86, 0x4000])),
    // The end of the table is at 2^64, over it, and far over it.
    row!(0xffff_ffff_ffff_fff0 8 0 1 8 false None),
    row!(0xffff_ffff_ffff_fff0 8 0 2 8 false None),
    row!(0x40_0090 8 0xffff_ffff_ffff_ffff 0xffff_ffff_ffff_ffff 8 false None),
];

static BY_OFFSET: [Row; 4] = [
    row!(0x40_0094 4 0 2 4 true Some(&[0xffff_ffff_ffff_fffc, 0xffff_ffff_ffff_fffd])),
    row!(0x40_0094 4 0 2 4 false Some(&[0xffff_fffc, 0xffff_fffd])),
    row!(0x40_0094 4 0 0 1 true Some(&[0xffff_ffff_ffff_fffc])),
    row!(0x40_0094 4 0 3 4 true None),
];

static CHANGED: [Row; 1] = [row!(0x40_0090 8 0 3 8 false None)];

// Past the bytes of the file all numbers are zero.
static OF_MANY: [Row; 2] = [
    row!(0x40_0090 8 0 1023 8 false Some(&[0, 0x40_0086, 0x40_0087, 0x40_0088])),
    row!(0x40_0090 8 0 1024 8 false None),
];

// Whether the table has the numbers of the row. A row whose numbers no call may be given is wrong.
fn has_numbers(alloc: Global, image: &Image, row: &Row) -> Result<bool, Fail> {
    if row.hi < row.lo || !matches!(row.bytes, 1 | 2 | 4 | 8) {
        return Ok(false);
    }
    let values = table_values(
        alloc, image, row.base, row.scale, row.lo, row.hi, row.bytes, row.signed,
    )?;
    let found = values.as_ref().map(|numbers| numbers.as_slice());
    Ok(found == row.found)
}

fn expect_rows(alloc: Global, head: &[u8], code: &[u8], rows: &[Row]) -> Result<(), Fail> {
    let image = executable(alloc, head, code)?;
    for row in rows {
        if !has_numbers(alloc, &image, row)? {
            return Err("a table has other numbers".into());
        }
    }
    Ok(())
}

#[test]
fn entries_are_listed_once_and_ascend(rt: HostRuntime) -> Result<(), Fail> {
    expect_rows(rt.alloc(), &READ_AND_RUN, &ADDRESSES, &BY_ADDRESS)
}

#[test]
fn what_may_be_written_and_run_is_fixed(rt: HostRuntime) -> Result<(), Fail> {
    expect_rows(rt.alloc(), &ALL, &ADDRESSES, &BY_ADDRESS)
}

#[test]
fn offsets_are_extended_by_their_sign_where_asked(rt: HostRuntime) -> Result<(), Fail> {
    expect_rows(rt.alloc(), &SHORT, &OFFSETS, &BY_OFFSET)
}

#[test]
fn a_table_that_the_program_may_change_is_none(rt: HostRuntime) -> Result<(), Fail> {
    expect_rows(rt.alloc(), &READ_AND_WRITE, &ADDRESSES, &CHANGED)
}

#[test]
fn a_table_has_at_most_1024_entries(rt: HostRuntime) -> Result<(), Fail> {
    expect_rows(rt.alloc(), &LONG, &ADDRESSES, &OF_MANY)
}

// The numbers of a key, and the targets of a jump to 0x400094 plus the key: none where one isn't code.
struct Jump {
    numbers: &'static [u64],
    targets: Option<&'static [u64]>,
}

static JUMPS: [Jump; 4] = [
    Jump {
        numbers: &[0xffff_ffff_ffff_fffc, 0xffff_ffff_ffff_fffd],
        targets: Some(&[0x40_0090, 0x40_0091]),
    },
    Jump {
        numbers: &[4, 0, 4],
        targets: Some(&[0x40_0094, 0x40_0098]),
    },
    Jump {
        numbers: &[0, 12],
        targets: None,
    },
    Jump {
        numbers: &[0xffff_ffff_ffbf_ff6b],
        targets: None,
    },
];

fn expect_jumps(alloc: Global, jump: &Term, key: &Term) -> Result<(), Fail> {
    let image = executable(alloc, &SHORT, &OFFSETS)?;
    for row in &JUMPS {
        let found = targets(alloc, &image, jump, key, row.numbers)?;
        if found.as_ref().map(|list| list.as_slice()) != row.targets {
            return Err("a jump has other targets".into());
        }
    }
    Ok(())
}

#[test]
fn a_jump_leads_a_constant_after_each_number(rt: HostRuntime) -> Result<(), Fail> {
    let alloc = rt.alloc();
    let key = Term::symbol(alloc, Sym::Named(0x40_0086))?;
    let jump = key
        .add(alloc, &Term::constant(alloc, 0x40_0094))?
        .ok_or("no term")?;
    expect_jumps(alloc, &jump, &key)
}

#[test]
fn a_jump_by_another_key_has_no_targets(rt: HostRuntime) -> Result<(), Fail> {
    let alloc = rt.alloc();
    let key = Term::symbol(alloc, Sym::Named(0x40_0086))?;
    let other = Term::symbol(alloc, Sym::Ra)?;
    let image = executable(alloc, &SHORT, &OFFSETS)?;
    assert!(rt; targets(alloc, &image, &key, &other, &[0])?.is_none());
    Ok(())
}
