ghost use Rattle.std.specs.Prelude.{◌<◌, length};

use elf_image::read_elf;
use root_scan::{covered, scan_roots, scan_words};
use std::alloc::Global;
use std::process::Abort;
use std::test::Fail;

// The words at multiples of 8 of bytes from a place on, one byte after the other.
fn plain_words(alloc: Global, bytes: &[u8], place: usize) -> Result<Vec<u64>, Fail> {
    let mut words = Vec::new(alloc);
    for (at, eight) in bytes.windows(8).enumerate() {
        if place.wrapping_add(at) % 8 == 0 {
            let mut word = 0u64;
            for byte in eight.iter().rev() {
                word = word.wrapping_mul(256) | u64::from(*byte);
            }
            words.push(word)?;
        }
    }
    Ok(words)
}

fn expect_words(
    rt: &impl Abort,
    alloc: Global,
    bytes: &[u8],
    place: u64,
    within: (u64, u64),
    words: &[u64],
) -> Result<(), Fail> {
    assert!(rt; place < 1000);
    let found = scan_words(alloc, bytes, place, within.0, within.1)
        .ok()
        .ok_or("no memory")?;
    assert_eq!(rt; found.as_slice(), words);
    Ok(())
}

#[test]
fn whole_words_at_multiples_of_8_are_found(rt: HostRuntime) -> Result<(), Fail> {
    let bytes: [u8; 16] = [0, 1, 2, 3, 4, 5, 6, 7, 8, 9, 10, 11, 12, 13, 14, 15];
    let word = 0x0b0a_0908_0706_0504;
    let alloc = rt.alloc();
    expect_words(&rt, alloc, &bytes, 4, (0, u64::MAX), &[word])?;
    expect_words(&rt, alloc, &bytes, 4, (word, word + 1), &[word])?;
    expect_words(&rt, alloc, &bytes, 4, (0, word), &[])?;
    expect_words(&rt, alloc, &bytes, 4, (word + 1, u64::MAX), &[])?;
    expect_words(
        &rt,
        alloc,
        &[1; 200],
        3,
        (0, u64::MAX),
        &[0x0101_0101_0101_0101; 24],
    )
}

#[test]
fn bits_are_counted(rt: HostRuntime) {
    assert_eq!(rt; covered(&[0xff, 0x01]), 9);
    assert_eq!(rt; covered(&[0x7f; 100]), 700);
    assert_eq!(rt; covered(&[]), 0);
}

// 200 bytes without a rule.
fn some_bytes(alloc: Global) -> Result<Vec<u8>, Fail> {
    let mut bytes = Vec::new(alloc);
    let mut state = 1u32;
    for _ in 0..200 {
        state = state.wrapping_mul(1_103_515_245).wrapping_add(12_345);
        bytes.push(state.to_le_bytes()[2])?;
    }
    Ok(bytes)
}

#[test]
fn lanes_and_a_plain_loop_agree(rt: HostRuntime) -> Result<(), Fail> {
    let bytes = some_bytes(rt.alloc())?;
    assert_eq!(rt; bytes.len(), 200);
    for length in 0..=bytes.len() {
        let front = &bytes[..length];
        let mut bits = 0u64;
        for byte in front {
            bits = bits.wrapping_add(u64::from(byte.count_ones()));
        }
        assert_eq!(rt; counted(front), bits, "{length} bytes");
        for place in 0..8 {
            let words = plain_words(rt.alloc(), front, place)?;
            expect_words(&rt, rt.alloc(), front, place as u64, (0, u64::MAX), &words)?;
        }
    }
    Ok(())
}

fn counted(bytes: &[u8]) -> u64
    requires { length bytes.now < 1000 }
{
    covered(bytes)
}

// An executable of two segments (ELF-64): 200 bytes of code from 400000 on, and behind them in the
// file, at 6000c8, 32 bytes of data, four words.
fn with_data(alloc: Global, words: [u64; 4]) -> Result<Vec<u8>, Fail> {
    let mut file = Vec::from_slice(
        alloc,
        b"\x7fELF\x02\x01\x01\0\0\0\0\0\0\0\0\0\x02\0\x3e\0\x01\0\0\0",
    )?;
    for field in [0x40_00b0u64, 64, 0] {
        file.extend_from_slice(&field.to_le_bytes())?;
    }
    file.extend_from_slice(b"\0\0\0\0\x40\0\x38\0\x02\0\0\0\0\0\0\0")?;
    for (flags, offset, address, size) in [(5, 0, 0x40_0000, 200), (6, 200, 0x60_00c8, 32)] {
        file.extend_from_slice(&[1, 0, 0, 0, flags, 0, 0, 0])?;
        for field in [offset, address, address, size, size, 0x1000u64] {
            file.extend_from_slice(&field.to_le_bytes())?;
        }
    }
    file.resize(200, 0xC3)?;
    for word in words {
        file.extend_from_slice(&word.to_le_bytes())?;
    }
    Ok(file)
}

#[test]
fn roots_are_the_addresses_of_code_in_the_data(rt: HostRuntime) -> Result<(), Fail> {
    for (words, roots) in [
        (
            [0x40_00be, 0x40_00bf, 0x40_00be, 0x40_00c0],
            [0x40_00be, 0x40_00bf, 0x40_00c0].as_slice(),
        ),
        ([0x40_00c8, 0x3f_ffff, 0x60_00c8, 0], [].as_slice()),
        (
            [0x40_00c7, 0x40_0000, u64::MAX, 1],
            [0x40_0000, 0x40_00c7].as_slice(),
        ),
    ] {
        let file = with_data(rt.alloc(), words)?;
        let image = read_elf(rt.alloc(), &file)?;
        let found = scan_roots(rt.alloc(), &image).ok().ok_or("no memory")?;
        assert_eq!(rt; found.as_slice(), roots);
    }
    Ok(())
}
