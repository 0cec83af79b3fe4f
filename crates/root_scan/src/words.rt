// The aligned words among bytes.
ghost use Rattle.std.specs.Prelude.{◌≡◌, ◌≤◌, ◌+◌, ◌^◌, ◌++◌, ◌∷◌, [], IfOk, OnOk, length, filter};
ghost use Rattle.root_scan.specs.Words.{is_within, words_from};

use crate::lanes::{self, CHUNK};
use byteorder::{ByteOrder, LittleEndian};
use no_memory::NoMemory;
use std::alloc::{AllocError, Global};

/// The bytes of a word.
const WORD: usize = 8;

/// The little-endian words of 8 bytes that are at least `lo` and below `hi`, of those that lie whole in
/// the bytes, at addresses that are multiples of 8, in the order of their addresses. `place` is the
/// address of the first byte.
pub fn scan_words(
    alloc: Global,
    bytes: &[u8],
    place: u64,
    lo: u64,
    hi: u64,
) -> Result<Vec<u64>, NoMemory>
    requires { place + length bytes.now ≤ 2 ^ 64 }
    ensures { IfOk result (λ words. words.items ≡ filter (is_within lo hi) (words_from place bytes.now)) }
{
    let mut found = Vec::new(alloc);
    push_scanned(&mut found, bytes, place, lo, hi)?;
    Ok(found)
}

/// Appends the words that `scan_words` gives.
#[tactic(auto, using(crate::proofs::ChunkLemmas::filtered_chunk, crate::proofs::ChunkLemmas::filtered_none))]
pub fn push_scanned(
    found: &mut Vec<u64>,
    bytes: &[u8],
    place: u64,
    lo: u64,
    hi: u64,
) -> Result<(), AllocError>
    requires { place + length bytes.now ≤ 2 ^ 64 }
    ensures { OnOk result (found.new.items ≡ found.old.items ++ filter (is_within lo hi) (words_from place bytes.now)) }
{
    let mut rest = from_multiple(bytes, place);
    while let Some((chunk, behind)) = rest.split_first_chunk::<CHUNK>() {
        if lanes::has_word_within(chunk, lo, hi) {
            push_words(found, chunk, lo, hi)?;
        }
        rest = behind;
    }
    push_words(found, rest, lo, hi)
}

// The bytes from the first multiple of 8 on.
#[tactic(auto, using(crate::proofs::WordLemmas::words_from_multiple))]
fn from_multiple(bytes: &[u8], place: u64) -> &[u8]
    ensures { words_from 0 result.now ≡ words_from place bytes.now }
{
    let skipped = (WORD - (place % 8) as usize) % WORD;
    let (_, rest) = bytes.split_at(skipped.min(bytes.len()));
    rest
}

// Appends those of the words of bytes at a multiple of 8, word by word.
#[tactic(auto, using(crate::proofs::ChunkLemmas::filtered_word, crate::proofs::ChunkLemmas::filtered_short))]
fn push_words(found: &mut Vec<u64>, bytes: &[u8], lo: u64, hi: u64) -> Result<(), AllocError>
    ensures { OnOk result (found.new.items ≡ found.old.items ++ filter (is_within lo hi) (words_from 0 bytes.now)) }
{
    let mut rest = bytes;
    while let Some((word, behind)) = rest.split_first_chunk::<WORD>() {
        push_word(found, LittleEndian::read_u64(word), lo, hi)?;
        rest = behind;
    }
    Ok(())
}

// Appends a word where it is at least `lo` and below `hi`.
fn push_word(found: &mut Vec<u64>, word: u64, lo: u64, hi: u64) -> Result<(), AllocError>
    ensures { OnOk result (found.new.items ≡ found.old.items ++ filter (is_within lo hi) (word ∷ [])) }
{
    if lo <= word && word < hi {
        found.push(word)?;
    }
    Ok(())
}
