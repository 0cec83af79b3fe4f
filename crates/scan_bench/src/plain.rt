//! Plain loops for what root_scan does in lanes.
ghost use Rattle.std.specs.Prelude.{◌≡◌, ◌≤◌, ◌^◌, ◌++◌, ◌∷◌, [], IfOk, OnOk, length, filter};
ghost use Rattle.root_scan.specs.Words.{is_within, words_from};
ghost use Rattle.root_scan.specs.Bits.{bits_set};

use byteorder::{ByteOrder, LittleEndian};
use root_scan::covered;
use std::alloc::{AllocError, Global};

/// The words of bytes at a multiple of 8 that are at least `lo` and below `hi`.
#[tactic(auto, using(root_scan::proofs::ChunkLemmas::filtered_word, root_scan::proofs::ChunkLemmas::filtered_short))]
pub fn plain_words(alloc: Global, bytes: &[u8], lo: u64, hi: u64) -> Result<Vec<u64>, AllocError>
    ensures { IfOk result (λ words. words.items ≡ filter (is_within lo hi) (words_from 0 bytes.now)) }
{
    let mut found = Vec::new(alloc);
    let mut rest = bytes;
    while let Some((word, behind)) = rest.split_first_chunk::<8>() {
        push_word(&mut found, LittleEndian::read_u64(word), lo, hi)?;
        rest = behind;
    }
    Ok(found)
}

// Appends a word where it is at least `lo` and below `hi`.
fn push_word(found: &mut Vec<u64>, word: u64, lo: u64, hi: u64) -> Result<(), AllocError>
    ensures { OnOk result (found.new.items ≡ found.old.items ++ filter (is_within lo hi) (word ∷ [])) }
{
    if lo <= word && word < hi {
        found.push(word)?;
    }
    Ok(())
}

/// The bits that are set.
pub fn plain_bits(bytes: &[u8]) -> u64
    requires { length bytes.now ≤ 2 ^ 30 }
    ensures { result ≡ bits_set bytes.now }
{
    bytes.iter().map(|byte| u64::from(byte.count_ones())).sum()
}

/// The same, in lanes.
pub fn counted(bytes: &[u8]) -> u64
    requires { length bytes.now ≤ 2 ^ 30 }
    ensures { result ≡ bits_set bytes.now }
{
    covered(bytes)
}
