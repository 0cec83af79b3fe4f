// The kernels over chunks of 64 bytes, in eight lanes of 64 bits.
ghost use Rattle.std.specs.Prelude.{◌≡◌, ◌<◌};
ghost use Rattle.std.specs.Simd.Lanes.{Each1};
ghost use Rattle.std.specs.List.{list_any};
ghost use Rattle.root_scan.specs.Words.{is_within, words_from};
ghost use Rattle.root_scan.specs.Bits.{bits_set};

use std::simd::prelude::*;

/// The bytes of a chunk.
pub const CHUNK: usize = 64;

/// Whether one of the eight words of a chunk is at least `lo` and below `hi`.
pub fn has_word_within(chunk: &[u8; CHUNK], lo: u64, hi: u64) -> bool
    ensures { result ≡ list_any (is_within lo hi) (words_from 0 chunk.now) }
{
    let above_lo = words_of(chunk) - u64x8::splat(lo);
    let within = above_lo.simd_lt(u64x8::splat(hi.saturating_sub(lo)));
    within.to_bitmask() != 0
}

/// The number of bits set in a chunk.
pub fn bits_set(chunk: &[u8; CHUNK]) -> u64
    ensures { result ≡ bits_set chunk.now }
{
    words_of(chunk).count_ones().strict_reduce_sum()
}

// The eight little-endian words of a chunk.
fn words_of(chunk: &[u8; CHUNK]) -> u64x8
    requires { Each1 (λ byte. byte < 256) chunk.now }
    ensures { result ≡ words_from 0 chunk.now }
{
    u64x8::from_le_bytes(u8x64::from_array(*chunk))
}
