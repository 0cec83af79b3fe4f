// How many bits are set.
ghost use Rattle.std.specs.Prelude.{◌≡◌, ◌<◌, ◌^◌};
ghost use Rattle.root_scan.specs.Bits.{bits_set};

use crate::lanes::{self, CHUNK};

/// The number of bits set in the bytes. It takes no memory.
#[tactic(auto, using(crate::proofs::BitLemmas::bits_set_chunk))]
pub fn covered(bits: &[u8]) -> u64
    requires { bits_set bits.now < 2 ^ 64 }
    ensures { result ≡ bits_set bits.now }
{
    let mut rest = bits;
    let mut count = 0;
    while let Some((chunk, behind)) = rest.split_first_chunk::<CHUNK>() {
        count += lanes::bits_set(chunk);
        rest = behind;
    }
    count + bits_of_rest(rest)
}

// The same, byte by byte.
fn bits_of_rest(bits: &[u8]) -> u64
    requires { bits_set bits.now < 2 ^ 64 }
    ensures { result ≡ bits_set bits.now }
{
    bits.iter().map(|byte| u64::from(byte.count_ones())).sum()
}
