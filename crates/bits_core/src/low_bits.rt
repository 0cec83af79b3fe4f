ghost use Rattle.std.specs.Prelude.{◌≡◌};
ghost use Rattle.bits_core.specs.LowBits.{cut_of, sext_of};

use crate::width::Width;

/// The low bits of `x`: its remainder modulo 2 to the width.
pub fn cut(w: Width, x: u64) -> u64
    ensures { result ≡ cut_of w x }
{
    x & w.mask()
}

/// The low bits of `x`, extended by copies of their highest bit to 64 bits (Intel SDM volume 2, MOVSX).
pub fn sext(w: Width, x: u64) -> u64
    ensures { result ≡ sext_of w x }
{
    let low = cut(w, x);
    if low < w.half() { low } else { low + !w.mask() }
}
