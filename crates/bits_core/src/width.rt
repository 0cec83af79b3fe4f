ghost use Rattle.std.specs.Prelude.{◌≡◌, ◌-◌, ◌^◌, ◌≤◌};
ghost use Rattle.bits_core.specs.Width.{bits_of, bytes_of};

/// The width of an operand, in bits (Intel SDM volume 1, section 4.1: byte, word, doubleword, quadword).
#[derive(Clone, Copy, Debug, PartialEq, Eq, PartialOrd, Ord)]
pub enum Width {
    W8,
    W16,
    W32,
    W64,
}

impl Width {
    /// The width in bits: 8, 16, 32 or 64.
    pub fn bits(self) -> u32
        ensures value { result ≡ bits_of self }
        ensures least { 8 ≤ result }
        ensures most { result ≤ 64 }
    {
        match self {
            Width::W8 => 8,
            Width::W16 => 16,
            Width::W32 => 32,
            Width::W64 => 64,
        }
    }

    /// The width in bytes: 1, 2, 4 or 8.
    pub fn bytes(self) -> u8
        ensures value { result ≡ bytes_of self }
        ensures least { 1 ≤ result }
        ensures most { result ≤ 8 }
    {
        match self {
            Width::W8 => 1,
            Width::W16 => 2,
            Width::W32 => 4,
            Width::W64 => 8,
        }
    }

    // The greatest number of the width: all bits are ones.
    pub(crate) fn mask(self) -> u64
        ensures { result ≡ 2 ^ bits_of self - 1 }
    {
        u64::MAX >> (64 - self.bits())
    }

    // The number whose only bit is the highest of the width, the sign.
    pub(crate) fn half(self) -> u64
        ensures { result ≡ 2 ^ (bits_of self - 1) }
    {
        1 << (self.bits() - 1)
    }
}
