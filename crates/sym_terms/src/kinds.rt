ghost use Rattle.std.specs.Prelude.{◌≡◌};
ghost use Rattle.sym_terms.specs.Order.{sym_rank, sym_number, sym_cmp, fit_rank, pair_rank};

use std::cmp::Ordering;

/// A number that isn't known: what a register held at entry, the return address, the FS base, or the
/// value that the instruction at an address names.
#[derive(Clone, Copy, Debug, PartialEq, Eq)]
pub enum Sym {
    /// The register of this number at entry: rax 0, rcx 1, rdx 2, rbx 3, rsp 4, rbp 5, rsi 6, rdi 7,
    /// r8 8 to r15 15 (Intel SDM volume 2, table 3-1).
    Entry(u8),
    /// The return address.
    Ra,
    /// The base of the FS segment.
    FsBase,
    /// The value that the instruction at this address names.
    Named(u64),
}

/// The low 8, 16 or 32 bits of a number, extended to 64 bits by zeros (`Zx`) or by the sign (`Sx`).
#[derive(Clone, Copy, Debug, PartialEq, Eq)]
pub enum Fit {
    Zx8,
    Zx16,
    Zx32,
    Sx8,
    Sx16,
    Sx32,
}

/// An operation on two numbers of 64 bits. `Mul` gives the low 64 bits of the product; `Shr` and `Sar`
/// shift by the second number modulo 64, `Shr` in zeros and `Sar` in copies of the sign.
#[derive(Clone, Copy, Debug, PartialEq, Eq)]
pub enum Pair {
    And,
    Or,
    Xor,
    Mul,
    Shr,
    Sar,
}

impl Sym {
    pub(crate) fn rank(self) -> u8
        ensures { result ≡ sym_rank self }
    {
        match self {
            Sym::Entry(_) => 0,
            Sym::Ra => 1,
            Sym::FsBase => 2,
            Sym::Named(_) => 3,
        }
    }

    pub(crate) fn number(self) -> u64
        ensures { result ≡ sym_number self }
    {
        match self {
            Sym::Entry(register) => register as u64,
            Sym::Ra | Sym::FsBase => 0,
            Sym::Named(address) => address,
        }
    }

    /// Entry registers by number, then the return address, the FS base, and names by address.
    pub fn compare(self, other: Sym) -> Ordering
        ensures { result ≡ sym_cmp self other }
    {
        match (self, other) {
            (Sym::Entry(register), Sym::Entry(other)) => register.cmp(&other),
            (Sym::Named(address), Sym::Named(other)) => address.cmp(&other),
            _ => self
                .rank()
                .cmp(&other.rank())
                .then(self.number().cmp(&other.number())),
        }
    }
}

impl Fit {
    /// The place in the order of fits, which is that of the variants.
    pub(crate) fn rank(self) -> u8
        ensures { result ≡ fit_rank self }
    {
        self as u8
    }
}

impl Pair {
    /// The place in the order of pairs, which is that of the variants.
    pub(crate) fn rank(self) -> u8
        ensures { result ≡ pair_rank self }
    {
        self as u8
    }
}
