/// An operation of two operands that sets all four flags (Intel SDM volume 2, by the names).
#[derive(Clone, Copy, Debug, PartialEq, Eq, PartialOrd, Ord)]
pub enum Alu {
    Add,
    Or,
    Adc,
    Sbb,
    And,
    Sub,
    Xor,
}

/// A rotation or a shift by a count (Intel SDM volume 2, RCL/RCR/ROL/ROR and SAL/SAR/SHL/SHR).
#[derive(Clone, Copy, Debug, PartialEq, Eq, PartialOrd, Ord)]
pub enum Shift {
    Rol,
    Ror,
    Shl,
    Shr,
    Sar,
}
