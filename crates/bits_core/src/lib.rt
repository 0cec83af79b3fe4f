//! Integers of the processor: their widths, the low bits of a number, the arithmetic and the shifts
//! with the four flags, wide products and quotients, and conditions. No call takes memory, and none fails.
#![tactic(auto)]

mod arithmetic;
mod condition;
mod flags;
mod integers;
mod low_bits;
mod operations;
mod shifts;
mod wide;
mod width;

pub use arithmetic::alu;
pub use condition::cond;
pub use flags::Flags;
pub use low_bits::{cut, sext};
pub use operations::{Alu, Shift};
pub use shifts::shift;
pub use wide::{div_wide, mul_wide};
pub use width::Width;
