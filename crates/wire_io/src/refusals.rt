// What the calls of this crate answer where they don't answer Ok.
ghost use Rattle.std.specs.Prelude.{◌≡◌};
ghost use Rattle.wire_io.specs.declared.refusals.ReadRefusal.TheVariants.{NoMemory as no_memory};

use std::alloc::AllocError;
use thiserror::Error;

/// A read or a write that the outside refused.
#[derive(Clone, Copy, Debug, PartialEq, Eq, Error)]
#[error("failed")]
pub struct Failed;

/// Why a file wasn't read whole.
#[derive(Clone, Copy, Debug, PartialEq, Eq, Error)]
pub enum ReadRefusal {
    /// A read of the file failed.
    #[error("read failed")]
    Failed,
    /// The file has more bytes than the limit.
    #[error("too long")]
    TooLong,
    /// A growth of memory was refused.
    #[error("out of memory")]
    NoMemory,
}

impl From<AllocError> for ReadRefusal {
    ghost from_gives = { λ _ e. e ≡ no_memory };

    fn from(_: AllocError) -> Self {
        ReadRefusal::NoMemory
    }
}

/// A write that ended before its last byte.
#[derive(Clone, Copy, Debug, PartialEq, Eq, Error)]
#[error("write failed after {taken} bytes")]
pub struct WriteFailed {
    /// How many of the bytes were written.
    pub taken: u64,
}
