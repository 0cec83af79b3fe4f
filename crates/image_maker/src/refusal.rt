// Why no executable is made.
ghost use Rattle.std.specs.Prelude.{◌≡◌};
ghost use Rattle.image_maker.specs.declared.refusal.MakeRefusal.TheVariants.{NoMemory};

use std::alloc::AllocError;
use thiserror::Error;

/// Why no executable is made.
#[derive(Clone, Copy, Debug, PartialEq, Eq, Error)]
pub enum MakeRefusal {
    /// More than 20,000 functions are asked for. Its number is 1.
    #[error("TooMany")]
    TooMany,
    /// There is no memory for the file.
    #[error("out of memory")]
    NoMemory,
}

impl From<AllocError> for MakeRefusal {
    ghost from_gives = { λ _ e. e ≡ NoMemory };

    fn from(_e: AllocError) -> MakeRefusal {
        MakeRefusal::NoMemory
    }
}
