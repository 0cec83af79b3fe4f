ghost use Rattle.std.specs.Prelude.{◌≡◌};
ghost use Rattle.term_text.specs.declared.cause.TextCause.TheVariants.{NoMemory as want_of_memory};

use std::alloc::{AllocError, AllocFailed};
use sym_terms::NoMemory;
use thiserror::Error;

/// Why the text of a graph is refused; a term alone is `BadTerm`, `NotCanonical` or `OverLimit`.
#[derive(Clone, Copy, Debug, PartialEq, Eq, Error)]
pub enum TextCause {
    /// The first line isn't the head.
    #[error("BadHead")]
    BadHead,
    /// A line has no form, or can't stand where it is.
    #[error("BadLine")]
    BadLine,
    /// The bytes at the state of a term are none, however loosely they are read.
    #[error("BadTerm")]
    BadTerm,
    /// A number or a term has another spelling.
    #[error("NotCanonical")]
    NotCanonical,
    /// Lines or the parts of a line don't ascend.
    #[error("OutOfOrder")]
    OutOfOrder,
    /// Something is larger than its limit; a term has at most 32 nodes.
    #[error("OverLimit")]
    OverLimit,
    /// The last line is missing.
    #[error("Unended")]
    Unended,
    /// Memory was refused. It says nothing of the text.
    #[error("out of memory")]
    NoMemory,
}

impl TextCause {
    ghost use Rattle.term_text.specs.Causes.{number_of_cause, name_of_cause};

    /// Its number, from 1 to 7 in the order of the variants; 0 for `NoMemory`.
    pub fn number(self) -> u8
        ensures { result ≡ number_of_cause self }
    {
        match self {
            TextCause::BadHead => 1,
            TextCause::BadLine => 2,
            TextCause::BadTerm => 3,
            TextCause::NotCanonical => 4,
            TextCause::OutOfOrder => 5,
            TextCause::OverLimit => 6,
            TextCause::Unended => 7,
            TextCause::NoMemory => 0,
        }
    }

    /// Its name in ASCII, as `BadHead`; that of `NoMemory` is `NoMemory`.
    pub fn name(self) -> &'static str
        ensures { result.now ≡ name_of_cause self }
    {
        match self {
            TextCause::BadHead => "BadHead",
            TextCause::BadLine => "BadLine",
            TextCause::BadTerm => "BadTerm",
            TextCause::NotCanonical => "NotCanonical",
            TextCause::OutOfOrder => "OutOfOrder",
            TextCause::OverLimit => "OverLimit",
            TextCause::Unended => "Unended",
            TextCause::NoMemory => "NoMemory",
        }
    }
}

impl From<AllocError> for TextCause {
    ghost from_gives = { λ _ e. e ≡ want_of_memory };

    fn from(_e: AllocError) -> TextCause {
        TextCause::NoMemory
    }
}

impl<T: Drop> From<AllocFailed<T>> for TextCause {
    ghost from_gives = { λ _ e. e ≡ want_of_memory };

    fn from(_e: AllocFailed<T>) -> TextCause {
        TextCause::NoMemory
    }
}

impl From<NoMemory> for TextCause {
    ghost from_gives = { λ _ e. e ≡ want_of_memory };

    fn from(_e: NoMemory) -> TextCause {
        TextCause::NoMemory
    }
}
