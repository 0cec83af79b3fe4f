use term_text::TextCause;
use thiserror::Error;

/// Why a text is refused: the first faulty line, counted from 1, and its first cause. Want of memory has line 0.
#[derive(Clone, Copy, Debug, PartialEq, Eq, Error)]
#[error("line {line}: {cause}")]
pub struct TextRefusal {
    pub line: u64,
    pub cause: TextCause,
}
