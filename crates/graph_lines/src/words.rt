//! The words that a line is parted into.
ghost use Rattle.std.specs.Prelude.{◌≡◌, ◌<◌, not, length, IfSome};
ghost use Rattle.std.specs.List.{list_all};
ghost use Rattle.std.specs.Option.{option_map};
ghost use Rattle.graph_lines.specs.Words.{split_at as split_of, is_printable as is_line_byte, are_printable as are_line_bytes, ends_term as ends_a_term, is_term_word as is_word_of_term};
ghost use Rattle.graph_lines.specs.Syntax.{strip as stripped};

/// What stands before the first byte that is the separator, and what stands after it.
pub fn split_at(bytes: &[u8], separator: u8) -> Option<(&[u8], &[u8])>
    ensures exact { option_map (λ p. (p.0.now, p.1.now)) result ≡ split_of separator bytes.now }
    ensures shorter { IfSome result (λ p. length p.1.now < length bytes.now) }
{
    for (at, byte) in bytes.iter().enumerate() {
        if *byte == separator {
            return Some((&bytes[..at], &bytes[at + 1..]));
        }
    }
    None
}

/// What stands after the word, where the bytes begin with it.
pub(crate) fn strip<'a>(word: &[u8], bytes: &'a [u8]) -> Option<&'a [u8]>
    ensures { option_map (λ r. r.now) result ≡ stripped word.now bytes.now }
{
    let Some(rest) = bytes.strip_prefix(word) else {
        return None;
    };
    Some(rest)
}

/// Whether the bytes can stand at the place of a term.
pub(crate) fn is_term_word(word: &[u8]) -> bool
    ensures { result ≡ is_word_of_term word.now }
{
    match word {
        [] => false,
        [_, ..] => go_on(word),
    }
}

// Whether no byte ends a term.
fn go_on(word: &[u8]) -> bool
    ensures { result ≡ list_all (λ b. not (ends_a_term b)) word.now }
{
    word.iter().all(|byte| !ends_term(*byte))
}

fn ends_term(byte: u8) -> bool
    ensures { result ≡ ends_a_term byte }
{
    matches!(byte, b' ' | b'[' | b']' | b';' | b'|' | b'=' | b'{' | b'}')
}

/// Whether each byte is one of a line.
pub(crate) fn are_printable(bytes: &[u8]) -> bool
    ensures { result ≡ are_line_bytes bytes.now }
{
    bytes.iter().all(|byte| is_printable(*byte))
}

fn is_printable(byte: u8) -> bool
    ensures { result ≡ is_line_byte byte }
{
    (b' '..=b'~').contains(&byte)
}
