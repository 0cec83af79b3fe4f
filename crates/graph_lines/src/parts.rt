//! The parts of lines with terms, by their form: numbers are read, and terms are the bytes at their places.
ghost use Rattle.std.specs.Prelude.{◌≡◌, ◌<◌, length, All, IfOk, IfSome, IsTrue, is_some};
ghost use Rattle.std.specs.List.{list_all};
ghost use Rattle.std.specs.Option.{option_map};
ghost use Rattle.graph_lines.specs.Words.{fields, is_term_word as is_word_of_term};
ghost use Rattle.term_text.specs.Bytes.{comma_byte, bar};
ghost use Rattle.term_text.specs.Numbers.{number_at};
ghost use Rattle.graph_lines.specs.Syntax.{size_at, sized_at as sized_of, region_at as region_of, regions_at as regions_of, register_named, all_registers, given_at as given_of, width_of, fact_at as fact_of, content_at as content_of, givens_at, each_at, list_at as list_of, range_at as range_of, values_at as values_of, bound_at as bound_of, node_at as node_of};
ghost use Rattle.graph_lines.specs.Line.{HasNumber};
ghost use Rattle.graph_data.specs.Parts.{Each};
ghost use Rattle.graph_data.specs.WellFormed.{IsNumber, AreNumbers};
ghost use Rattle.mem_forest.specs.Shape.{is_size as is_size_of};

use crate::fields::first_field;
use crate::words::{is_term_word, split_at, strip};
use bits_core::Width;
use predicates::Values;
use sqlite_items::Items;
use std::alloc::{AllocError, Global};
use term_text::{read_decimal, read_number, register_name};

fn is_size(bytes: u64) -> bool
    ensures { result ≡ is_size_of bytes }
{
    matches!(bytes, 1 | 2 | 4 | 8)
}

fn read_size(word: &[u8]) -> Option<u8>
    ensures value { result ≡ size_at word.now }
    ensures size { IfSome result (λ n. IsTrue (is_size_of n)) }
{
    let bytes = read_decimal(word)?;
    if is_size(bytes) {
        Some(bytes as u8)
    } else {
        None
    }
}

/// The term's bytes, the size, and what stands after a `TERM;BYTES]`.
#[tactic(auto, unfolding(crate::specs::Syntax::sized_at))]
pub(crate) fn sized_at(word: &[u8]) -> Option<(&[u8], u8, &[u8])>
    ensures value { option_map (λ p. (p.0.now, (p.1, p.2.now))) result ≡ sized_of word.now }
    ensures size { IfSome result (λ p. IsTrue (is_size_of p.1)) }
{
    let (term, after) = split_at(word, b';')?;
    let (digits, rest) = split_at(after, b']')?;
    let bytes = read_size(digits)?;
    Some((term, bytes, rest))
}

/// The term's bytes and the size of a `[TERM;BYTES]`.
#[tactic(auto, unfolding(crate::specs::Syntax::region_at))]
pub(crate) fn region_at(word: &[u8]) -> Option<(&[u8], u8)>
    ensures value { option_map (λ p. (p.0.now, p.1)) result ≡ region_of word.now }
    ensures size { IfSome result (λ p. IsTrue (is_size_of p.1)) }
{
    let inner = strip(b"[", word)?;
    let (term, bytes, rest) = sized_at(inner)?;
    if is_term_word(term) && rest.is_empty() {
        Some((term, bytes))
    } else {
        None
    }
}

type LooseRegion<'a> = (&'a [u8], u8);

/// Two regions with a space between them.
#[tactic(auto, unfolding(crate::specs::Syntax::regions_at))]
pub(crate) fn regions_at(rest: &[u8]) -> Option<(LooseRegion<'_>, LooseRegion<'_>)>
    ensures value { option_map (λ p. ((p.0.0.now, p.0.1), (p.1.0.now, p.1.1))) result ≡ regions_of rest.now }
    ensures sizes { IfSome result (λ p. IsTrue (is_size_of p.0.1) × IsTrue (is_size_of p.1.1)) }
{
    let (first, second) = split_at(rest, b' ')?;
    let first = region_at(first)?;
    let second = region_at(second)?;
    Some((first, second))
}

static REGISTERS: [u8; 16] = [0, 1, 2, 3, 4, 5, 6, 7, 8, 9, 10, 11, 12, 13, 14, 15];

fn first_register_named(registers: &[u8], word: &[u8]) -> Option<u8>
    ensures value { result ≡ register_named registers.now word.now }
    ensures known { All (λ r. r < 16) registers.now → IfSome result (λ r. r < 16) }
{
    for register in registers {
        if register_name(*register) == word {
            return Some(*register);
        }
    }
    None
}

/// The register by number and the bytes at the place of its term, of a `REG=TERM`.
#[tactic(auto, unfolding(crate::specs::Syntax::given_at))]
pub(crate) fn given_at(word: &[u8]) -> Option<(u8, &[u8])>
    ensures value { option_map (λ p. (p.0, p.1.now)) result ≡ given_of word.now }
    ensures register { IfSome result (λ p. p.0 < 16) }
{
    let (name, term) = split_at(word, b'=')?;
    let register = first_register_named(&REGISTERS, name)?;
    if is_term_word(term) {
        Some((register, term))
    } else {
        None
    }
}

fn width_of_bits(bits: u64) -> Option<Width>
    ensures { result ≡ width_of bits }
{
    match bits {
        8 => Some(Width::W8),
        16 => Some(Width::W16),
        32 => Some(Width::W32),
        64 => Some(Width::W64),
        _ => None,
    }
}

/// The width and the bytes at the places of the two terms, of a `W TERM TERM`.
#[tactic(auto, unfolding(crate::specs::Syntax::fact_at))]
pub(crate) fn fact_at(rest: &[u8]) -> Option<(Width, &[u8], &[u8])>
    ensures { option_map (λ p. (p.0, (p.1.now, p.2.now))) result ≡ fact_of rest.now }
{
    let (bits, after) = split_at(rest, b' ')?;
    let (left, right) = split_at(after, b' ')?;
    let bits = read_decimal(bits)?;
    let width = width_of_bits(bits)?;
    if is_term_word(left) && is_term_word(right) {
        Some((width, left, right))
    } else {
        None
    }
}

/// What a node's value is: the bytes at the place of its term, or that there is none.
pub(crate) fn content_at(word: &[u8]) -> Option<Option<&[u8]>>
    ensures { option_map (λ o. option_map (λ w. w.now) o) result ≡ content_of word.now }
{
    match word {
        [] => Some(None),
        [b'=', term @ ..] if is_term_word(term) => Some(Some(term)),
        _ => None,
    }
}

/// Whether each entry of a line of registers has its form.
#[tactic(auto, unfolding(crate::specs::Syntax::givens_at))]
pub(crate) fn are_givens(rest: &[u8]) -> bool
    ensures { result ≡ is_some (givens_at rest.now) }
{
    let mut after = Some(rest);
    while let Some(bytes) = after {
        let (word, more) = first_field(bytes, b' ');
        if given_at(word).is_none() {
            return false;
        }
        after = more;
    }
    true
}

fn are_term_words(names: &[u8]) -> bool
    ensures { result ≡ list_all is_word_of_term (fields bar names.now) }
{
    let mut after = Some(names);
    while let Some(bytes) = after {
        let (word, more) = first_field(bytes, b'|');
        if !is_term_word(word) {
            return false;
        }
        after = more;
    }
    true
}

#[tactic(auto, using(crate::proofs::EachLemmas::each_push))]
fn numbers_at(alloc: Global, inside: &[u8]) -> Result<Option<Items<u64>>, AllocError>
    ensures value { IfOk result (λ numbers. numbers ≡ each_at number_at (fields comma_byte inside.now)) }
    ensures numbers { IfOk result (λ o. IfSome o (λ ns. Each IsNumber ns × (0 < length ns))) }
{
    let mut numbers = Items::new(alloc);
    let mut after = Some(inside);
    while let Some(bytes) = after {
        let (word, more) = first_field(bytes, b',');
        let Some(number) = read_number(word) else {
            return Ok(None);
        };
        numbers.push(number)?;
        after = more;
    }
    Ok(Some(numbers))
}

#[tactic(auto, unfolding(crate::specs::Syntax::list_at))]
fn list_at(alloc: Global, inner: &[u8]) -> Result<Option<Values>, AllocError>
    ensures value { IfOk result (λ values. values ≡ list_of inner.now) }
    ensures numbers { IfOk result (λ o. IfSome o (λ v. AreNumbers v × HasNumber v)) }
{
    let Some((inside, after)) = split_at(inner, b'}') else {
        return Ok(None);
    };
    let Some(numbers) = numbers_at(alloc, inside)? else {
        return Ok(None);
    };
    if after.is_empty() {
        Ok(Some(Values::OneOf(numbers)))
    } else {
        Ok(None)
    }
}

#[tactic(auto, unfolding(crate::specs::Syntax::range_at))]
fn range_at(word: &[u8]) -> Option<Values>
    ensures value { result ≡ range_of word.now }
    ensures numbers { IfSome result (λ v. AreNumbers v × HasNumber v) }
{
    let (low, after) = split_at(word, b'.')?;
    let high = strip(b".", after)?;
    let low = read_number(low)?;
    let high = read_number(high)?;
    Some(Values::Range(low, high))
}

#[tactic(auto, unfolding(crate::specs::Syntax::values_at))]
fn values_at(alloc: Global, word: &[u8]) -> Result<Option<Values>, AllocError>
    ensures value { IfOk result (λ values. values ≡ values_of word.now) }
    ensures numbers { IfOk result (λ o. IfSome o (λ v. AreNumbers v × HasNumber v)) }
{
    match strip(b"{", word) {
        Some(inner) => list_at(alloc, inner),
        None => Ok(range_at(word)),
    }
}

/// The bytes at the place of the term, and the numbers, of a `TERM LO..HI` or `TERM {N,N}`.
#[tactic(auto, unfolding(crate::specs::Syntax::bound_at))]
pub(crate) fn bound_at(alloc: Global, rest: &[u8]) -> Result<Option<(&[u8], Values)>, AllocError>
    ensures value { IfOk result (λ o. option_map (λ p. (p.0.now, p.1)) o ≡ bound_of rest.now) }
    ensures numbers { IfOk result (λ o. IfSome o (λ p. AreNumbers p.1 × HasNumber p.1)) }
{
    let Some((key, word)) = split_at(rest, b' ') else {
        return Ok(None);
    };
    let Some(values) = values_at(alloc, word)? else {
        return Ok(None);
    };
    if is_term_word(key) {
        Ok(Some((key, values)))
    } else {
        Ok(None)
    }
}

/// The names' bytes with `|` between them, the size, and the bytes at the place of the value, of a
/// `[NAME|NAME;BYTES]=TERM`.
#[tactic(auto, unfolding(crate::specs::Syntax::node_at))]
pub(crate) fn node_at(rest: &[u8]) -> Option<(&[u8], u8, Option<&[u8]>)>
    ensures value { option_map (λ p. (fields bar p.0.now, (p.1, option_map (λ w. w.now) p.2))) result ≡ node_of rest.now }
    ensures size { IfSome result (λ p. IsTrue (is_size_of p.1)) }
{
    let inner = strip(b"[", rest)?;
    let (names, bytes, after) = sized_at(inner)?;
    let value = content_at(after)?;
    if are_term_words(names) {
        Some((names, bytes, value))
    } else {
        None
    }
}
