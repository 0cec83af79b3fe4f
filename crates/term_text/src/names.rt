ghost use Rattle.std.specs.Prelude.{◌≡◌, IfSome, All};
ghost use Rattle.sym_terms.specs.Plain.{IsSymbol};
ghost use Rattle.term_text.specs.Names.{is_word_byte, register_name as name_of_register, fixed_name as name_of_symbol, name_of, IsKnown, named, keyword_at, symbol_at};

use crate::numbers::read_hex;
use sym_terms::{Fit, Pair, Sym};

/// A word with a meaning of its own. No keyword is a `Sym::Named`, which is spelled by its address.
#[derive(Clone, Copy, Debug, PartialEq, Eq)]
pub enum Keyword {
    Symbol(Sym),
    Fit(Fit),
    Pair(Pair),
}

static KEYWORDS: [Keyword; 30] = [
    Keyword::Symbol(Sym::Entry(0)),
    Keyword::Symbol(Sym::Entry(1)),
    Keyword::Symbol(Sym::Entry(2)),
    Keyword::Symbol(Sym::Entry(3)),
    Keyword::Symbol(Sym::Entry(4)),
    Keyword::Symbol(Sym::Entry(5)),
    Keyword::Symbol(Sym::Entry(6)),
    Keyword::Symbol(Sym::Entry(7)),
    Keyword::Symbol(Sym::Entry(8)),
    Keyword::Symbol(Sym::Entry(9)),
    Keyword::Symbol(Sym::Entry(10)),
    Keyword::Symbol(Sym::Entry(11)),
    Keyword::Symbol(Sym::Entry(12)),
    Keyword::Symbol(Sym::Entry(13)),
    Keyword::Symbol(Sym::Entry(14)),
    Keyword::Symbol(Sym::Entry(15)),
    Keyword::Symbol(Sym::Ra),
    Keyword::Symbol(Sym::FsBase),
    Keyword::Fit(Fit::Zx8),
    Keyword::Fit(Fit::Zx16),
    Keyword::Fit(Fit::Zx32),
    Keyword::Fit(Fit::Sx8),
    Keyword::Fit(Fit::Sx16),
    Keyword::Fit(Fit::Sx32),
    Keyword::Pair(Pair::And),
    Keyword::Pair(Pair::Or),
    Keyword::Pair(Pair::Xor),
    Keyword::Pair(Pair::Mul),
    Keyword::Pair(Pair::Shr),
    Keyword::Pair(Pair::Sar),
];

/// The name of the 64-bit register of this number, as `rax` of 0 and `r15` of 15; empty from 16 on
/// (Intel SDM volume 2, table 3-1).
pub fn register_name(register: u8) -> &'static [u8]
    ensures { result.now ≡ name_of_register register }
{
    match register {
        0 => b"rax",
        1 => b"rcx",
        2 => b"rdx",
        3 => b"rbx",
        4 => b"rsp",
        5 => b"rbp",
        6 => b"rsi",
        7 => b"rdi",
        8 => b"r8",
        9 => b"r9",
        10 => b"r10",
        11 => b"r11",
        12 => b"r12",
        13 => b"r13",
        14 => b"r14",
        15 => b"r15",
        _ => b"",
    }
}

fn symbol_name(s: Sym) -> &'static [u8]
    ensures { result.now ≡ name_of_symbol s }
{
    match s {
        Sym::Entry(0) => b"rax0",
        Sym::Entry(1) => b"rcx0",
        Sym::Entry(2) => b"rdx0",
        Sym::Entry(3) => b"rbx0",
        Sym::Entry(4) => b"rsp0",
        Sym::Entry(5) => b"rbp0",
        Sym::Entry(6) => b"rsi0",
        Sym::Entry(7) => b"rdi0",
        Sym::Entry(8) => b"r80",
        Sym::Entry(9) => b"r90",
        Sym::Entry(10) => b"r100",
        Sym::Entry(11) => b"r110",
        Sym::Entry(12) => b"r120",
        Sym::Entry(13) => b"r130",
        Sym::Entry(14) => b"r140",
        Sym::Entry(15) => b"r150",
        Sym::Entry(_) => b"0",
        Sym::Ra => b"ra",
        Sym::FsBase => b"fs",
        Sym::Named(_) => b"",
    }
}

/// The word that is this keyword.
pub fn keyword_name(keyword: Keyword) -> &'static [u8]
    ensures { result.now ≡ name_of keyword }
{
    match keyword {
        Keyword::Symbol(s) => symbol_name(s),
        Keyword::Fit(Fit::Zx8) => b"zx8",
        Keyword::Fit(Fit::Zx16) => b"zx16",
        Keyword::Fit(Fit::Zx32) => b"zx32",
        Keyword::Fit(Fit::Sx8) => b"sx8",
        Keyword::Fit(Fit::Sx16) => b"sx16",
        Keyword::Fit(Fit::Sx32) => b"sx32",
        Keyword::Pair(Pair::And) => b"and",
        Keyword::Pair(Pair::Or) => b"or",
        Keyword::Pair(Pair::Xor) => b"xor",
        Keyword::Pair(Pair::Mul) => b"mul",
        Keyword::Pair(Pair::Shr) => b"shr",
        Keyword::Pair(Pair::Sar) => b"sar",
    }
}

/// The keyword that the word is.
#[tactic(auto, unfolding(crate::specs::Names::keyword_at))]
pub fn find_keyword(word: &[u8]) -> Option<Keyword>
    ensures value { result ≡ keyword_at word.now }
    ensures known { IfSome result IsKnown }
{
    first_named(&KEYWORDS, word)
}

fn first_named(keywords: &[Keyword], word: &[u8]) -> Option<Keyword>
    ensures value { result ≡ named keywords.now word.now }
    ensures known { All IsKnown keywords.now → IfSome result IsKnown }
{
    for keyword in keywords {
        if keyword_name(*keyword) == word {
            return Some(*keyword);
        }
    }
    None
}

/// The symbol that the word is.
#[tactic(auto, unfolding(crate::specs::Names::symbol_at))]
pub fn find_symbol(word: &[u8]) -> Option<Sym>
    ensures value { result ≡ symbol_at word.now }
    ensures known { IfSome result IsSymbol }
{
    match word {
        [b'v', address @ ..] => match read_hex(address) {
            None => None,
            Some(address) => Some(Sym::Named(address)),
        },
        _ => match find_keyword(word) {
            Some(Keyword::Symbol(s)) => Some(s),
            _ => None,
        },
    }
}

/// Whether the byte is a digit or a letter, so part of a word.
pub fn is_word_byte(byte: u8) -> bool
    ensures { result ≡ is_word_byte byte }
{
    byte.is_ascii_alphanumeric()
}
