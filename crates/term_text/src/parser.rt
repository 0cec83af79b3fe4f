ghost use Rattle.std.specs.Prelude.{◌≡◌, MatchOption, IfOk, Some, None, []};
ghost use Rattle.term_text.specs.Parser.{one_more, or_zero as term_or_zero, signed as with_sign, multiple as multiple_of, total, fitted_of, paired_of, coefficient, start, last_of, add_atom, add_constant, take_word, turn, with_count, inner, after_summand, open_call, comma, close, take_separator, step, finish, run};

use crate::names::{Keyword, find_keyword, find_symbol, is_word_byte};
use crate::numbers::read_number;
use sqlite_items::Items;
use std::alloc::Global;
use sym_terms::{Fit, NoMemory, Pair, Term};

/// The most loose nodes of a term: 1 for each term, and 1 for each piece that has an atom.
pub const MOST_NODES: u64 = 32;

/// What an open bracket waits for: the argument of a fit, the first one of a pair, or the second one,
/// with the first.
#[derive(Drop)]
pub enum PendingArgument {
    Fit(Fit),
    First(Pair),
    Second(Pair, Term),
}

/// An open bracket, the sum before its atom, and the number that the atom is multiplied by.
#[derive(Drop)]
pub struct OpenCall {
    pub pending: PendingArgument,
    pub outer: Term,
    pub factor: u64,
}

/// Where in a term the parser is: before its first piece, after a sign, after a number and a star, or
/// after a piece.
#[derive(Clone, Copy, Debug, PartialEq, Eq)]
pub enum ParseState {
    Start,
    Signed,
    Counted(u64),
    Closed,
}

/// What is known after a separator: the open brackets, the innermost last; the sum of the pieces so far, of
/// the term inside of all of them; the loose nodes, where 33 stands for all above 32; the sign of the
/// piece to come. From 33 nodes on the sums are 0.
#[derive(Drop)]
pub struct TermParser {
    pub calls: Items<OpenCall>,
    pub sum: Term,
    pub count: u64,
    pub negative: bool,
    pub state: ParseState,
}

/// The parser after all the bytes; `None` where they aren't in the loose grammar. The only recursion
/// is that of terms within the limit: open brackets are calls.
pub fn run_parser(alloc: Global, bytes: &[u8]) -> Result<Option<TermParser>, NoMemory>
    ensures { IfOk result (λ m. m ≡ run start [] bytes.now) }
{
    let mut parser = TermParser::at_start(alloc, Items::new(alloc), 1);
    let mut begin = 0;
    for i in 0..bytes.len() {
        if !is_word_byte(bytes[i]) {
            match parser.step(alloc, &bytes[begin..i], bytes[i])? {
                None => return Ok(None),
                Some(next) => parser = next,
            }
            begin = i + 1;
        }
    }
    parser.finish(alloc, &bytes[begin..])
}

impl TermParser {
    fn at_start(alloc: Global, calls: Items<OpenCall>, count: u64) -> TermParser
        ensures { result ≡ inner calls count }
    {
        TermParser {
            calls,
            sum: Term::constant(alloc, 0),
            count,
            negative: false,
            state: ParseState::Start,
        }
    }

    fn after_summand(calls: Items<OpenCall>, sum: Term, count: u64) -> TermParser
        ensures { result ≡ after_summand calls sum count }
    {
        TermParser {
            calls,
            sum,
            count,
            negative: false,
            state: ParseState::Closed,
        }
    }

    // A word, maybe empty, and the separator after it.
    #[tactic(auto, unfolding(crate::specs::Parser::step))]
    fn step(self, alloc: Global, word: &[u8], separator: u8) -> Result<Option<TermParser>, NoMemory>
        ensures { IfOk result (λ m. m ≡ step self word.now separator) }
    {
        if separator == b'*' {
            return Ok(self.with_count(word));
        }
        if separator == b'(' {
            return self.open_call(alloc, word);
        }
        if matches!(self.state, ParseState::Start)
            && word.is_empty()
            && (separator == b'+' || separator == b'-')
        {
            return Ok(Some(self.turn(separator == b'-')));
        }
        match self.take_word(alloc, word)? {
            Some(parser) => parser.take_separator(alloc, separator),
            None => Ok(None),
        }
    }

    #[tactic(auto, unfolding(crate::specs::Parser::finish))]
    fn finish(self, alloc: Global, word: &[u8]) -> Result<Option<TermParser>, NoMemory>
        ensures { IfOk result (λ m. m ≡ finish self word.now) }
    {
        match self.take_word(alloc, word)? {
            Some(parser) => Ok(if parser.calls.is_empty() {
                Some(parser)
            } else {
                None
            }),
            None => Ok(None),
        }
    }

    // The word before a separator that ends a piece; it is empty after a closing bracket alone.
    #[tactic(auto, unfolding(crate::specs::Parser::take_word))]
    fn take_word(self, alloc: Global, word: &[u8]) -> Result<Option<TermParser>, NoMemory>
        ensures { IfOk result (λ m. m ≡ take_word self word.now) }
    {
        let Some(k) = coefficient_at(self.state) else {
            return Ok(if word.is_empty() { Some(self) } else { None });
        };
        if let Some(n) = read_number(word) {
            if matches!(self.state, ParseState::Counted(_)) {
                return Ok(None);
            }
            return Ok(Some(self.add_constant(alloc, n)?));
        }
        match find_symbol(word) {
            Some(s) => {
                let atom = Term::symbol(alloc, s)?;
                Ok(Some(self.add_atom(alloc, k, atom)?))
            }
            None => Ok(None),
        }
    }

    fn add_atom(self, alloc: Global, k: u64, atom: Term) -> Result<TermParser, NoMemory>
        ensures { IfOk result (λ m. m ≡ add_atom self k atom) }
    {
        let count = with_one_more(self.count);
        let factor = signed(self.negative, k);
        let sum = add_multiple(alloc, count, &self.sum, factor, atom)?;
        Ok(TermParser::after_summand(self.calls, sum, count))
    }

    fn add_constant(self, alloc: Global, n: u64) -> Result<TermParser, NoMemory>
        ensures { IfOk result (λ m. m ≡ add_constant self n) }
    {
        let constant = Term::constant(alloc, signed(self.negative, n));
        let sum = add_multiple(alloc, self.count, &self.sum, 1, constant)?;
        Ok(TermParser::after_summand(self.calls, sum, self.count))
    }

    #[tactic(auto, unfolding(crate::specs::Parser::take_separator))]
    fn take_separator(self, alloc: Global, separator: u8) -> Result<Option<TermParser>, NoMemory>
        ensures { IfOk result (λ m. m ≡ take_separator self separator) }
    {
        match separator {
            b'+' => Ok(Some(self.turn(false))),
            b'-' => Ok(Some(self.turn(true))),
            b',' => self.comma(alloc),
            b')' => self.close(alloc),
            _ => Ok(None),
        }
    }

    fn turn(self, negative: bool) -> TermParser
        ensures { result ≡ turn self negative }
    {
        TermParser {
            calls: self.calls,
            sum: self.sum,
            count: self.count,
            negative,
            state: ParseState::Signed,
        }
    }

    #[tactic(auto, unfolding(crate::specs::Parser::with_count))]
    fn with_count(self, word: &[u8]) -> Option<TermParser>
        ensures { result ≡ with_count self word.now }
    {
        if matches!(self.state, ParseState::Counted(_) | ParseState::Closed) {
            return None;
        }
        let n = read_number(word)?;
        Some(TermParser {
            calls: self.calls,
            sum: self.sum,
            count: self.count,
            negative: self.negative,
            state: ParseState::Counted(n),
        })
    }

    #[tactic(auto, unfolding(crate::specs::Parser::open_call))]
    fn open_call(self, alloc: Global, word: &[u8]) -> Result<Option<TermParser>, NoMemory>
        ensures { IfOk result (λ m. m ≡ open_call self word.now) }
    {
        let Some(k) = coefficient_at(self.state) else {
            return Ok(None);
        };
        let pending = match find_keyword(word) {
            Some(Keyword::Fit(fit)) => PendingArgument::Fit(fit),
            Some(Keyword::Pair(pair)) => PendingArgument::First(pair),
            _ => return Ok(None),
        };
        let mut calls = self.calls;
        calls.push(OpenCall {
            pending,
            outer: self.sum,
            factor: signed(self.negative, k),
        })?;
        let count = with_one_more(with_one_more(self.count));
        Ok(Some(TermParser::at_start(alloc, calls, count)))
    }

    #[tactic(auto, unfolding(crate::specs::Parser::comma))]
    fn comma(self, alloc: Global) -> Result<Option<TermParser>, NoMemory>
        ensures { IfOk result (λ m. m ≡ comma self) }
    {
        let mut calls = self.calls;
        let Some(
            OpenCall {
                pending,
                outer,
                factor,
            },
        ) = pop_call(&mut calls)
        else {
            return Ok(None);
        };
        let PendingArgument::First(pair) = pending else {
            return Ok(None);
        };
        calls.push(OpenCall {
            pending: PendingArgument::Second(pair, self.sum),
            outer,
            factor,
        })?;
        Ok(Some(TermParser::at_start(alloc, calls, with_one_more(self.count))))
    }

    #[tactic(auto, unfolding(crate::specs::Parser::close))]
    fn close(self, alloc: Global) -> Result<Option<TermParser>, NoMemory>
        ensures { IfOk result (λ m. m ≡ close self) }
    {
        let mut calls = self.calls;
        let Some(
            OpenCall {
                pending,
                outer,
                factor,
            },
        ) = pop_call(&mut calls)
        else {
            return Ok(None);
        };
        let atom = match pending {
            PendingArgument::Fit(fit) => make_fit(alloc, self.count, fit, &self.sum)?,
            PendingArgument::First(_) => return Ok(None),
            PendingArgument::Second(pair, left) => make_pair(
                alloc, self.count, pair, &left, &self.sum,
            )?,
        };
        let sum = add_multiple(alloc, self.count, &outer, factor, atom)?;
        Ok(Some(TermParser::after_summand(calls, sum, self.count)))
    }
}

#[tactic(auto, using(crate::proofs::RunLemmas::last_of_push))]
fn pop_call(calls: &mut Items<OpenCall>) -> Option<OpenCall>
    ensures { MatchOption result (last_of calls.old ≡ None) (λ f. last_of calls.old ≡ Some (calls.new, f)) }
{
    calls.pop()
}

fn coefficient_at(state: ParseState) -> Option<u64>
    ensures { result ≡ coefficient state }
{
    match state {
        ParseState::Start | ParseState::Signed => Some(1),
        ParseState::Counted(k) => Some(k),
        ParseState::Closed => None,
    }
}

fn with_one_more(count: u64) -> u64
    ensures { result ≡ one_more count }
{
    if count <= MOST_NODES {
        count + 1
    } else {
        count
    }
}

fn signed(negative: bool, n: u64) -> u64
    ensures { result ≡ with_sign negative n }
{
    if negative { n.wrapping_neg() } else { n }
}

fn or_zero(alloc: Global, term: Option<Term>) -> Term
    ensures { result ≡ term_or_zero term }
{
    match term {
        Some(term) => term,
        None => Term::constant(alloc, 0),
    }
}

fn multiply(alloc: Global, k: u64, term: Term) -> Result<Term, NoMemory>
    ensures { IfOk result (λ t. t ≡ multiple_of k term) }
{
    if k == 1 {
        return Ok(term);
    }
    let product = term.scale(alloc, k)?;
    Ok(or_zero(alloc, product))
}

#[tactic(auto, unfolding(crate::specs::Parser::total))]
fn add_multiple(alloc: Global, count: u64, sum: &Term, k: u64, term: Term) -> Result<Term, NoMemory>
    ensures { IfOk result (λ t. t ≡ total count sum.now k term) }
{
    if count > MOST_NODES {
        return Ok(Term::constant(alloc, 0));
    }
    let piece = multiply(alloc, k, term)?;
    let whole = sum.add(alloc, &piece)?;
    Ok(or_zero(alloc, whole))
}

#[tactic(auto, unfolding(crate::specs::Parser::fitted_of))]
fn make_fit(alloc: Global, count: u64, kind: Fit, argument: &Term) -> Result<Term, NoMemory>
    ensures { IfOk result (λ t. t ≡ fitted_of count kind argument.now) }
{
    if count > MOST_NODES {
        return Ok(Term::constant(alloc, 0));
    }
    let atom = argument.fit(alloc, kind)?;
    Ok(or_zero(alloc, atom))
}

#[tactic(auto, unfolding(crate::specs::Parser::paired_of))]
fn make_pair(
    alloc: Global,
    count: u64,
    kind: Pair,
    left: &Term,
    right: &Term,
) -> Result<Term, NoMemory>
    ensures { IfOk result (λ t. t ≡ paired_of count kind left.now right.now) }
{
    if count > MOST_NODES {
        return Ok(Term::constant(alloc, 0));
    }
    let atom = left.pair(alloc, kind, right)?;
    Ok(or_zero(alloc, atom))
}
