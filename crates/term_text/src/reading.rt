ghost use Rattle.std.specs.Prelude.{◌≡◌, IfOk, Ok};
ghost use Rattle.sym_terms.specs.Plain.{PlainSum};
ghost use Rattle.sym_terms.specs.Normal.{IsTerm};
ghost use Rattle.term_text.specs.declared.cause.TextCause.TheVariants.{BadTerm, OverLimit, NotCanonical};
ghost use Rattle.term_text.specs.Text.{sum_text};
ghost use Rattle.term_text.specs.Reading.{Gives, FailsJustWhere, SpellNone, SpellLarge, SpellOtherwise, term_at};

use crate::cause::TextCause;
use crate::parser::{MOST_NODES, run_parser};
use crate::writing::put_term;
use std::alloc::Global;
use sym_terms::Term;

/// The term whose text the bytes are. `buffer` is written over; where it has room for the text, memory is
/// taken for terms and open brackets alone.
///
/// `BadTerm` where the bytes spell no tree of the loose grammar: an optional sign, a piece, then any number
/// of sign and piece; a piece is a number, an atom, or a number, `*` and an atom; a number is decimal or
/// `0x` and hexadecimal digits of either case, below 2^64. `OverLimit` where they spell one with over 32
/// loose nodes: 1 for each term and 1 for each piece that has an atom. `NotCanonical` where they spell one
/// within that limit, and are not the text of its term.
pub fn read_term(alloc: Global, bytes: &[u8], buffer: &mut Vec<u8>) -> Result<Term, TextCause>
    // What is read has these bytes as its text.
    ensures found { IfOk result (λ t. IsTerm t × (bytes.now ≡ sum_text t)) }
    // The text of a term is read, unless memory runs out.
    ensures only { (t : PlainSum) → IsTerm t → bytes.now ≡ sum_text t → Gives (λ t. t) result (Ok t) }
    // Each cause comes just where it holds, unless memory runs out.
    ensures bad_term { FailsJustWhere BadTerm result (SpellNone bytes.now) }
    ensures over_limit { FailsJustWhere OverLimit result (SpellLarge bytes.now) }
    ensures not_canonical { FailsJustWhere NotCanonical result (SpellOtherwise bytes.now) }
    // It is the one reading of the bytes.
    ensures exact { Gives (λ t. t) result (term_at bytes.now) }
{
    canonical_term(alloc, bytes, buffer)
}

#[tactic(auto, unfolding(crate::specs::Reading::term_at))]
fn canonical_term(alloc: Global, bytes: &[u8], buffer: &mut Vec<u8>) -> Result<Term, TextCause>
    ensures { Gives (λ t. t) result (term_at bytes.now) }
{
    let Some(parser) = run_parser(alloc, bytes)? else {
        return Err(TextCause::BadTerm);
    };
    if parser.count > MOST_NODES {
        return Err(TextCause::OverLimit);
    }
    // No value of another spelling is looked at: the one text decides.
    buffer.clear();
    put_term(buffer, &parser.sum)?;
    if buffer.as_slice() == bytes {
        Ok(parser.sum)
    } else {
        Err(TextCause::NotCanonical)
    }
}
