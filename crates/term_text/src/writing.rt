ghost use Rattle.std.specs.Prelude.{◌≡◌, ◌++◌, true, OnOk};
ghost use Rattle.sym_terms.specs.View.{plain, pieces};
ghost use Rattle.term_text.specs.Text.{is_negative as below_zero, magnitude as magnitude_of, sign_text, factor_text, constant_text, symbol_text, sum_text, pieces_text, atom_text};

use crate::names::{Keyword, keyword_name};
use crate::numbers::{put_hex, put_number};
use std::alloc::AllocError;
use sym_terms::{Atom, Sum, Sym, Term};

/// Appends the one text of the term: 1 to 1280 bytes, each a letter, a digit or one of `+-*(),`.
pub fn put_term(out: &mut Vec<u8>, term: &Term) -> Result<(), AllocError>
    ensures ok { OnOk result (out.new.items ≡ out.old.items ++ sum_text term.now) }
{
    put_sum(out, term.as_sum())
}

// The recursion goes down the nodes of a term, of which there are at most 32.
#[cycle(put)]
fn put_sum(out: &mut Vec<u8>, sum: &Sum) -> Result<(), AllocError>
    ensures { OnOk result (out.new.items ≡ out.old.items ++ sum_text sum.now) }
{
    put_pieces(out, sum.atoms.as_slice())?;
    put_constant(out, sum.atoms.is_empty(), sum.constant)?;
    Ok(())
}

#[cycle(put)]
fn put_pieces(out: &mut Vec<u8>, atoms: &[(Atom, u64)]) -> Result<(), AllocError>
    ensures { OnOk result (out.new.items ≡ out.old.items ++ pieces_text true (pieces atoms.now)) }
{
    let mut first = true;
    for (atom, coefficient) in atoms {
        put_sign(out, first, *coefficient)?;
        put_factor(out, magnitude(*coefficient))?;
        put_atom(out, atom)?;
        first = false;
    }
    Ok(())
}

#[cycle(put)]
fn put_atom(out: &mut Vec<u8>, atom: &Atom) -> Result<(), AllocError>
    ensures { OnOk result (out.new.items ≡ out.old.items ++ atom_text (plain atom.now)) }
{
    match atom {
        Atom::Sym(s) => put_symbol(out, *s),
        Atom::Fit(fit, argument) => {
            out.extend_from_slice(keyword_name(Keyword::Fit(*fit)))?;
            out.push(b'(')?;
            put_sum(out, argument.get())?;
            out.push(b')')?;
            Ok(())
        }
        Atom::Pair(pair, left, right) => {
            out.extend_from_slice(keyword_name(Keyword::Pair(*pair)))?;
            out.push(b'(')?;
            put_sum(out, left.get())?;
            out.push(b',')?;
            put_sum(out, right.get())?;
            out.push(b')')?;
            Ok(())
        }
    }
}

fn put_symbol(out: &mut Vec<u8>, s: Sym) -> Result<(), AllocError>
    ensures { OnOk result (out.new.items ≡ out.old.items ++ symbol_text s) }
{
    match s {
        Sym::Named(address) => {
            out.push(b'v')?;
            put_hex(out, address)
        }
        _ => out.extend_from_slice(keyword_name(Keyword::Symbol(s))),
    }
}

fn put_constant(out: &mut Vec<u8>, first: bool, constant: u64) -> Result<(), AllocError>
    ensures { OnOk result (out.new.items ≡ out.old.items ++ constant_text first constant) }
{
    if !first && constant == 0 {
        return Ok(());
    }
    put_sign(out, first, constant)?;
    put_number(out, magnitude(constant))
}

fn put_factor(out: &mut Vec<u8>, factor: u64) -> Result<(), AllocError>
    ensures { OnOk result (out.new.items ≡ out.old.items ++ factor_text factor) }
{
    if factor != 1 {
        put_number(out, factor)?;
        out.push(b'*')?;
    }
    Ok(())
}

fn put_sign(out: &mut Vec<u8>, first: bool, number: u64) -> Result<(), AllocError>
    ensures { OnOk result (out.new.items ≡ out.old.items ++ sign_text first number) }
{
    if is_negative(number) {
        out.push(b'-')?;
    } else if !first {
        out.push(b'+')?;
    }
    Ok(())
}

fn magnitude(number: u64) -> u64
    ensures { result ≡ magnitude_of number }
{
    if is_negative(number) {
        number.wrapping_neg()
    } else {
        number
    }
}

// Read as signed, -9999 to -1.
fn is_negative(number: u64) -> bool
    ensures { result ≡ below_zero number }
{
    number > u64::MAX - 9_999
}
