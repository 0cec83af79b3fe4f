//! Whether a register is given its own entry symbol, which no line says.
ghost use Rattle.std.specs.Prelude.{◌≡◌, ℕ};
ghost use Rattle.std.specs.Ordering.{is_eq};
ghost use Rattle.std.specs.List.{list_any};
ghost use Rattle.sym_terms.specs.Plain.{more, none, symbol, single_atom};
ghost use Rattle.sym_terms.specs.View.{pieces};
ghost use Rattle.sym_terms.specs.Order.{sum_cmp, pieces_cmp};
ghost use Rattle.graph_lines.specs.Line.{is_entry_value as is_entry_value_of};
ghost use Rattle.graph_lines.specs.Steps.{restates_entry_value as restates_value_of, restates_in_vertex};

use crate::line::{Line, VertexLine};
use sym_terms::{Atom, Sum, Sym, Term};

pub(crate) fn restates_entry_value(line: &Line) -> bool
    ensures { result ≡ restates_value_of line.now }
{
    match line {
        Line::InVertex(line) => restates_in_vertex(line),
        Line::Function(..)
        | Line::Refused(_)
        | Line::Site(..)
        | Line::Vertex(_)
        | Line::InSite(_)
        | Line::End => false,
    }
}

fn restates_in_vertex(line: &VertexLine) -> bool
    ensures { result ≡ restates_in_vertex line.now }
{
    match line {
        VertexLine::Registers(given) => has_entry_value(given.as_slice()),
        VertexLine::Flags(_) | VertexLine::Bound(_) | VertexLine::Node(..) | VertexLine::Edges(_) =>
            { false }
    }
}

fn has_entry_value(given: &[(u8, Option<Term>)]) -> bool
    ensures { result ≡ list_any is_entry_value_of given.now }
{
    for (register, value) in given {
        if is_entry_value(*register, value) {
            return true;
        }
    }
    false
}

/// Whether a register is given its own entry symbol, which no line says.
pub fn is_entry_value(register: u8, value: &Option<Term>) -> bool
    ensures { result ≡ is_entry_value_of (register, value.now) }
{
    match value {
        None => false,
        Some(term) => is_symbol(term.as_sum(), Sym::Entry(register)),
    }
}

// Whether the sum is the symbol alone.
fn is_symbol(sum: &Sum, s: Sym) -> bool
    ensures { result ≡ is_eq (sum_cmp sum.now (single_atom (symbol s))) }
{
    sum.constant == 0 && is_one_symbol(sum.atoms.as_slice(), s)
}

#[tactic(auto, using(crate::proofs::EntryValueLemmas::many_pieces))]
fn is_one_symbol(atoms: &[(Atom, u64)], s: Sym) -> bool
    ensures { result ≡ is_eq (pieces_cmp (pieces atoms.now) (more (symbol s) 1 none)) }
{
    match atoms {
        [(Atom::Sym(this), coefficient)] => this.compare(s).is_eq() && *coefficient == 1,
        _ => false,
    }
}
