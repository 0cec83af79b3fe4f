// Whether a function begins with the entry predicate. No call takes memory.
ghost use Rattle.std.specs.Prelude.{◌≡◌, map};
ghost use Rattle.std.specs.Option.{option_copied};
ghost use Rattle.graph_data.specs.Parts.{Ascends};
ghost use Rattle.mem_forest.specs.Plain.{cells};
ghost use Rattle.sym_terms.specs.declared.kinds.Sym.TheVariants.{Entry, Ra};
ghost use Rattle.sym_step.specs.Restored.{is_known};
ghost use Rattle.edge_checker.specs.Breaks.{vertex_at};
ghost use Rattle.edge_checker.specs.Decisions.{are_entries, is_top, has_no_node, is_entry_node, is_entry_forest, is_entry, begins, begins_unless_refused};

use crate::places::vertex_there;
use graph_data::Function;
use mem_forest::Node;
use predicates::Pred;
use sym_terms::{Sym, Term};
use x86_instr::RSP;

/// The numbers of the sixteen registers.
const REGISTERS: [u8; 16] = [0, 1, 2, 3, 4, 5, 6, 7, 8, 9, 10, 11, 12, 13, 14, 15];

/// Whether the function is refused, or begins with the entry predicate.
pub fn begins(f: &Function) -> bool
    requires { Ascends (map (λ s. s.addr) f.now.sites) }
    ensures { result ≡ begins_unless_refused f.now.refused (vertex_at f.now (f.now.entry, 0)) }
{
    match f.refused {
        Some(_) => true,
        None => has_entry_vertex(f),
    }
}

// Whether a site stands at the entry, with the entry predicate as its vertex 0.
fn has_entry_vertex(f: &Function) -> bool
    requires { Ascends (map (λ s. s.addr) f.now.sites) }
    ensures { result ≡ begins (vertex_at f.now (f.now.entry, 0)) }
{
    match vertex_there(f, f.entry, 0) {
        Some(vertex) => is_entry(&vertex.pred),
        None => false,
    }
}

// Whether the predicate is the entry predicate.
fn is_entry(p: &Pred) -> bool
    ensures { result ≡ is_entry p.now }
{
    are_entries(p.regs.as_slice())
        && p.flags.is_none()
        && p.bounds.len() == 0
        && is_entry_level(p.forest.nodes())
}

fn are_entries(regs: &[Option<Term>]) -> bool
    ensures { result ≡ are_entries regs.now }
{
    REGISTERS
        .iter()
        .zip(regs)
        .all(|(r, term)| is_known(term.as_ref(), Sym::Entry(*r)))
}

fn is_entry_level(nodes: &[Node]) -> bool
    ensures { result ≡ is_entry_forest (cells nodes.now) }
{
    match nodes {
        [node] => is_entry_node(node),
        _ => false,
    }
}

// Whether the node is the 8 bytes at rsp0 with the return address, and none under it.
fn is_entry_node(node: &Node) -> bool
    ensures { result ≡ is_entry_node node.now }
{
    is_top(node.names.as_slice())
        && node.bytes == 8
        && is_known(node.value.as_ref(), Sym::Ra)
        && has_no_node(node.under.as_slice())
}

// Whether the one name is rsp0.
fn is_top(names: &[Term]) -> bool
    ensures { result ≡ is_top names.now }
{
    match names {
        [name] => is_known(Some(name), Sym::Entry(RSP)),
        _ => false,
    }
}

fn has_no_node(nodes: &[Node]) -> bool
    ensures { result ≡ has_no_node (cells nodes.now) }
{
    match nodes {
        [] => true,
        _ => false,
    }
}

// Whether a term is known and is a symbol alone.
fn is_known(term: Option<&Term>, s: Sym) -> bool
    ensures { result ≡ is_known s (option_copied term.entry) }
{
    match term {
        Some(term) => match term.as_symbol() {
            Some(own) => own.compare(s).is_eq(),
            None => false,
        },
        None => false,
    }
}
