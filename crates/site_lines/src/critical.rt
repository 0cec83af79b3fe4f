// Which cells hold what a verified return needs.
ghost use Rattle.std.specs.Prelude.{◌≡◌, ◌++◌, IfOk, OnOk, find, option_to_list};
ghost use Rattle.std.specs.List.{list_any};
ghost use Rattle.std.specs.Option.{option_copied};
ghost use Rattle.std.specs.Ordering.{is_eq};
ghost use Rattle.sym_terms.specs.Order.{sym_cmp};
ghost use Rattle.mem_forest.specs.Plain.{cells};
ghost use Rattle.site_lines.specs.Critical.{critical_cells, critical_region, is_needed, is_on_stack, needed_symbols, stack_top};

use mem_forest::{Forest, Node, Region};
use std::alloc::{AllocError, Global};
use sym_terms::{NoMemory, Sym, Term};
use x86_instr::RSP;

/// The return address, and the entry symbols of rbx, rbp and r12 to r15 (System V x86-64 psABI, section 3.2.1).
const NEEDED: [Sym; 7] = [
    Sym::Ra,
    Sym::Entry(3),
    Sym::Entry(5),
    Sym::Entry(12),
    Sym::Entry(13),
    Sym::Entry(14),
    Sym::Entry(15),
];

/// Whether a symbol is one of these.
fn is_needed_symbol(own: Sym) -> bool
    ensures { result ≡ list_any (λ s. is_eq (sym_cmp own s)) needed_symbols }
{
    NEEDED.iter().any(|s| own.compare(*s).is_eq())
}

/// Whether a value is one that a return needs.
fn is_needed(value: Option<&Term>) -> bool
    ensures { result ≡ is_needed (option_copied value.entry) }
{
    let Some(term) = value else {
        return false;
    };
    match term.as_symbol() {
        Some(own) => is_needed_symbol(own),
        None => false,
    }
}

/// The first name that is a constant after the stack pointer at the entry.
fn on_stack<'a>(names: &'a [Term], top: &Term) -> Option<&'a Term>
    requires { top.now ≡ stack_top }
    ensures { option_copied result ≡ find is_on_stack names.now }
{
    names.iter().find(|name| name.offset_from(top).is_some())
}

/// The region of a node, where it is critical.
fn critical_region(alloc: Global, node: &Node, top: &Term) -> Result<Option<Region>, NoMemory>
    requires { top.now ≡ stack_top }
    ensures { IfOk result (λ r. r ≡ critical_region node.now.names node.now.bytes node.now.value) }
{
    if !is_needed(node.value.as_ref()) {
        return Ok(None);
    }
    let Some(name) = on_stack(node.names.as_slice(), top) else {
        return Ok(None);
    };
    let at = name.copy(alloc)?;
    Ok(Some(Region {
        at,
        bytes: node.bytes,
    }))
}

/// Adds the region of a node, where it is critical, and those of the nodes under it.
#[cycle(critical)]
fn add_node(alloc: Global, node: &Node, top: &Term, found: &mut Vec<Region>) -> Result<(), NoMemory>
    requires { top.now ≡ stack_top }
    ensures { OnOk result (found.new.items ≡ found.old.items ++ (option_to_list (critical_region node.now.names node.now.bytes node.now.value) ++ critical_cells node.now.under)) }
{
    if let Some(region) = critical_region(alloc, node, top)? {
        found.push(region).map_err(AllocError::from)?;
    }
    add_nodes(alloc, node.under.as_slice(), top, found)
}

/// Adds the regions of the critical cells of a level, each node before those under it.
#[cycle(critical)]
fn add_nodes(
    alloc: Global,
    nodes: &[Node],
    top: &Term,
    found: &mut Vec<Region>,
) -> Result<(), NoMemory>
    requires { top.now ≡ stack_top }
    ensures { OnOk result (found.new.items ≡ found.old.items ++ critical_cells (cells nodes.now)) }
{
    for node in nodes {
        add_node(alloc, node, top, found)?;
    }
    Ok(())
}

/// The regions of the critical cells of a forest.
pub(crate) fn critical_cells(alloc: Global, forest: &Forest) -> Result<Vec<Region>, NoMemory>
    ensures { IfOk result (λ rs. rs.items ≡ critical_cells forest.now) }
{
    let top = Term::symbol(alloc, Sym::Entry(RSP))?;
    let mut found = Vec::new(alloc);
    add_nodes(alloc, forest.nodes(), &top, &mut found)?;
    Ok(found)
}
