ghost use Rattle.std.specs.Prelude.{◌≡◌};
ghost use Rattle.std.specs.List.{list_all};
ghost use Rattle.std.specs.Option.{option_copied};
ghost use Rattle.mem_forest.specs.Plain.{cells};
ghost use Rattle.mem_forest.specs.Search.{has_name};
ghost use Rattle.mem_forest.specs.Holders.{holds_term, comes_first, sibling, holds_node, holder, weakened};

use crate::node::Node;
use sym_terms::Term;

/// Whether the second term, where it is known, is the first.
pub fn holds_term(held: Option<&Term>, wanted: Option<&Term>) -> bool
    ensures { result ≡ holds_term (option_copied held.entry) (option_copied wanted.entry) }
{
    match (held, wanted) {
        (_, None) => true,
        (None, Some(_)) => false,
        (Some(held), Some(wanted)) => held.compare(wanted).is_eq(),
    }
}

/// The node of a level with the first name and size of another, where it has its names and its value.
pub fn find_holder<'a>(level: &'a [Node], wanted: &Node) -> Option<&'a Node>
    ensures { option_copied result ≡ holder (cells level.now) wanted.now.names wanted.now.bytes wanted.now.value }
{
    let first = wanted.names.first()?;
    let node = find_sibling(level, first, wanted.bytes)?;
    if holds_node(node, wanted) {
        Some(node)
    } else {
        None
    }
}

fn find_sibling<'a>(level: &'a [Node], at: &Term, bytes: u8) -> Option<&'a Node>
    ensures { option_copied result ≡ sibling at.now bytes (cells level.now) }
{
    for node in level {
        if node.bytes == bytes && comes_first(at, node.names.as_slice()) {
            return Some(node);
        }
    }
    None
}

fn comes_first(at: &Term, names: &[Term]) -> bool
    ensures { result ≡ comes_first at.now names.now }
{
    match names.first() {
        Some(name) => name.compare(at).is_eq(),
        None => false,
    }
}

fn holds_node(node: &Node, wanted: &Node) -> bool
    ensures { result ≡ holds_node node.now wanted.now.names wanted.now.value }
{
    has_names(node, wanted.names.as_slice())
        && holds_term(node.value.as_ref(), wanted.value.as_ref())
}

fn has_names(node: &Node, wanted: &[Term]) -> bool
    ensures { result ≡ list_all (λ n. has_name n node.now.names) wanted.now }
{
    wanted.iter().all(|name| node.has_name(name))
}

/// Only the nodes that `held` says stay, with those under them that the holder's nodes say. Takes no
/// memory.
#[cycle(weaken)]
pub(crate) fn weaken_nodes(nodes: &mut Vec<Node>, held: &[Node])
    ensures { cells nodes.new.items ≡ weakened (cells held.now) (cells nodes.old.items) }
{
    let mut left = nodes.len();
    while left > 0 {
        left -= 1;
        let node = &mut nodes[left];
        match find_holder(held, node) {
            Some(holder) => weaken_nodes(&mut node.under, holder.under.as_slice()),
            None => {
                nodes.remove(left);
            }
        }
    }
}
