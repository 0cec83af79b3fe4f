ghost use Rattle.std.specs.Prelude.{◌≡◌, filter, not};
ghost use Rattle.sym_terms.specs.Mentions.{mentions};
ghost use Rattle.mem_forest.specs.Plain.{cells};
ghost use Rattle.mem_forest.specs.Forget.{unmentioned, unmentioned_value, forget};

use crate::levels::settle;
use crate::node::Node;
use sym_terms::{Sym, Term};

fn keep_names(names: &mut Vec<Term>, s: Sym)
    ensures { names.new.items ≡ filter (λ n. not (mentions s n)) names.old.items }
{
    names.retain(|name| !name.mentions(s));
}

fn keep_value(value: &mut Option<Term>, s: Sym)
    ensures { value.new ≡ unmentioned_value s value.old }
{
    if value.as_ref().is_some_and(|term| term.mentions(s)) {
        *value = None;
    }
}

/// The names and values that mention a symbol go, and the nodes without a name; the others stand in order
/// again. Takes no memory.
#[cycle(forget)]
pub(crate) fn forget_nodes(nodes: &mut Vec<Node>, s: Sym)
    ensures { cells nodes.new.items ≡ forget s (cells nodes.old.items) }
{
    let mut left = nodes.len();
    while left > 0 {
        left -= 1;
        let node = &mut nodes[left];
        keep_names(&mut node.names, s);
        keep_value(&mut node.value, s);
        forget_nodes(&mut node.under, s);
        let is_nameless = node.names.is_empty();
        if is_nameless {
            nodes.remove(left);
        } else {
            settle(nodes, left);
        }
    }
}
