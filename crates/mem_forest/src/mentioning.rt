ghost use Rattle.std.specs.Prelude.{◌≡◌};
ghost use Rattle.std.specs.Option.{option_copied};
ghost use Rattle.mem_forest.specs.Plain.{cells};
ghost use Rattle.mem_forest.specs.Mentioned.{value_mentions, names_mention, forest_mentions};

use crate::forest::Forest;
use crate::node::Node;
use sym_terms::{Sym, Term};

impl Forest {
    /// Whether a symbol stands in a name or a value, at whatever level; where it doesn't, `forget` changes nothing.
    pub fn mentions(&self, s: Sym) -> bool
        ensures { result ≡ forest_mentions s self.now }
    {
        are_mentioned(s, self.nodes())
    }
}

fn value_mentions(s: Sym, value: Option<&Term>) -> bool
    ensures { result ≡ value_mentions s (option_copied value.entry) }
{
    match value {
        Some(term) => term.mentions(s),
        None => false,
    }
}

fn names_mention(s: Sym, names: &[Term]) -> bool
    ensures { result ≡ names_mention s names.now }
{
    names.iter().any(|name| name.mentions(s))
}

#[cycle(mentioned)]
fn is_mentioned_under(s: Sym, node: &Node) -> bool
    ensures { result ≡ forest_mentions s node.now.under }
{
    are_mentioned(s, node.under.as_slice())
}

#[cycle(mentioned)]
fn are_mentioned(s: Sym, nodes: &[Node]) -> bool
    ensures { result ≡ forest_mentions s (cells nodes.now) }
{
    for node in nodes {
        if names_mention(s, node.names.as_slice())
            || value_mentions(s, node.value.as_ref())
            || is_mentioned_under(s, node)
        {
            return true;
        }
    }
    false
}
