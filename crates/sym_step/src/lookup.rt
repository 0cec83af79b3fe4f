// Look-ups in a forest as if a symbol were forgotten, which take no memory.
ghost use Rattle.std.specs.Prelude.{◌≡◌, ◌&&◌, not, count_by, true, false};
ghost use Rattle.std.specs.List.{list_any};
ghost use Rattle.std.specs.Option.{option_copied};
ghost use Rattle.sym_terms.specs.Mentions.{mentions};
ghost use Rattle.mem_forest.specs.Plain.{cells};
ghost use Rattle.mem_forest.specs.Search.{find};
ghost use Rattle.mem_forest.specs.Alias.{can_alias};
ghost use Rattle.mem_forest.specs.Forget.{forget};
ghost use Rattle.mem_forest.specs.Shape.{IsForest};
ghost use Rattle.sym_step.specs.Left.{stays, keeps_name, is_left_at, has_left};

use mem_forest::{Forest, Node, Region};
use sym_terms::{Sym, Term};

/// The most names of a node, less one.
const MOST_OTHER_NAMES: usize = 7;

fn stays(names: &[Term], s: Sym) -> bool
    ensures { result ≡ stays s names.now }
{
    names.iter().any(|name| !name.mentions(s))
}

fn keeps_name(names: &[Term], s: Sym, at: &Term) -> bool
    ensures { result ≡ keeps_name s at.now names.now }
{
    names
        .iter()
        .any(|name| !name.mentions(s) && name.compare(at).is_eq())
}

fn count_kept(names: &[Term], s: Sym) -> usize
    ensures { result ≡ count_by (λ n. not (mentions s n)) names.now }
{
    names.iter().filter(|name| !name.mentions(s)).count()
}

fn is_left_at(room: bool, s: Sym, at: &Term, bytes: u8, node: &Node) -> bool
    ensures { result ≡ is_left_at room s at.now bytes node.now.names node.now.bytes }
{
    let names = node.names.as_slice();
    node.bytes == bytes
        && keeps_name(names, s, at)
        && (!room || count_kept(names, s) <= MOST_OTHER_NAMES)
}

#[cycle(left)]
fn has_left_under(room: bool, s: Sym, at: &Term, bytes: u8, node: &Node) -> bool
    ensures { result ≡ has_left room s at.now bytes node.now.under }
{
    has_left(room, s, at, bytes, node.under.as_slice())
}

#[cycle(left)]
fn has_left(room: bool, s: Sym, at: &Term, bytes: u8, nodes: &[Node]) -> bool
    ensures { result ≡ has_left room s at.now bytes (cells nodes.now) }
{
    for node in nodes {
        if stays(node.names.as_slice(), s)
            && (is_left_at(room, s, at, bytes, node) || has_left_under(room, s, at, bytes, node))
        {
            return true;
        }
    }
    false
}

/// Whether the address of a region can become one more name of another's cell once a symbol is forgotten.
#[tactic(auto, using(crate::proofs::LeftLemmas::alias_left))]
pub(crate) fn can_alias_without(forest: &Forest, s: Sym, region: &Region, other: &Region) -> bool
    ensures { result ≡ can_alias region.now.at region.now.bytes other.now.at other.now.bytes (forget s forest.now) }
{
    let nodes = forest.nodes();
    has_left(true, s, &other.at, other.bytes, nodes)
        && region.bytes == other.bytes
        && !has_left(false, s, &region.at, region.bytes, nodes)
}

/// The first node of a size with an address among its names.
#[cycle(find_at)]
pub(crate) fn find_at<'a>(nodes: &'a [Node], at: &Term, bytes: u8) -> Option<&'a Node>
    ensures { option_copied result ≡ find at.now bytes (cells nodes.now) }
{
    for node in nodes {
        if node.bytes == bytes && node.has_name(at) {
            return Some(node);
        }
        if let Some(below) = find_at(node.under.as_slice(), at, bytes) {
            return Some(below);
        }
    }
    None
}
