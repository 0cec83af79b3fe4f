ghost use Rattle.std.specs.Prelude.{◌≡◌, false, not, position, slice_get, OnOk, OnErr, IfOk, MatchBool};
ghost use Rattle.std.specs.List.{position_or_len};
ghost use Rattle.std.specs.Option.{option_copied, option_map_or};
ghost use Rattle.std.specs.Ordering.{is_gt, is_eq};
ghost use Rattle.sym_terms.specs.Order.{sum_cmp};
ghost use Rattle.mem_forest.specs.Plain.{cells};
ghost use Rattle.mem_forest.specs.Search.{found};
ghost use Rattle.mem_forest.specs.Alias.{with_name, renamed, has_name_left, can_alias};

use crate::levels::settle_before;
use crate::node::{MOST_NAMES, Node, find_node};
use memory_regions::Region;
use std::alloc::AllocError;
use sym_terms::{NoMemory, Term};

/// The place of the first name that a term isn't behind.
fn first_not_before(names: &[Term], name: &Term) -> Option<usize>
    ensures { result ≡ position (λ n. not (is_gt (sum_cmp name.now n))) names.now }
{
    names.iter().position(|other| !name.compare(other).is_gt())
}

/// Whether a term is the name at a place.
fn is_name_at(names: &[Term], place: usize, name: &Term) -> bool
    ensures { result ≡ option_map_or (λ n. is_eq (sum_cmp name.now n)) (slice_get names.now place) false }
{
    names
        .get(place)
        .is_some_and(|other| name.compare(other).is_eq())
}

/// The place at which a term comes among ascending names.
fn name_place(names: &[Term], name: &Term) -> usize
    ensures { result ≡ position_or_len (λ n. not (is_gt (sum_cmp name.now n))) names.now }
{
    first_not_before(names, name).unwrap_or(names.len())
}

/// Ascending names get one more, in its place, where they don't have it.
fn add_name(names: &mut Vec<Term>, name: &Term) -> Result<(), NoMemory>
    ensures ok { OnOk result (names.new.items ≡ with_name name.now names.old.items) }
    ensures err { OnErr result (names.new.items ≡ names.old.items) }
{
    let place = name_place(names.as_slice(), name);
    if is_name_at(names.as_slice(), place, name) {
        return Ok(());
    }
    let name = name.copy(*names.allocator())?;
    names.insert(place, name).map_err(AllocError::from)?;
    Ok(())
}

/// The first node at a region gets one more name, and its level is put in order again. Whether there is
/// such a node; nothing changes where there is none.
#[cycle(rename)]
pub(crate) fn rename(nodes: &mut Vec<Node>, name: &Term, region: &Region) -> Result<bool, NoMemory>
    ensures found { IfOk result (λ there. there ≡ found region.now.at region.now.bytes (cells nodes.old.items)) }
    ensures ok { IfOk result (λ there. MatchBool there
        (cells nodes.new.items ≡ renamed name.now region.now.at region.now.bytes (cells nodes.old.items))
        (nodes.new.items ≡ nodes.old.items)) }
    ensures err { OnErr result (nodes.new.items ≡ nodes.old.items) }
{
    for i in 0..nodes.len() {
        let node = &mut nodes[i];
        if node.is(&region.at, region.bytes) {
            add_name(&mut node.names, name)?;
            settle_before(nodes, i + 1);
            return Ok(true);
        }
        if rename(&mut node.under, name, region)? {
            settle_before(nodes, i);
            return Ok(true);
        }
    }
    Ok(false)
}

fn has_name_left(node: Option<&Node>) -> bool
    ensures { result ≡ has_name_left (option_copied node.entry) }
{
    match node {
        Some(node) => node.names.len() < MOST_NAMES,
        None => false,
    }
}

fn is_found(nodes: &[Node], region: &Region) -> bool
    ensures { result ≡ found region.now.at region.now.bytes (cells nodes.now) }
{
    find_node(nodes, region).is_some()
}

/// Whether the address of `region` can become a name of the node at `other`.
pub(crate) fn can_alias(nodes: &[Node], region: &Region, other: &Region) -> bool
    ensures { result ≡ can_alias region.now.at region.now.bytes other.now.at other.now.bytes (cells nodes.now) }
{
    has_name_left(find_node(nodes, other))
        && region.bytes == other.bytes
        && !is_found(nodes, region)
}
