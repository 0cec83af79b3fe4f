ghost use Rattle.std.specs.Prelude.{◌≡◌, ◌↔◌, IfOk, OnOk, OnErr, IfSome, IsSome, IsNone, IsTrue};
ghost use Rattle.std.specs.Option.{option_copied};
ghost use Rattle.memory_regions.specs.Relate.{relate};
ghost use Rattle.memory_regions.specs.Context.{known};
ghost use Rattle.mem_forest.specs.Plain.{none, cells, count};
ghost use Rattle.mem_forest.specs.Search.{is_here, find, count_at, value_at};
ghost use Rattle.mem_forest.specs.Shape.{is_size, IsForest};
ghost use Rattle.mem_forest.specs.Levels.{value_if};
ghost use Rattle.mem_forest.specs.Store.{store};
ghost use Rattle.mem_forest.specs.Load.{load};
ghost use Rattle.mem_forest.specs.Alias.{can_alias, alias};
ghost use Rattle.mem_forest.specs.Forget.{forget};
ghost use Rattle.mem_forest.specs.Clear.{clear_values};
ghost use Rattle.mem_forest.specs.Holders.{weakened};

use crate::clearing::clear_nodes;
use crate::forgetting::forget_nodes;
use crate::holders::weaken_nodes;
use crate::loading::name_value;
use crate::naming::{can_alias, rename};
use crate::node::{
    Node, are_alone, are_shaped, copy_nodes, copy_value, count_nodes, find_node, find_value,
    remaining_after,
};
use crate::storing::{place, write};
use memory_regions::{Context, Region};
use std::alloc::Global;
use std::marker::Model;
use sym_terms::{NoMemory, Sym, Term};

/// The most nodes of a forest, at all levels together.
pub(crate) const MOST_NODES: u32 = 64;

/// Named regions of memory: at most 64 nodes, each with 1 to 8 ascending names and a size of 1, 2, 4 or 8
/// bytes; siblings stand in order of first name, then size; no two nodes, at whatever level, have the
/// same size and a common name.
#[derive(Drop)]
pub struct Forest {
    nodes: Vec<Node>,
}

impl Model for Forest {
    ghost use Rattle.mem_forest.specs.Plain.{PlainForest};
    ghost use Rattle.mem_forest.specs.Codes.{coded_cells};

    ghost Value = { PlainForest };

    ghost coded = { coded_cells };

    ghost use Rattle.mem_forest.specs.Plain.{cells};
    ghost use Rattle.mem_forest.specs.Shape.{IsForest};

    ghost view = { λ f. cells f.nodes.items };

    ghost invariant = { λ f. IsForest (cells f.nodes.items) };
}

impl Forest {
    /// The forest without a node; takes no memory.
    pub fn empty(alloc: Global) -> Forest
        ensures { result ≡ none }
    {
        Forest {
            nodes: Vec::new(alloc),
        }
    }

    /// The forest with these nodes, and `None` exactly where they aren't one: over 64 nodes, a node
    /// without a name or with over 8, a size that isn't 1, 2, 4 or 8, names or siblings out of order, or
    /// two nodes with the same size and a common name. Takes no memory; of deep nodes it looks at 64.
    pub fn of_nodes(nodes: Vec<Node>) -> Option<Forest>
        ensures value { IfSome result (λ f. f ≡ cells nodes.items) }
        ensures exact { IsSome result ↔ IsForest (cells nodes.items) }
    {
        if is_forest(nodes.as_slice()) {
            Some(Forest { nodes })
        } else {
            None
        }
    }

    /// The forest with these nodes, which are known to be one: they are not looked at.
    pub fn of_checked_nodes(nodes: Vec<Node>) -> Forest
        requires { IsForest (cells nodes.items) }
        ensures { result ≡ cells nodes.items }
    {
        Forest { nodes }
    }

    /// The nodes of the top level, in order.
    pub fn nodes(&self) -> &[Node]
        ensures value { cells result.now ≡ self.now }
        ensures forest { IsForest self.now }
    {
        self.nodes.as_slice()
    }

    /// The number of nodes at all levels, at most 64.
    pub fn count(&self) -> u32
        ensures { result ≡ count self.now }
    {
        count_nodes(self.nodes.as_slice())
    }

    /// The node of that size with a name at difference 0, and `None` exactly where there is none.
    pub fn find(&self, region: &Region) -> Option<&Node>
        ensures value { option_copied result ≡ find region.now.at region.now.bytes self.now }
        ensures found { IfSome result (λ n. IsTrue (is_here region.now.at region.now.bytes n.now.names n.now.bytes)) }
        ensures absent { IsNone result ↔ (count_at region.now.at region.now.bytes self.now ≡ 0) }
    {
        find_node(self.nodes.as_slice(), region)
    }

    /// What a store to a region leaves, with the value that is stored, where it is known: a node at the
    /// region takes the value, or none, and loses the nodes under it, and those above it lose their values.
    /// Else the region comes below the nodes that it is `Inside`, which lose their values; there the nodes
    /// that aren't `Separate` from it go, and it comes unless 64 nodes are left.
    pub fn store(
        &mut self,
        region: &Region,
        value: Option<&Term>,
        context: &Context,
    ) -> Result<(), NoMemory>
        requires { IsTrue (is_size region.now.bytes) }
        ensures ok { OnOk result (
            let rel = relate (known context.now) region.now.at region.now.bytes in
            self.new ≡ store rel region.now.at region.now.bytes (option_copied value.entry) self.old) }
        ensures err { OnErr result (self.new ≡ self.old) }
    {
        let alloc = *self.nodes.allocator();
        let mut value = copy_value(alloc, value)?;
        if write(&mut self.nodes, region, &mut value, false) {
            return Ok(());
        }
        let total = count_nodes(self.nodes.as_slice());
        place(alloc, &mut self.nodes, region, value, total, context)
    }

    /// The value that stands at a region once it was loaded, and `None` exactly where no node is there then
    /// or it has no value. Where no value stood there and a name is given, a node at the region takes it as
    /// its value; else the region comes with it below the nodes that it is `Inside`, over those that lie in
    /// it, where each other node of that level is `Separate` from it and fewer than 64 nodes are there.
    pub fn load(
        &mut self,
        region: &Region,
        name: Option<&Term>,
        context: &Context,
    ) -> Result<Option<Term>, NoMemory>
        requires { IsTrue (is_size region.now.bytes) }
        ensures ok { OnOk result (
            let rel = relate (known context.now) region.now.at region.now.bytes in
            self.new ≡ load rel region.now.at region.now.bytes (option_copied name.entry) self.old) }
        ensures value { IfOk result (λ v. v ≡ value_at region.now.at region.now.bytes self.new) }
        ensures err { OnErr result (self.new ≡ self.old) }
    {
        let alloc = *self.nodes.allocator();
        if let Some(value) = find_value(self.nodes.as_slice(), region) {
            return Ok(Some(value.copy(alloc)?));
        }
        let Some(name) = name else {
            return Ok(None);
        };
        let answer = name.copy(alloc)?;
        name_value(alloc, &mut self.nodes, region, name, context)?;
        let is_named = find_node(self.nodes.as_slice(), region).is_some();
        Ok(answer_if(is_named, answer))
    }

    /// The address of `region` becomes a name of the node at `other`. It gives `false`, and changes nothing,
    /// exactly where no node is at `other`, one is at `region`, the sizes differ, or the node has 8 names.
    pub fn alias(&mut self, region: &Region, other: &Region) -> Result<bool, NoMemory>
        ensures ok { OnOk result (self.new ≡ alias region.now.at region.now.bytes other.now.at other.now.bytes self.old) }
        ensures done { IfOk result (λ is_one. is_one ≡ can_alias region.now.at region.now.bytes other.now.at other.now.bytes self.old) }
        ensures err { OnErr result (self.new ≡ self.old) }
    {
        if !can_alias(self.nodes.as_slice(), region, other) {
            return Ok(false);
        }
        rename(&mut self.nodes, &region.at, other)?;
        Ok(true)
    }

    /// The names and values that mention a symbol go, and a node without a name goes with those under it.
    /// Takes no memory.
    pub fn forget(&mut self, s: Sym)
        ensures { self.new ≡ forget s self.old }
    {
        forget_nodes(&mut self.nodes, s);
    }

    /// Only the values of nodes at these regions stay. Takes no memory.
    pub fn clear_values(&mut self, keeps: &[Region])
        ensures { self.new ≡ clear_values keeps.now self.old }
    {
        clear_nodes(&mut self.nodes, keeps);
    }

    /// Only the nodes that `other` says stay: those of which it has, at their place, a node with their first
    /// name and size, their names and, where it is known, their value. Takes no memory.
    pub fn weaken(&mut self, other: &Forest)
        ensures { self.new ≡ weakened other.now self.old }
    {
        weaken_nodes(&mut self.nodes, other.nodes.as_slice());
    }

    /// No node stays. Takes no memory.
    pub fn clear(&mut self)
        ensures { self.new ≡ none }
    {
        self.nodes.clear();
    }

    /// An equal forest.
    pub fn copy(&self, alloc: Global) -> Result<Forest, NoMemory>
        ensures { IfOk result (λ f. f ≡ self.now) }
    {
        let nodes = copy_nodes(alloc, self.nodes.as_slice())?;
        Ok(Forest { nodes })
    }
}

fn is_forest(nodes: &[Node]) -> bool
    ensures { IsTrue result ↔ IsForest (cells nodes.now) }
{
    if remaining_after(nodes, MOST_NODES).is_none() {
        return false;
    }
    if !are_shaped(nodes) {
        return false;
    }
    are_alone(nodes, nodes)
}

fn answer_if(is_named: bool, answer: Term) -> Option<Term>
    ensures { result ≡ value_if is_named (Some answer) }
{
    if is_named { Some(answer) } else { None }
}
