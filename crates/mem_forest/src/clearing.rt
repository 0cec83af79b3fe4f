ghost use Rattle.std.specs.Prelude.{◌≡◌};
ghost use Rattle.mem_forest.specs.Plain.{cells};
ghost use Rattle.mem_forest.specs.Clear.{is_any_here, clear_values};

use crate::node::Node;
use memory_regions::Region;

impl Node {
    fn is_any(&self, regions: &[Region]) -> bool
        ensures { result ≡ is_any_here regions.now self.now.names self.now.bytes }
    {
        regions
            .iter()
            .any(|region| self.is(&region.at, region.bytes))
    }
}

/// Only the values of nodes at these regions stay. Takes no memory.
#[cycle(clear)]
pub(crate) fn clear_nodes(nodes: &mut Vec<Node>, keeps: &[Region])
    ensures { cells nodes.new.items ≡ clear_values keeps.now (cells nodes.old.items) }
{
    for i in 0..nodes.len() {
        let node = &mut nodes[i];
        let keep = node.is_any(keeps);
        clear_nodes(&mut node.under, keeps);
        node.keep_value(keep);
    }
}
