ghost use Rattle.std.specs.Prelude.{◌≡◌, IfOk};

use crate::list::push;
use std::alloc::Global;
use std::marker::Model;
use sym_terms::NoMemory;

/// A node of a forest, whose addresses and value are numbers of terms.
#[derive(Drop)]
pub struct BankNode {
    pub names: Vec<u64>,
    pub bytes: u8,
    pub value: Option<u64>,
    pub under: Vec<BankNode>,
}

impl Model for BankNode {
    ghost use Rattle.bank_values.specs.Numbered.{NumberNode};
    ghost use Rattle.bank_values.specs.Codes.{coded_node};

    ghost Value = { NumberNode };

    ghost coded = { coded_node };

    ghost use Rattle.bank_values.specs.Numbered.{level, count};
    ghost use Rattle.std.specs.Prelude.{◌+◌};

    ghost view = { λ n. record { names = n.names.items; bytes = n.bytes; value = n.value; under = level n.under.items } };

    ghost size = { λ c. count c.under + 1 };

    ghost use Rattle.std.proofs.Common.{arith};
    ghost use Rattle.bank_values.specs.Falls.{most_le-count};

    ghost size_decreases = { λ n h. omega (arith, most_le-count n.under.items) };
}

impl BankNode {
    #[cycle(copying)]
    fn copy(&self, alloc: Global) -> Result<BankNode, NoMemory>
        ensures { IfOk result (λ n. n ≡ self.now) }
    {
        let names = Vec::from_slice(alloc, self.names.as_slice())?;
        let under = copy_nodes(alloc, self.under.as_slice())?;
        Ok(BankNode {
            names,
            bytes: self.bytes,
            value: self.value,
            under,
        })
    }
}

/// Equal nodes.
#[cycle(copying)]
pub fn copy_nodes(alloc: Global, nodes: &[BankNode]) -> Result<Vec<BankNode>, NoMemory>
    ensures { IfOk result (λ copies. copies.items ≡ nodes.now) }
{
    let mut copies = Vec::with_capacity(alloc, nodes.len())?;
    for node in nodes {
        push(&mut copies, node.copy(alloc)?)?;
    }
    Ok(copies)
}
