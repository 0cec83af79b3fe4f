ghost use Rattle.std.specs.Prelude.{◌≡◌, IfOk};

use crate::list::push;
use crate::node::{BankNode, copy_nodes};
use bits_core::Width;
use predicates::Values;
use std::alloc::Global;
use sym_terms::NoMemory;

/// What is known of a state, as a `Pred` whose terms are numbers of a bank: the terms of the registers by number; the
/// flags, as those of the first term less the second at a width; bounds of terms by ascending keys; and the nodes of
/// memory.
#[derive(Drop)]
pub struct BankPred {
    pub regs: Vec<Option<u64>>,
    pub flags: Option<(Width, u64, u64)>,
    pub bounds: Vec<(u64, Values)>,
    pub nodes: Vec<BankNode>,
}

fn copy_bounds(alloc: Global, bounds: &[(u64, Values)]) -> Result<Vec<(u64, Values)>, NoMemory>
    ensures { IfOk result (λ copies. copies.items ≡ bounds.now) }
{
    let mut copies = Vec::with_capacity(alloc, bounds.len())?;
    for (key, set) in bounds {
        push(&mut copies, (*key, set.copy(alloc)?))?;
    }
    Ok(copies)
}

impl BankPred {
    /// A predicate that says the same.
    pub fn copy(&self, alloc: Global) -> Result<BankPred, NoMemory>
        ensures regs { IfOk result (λ p. p.regs.items ≡ self.now.regs.items) }
        ensures flags { IfOk result (λ p. p.flags ≡ self.now.flags) }
        ensures bounds { IfOk result (λ p. p.bounds.items ≡ self.now.bounds.items) }
        ensures nodes { IfOk result (λ p. p.nodes.items ≡ self.now.nodes.items) }
    {
        let regs = Vec::from_slice(alloc, self.regs.as_slice())?;
        let bounds = copy_bounds(alloc, self.bounds.as_slice())?;
        let nodes = copy_nodes(alloc, self.nodes.as_slice())?;
        Ok(BankPred {
            regs,
            flags: self.flags,
            bounds,
            nodes,
        })
    }
}
