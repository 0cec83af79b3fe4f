ghost use Rattle.std.specs.Prelude.{◌≡◌, ◌↔◌, ◌==◌, IsTrue, IsSome, find};
ghost use Rattle.std.specs.Option.{option_copied};
ghost use Rattle.simulation.specs.Graph.{callee};
ghost use Rattle.simulation_example.specs.declared.machine.Image.{Image};
ghost use Rattle.simulation_example.specs.Example.{example};

use crate::predicate::{Pred, Region};

/// A vertex: what holds there, and for each case the address and the number of the next vertex.
#[derive(Drop)]
pub struct Vertex {
    pub pred: Pred,
    pub out: Vec<(u64, u32)>,
}

/// What stands at a site.
#[derive(Clone, Copy)]
pub enum Kind {
    /// An ordinary instruction.
    Step,
    /// A call of the function with this entry.
    Call(u64),
    /// A call of a function outside the graph, or a syscall.
    Outside,
    /// A verified return.
    Return,
    /// Where the claim ends.
    End,
}

/// A site: an address with what is assumed there, and its vertices.
#[derive(Drop)]
pub struct Site {
    pub address: u64,
    pub kind: Kind,
    /// The pairs of regions that are assumed to be separate.
    pub seps: Vec<(Region, Region)>,
    /// The pair of regions that is told apart.
    pub fork: Option<(Region, Region)>,
    /// The regions that a callee is assumed to keep.
    pub keeps: Vec<Region>,
    pub vertices: Vec<Vertex>,
}

/// A function with its sites, and the bytes of its frame below and above the entry.
#[derive(Drop)]
pub struct Function {
    pub entry: u64,
    pub below: u64,
    pub above: u64,
    pub refused: bool,
    pub sites: Vec<Site>,
}

/// The functions of a program.
#[derive(Drop)]
pub struct Graph {
    pub functions: Vec<Function>,
}

impl Function {
    /// The first site at the address, if there is one.
    pub fn site(&self, address: u64) -> Option<&Site>
        ensures { option_copied result ≡
            find (λ site. site.address == address) self.now.sites.items }
    {
        self.sites.iter().find(|site| site.address == address)
    }
}

impl Graph {
    /// The first function with the entry, if there is one.
    pub fn function(&self, entry: u64) -> Option<&Function>
        ensures { option_copied result ≡
            find (λ function. function.entry == entry) self.now.functions.items }
    {
        self.functions
            .iter()
            .find(|function| function.entry == entry)
    }

    /// Whether a call of the entry begins a function: the first with the entry isn't refused.
    pub fn has_callee(&self, entry: u64) -> bool
        ensures { (image : Image) →
            IsTrue result ↔ IsSome (callee (example image) self.now entry) }
    {
        match self.function(entry) {
            None => false,
            Some(function) => !function.refused,
        }
    }
}
