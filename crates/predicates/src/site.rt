ghost use Rattle.std.specs.Prelude.{◌≡◌};
ghost use Rattle.predicates.specs.Kinds.{has_edges, may_fork, may_keep};

use mem_forest::{Context, Region};

/// What is assumed at a site: the context of its memory, the pair of regions of which it is asked whether
/// they are one or separate, and the regions that a call keeps.
#[derive(Drop)]
pub struct SiteView<'a> {
    pub context: Context<'a>,
    pub fork: Option<&'a (Region, Region)>,
    pub keeps: &'a [Region],
}

/// Why nothing is claimed after a site.
#[derive(Clone, Copy, Debug, PartialEq, Eq)]
pub enum Reason {
    /// Where an indirect jump goes isn't known.
    Unresolved,
    /// A return whose address or callee-saved registers aren't known to be the caller's.
    BadReturn,
    /// An instruction that isn't decoded.
    Unsupported,
    /// `hlt`, `ud2` or `int3`.
    Stop,
    /// A function that is taken to lie outside.
    Extern,
}

/// What is claimed of a site's instruction.
#[derive(Clone, Copy, Debug, PartialEq, Eq)]
pub enum Kind {
    /// It goes on along its edges.
    Step,
    /// It calls the function with this entry, which returns.
    Call(u64),
    /// It calls what isn't looked into, a system call or a function, which returns.
    Outside,
    /// It returns to the caller.
    Return,
    /// Nothing is claimed after it.
    End(Reason),
}

impl Kind {
    /// Whether sites of the kind have edges, and may have pairs that are taken as separate.
    pub fn has_edges(self) -> bool
        ensures { result ≡ has_edges self }
    {
        match self {
            Kind::Step | Kind::Call(_) | Kind::Outside => true,
            Kind::Return | Kind::End(_) => false,
        }
    }

    /// Whether sites of the kind may have a pair of which cases are told apart.
    pub fn may_fork(self) -> bool
        ensures { result ≡ may_fork self }
    {
        match self {
            Kind::Step => true,
            Kind::Call(_) | Kind::Outside | Kind::Return | Kind::End(_) => false,
        }
    }

    /// Whether sites of the kind may have regions that a callee leaves as they were.
    pub fn may_keep(self) -> bool
        ensures { result ≡ may_keep self }
    {
        match self {
            Kind::Call(_) | Kind::Outside => true,
            Kind::Step | Kind::Return | Kind::End(_) => false,
        }
    }
}
