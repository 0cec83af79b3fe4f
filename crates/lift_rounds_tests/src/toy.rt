ghost use Rattle.std.specs.Prelude.{◌≡◌, ℕ, min, IfOk};
ghost use Rattle.std.proofs.Common.{refl, ap, ◌∙◌, rules};
ghost use Rattle.lift_rounds_tests.specs.Toy.{cases_after, is_lost, toy};

use lift_rounds::{Case, Made, Steps};
use std::alloc::{AllocError, Global};

/// A way from an address to another, on which numbers from a bound on are lost.
#[derive(Clone, Copy)]
pub struct Way {
    pub from: u64,
    pub to: u64,
    pub most: u64,
}

/// A program. What is known at an address is a number, and a greater one is more. The jump's ways are resolved where at least
/// so much is known.
#[derive(Drop)]
pub struct Toy {
    pub ways: Vec<Way>,
    pub jump: u64,
    pub least: u64,
}

/// The cases of the ways from an address.
#[tactic(auto, using(crate::proofs::ToyLemmas::cases_next, crate::proofs::ToyLemmas::cases_end))]
fn cases_of_ways(
    alloc: Global,
    ways: &[Way],
    address: u64,
    pred: u64,
) -> Result<Vec<Case<u64>>, AllocError>
    ensures { IfOk result (λ v. v.items ≡ cases_after ways.now address pred) }
{
    let mut cases = Vec::new(alloc);
    for way in ways {
        if way.from == address {
            cases.push(Case {
                address: way.to,
                pred: pred.min(way.most),
            })?;
        }
    }
    Ok(cases)
}

impl Toy {
    /// Whether the jump's ways aren't resolved.
    fn is_lost(&self, address: u64, pred: u64) -> bool
        ensures { result ≡ is_lost self.now address pred }
    {
        address == self.jump && pred < self.least
    }
}

impl Steps for Toy {
    type Pred = u64;

    type Plain = u64;

    ghost read = { λ t p. p };

    ghost has = { λ t p. Unit {0} };

    ghost grows = { λ s t. t ≡ s };

    ghost meaning = { λ t. toy t };

    fn forks(&self, _address: u64) -> bool {
        false
    }

    #[tactic(auto, using(crate::proofs::ToyLemmas::reads_same))]
    fn cases(
        &mut self,
        alloc: Global,
        address: u64,
        _made: &[Made<u64>],
        _site: &[usize],
        pred: &u64,
    ) -> Result<Option<Vec<Case<u64>>>, AllocError> {
        if self.is_lost(address, *pred) {
            return Ok(None);
        }
        let cases = cases_of_ways(alloc, self.ways.as_slice(), address, *pred)?;
        Ok(Some(cases))
    }

    fn weaken(&self, pred: &mut u64, other: &u64) {
        *pred = (*pred).min(*other);
    }

    fn copy(&self, _alloc: Global, pred: &u64) -> Result<u64, AllocError> {
        Ok(*pred)
    }

    fn is_same(&self, left: &u64, right: &u64) -> bool {
        *left == *right
    }

    ghost over = { λ a b c e f. f ∙ e };

    ghost unmoved = { λ a. refl };

    ghost stays = { λ a b p e h. h };

    ghost reads = { λ a b p e h. refl };

    ghost means = { λ a b e. ap toy e };

    ghost itself = { Prim.search rules };

    ghost through = { Prim.search rules };

    ghost kept = { Prim.search rules };

    ghost follows = { Prim.search rules };

    ghost falls = { Prim.search rules };
}
