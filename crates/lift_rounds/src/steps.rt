ghost use Rattle.std.specs.Prelude.{◌≡◌, ◌<◌, ◌↔◌, ◌⊎◌, ℕ, Bool, true, List, Option, map, IfOk, OnOk, IfSome, IsTrue};
ghost use Rattle.std.specs.Option.{option_map};
ghost use Rattle.std.specs.List.{All};
ghost use Rattle.lift_rounds.specs.Meaning.{Meaning};
ghost use Rattle.lift_rounds.specs.Known.{IsHeld, case_reading, pred_at, reading};

use crate::data::{Case, Made};
use std::alloc::{AllocError, Global};

/// A step over predicates, which may be numbers in a store that grows.
pub trait Steps {
    type Pred: Drop;

    type Plain;

    /// What a predicate reads as.
    ghost read: { Self → Self.Pred → Self.Plain };

    /// A predicate has its parts in the store.
    ghost has: { Self → Self.Pred → Type 0 };

    /// The store may have more.
    ghost grows: { Self → Self → Type 0 };

    ghost meaning: { Self → Meaning Self.Plain };

    /// Whether the vertices after an address are told apart by the case.
    fn forks(&self, address: u64) -> bool
        ensures { result ≡ (meaning self.now).forks address };

    /// The cases at an address, whose vertices are `site`, of a vertex with this predicate; `None` where they aren't resolved
    /// though they have to be. The lines of a site are made of what is known at its vertices.
    fn cases(
        &mut self,
        alloc: Global,
        address: u64,
        made: &[Made<Self::Pred>],
        site: &[usize],
        pred: &Self::Pred,
    ) -> Result<Option<Vec<Case<Self::Pred>>>, AllocError>
        requires made { All (λ m. IsHeld (has self.old) m) made.now }
        requires pred { has self.old pred.now }
        ensures grows { grows self.old self.new }
        ensures value { IfOk result (λ r. option_map (λ v. map (case_reading (read self.new)) v.items) r ≡ (meaning self.old).cases_of address (map (pred_at (reading (read self.old) made.now)) site.now) (read self.old pred.now)) }
        ensures inside { IfOk result (λ r. IfSome r (λ v. All (λ c. has self.new c.pred) v.items)) };

    /// Keeps the conjuncts that the other entails.
    fn weaken(&self, pred: &mut Self::Pred, other: &Self::Pred)
        requires pred { has self.now pred.old }
        requires other { has self.now other.now }
        ensures value { read self.now pred.new ≡ (meaning self.now).weakened (read self.now pred.old) (read self.now other.now) }
        ensures inside { has self.now pred.new };

    fn copy(&self, alloc: Global, pred: &Self::Pred) -> Result<Self::Pred, AllocError>
        requires { has self.now pred.now }
        ensures value { IfOk result (λ p. read self.now p ≡ read self.now pred.now) }
        ensures inside { IfOk result (λ p. has self.now p) };

    /// Whether two predicates read the same.
    fn is_same(&self, left: &Self::Pred, right: &Self::Pred) -> bool
        requires left { has self.now left.now }
        requires right { has self.now right.now }
        ensures { IsTrue result ↔ (read self.now left.now ≡ read self.now right.now) };

    ghost over: { (a b c : Self) → grows a b → grows b c → grows a c };

    ghost unmoved: { (a : Self) → grows a a };

    ghost stays: { (a b : Self) (p : Self.Pred) → grows a b → has a p → has b p };

    ghost reads: { (a b : Self) (p : Self.Pred) → grows a b → has a p → read b p ≡ read a p };

    ghost means: { (a b : Self) → grows a b → meaning b ≡ meaning a };

    /// Each entails itself.
    ghost itself: { (a : Self) (p : Self.Plain) → (meaning a).entails p p ≡ true };

    ghost through: { (a : Self) (p q r : Self.Plain) → (meaning a).entails p q ≡ true → (meaning a).entails q r ≡ true → (meaning a).entails p r ≡ true };

    /// A weakened predicate follows from what it was.
    ghost kept: { (a : Self) (p q : Self.Plain) → (meaning a).entails p ((meaning a).weakened p q) ≡ true };

    /// A weakened predicate follows from what weakened it.
    ghost follows: { (a : Self) (p q : Self.Plain) → (meaning a).entails q ((meaning a).weakened p q) ≡ true };

    /// What changes loses a conjunct.
    ghost falls: { (a : Self) (p q : Self.Plain) → ((meaning a).weakened p q ≡ p) ⊎ ((meaning a).weight ((meaning a).weakened p q) < (meaning a).weight p) };
}
