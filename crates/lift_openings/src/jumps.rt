ghost use Rattle.std.specs.Prelude.{◌≡◌, ◌↔◌, ◌<◌, ◌^◌, ◌++◌, ◌∷◌, [], ℕ, Bool, true, List, length, map, IfOk, OnOk, IfSome, IsTrue};
ghost use Rattle.std.specs.List.{All};
ghost use Rattle.lift_rounds.specs.Known.{IsHeld, pred_at, reading};
ghost use Rattle.lift_rounds.specs.Fixed.{IsFixedAt};

use lift_rounds::{Made, Steps};
use std::alloc::{AllocError, Global};

/// A step of which jumps can be opened: a jump that is shut has no case, one that is open has to be resolved.
pub trait Jumps: Steps {
    /// The store may have more, and other jumps may be open.
    ghost continues: { Self → Self → Type 0 };

    /// The addresses of the open jumps, in the order in which they were opened.
    ghost opened: { Self → List ℕ };

    /// Whether the jump at an address is shut.
    ghost shut: { Self → ℕ → Bool };

    /// Whether a vertex of a shut jump with this predicate tells where the jump goes.
    ghost tells: { Self → ℕ → Self.Plain → Bool };

    /// Whether a jump stands at an address that is shut.
    fn is_shut(&self, address: u64) -> bool
        ensures { result ≡ shut self.now address };

    /// Whether each of the vertices of a shut jump tells where it goes.
    fn resolves(
        &mut self,
        alloc: Global,
        address: u64,
        made: &[Made<Self::Pred>],
        site: &[usize],
    ) -> Result<bool, AllocError>
        requires { All (λ m. IsHeld (Self.has self.old) m) made.now }
        ensures grows { Self.grows self.old self.new }
        ensures value { IfOk result (λ r. IsTrue r ↔ All (λ known. IfSome known (λ p. tells self.old address p ≡ true)) (map (pred_at (reading (Self.read self.old) made.now)) site.now)) };

    /// Opens the jump at an address.
    fn open(&mut self, address: u64) -> Result<(), AllocError>
        ensures continues { continues self.old self.new }
        ensures opened { OnOk result (opened self.new ≡ opened self.old ++ (address ∷ [])) }
        ensures room { OnOk result (length (opened self.new) < 2 ^ 64) };

    /// Shuts the jump that was opened last.
    fn close(&mut self)
        ensures continues { continues self.old self.new }
        ensures closed { (before : List ℕ) (address : ℕ) → opened self.old ≡ before ++ (address ∷ []) → opened self.new ≡ before };

    ghost grown: { (a b : Self) → Self.grows a b → continues a b };

    ghost further: { (a b c : Self) → continues a b → continues b c → continues a c };

    ghost has_still: { (a b : Self) (p : Self.Pred) → continues a b → Self.has a p → Self.has b p };

    ghost reads_still: { (a b : Self) (p : Self.Pred) → continues a b → Self.has a p → Self.read b p ≡ Self.read a p };

    /// Which vertices are told apart by the case doesn't depend on the open jumps.
    ghost forks_still: { (a b : Self) (address : ℕ) → continues a b → (Self.meaning b).forks address ≡ (Self.meaning a).forks address };

    /// The same jumps are open where the store alone has more.
    ghost as_open: { (a b : Self) → Self.grows a b → opened b ≡ opened a };

    /// With the same jumps open a step means the same.
    ghost alike: { (a b : Self) → continues a b → opened b ≡ opened a → Self.meaning b ≡ Self.meaning a };

    /// Only an open jump can lose an edge.
    ghost fixed: { (a : Self) → opened a ≡ [] → (address : ℕ) → IsFixedAt (Self.meaning a) address };
}
