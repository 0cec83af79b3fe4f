// Marks of one bit each.
ghost use Rattle.std.specs.Prelude.{◌≡◌, ◌≤◌, ◌<◌, ◌*◌, ◌^◌, ◌/◌, ◌==◌, ◌&&◌, ℕ, max, length, nat_le, nat_lt};
ghost use Rattle.report.specs.Marks.{flag, mark_at, marked_below};

use root_scan::covered;

/// Marks a place.
#[tactic(auto, using(crate::proofs::MarkLemmas::mark_at_set))]
pub fn mark(bits: &mut [u8], place: usize)
    requires { place / 8 < length bits.old }
    ensures { (k : ℕ) → mark_at bits.new k ≡ max (mark_at bits.old k) (flag (k == place)) }
{
    bits[place / 8] |= 1 << (place % 8);
}

/// Marks the places from one on, up to another.
pub fn mark_range(bits: &mut [u8], from: usize, to: usize)
    requires ordered { from ≤ to }
    requires room { to ≤ 8 * length bits.old }
    ensures { (k : ℕ) → mark_at bits.new k ≡ max (mark_at bits.old k) (flag (nat_le from k && nat_lt k to)) }
{
    for place in from..to {
        mark(bits, place);
    }
}

/// How many places are marked.
pub fn marked(bits: &[u8]) -> u64
    requires { marked_below bits.now (8 * length bits.now) < 2 ^ 64 }
    ensures { result ≡ marked_below bits.now (8 * length bits.now) }
{
    covered(bits)
}
