ghost use Rattle.std.specs.Prelude.{◌≡◌};
ghost use Rattle.memory_regions.specs.Relate.{is_region, is_pair};

use elf_image::Image;
use sym_terms::Term;

/// The bytes from `at` on, modulo 2^64: 1, 2, 4 or 8 of them.
#[derive(Drop)]
pub struct Region {
    pub at: Term,
    pub bytes: u8,
}

impl Region {
    fn is(&self, at: &Term, bytes: u8) -> bool
        ensures { result ≡ is_region self.now at.now bytes }
    {
        self.bytes == bytes && self.at.compare(at).is_eq()
    }
}

/// How one region lies to another. `Inside` says that the first lies in the second, `Around` that it
/// contains it; `Overlap` that they share bytes in no such way.
#[derive(Clone, Copy, Debug, PartialEq, Eq)]
pub enum Relation {
    Alias,
    Separate,
    Inside,
    Around,
    Overlap,
    Unknown,
}

/// What is assumed at a site: the executable, the frame's bytes below and above the entry's stack
/// pointer, and the pairs of regions taken as separate.
#[derive(Drop)]
pub struct Context<'a> {
    pub image: &'a Image,
    pub below: u64,
    pub above: u64,
    pub seps: &'a [(Region, Region)],
}

/// Whether a pair is that of two regions, in either order.
pub(crate) fn is_pair(pair: &(Region, Region), x: &Term, a: u8, y: &Term, b: u8) -> bool
    ensures { result ≡ is_pair pair.now x.now a y.now b }
{
    let (first, second) = pair;
    first.is(x, a) && second.is(y, b) || first.is(y, b) && second.is(x, a)
}
