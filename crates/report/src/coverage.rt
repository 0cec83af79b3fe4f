// How much of the code lies in the instructions of a graph's sites.
ghost use Rattle.std.specs.Prelude.{◌≡◌, ◌≤◌, ◌<◌, ◌+◌, ◌*◌, ◌^◌, ◌&&◌, ℕ, max, length, nat_lt, IfOk};
ghost use Rattle.std.specs.List.{list_any};
ghost use Rattle.elf_image.specs.Segments.{IsSegment};
ghost use Rattle.instr_at.specs.At.{instr_at};
ghost use Rattle.report.specs.Marks.{flag, mark_at};
ghost use Rattle.report.specs.Coverage.{covers, is_covered, covered_from, covered_in};

use crate::counts::{code_size, sites_of};
use crate::marks::{mark_range, marked};
use elf_image::{Image, Segment};
use graph_data::{Function, Site};
use instr_at::instr_at;
use std::alloc::{AllocError, Global};

/// The number of file bytes of an executable segment that lie in the instruction at some site; 0 where
/// the segment is not executable. It takes one bit a byte.
#[tactic(auto, unfolding(crate::specs::Coverage::covered_in))]
pub fn covered_in(
    alloc: Global,
    image: &Image,
    functions: &[Function],
    segment: &Segment,
) -> Result<u64, AllocError>
    requires { IsSegment segment.now }
    ensures { IfOk result (λ count. count ≡ covered_in (instr_at image.now) functions.now segment.now) }
{
    let size = code_size(segment);
    let mut bits = Vec::from_elem(alloc, 0, size / 8 + 1)?;
    Ok(count_covered(&mut bits, image, functions, segment.lo, size))
}

// How many of the bytes, `size` from `lo` on, lie in the instruction at a site of the functions. Of the
// marks, none is set.
fn count_covered(
    bits: &mut [u8],
    image: &Image,
    functions: &[Function],
    lo: u64,
    size: usize,
) -> u64
    requires clear { (k : ℕ) → mark_at bits.old k ≡ 0 }
    requires room { size ≤ 8 * length bits.old }
    requires fits { lo + size < 2 ^ 64 }
    ensures { result ≡ covered_from (instr_at image.now) functions.now lo size }
{
    mark_functions(bits, image, functions, lo, size);
    marked(bits)
}

// Marks the bytes, `size` from `lo` on, that lie in the instruction at a site of the functions.
fn mark_functions(bits: &mut [u8], image: &Image, functions: &[Function], lo: u64, size: usize)
    requires room { size ≤ 8 * length bits.old }
    requires fits { lo + size < 2 ^ 64 }
    ensures { (k : ℕ) → mark_at bits.new k ≡ max (mark_at bits.old k)
        (flag (nat_lt k size && is_covered (instr_at image.now) functions.now (lo + k))) }
{
    for function in functions {
        mark_sites(bits, image, sites_of(function), lo, size);
    }
}

// The same for sites.
fn mark_sites(bits: &mut [u8], image: &Image, sites: &[Site], lo: u64, size: usize)
    requires room { size ≤ 8 * length bits.old }
    requires fits { lo + size < 2 ^ 64 }
    ensures { (k : ℕ) → mark_at bits.new k ≡ max (mark_at bits.old k)
        (flag (nat_lt k size && list_any (covers (instr_at image.now) (lo + k)) sites.now)) }
{
    for site in sites {
        mark_site(bits, image, site, lo, size);
    }
}

// The same for a site.
fn mark_site(bits: &mut [u8], image: &Image, site: &Site, lo: u64, size: usize)
    requires room { size ≤ 8 * length bits.old }
    requires fits { lo + size < 2 ^ 64 }
    ensures { (k : ℕ) → mark_at bits.new k ≡ max (mark_at bits.old k)
        (flag (nat_lt k size && covers (instr_at image.now) (lo + k) site.now)) }
{
    let Some(i) = instr_at(image, site.addr) else {
        return;
    };
    let from = site.addr.max(lo);
    let to = site.addr.saturating_add(i.len as u64).min(lo + size as u64);
    if from < to {
        mark_range(bits, (from - lo) as usize, (to - lo) as usize);
    }
}
