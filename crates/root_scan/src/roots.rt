// The roots of an executable.
ghost use Rattle.std.specs.Prelude.{◌≡◌, ◌+◌, ◌++◌, OnOk, IfOk, All, filter};
ghost use Rattle.std.specs.List.{flat_map};
ghost use Rattle.elf_image.specs.Segments.{IsSegment};
ghost use Rattle.root_scan.specs.Words.{is_within};
ghost use Rattle.root_scan.specs.Roots.{data_words, all_data_words, pointers_to, AreRoots};

use crate::words::push_scanned;
use elf_image::{Image, Segment};
use no_memory::NoMemory;
use std::alloc::{AllocError, Global};

/// The words in the file bytes of the segments that are not executable whose value is an address of
/// code, ascending, each once. The data is scanned once for each executable segment.
pub fn scan_roots(alloc: Global, image: &Image) -> Result<Vec<u64>, NoMemory>
    ensures { IfOk result (λ roots. AreRoots image.now roots.items) }
{
    let mut roots = Vec::new(alloc);
    push_pointers(&mut roots, image.segments())?;
    roots.sort_unstable();
    roots.dedup();
    Ok(roots)
}

// Appends the words of the data that lead to an executable segment, segment by segment.
#[tactic(auto, using(crate::proofs::RootLemmas::flat_map_next))]
fn push_pointers(roots: &mut Vec<u64>, segments: &[Segment]) -> Result<(), AllocError>
    requires { All IsSegment segments.now }
    ensures { OnOk result (roots.new.items ≡ roots.old.items ++ flat_map (pointers_to segments.now) segments.now) }
{
    for code in segments {
        push_pointers_to(roots, segments, code)?;
    }
    Ok(())
}

// Appends the words of the data that lead to an executable segment.
fn push_pointers_to(
    roots: &mut Vec<u64>,
    segments: &[Segment],
    code: &Segment,
) -> Result<(), AllocError>
    requires each { All IsSegment segments.now }
    requires segment { IsSegment code.now }
    ensures { OnOk result (roots.new.items ≡ roots.old.items ++ pointers_to segments.now code.now) }
{
    if code.exec {
        push_within(roots, segments, code.lo, code.lo + code.bytes.len() as u64)?;
    }
    Ok(())
}

// Appends the words of the data that are at least `lo` and below `hi`.
#[tactic(auto, using(crate::proofs::RootLemmas::filtered_next))]
fn push_within(
    roots: &mut Vec<u64>,
    segments: &[Segment],
    lo: u64,
    hi: u64,
) -> Result<(), AllocError>
    requires { All IsSegment segments.now }
    ensures { OnOk result (roots.new.items ≡ roots.old.items ++ filter (is_within lo hi) (all_data_words segments.now)) }
{
    for segment in segments {
        push_segment(roots, segment, lo, hi)?;
    }
    Ok(())
}

// Appends the words of a segment that is not executable that are at least `lo` and below `hi`.
fn push_segment(roots: &mut Vec<u64>, segment: &Segment, lo: u64, hi: u64) -> Result<(), AllocError>
    requires { IsSegment segment.now }
    ensures { OnOk result (roots.new.items ≡ roots.old.items ++ filter (is_within lo hi) (data_words segment.now)) }
{
    if !segment.exec {
        push_scanned(roots, segment.bytes.as_slice(), segment.lo, lo, hi)?;
    }
    Ok(())
}
