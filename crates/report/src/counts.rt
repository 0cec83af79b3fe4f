// What a report counts. A count that 64 bits do not hold is their greatest number.
ghost use Rattle.std.specs.Prelude.{◌≡◌, sum_by, IfOk};
ghost use Rattle.instr_at.specs.At.{instr_at};
ghost use Rattle.report.specs.Coverage.{sites_of, code_size};
ghost use Rattle.report.specs.Counts.{capped, stands, sites_in, vertices_in, code_bytes, covered_bytes};

use crate::coverage::covered_in;
use elf_image::{Image, Segment};
use graph_data::{Function, Site};
use std::alloc::{AllocError, Global};

/// The sites of a function; one that is refused has none.
pub fn sites_of(function: &Function) -> &[Site]
    ensures { result.now ≡ sites_of function.now }
{
    match function.refused {
        None => function.sites.as_slice(),
        Some(_) => &[],
    }
}

/// The functions that are not refused.
pub fn function_count(functions: &[Function]) -> u64
    ensures { result ≡ capped (sum_by stands functions.now) }
{
    let mut count = 0u64;
    for function in functions {
        count = count.saturating_add(stands(function));
    }
    count
}

// Whether a function counts: 1 where it is not refused.
fn stands(function: &Function) -> u64
    ensures { result ≡ stands function.now }
{
    match function.refused {
        None => 1,
        Some(_) => 0,
    }
}

/// The sites of the functions.
pub fn site_count(functions: &[Function]) -> u64
    ensures { result ≡ capped (sum_by sites_in functions.now) }
{
    let mut count = 0u64;
    for function in functions {
        count = count.saturating_add(sites_of(function).len() as u64);
    }
    count
}

/// The vertices of the functions.
pub fn vertex_count(functions: &[Function]) -> u64
    ensures { result ≡ capped (sum_by vertices_in functions.now) }
{
    let mut count = 0u64;
    for function in functions {
        count = count.saturating_add(vertices_of(function));
    }
    count
}

/// The vertices of a function.
pub fn vertices_of(function: &Function) -> u64
    ensures { result ≡ capped (vertices_in function.now) }
{
    let mut count = 0u64;
    for site in sites_of(function) {
        count = count.saturating_add(site.vertices.len() as u64);
    }
    count
}

/// The file bytes of the executable segments.
pub fn code_bytes(image: &Image) -> u64
    ensures { result ≡ capped (code_bytes image.now) }
{
    let mut count = 0u64;
    for segment in image.segments() {
        count = count.saturating_add(code_size(segment) as u64);
    }
    count
}

/// The file bytes of a segment that is executable.
pub fn code_size(segment: &Segment) -> usize
    ensures { result ≡ code_size segment.now }
{
    if segment.exec { segment.bytes.len() } else { 0 }
}

/// Those of them that lie in the instruction at some site.
#[tactic(auto, unfolding(crate::specs::Counts::covered_bytes))]
pub fn covered_bytes(
    alloc: Global,
    image: &Image,
    functions: &[Function],
) -> Result<u64, AllocError>
    ensures { IfOk result (λ count. count ≡ capped (covered_bytes (instr_at image.now) image.now functions.now)) }
{
    let mut count = 0u64;
    for segment in image.segments() {
        count = count.saturating_add(covered_in(alloc, image, functions, segment)?);
    }
    Ok(count)
}
