// The lines of a site.
ghost use Rattle.std.specs.Prelude.{◌≡◌, ◌++◌, OnOk};
ghost use Rattle.std.specs.List.{flat_map};
ghost use Rattle.instr_at.specs.At.{instr_at};
ghost use Rattle.report.specs.Text.{pair_line, keep_line, fork_line, kind_line, entered, at_line, site_lines};

use elf_image::Image;
use graph_data::Site;
use graph_lines::{put_region, reason_text};
use instr_at::instr_at;
use memory_regions::Region;
use predicates::Kind;
use std::alloc::AllocError;
use term_text::put_hex;
use x86_instr::{Instr, Op};

/// Appends the lines of a site.
pub fn put_site(out: &mut Vec<u8>, image: &Image, site: &Site) -> Result<(), AllocError>
    ensures { OnOk result (out.new.items ≡ out.old.items ++ site_lines (instr_at image.now) site.now) }
{
    put_pairs(out, b"sep ", site.addr, site.seps.as_slice())?;
    if let Some(pair) = &site.fork {
        put_pair(out, b"fork ", site.addr, pair)?;
    }
    put_keeps(out, site.addr, site.keeps.as_slice())?;
    put_kind(out, image, site.addr, site.kind)
}

// Appends a line for each pair of regions.
fn put_pairs(
    out: &mut Vec<u8>,
    word: &[u8],
    addr: u64,
    pairs: &[(Region, Region)],
) -> Result<(), AllocError>
    ensures { OnOk result (out.new.items ≡ out.old.items ++ flat_map (pair_line word.now addr) pairs.now) }
{
    for pair in pairs {
        put_pair(out, word, addr, pair)?;
    }
    Ok(())
}

fn put_pair(
    out: &mut Vec<u8>,
    word: &[u8],
    addr: u64,
    pair: &(Region, Region),
) -> Result<(), AllocError>
    ensures { OnOk result (out.new.items ≡ out.old.items ++ pair_line word.now addr pair.now) }
{
    out.extend_from_slice(word)?;
    put_hex(out, addr)?;
    out.push(b' ')?;
    put_region(out, &pair.0)?;
    out.push(b' ')?;
    put_region(out, &pair.1)?;
    Ok(out.push(b'\n')?)
}

// Appends a line for each region that is kept.
fn put_keeps(out: &mut Vec<u8>, addr: u64, keeps: &[Region]) -> Result<(), AllocError>
    ensures { OnOk result (out.new.items ≡ out.old.items ++ flat_map (keep_line addr) keeps.now) }
{
    for region in keeps {
        put_keep(out, addr, region)?;
    }
    Ok(())
}

fn put_keep(out: &mut Vec<u8>, addr: u64, region: &Region) -> Result<(), AllocError>
    ensures { OnOk result (out.new.items ≡ out.old.items ++ keep_line addr region.now) }
{
    out.extend_from_slice(b"keep ")?;
    put_hex(out, addr)?;
    out.push(b' ')?;
    put_region(out, region)?;
    Ok(out.push(b'\n')?)
}

// Appends the line of what a site says of its instruction.
fn put_kind(out: &mut Vec<u8>, image: &Image, addr: u64, kind: Kind) -> Result<(), AllocError>
    ensures { OnOk result (out.new.items ≡ out.old.items ++ kind_line (instr_at image.now) addr kind) }
{
    match kind {
        Kind::Step | Kind::Call(_) => Ok(()),
        Kind::Outside => put_at(out, b"outside ", addr, entered(instr_at(image, addr))),
        Kind::Return => put_at(out, b"return ", addr, b""),
        Kind::End(reason) => {
            out.extend_from_slice(b"end ")?;
            put_hex(out, addr)?;
            out.push(b' ')?;
            out.extend_from_slice(reason_text(reason))?;
            Ok(out.push(b'\n')?)
        }
    }
}

// What is entered at an outside site.
fn entered(i: Option<Instr>) -> &'static [u8]
    ensures { result.now ≡ entered i }
{
    match i {
        Some(
            Instr {
                op: Op::Syscall,
                ..
            },
        ) => b" syscall",
        _ => b" call",
    }
}

// Appends a line that begins with a word and an address.
fn put_at(out: &mut Vec<u8>, word: &[u8], addr: u64, rest: &[u8]) -> Result<(), AllocError>
    ensures { OnOk result (out.new.items ≡ out.old.items ++ at_line word.now addr rest.now) }
{
    out.extend_from_slice(word)?;
    put_hex(out, addr)?;
    out.extend_from_slice(rest)?;
    Ok(out.push(b'\n')?)
}
