ghost use Rattle.std.specs.Prelude.{IfOk};
ghost use Rattle.x86_instr.specs.Fits.{InForm};

use elf_image::{Image, read_elf};
use graph_data::{Graph, Site, Vertex};
use graph_text::read_graph;
use mem_forest::Context;
use predicates::SiteView;
use std::alloc::Global;
use std::test::Fail;
use x86_decode::decode;
use x86_instr::Instr;

/// Where each instruction stands.
pub const ADDRESS: u64 = 0x40_0078;

/// An executable (ELF-64) of two segments. The first, at 0x400000, may be run and has 0x4000 bytes, of which the 0xe0 of
/// this file are code; the second, at 0x600000, may be written. At 0x4000b0 stand four addresses, at 0x4000d0 the offsets
/// -4, -3 and -3 of four bytes, at 0x4000dc the numbers 0x8001 and 0x8002 of two.
static FILE: [u8; 224] = *b"\x7fELF\x02\x01\x01\0\0\0\0\0\0\0\0\0\
\x02\0\x3e\0\x01\0\0\0\x78\0\x40\0\0\0\0\0\
\x40\0\0\0\0\0\0\0\0\0\0\0\0\0\0\0\
\0\0\0\0\x40\0\x38\0\x02\0\0\0\0\0\0\0\
\x01\0\0\0\x05\0\0\0\0\0\0\0\0\0\0\0\
\0\0\x40\0\0\0\0\0\0\0\x40\0\0\0\0\0\
\xe0\0\0\0\0\0\0\0\0\x40\0\0\0\0\0\0\
\0\x10\0\0\0\0\0\0\
\x01\0\0\0\x06\0\0\0\0\0\0\0\0\0\0\0\
\0\0\x60\0\0\0\0\0\0\0\x60\0\0\0\0\0\
\0\0\0\0\0\0\0\0\0\x10\0\0\0\0\0\0\
\0\x10\0\0\0\0\0\0\
\x10\0\x40\0\0\0\0\0\x11\0\x40\0\0\0\0\0\x10\0\x40\0\0\0\0\0\x12\0\x40\0\0\0\0\0\
\xfc\xff\xff\xff\xfd\xff\xff\xff\xfd\xff\xff\xff\
\x01\x80\x02\x80";

pub fn image(alloc: Global) -> Result<Image, Fail> {
    let image = read_elf(alloc, &FILE)?;
    Ok(image)
}

/// The instruction whose bytes these are, all of them.
pub fn instruction(code: &[u8]) -> Result<Instr, Fail>
    ensures { IfOk result InForm }
{
    let i = decode(code, ADDRESS).ok_or("no instruction")?;
    if usize::from(i.len) != code.len() {
        return Err("another length".into());
    }
    Ok(i)
}

/// The lines of a predicate without their letters: registers that aren't their entry symbol, the flag fact, bounds, cells.
#[derive(Clone, Copy)]
pub struct Facts {
    pub registers: &'static str,
    pub flags: &'static str,
    pub bounds: &'static str,
    pub cells: &'static str,
}

fn push_line(text: &mut Vec<u8>, letter: &str, line: &str) -> Result<(), Fail> {
    if !line.is_empty() {
        text.extend_from_slice(letter.as_bytes())?;
        text.extend_from_slice(line.as_bytes())?;
        text.extend_from_slice(b"\n")?;
    }
    Ok(())
}

/// The graph of one site with one vertex, whose kind and lines, and whose predicate are these.
pub fn graph(alloc: Global, site: &str, facts: Facts) -> Result<Graph, Fail> {
    let mut text = Vec::from_slice(alloc, b"foxdec graph 1\nf 400078 65536 4096\n")?;
    push_line(&mut text, "s 400078 ", site)?;
    push_line(&mut text, "v ", "0")?;
    push_line(&mut text, "r ", facts.registers)?;
    push_line(&mut text, "z ", facts.flags)?;
    push_line(&mut text, "b ", facts.bounds)?;
    push_line(&mut text, "c ", facts.cells)?;
    text.extend_from_slice(b"> 400078:0\nend\n")?;
    let graph = read_graph(alloc, text.as_slice())?;
    Ok(graph)
}

pub fn site_of(graph: &Graph) -> Result<&Site, Fail> {
    let function = graph.functions.as_slice().first().ok_or("a function")?;
    let site = function.sites.as_slice().first().ok_or("a site")?;
    Ok(site)
}

pub fn vertex_of(graph: &Graph) -> Result<&Vertex, Fail> {
    let vertex = site_of(graph)?.vertices.as_slice().first();
    Ok(vertex.ok_or("a vertex")?)
}

/// What a site assumes.
pub fn site_view<'a>(image: &'a Image, site: &'a Site) -> SiteView<'a> {
    SiteView {
        context: Context {
            image,
            below: 65_536,
            above: 4096,
            seps: site.seps.as_slice(),
        },
        fork: site.fork.as_ref(),
        keeps: site.keeps.as_slice(),
    }
}
