// The vertex that an edge names, what the step rules know of a site, and the place of a break. No call takes memory.
ghost use Rattle.std.specs.Prelude.{◌≡◌, map};
ghost use Rattle.std.specs.Option.{option_copied};
ghost use Rattle.graph_data.specs.Parts.{Ascends};
ghost use Rattle.step_values.specs.Views.{view_of as view};
ghost use Rattle.edge_checker.specs.Breaks.{broken, vertex_at, view_of};

use elf_image::Image;
use graph_data::{Function, Site, Vertex};
use graph_verdict::{Broken, Rule};
use mem_forest::Context;
use predicates::SiteView;

/// The vertex with the number at the first site with the address.
pub fn vertex_there(f: &Function, addr: u64, number: u32) -> Option<&Vertex>
    requires { Ascends (map (λ s. s.addr) f.now.sites) }
    ensures { option_copied result ≡ vertex_at f.now (addr, number) }
{
    match f.site_in_order(addr) {
        Some(site) => site.vertices.get(number as usize),
        None => None,
    }
}

/// What the step rules know of a site of a function.
pub fn view_of<'a>(image: &'a Image, f: &'a Function, s: &'a Site) -> SiteView<'a>
    ensures { view result ≡ view_of image.now f.now s.now }
{
    SiteView {
        context: Context {
            image,
            below: f.below,
            above: f.above,
            seps: s.seps.as_slice(),
        },
        fork: s.fork.as_ref(),
        keeps: s.keeps.as_slice(),
    }
}

/// The break of a rule at a site, a vertex and a case, by their numbers.
pub fn broken_at(f: &Function, s: &Site, vertex: u32, case: u32, rule: Rule) -> Broken
    ensures { result ≡ broken f.now.entry s.now.addr vertex case rule }
{
    Broken {
        function: f.entry,
        site: s.addr,
        vertex,
        case,
        rule,
    }
}
