ghost use Rattle.std.specs.Prelude.{◌≡◌, ◌↔◌, false, IsTrue, All, ◌∷◌, []};
ghost use Rattle.std.specs.Option.{option_copied, IsSomeAnd};
ghost use Rattle.simulation.specs.World as theory;
ghost use Rattle.simulation.specs.Graph.{vertex_at, view_of};
ghost use Rattle.simulation.specs.Valid.{EdgeHolds, EdgesHold, StepHolds, AfterHolds, CallHolds};
ghost use Rattle.simulation.specs.Valid.{KindHolds, SiteHolds, FunctionHolds, Valid};
ghost use Rattle.simulation_example.specs.Example.{case_at, place_at, cases, kind_of, example, rules};
ghost use Rattle.simulation_example.specs.Predicate.{Returns, entry_pred};

use crate::graph::{Function, Graph, Kind, Site, Vertex};
use crate::machine::{Image, Instr, next_address};
use crate::predicate::Pred;

/// The vertex with a number at the first site of an address.
fn vertex_at<'a>(function: &'a Function, address: u64, number: u32) -> Option<&'a Vertex>
    ensures { (image : Image) →
        option_copied result ≡ vertex_at (example image) function.now address number }
{
    function.site(address)?.vertices.get(number as usize)
}

/// Whether an edge leads to its case's address, to a vertex that is there and that it entails.
fn edge_holds(function: &Function, address: u64, pred: Pred, edge: (u64, u32)) -> bool
    ensures { (image : Image) →
        IsTrue result ↔ EdgeHolds (example image) (rules image)
        function.now (case_at address pred) edge }
{
    edge.0 == address
        && match vertex_at(function, edge.0, edge.1) {
            None => false,
            Some(vertex) => pred.entails(vertex.pred),
        }
}

/// Whether the edges stand for one case.
fn one_edge(function: &Function, address: u64, pred: Pred, out: &[(u64, u32)]) -> bool
    ensures { (image : Image) → IsTrue result ↔
        EdgesHold (example image) (rules image) function.now (case_at address pred ∷ []) out.now }
{
    match out {
        [edge] => edge_holds(function, address, pred, *edge),
        _ => false,
    }
}

/// Whether the edges stand for two cases with one predicate.
fn two_edges(function: &Function, address: u64, target: u64, pred: Pred, out: &[(u64, u32)]) -> bool
    ensures { (image : Image) → IsTrue result ↔
        EdgesHold (example image) (rules image) function.now
        (case_at address pred ∷ case_at target pred ∷ []) out.now }
{
    match out {
        [first, second] => {
            edge_holds(function, address, pred, *first)
                && edge_holds(function, target, pred, *second)
        }
        _ => false,
    }
}

/// Whether the edges of a vertex stand for the cases of an ordinary instruction.
#[tactic(auto, unfolding(crate::specs::Example::cases))]
fn cases_hold(function: &Function, site: &Site, instr: Instr, vertex: &Vertex) -> bool
    ensures { (image : Image) → IsTrue result ↔
        IsSomeAnd (cases (view_of (example image) function.now site.now) instr vertex.now.pred)
        (λ cases. EdgesHold (example image) (rules image) function.now cases vertex.now.out.items) }
{
    let next = next_address(site.address);
    let pred = vertex.pred.step(site.address, instr);
    match instr {
        Instr::Nop | Instr::Draw | Instr::Swap => one_edge(function, next, pred, &vertex.out),
        Instr::Branch(target) => two_edges(function, next, target, pred, &vertex.out),
        _ => false,
    }
}

/// Whether the rules of a vertex at a `step` site hold, where the instruction stands.
fn step_holds(function: &Function, site: &Site, instr: Instr, vertex: &Vertex) -> bool
    ensures { (image : Image) → IsTrue result ↔
        StepHolds (example image) (rules image) (place_at image function.now site.now instr)
        vertex.now }
{
    match site.fork {
        Some(_) => false,
        None => cases_hold(function, site, instr, vertex),
    }
}

/// Whether the rules of a vertex at an `outside` site hold, where the instruction stands.
fn after_holds(function: &Function, site: &Site, instr: Instr, vertex: &Vertex) -> bool
    ensures { (image : Image) → IsTrue result ↔
        AfterHolds (example image) (rules image) (place_at image function.now site.now instr)
        vertex.now }
{
    let next = next_address(site.address);
    let pred = vertex.pred.after(site.address, &site.keeps);
    vertex.pred.keeps_hold(&site.keeps) && one_edge(function, next, pred, &vertex.out)
}

/// Whether the rules of each vertex at a `step` site hold, where the instruction stands.
fn steps_hold(function: &Function, site: &Site, instr: Instr) -> bool
    ensures { (image : Image) → IsTrue result ↔
        All (StepHolds (example image) (rules image) (place_at image function.now site.now instr))
        site.now.vertices.items }
{
    for vertex in &site.vertices {
        if !step_holds(function, site, instr, vertex) {
            return false;
        }
    }
    true
}

/// Whether the rules of each vertex at an `outside` site hold, where the instruction stands.
fn afters_hold(function: &Function, site: &Site, instr: Instr) -> bool
    ensures { (image : Image) → IsTrue result ↔
        All (AfterHolds (example image) (rules image) (place_at image function.now site.now instr))
        site.now.vertices.items }
{
    for vertex in &site.vertices {
        if !after_holds(function, site, instr, vertex) {
            return false;
        }
    }
    true
}

/// Whether each vertex of a `ret` site is verified.
fn returns_hold(site: &Site) -> bool
    ensures { IsTrue result ↔ All (λ vertex. Returns vertex.pred) site.now.vertices.items }
{
    site.vertices.iter().all(|vertex| vertex.pred.returns())
}

/// Whether vertex 0 at the entry has the entry predicate.
fn entry_holds(function: &Function) -> bool
    ensures { (image : Image) → IsTrue result ↔
        IsSomeAnd (vertex_at (example image) function.now function.now.entry 0)
        (λ vertex. vertex.pred ≡ entry_pred) }
{
    match vertex_at(function, function.entry, 0) {
        None => false,
        Some(vertex) => vertex.pred.is_entry(),
    }
}

/// Whether the rules of a vertex at a `call` site hold, where the instruction stands.
fn call_holds(function: &Function, site: &Site, instr: Instr, target: u64, vertex: &Vertex) -> bool
    ensures { (image : Image) → IsTrue result ↔
        CallHolds (example image) (rules image)
        (place_at image function.now site.now instr) target vertex.now }
{
    match instr.call_target() {
        None => false,
        Some(to) => to == target && after_holds(function, site, instr, vertex),
    }
}

/// Whether the rules of each vertex at a `call` site hold, where the instruction stands.
fn calls_hold(function: &Function, site: &Site, instr: Instr, target: u64) -> bool
    ensures { (image : Image) → IsTrue result ↔
        All (CallHolds (example image) (rules image)
        (place_at image function.now site.now instr) target)
        site.now.vertices.items }
{
    for vertex in &site.vertices {
        if !call_holds(function, site, instr, target, vertex) {
            return false;
        }
    }
    true
}

/// Whether the rules of a `step` site hold.
fn step_site(image: &Image, function: &Function, site: &Site) -> bool
    ensures { (graph : Graph) → IsTrue result ↔
        KindHolds (example image.now) (rules image.now) graph function.now site.now theory.Step }
{
    match image.instr_at(site.address) {
        None => false,
        Some(instr) => instr.is_ordinary() && steps_hold(function, site, instr),
    }
}

/// Whether the rules of a `call` site hold.
fn call_site(image: &Image, graph: &Graph, function: &Function, site: &Site, target: u64) -> bool
    ensures { IsTrue result ↔
        KindHolds (example image.now) (rules image.now) graph.now function.now site.now
        (theory.Call target) }
{
    if !graph.has_callee(target) {
        return false;
    }
    match image.instr_at(site.address) {
        None => false,
        Some(instr) => instr.is_call() && calls_hold(function, site, instr, target),
    }
}

/// Whether the rules of an `outside` site hold.
fn outside_site(image: &Image, function: &Function, site: &Site) -> bool
    ensures { (graph : Graph) → IsTrue result ↔
        KindHolds (example image.now) (rules image.now) graph function.now site.now theory.Outside }
{
    match image.instr_at(site.address) {
        None => false,
        Some(instr) => instr.is_call_or_syscall() && afters_hold(function, site, instr),
    }
}

/// Whether the rules of a `ret` site hold.
fn return_site(image: &Image, function: &Function, site: &Site) -> bool
    ensures { (graph : Graph) → IsTrue result ↔
        KindHolds (example image.now) (rules image.now) graph function.now site.now theory.Return }
{
    match image.instr_at(site.address) {
        None => false,
        Some(instr) => instr.is_return() && returns_hold(site),
    }
}

/// Whether the rules of the site's kind hold.
fn kind_holds(image: &Image, graph: &Graph, function: &Function, site: &Site) -> bool
    ensures { IsTrue result ↔
        KindHolds (example image.now) (rules image.now) graph.now function.now site.now
        (kind_of site.now.kind) }
{
    match site.kind {
        Kind::Step => step_site(image, function, site),
        Kind::Call(target) => call_site(image, graph, function, site, target),
        Kind::Outside => outside_site(image, function, site),
        Kind::Return => return_site(image, function, site),
        Kind::End => true,
    }
}

/// Whether all rules of a site hold.
fn site_holds(image: &Image, graph: &Graph, function: &Function, site: &Site) -> bool
    ensures { IsTrue result ↔
        SiteHolds (example image.now) (rules image.now) graph.now function.now site.now }
{
    site.seps.is_empty() && kind_holds(image, graph, function, site)
}

/// Whether all rules of a function hold.
fn function_holds(image: &Image, graph: &Graph, function: &Function) -> bool
    ensures { IsTrue result ↔
        FunctionHolds (example image.now) (rules image.now) graph.now function.now }
{
    entry_holds(function) && sites_hold(image, graph, function)
}

/// Whether all rules of each site hold.
fn sites_hold(image: &Image, graph: &Graph, function: &Function) -> bool
    ensures { IsTrue result ↔
        All (SiteHolds (example image.now) (rules image.now) graph.now function.now)
        function.now.sites.items }
{
    for site in &function.sites {
        if !site_holds(image, graph, function, site) {
            return false;
        }
    }
    true
}

/// Whether all rules of a function hold, none of which is tried on a refused one.
fn refused_or_holds(image: &Image, graph: &Graph, function: &Function) -> bool
    ensures { IsTrue result ↔ (function.now.refused ≡ false →
        FunctionHolds (example image.now) (rules image.now) graph.now function.now) }
{
    function.refused || function_holds(image, graph, function)
}

/// Whether the graph breaks none of the rules of its functions, sites, vertices and edges.
pub fn check(image: &Image, graph: &Graph) -> bool
    ensures { IsTrue result ↔ Valid (example image.now) (rules image.now) graph.now }
{
    for function in &graph.functions {
        if !refused_or_holds(image, graph, function) {
            return false;
        }
    }
    true
}
