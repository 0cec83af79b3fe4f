ghost use Rattle.std.specs.Prelude.{◌↔◌, IsTrue};
ghost use Rattle.simulation.specs.Theorem.{ValidIsSafe, SafeRuns};
ghost use Rattle.simulation.specs.Valid.{Valid};
ghost use Rattle.simulation_example.specs.Example.{example, rules};

use crate::check::check;
use crate::graph::Graph;
use crate::laws::{base_laws, call_laws, return_law, step_law, target_laws};
use crate::machine::Image;
use simulation::simulation;

/// The theorem for this machine: a valid graph has safe runs alone.
pub fn runs_are_safe()
    ensures { (image : Image) → ValidIsSafe (example image) (rules image) }
{
    base_laws();
    step_law();
    target_laws();
    call_laws();
    return_law();
    simulation::<Image>();
}

/// Whether a graph is valid for an image. Where it is, every run that keeps what it prints is
/// safe, from every start and for every list of moves.
pub fn accept(image: &Image, graph: &Graph) -> bool
    ensures exact { IsTrue result ↔ Valid (example image.now) (rules image.now) graph.now }
    ensures safe { IsTrue result → SafeRuns (example image.now) graph.now }
{
    runs_are_safe();
    check(image, graph)
}
