ghost use Rattle.push_witness.specs.Witness.{Witnesses, image, graph};
ghost use Rattle.graph_runs.specs.World.{HasSafeRuns};

use entailment_laws::laws_of_entailment;
use safe_runs::runs_are_safe;

/// The executable of the example `push` is in form, and its graph is well formed and valid: these
/// are the premises of the theorem. The call does nothing.
pub fn push_meets_the_premises()
    ensures { Witnesses }
{
    laws_of_entailment();
}

/// So every run of it that keeps what the graph prints is safe. The call does nothing.
pub fn push_is_safe()
    ensures { HasSafeRuns image graph }
{
    push_meets_the_premises();
    runs_are_safe();
}
