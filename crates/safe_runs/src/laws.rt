ghost use Rattle.graph_runs.specs.World.{x86};
ghost use Rattle.graph_rules.specs.Rules.{rules};
ghost use Rattle.safe_runs.specs.Laws.{LawsHold, SafeLaw};

use call_laws::call_laws;
use elf_image::Image;
use graph_runs::world_laws;
use instr_at::instr_at_laws;
use instruction_laws::instruction_laws;
use machine_laws::step_laws;
use simulation::{Subject, simulation};
use spelling_laws::spelled_in_form;

// An executable, as the subject of the theorem.
struct Checked {
    image: Image,
}

impl Subject for Checked {
    ghost world = { λ c. x86 c.image };

    ghost rules = { λ c. rules c.image };
}

/// The laws of one instruction, for every instruction. The call does nothing.
pub fn rule_laws()
    ensures { LawsHold }
{
    instr_at_laws();
    spelled_in_form();
    step_laws();
    world_laws();
    instruction_laws();
    call_laws();
}

/// The law of valid graphs: every run of one that keeps what the graph prints is safe, from every start at the entry of a
/// function that is not refused. The call does nothing.
pub fn runs_are_safe()
    ensures { SafeLaw }
{
    rule_laws();
    simulation::<Checked>();
}
