ghost use Rattle.simulation.specs.Laws.{StateLaw, BeginLaw, PushLaw};
ghost use Rattle.elf_image.specs.declared.image.Image.{Image};
ghost use Rattle.predicate_meaning.specs.Begin.{Began};
ghost use Rattle.graph_runs.specs.World.{x86};
ghost use Rattle.graph_runs.specs.Laws.{EntryLaw, EntailsLaw, ReturnLaw};

use instr_at::instr_at_laws;
use machine_laws::step_laws;
use spelling_laws::spelled_in_form;
use term_laws::laws_of_terms;

/// The laws of the machine, of the symbols of an activation, of predicates and of returns, in the
/// world of every executable. The call does nothing.
pub fn world_laws()
    // An instruction leads from a state in range to one; what a call pushes and keeps.
    ensures state { (image : Image) → StateLaw (x86 image) }
    ensures push { (image : Image) → PushLaw (x86 image) }

    // What the symbols of an activation are, and where the entry predicate holds.
    ensures begin { (image : Image) → BeginLaw (x86 image) Began }
    ensures entry { EntryLaw }

    // What is entailed holds, and what a verified return gives back.
    ensures entails { EntailsLaw }
    ensures restores { ReturnLaw }
{
    instr_at_laws();
    spelled_in_form();
    step_laws();
    laws_of_terms();
}
