ghost use Rattle.simulation.specs.Laws.{StateLaw, BeginLaw, EntryLaw, EntailsLaw};
ghost use Rattle.simulation.specs.Laws.{StepLaw, TargetLaw, PushLaw};
ghost use Rattle.simulation.specs.Laws.{CallLaw, OutsideLaw, SyscallLaw, ReturnLaw};
ghost use Rattle.simulation_example.specs.Example.{example, rules};

use crate::machine::Image;
use simulation::Subject;

impl Subject for Image {
    ghost world = { λ image. example image };

    ghost rules = { λ image. rules image };
}

/// What holds of states, of valuations and of predicates.
#[tactic(auto, unfolding(crate::specs::Machine::next))]
pub fn base_laws()
    ensures state { (image : Image) → StateLaw (example image) }
    ensures begin { (image : Image) → BeginLaw (example image) (rules image).Began }
    ensures entry { (image : Image) → EntryLaw (example image) (rules image) }
    ensures entails { (image : Image) → EntailsLaw (example image) (rules image) }
{}

/// An ordinary instruction leads to one of its cases.
pub fn step_law()
    ensures { (image : Image) → StepLaw (example image) (rules image) }
{}

/// Where a call goes, and what it pushes.
#[tactic(auto, unfolding(crate::specs::Machine::next, crate::specs::Machine::pushed, crate::specs::Machine::target_of))]
pub fn target_laws()
    ensures target { (image : Image) → TargetLaw (example image) (rules image) }
    ensures push { (image : Image) → PushLaw (example image) }
{}

/// What holds after a call of either kind and after a syscall.
pub fn call_laws()
    ensures call { (image : Image) → CallLaw (example image) (rules image) }
    ensures outside { (image : Image) → OutsideLaw (example image) (rules image) }
    ensures syscall { (image : Image) → SyscallLaw (example image) (rules image) }
{}

/// Where a verified return goes, and what it gives back.
#[tactic(auto, unfolding(crate::specs::Machine::next))]
pub fn return_law()
    ensures { (image : Image) → ReturnLaw (example image) (rules image) }
{}
