ghost use Rattle.x86_machine.specs.NamedLaws.{NamedLaws};
ghost use Rattle.x86_machine.specs.StepLaws.{BaseLaw, CallLaw, OutcomeLaw, PlaceLaw, PreserveLaw, RangeLaws, ReturnLaw, StateLaw, StoreLaws};

/// A step from a state in range leads to a state in range; which numbers of one are in range, and which writes keep it
/// so; a store keeps the bytes elsewhere and is read back; a state comes next exactly where the outcome says so; a step
/// keeps each register and byte that the instruction does not write, and the FS base; one that neither jumps nor calls nor
/// returns goes on at the next instruction; what a call pushes, where it goes and what it keeps; what a return reads and
/// keeps; what the value that an instruction names stands for. The call does nothing.
pub fn step_laws()
    ensures states { StateLaw }
    ensures ranges { RangeLaws }
    ensures stores { StoreLaws }
    ensures outcomes { OutcomeLaw }
    ensures preserves { PreserveLaw }
    ensures base { BaseLaw }
    ensures place { PlaceLaw }
    ensures calls { CallLaw }
    ensures returns { ReturnLaw }
    ensures named { NamedLaws }
{}
