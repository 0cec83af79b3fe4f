ghost use Rattle.call_laws.specs.Calls.{CallLaw, SyscallLaw};
ghost use Rattle.call_laws.specs.Target.{TargetLaw};

use forest_laws::forest_laws;
use machine_laws::step_laws;
use number_laws::{arithmetic_laws, comparison_laws, low_bits_laws};
use table_laws::table_laws;
use term_laws::laws_of_terms;

/// What is known after a call or a system call is true, once it is back, and a call goes to its target. The call does
/// nothing.
pub fn call_laws()
    ensures call { CallLaw }
    ensures syscall { SyscallLaw }
    ensures target { TargetLaw }
{
    low_bits_laws();
    comparison_laws();
    arithmetic_laws();
    laws_of_terms();
    table_laws();
    step_laws();
    forest_laws();
}
