ghost use Rattle.instruction_laws.specs.StepLaw.{StepLaw};
ghost use Rattle.instruction_laws.specs.Fork.{ForkLaw};

use forest_laws::forest_laws;
use machine_laws::step_laws;
use number_laws::{arithmetic_laws, comparison_laws, low_bits_laws};
use table_laws::table_laws;
use term_laws::laws_of_terms;

/// Each ordinary instruction leads to one of its cases, and each case of a pair that is told apart is true where it
/// applies. The call does nothing.
pub fn instruction_laws()
    ensures step { StepLaw }
    ensures fork { ForkLaw }
{
    low_bits_laws();
    comparison_laws();
    arithmetic_laws();
    laws_of_terms();
    table_laws();
    step_laws();
    forest_laws();
}
