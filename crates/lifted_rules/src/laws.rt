ghost use Rattle.lifted_rules.specs.Laws.{ValidLaw, CodeLaw};

use instr_at::instr_at_laws;

/// The laws of what is lifted; the call does nothing.
pub fn laws_of_lifting()
    ensures valid { ValidLaw }
    ensures code { CodeLaw }
{
    instr_at_laws();
}
