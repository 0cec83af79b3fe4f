ghost use Rattle.lifted_exact.specs.Laws.{ExactLaw, FormLaw};

/// The laws of the function that is built of what was found and is known, where a round changed nothing; the call does nothing.
pub fn laws_of_lifted()
    ensures exact { ExactLaw }
    ensures form { FormLaw }
{}
