ghost use Rattle.entailment_laws.specs.Laws.{ReflexiveLaw, TransitiveLaw, DecidedLaw, SameLaw, OwnLaw, OtherLaw, UnchangedLaw, GreatestLaw};

/// The laws of entailment; the call does nothing.
pub fn laws_of_entailment()
    ensures reflexive { ReflexiveLaw }
    ensures transitive { TransitiveLaw }
    ensures decided { DecidedLaw }
    ensures same { SameLaw }
    ensures own { OwnLaw }
    ensures other { OtherLaw }
    ensures unchanged { UnchangedLaw }
    ensures greatest { GreatestLaw }
{}
