ghost use Rattle.sym_terms.specs.Value.{Valuation, IsInRange};
ghost use Rattle.term_laws.specs.Laws.{OrderLaws, NormalLaws, SumLaws, ValueLaws, MentionLaw, LimitLaws, SymbolLaw};

/// The laws of terms; the call does nothing. The value laws hold under every valuation in range.
pub fn laws_of_terms()
    ensures order { OrderLaws }
    ensures normal { NormalLaws }
    ensures sums { SumLaws }
    ensures values { (u : Valuation) → IsInRange u → ValueLaws u }
    ensures mentioned { MentionLaw }
    ensures limit { LimitLaws }
    ensures symbol { SymbolLaw }
{}
