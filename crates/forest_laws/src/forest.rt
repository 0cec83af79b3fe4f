ghost use Rattle.forest_laws.specs.Laws.{DifferenceLaw, RelateLaw, StoreLaw, LoadLaw, AliasLaw, ForgetLaw, FindLaw, ClearLaw, LevelLaws};

/// The laws of the forest's rules; the call does nothing.
pub fn forest_laws()
    ensures difference { DifferenceLaw }
    ensures relate { RelateLaw }
    ensures store { StoreLaw }
    ensures load { LoadLaw }
    ensures alias { AliasLaw }
    ensures forget { ForgetLaw }
    ensures find { FindLaw }
    ensures clear { ClearLaw }
    ensures levels { LevelLaws }
{}
