ghost use Rattle.number_laws.specs.LowBitLaws.{CutLaws, SextLaws};
ghost use Rattle.number_laws.specs.Laws.{ComparisonLaws, IntegerLaws, ProductLaws, ShiftLaws, SumLaws};

/// The laws of the low bits of a number, alone and extended by their sign; the call does nothing.
pub fn low_bits_laws()
    ensures cut { CutLaws }
    ensures sext { SextLaws }
{}

/// Laws of the integers that numbers stand for, of sums, differences and products modulo 2 to the width, and of
/// shifts; the call does nothing.
pub fn arithmetic_laws()
    ensures integers { IntegerLaws }
    ensures sums { SumLaws }
    ensures shifts { ShiftLaws }
    ensures products { ProductLaws }
{}

/// The flags of a subtraction decide each unsigned and signed comparison, as `cond` reads them; the call does nothing.
pub fn comparison_laws()
    ensures { ComparisonLaws }
{}
