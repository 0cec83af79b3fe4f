ghost use Rattle.table_laws.specs.Laws.{TableLaws, TargetLaws};

/// The numbers of a table are those of its entries, which are fixed; a jump that is a constant after one of a list of
/// numbers goes to one of its targets, and each target is code and comes from one of the numbers. The call does nothing.
pub fn table_laws()
    ensures tables { TableLaws }
    ensures jumps { TargetLaws }
{}
