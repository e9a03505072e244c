// The laws of refusals, carried by a function that does nothing.

ghost use Rattle.tv_cases.specs.LinearCases.{CaseSystem};
ghost use Rattle.tv_lexrank_refusals.specs.Refusals.{StepsRefuse, StartRefuses, RowsRefuse};

/// A refusal of `tv_lexrank::lex_rank` under known rows is one of a layer that asks of rows derived from these: with one case on the way and
/// one target where it is not settled whether a case leads into them, and of a list of them where it is not settled whether a case is ever
/// taken. So is a refusal of the cover of the start.
pub fn ranks_are_derived()
    ensures steps { (about : CaseSystem) → StepsRefuse about }
    ensures start { (about : CaseSystem) → StartRefuses about }
    ensures rows { (about : CaseSystem) → RowsRefuse about }
{}
