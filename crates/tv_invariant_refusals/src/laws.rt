// The laws of refusals, carried by a function that does nothing.

ghost use Rattle.tv_cases.specs.LinearCases.{CaseSystem};
ghost use Rattle.tv_invariant_refusals.specs.Refusals.{InductiveRefuses};

/// A refusal of `tv_invariant::largest_inductive` is one of a layer that asks of rows derived from the candidates, with one case on
/// the way and at most one target.
pub fn inductive_parts_are_derived()
    ensures { (about : CaseSystem) → InductiveRefuses about }
{}
