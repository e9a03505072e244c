// The laws of regions that lack only states where the formula fails, and of gaps, each carried by a function that does nothing.

ghost use Rattle.tv_formula.specs.Properties.{Property};
ghost use Rattle.tv_formula.specs.declared.tree.Path.{Path};
ghost use Rattle.tv_formula.specs.declared.tree.Shape.{Shape};
ghost use Rattle.tv_farkas.specs.declared.budget.Budget.{Budget};
ghost use Rattle.tv_cases.specs.LinearCases.{CaseSystem, AreCases};
ghost use Rattle.tv_cert.specs.declared.claim.Claim.{Claim};
ghost use Rattle.tv_known.specs.Laws.{AreProper};
ghost use Rattle.tv_pre.specs.declared.gap.Gap.{Gap};
ghost use Rattle.tv_linear.specs.declared.region.Region.{Region};
ghost use Rattle.tv_pre.specs.Full.{FullHasAll, FullTell};
ghost use Rattle.tv_pre.specs.Sized.{FewIsWithinSize};
ghost use Rattle.tv_pre.specs.Told.{AcyclicIsSettled, NoneIsUnsettled, SettledIsTold, DecidedIsTold, PlainIsTold, RankedUntilIsTold, AcyclicIsRanked, AcyclicIsUnrefused, RefusalIsWithinSize, QuestionIsWithinSize};

use tv_known::Sides;

/// Where a region lacks only states at which the negation of a formula holds, it has each state where the formula holds; and such regions of
/// a formula and of its negation have each state of the program between them.
pub fn full_regions_tell()
    ensures all { (about : CaseSystem) (f : Property) → FullHasAll about f }
    ensures tell { (about : CaseSystem) (f : Property) → FullTell about f }
{}

/// No claim is left open with a gap where the program is tame for the normal form, and the last round settles each fixpoint of it, and
/// termination and its negation where they stand in it; nor where the program has neither a draw nor a cycle. Nothing is asked of the
/// negation, as its rounds are the complements of those of the normal form.
pub fn settled_claims_are_told()
    ensures tame { (about : CaseSystem) (claim : Claim) (f : Property) (budget : Budget) (gap : Gap) → SettledIsTold about claim f budget gap }
    ensures plain { (about : CaseSystem) → AreProper about → (claim : Claim) (budget : Budget) (gap : Gap) → PlainIsTold about claim budget gap }
{}

/// No claim is left open with a gap where the program is tame for the normal form, and the rounds up to the last tell of each state at the
/// start that the property holds there, or of one that the negation does: whether other fixpoints of it are settled or not, and of
/// states that are not at the start.
pub fn decided_claims_are_told()
    ensures { (about : CaseSystem) → AreCases about → (claim : Claim) (f : Property) (budget : Budget) (gap : Gap) →
        DecidedIsTold about claim f budget gap }
{}

/// Where a property that is to come to its end on every run has arguments of one state, the program has no draw and a lexicographic
/// ranking, and each state is at the end, or on the way with a step, no claim of it is left open with a gap. Where a system of the search
/// for the ranking is refused, that refusal is reported.
pub fn ranked_untils_are_told()
    ensures { (about : CaseSystem) → AreCases about → (claim : Claim) (f : Property) (budget : Budget) (gap : Gap) →
        RankedUntilIsTold about claim f budget gap }
{}

/// In a program without a cycle, the round of the number of locations equals the next one: it settles each fixpoint, and each subformula.
pub fn acyclic_rounds_settle<S: Sides>()
    ensures rounds { (about : CaseSystem) → AreProper about → (path : Path) (shape : Shape) → AcyclicIsSettled about path shape S.hold S.end }
    ensures formulas { (about : CaseSystem) → AreProper about → (f : Property) → NoneIsUnsettled about f }
{}

/// A program without a cycle has a lexicographic ranking, and no system of the search for it is refused.
pub fn acyclic_programs_are_ranked()
    ensures ranked { (about : CaseSystem) → AcyclicIsRanked about }
    ensures unrefused { (about : CaseSystem) → AreProper about → AcyclicIsUnrefused about }
{}

/// Where no case has a draw, a region with no more pieces than are counted for a formula has no more than the size of each property in whose
/// normal form or negation the formula stands.
pub fn regions_are_within_size()
    ensures { (about : CaseSystem) (f part : Property) (region : Region) → FewIsWithinSize about f part region }
{}

/// Where no case has a draw, a claim of a property whose conjunctions and disjunctions have parts is refused for too many pieces only where
/// the limit is below the size of the property: the number that is reported is above the limit, and no greater than the size.
pub fn refusals_are_within_size()
    ensures { (about : CaseSystem) → AreCases about → (claim : Claim) (f : Property) (budget : Budget) →
        RefusalIsWithinSize about claim f budget }
{}

/// Where no case has a draw, a question that a claim of such a property is refused for has no more targets at a location than the size of the
/// property. Those of a cover or a choice are pieces of a region of the claim's.
pub fn questions_are_within_size()
    ensures { (about : CaseSystem) → AreCases about → (claim : Claim) (f : Property) (budget : Budget) →
        QuestionIsWithinSize about claim f budget }
{}
