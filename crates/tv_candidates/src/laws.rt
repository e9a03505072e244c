// The laws of inductive lists, each carried by a function that does nothing.

ghost use Rattle.std.specs.Prelude.{ℕ, List, ◌++◌};
ghost use Rattle.tv_cases.specs.LinearCases.{CaseSystem};
ghost use Rattle.tv_candidates.specs.declared.candidate.Candidate.{Candidate};
ghost use Rattle.tv_candidates.specs.Inductive.{IsInductive, IsPart};
ghost use Rattle.tv_candidates.specs.Laws.{HoldsOnRuns, HasFalseRow, IsNeverReached, KeepsLargest};

/// The rows of an inductive list hold wherever a run from the start comes, and it comes to no location with a row that no point meets.
pub fn inductive_rows_hold()
    ensures reached { (about : CaseSystem) (list : List Candidate) → IsInductive about list → HoldsOnRuns about list }
    ensures never { (about : CaseSystem) (list : List Candidate) (l : ℕ) →
        IsInductive about list → HasFalseRow about l list → IsNeverReached about l }
{}

/// Two inductive lists together are inductive.
pub fn together_inductive()
    ensures { (about : CaseSystem) (a b : List Candidate) → IsInductive about a → IsInductive about b → IsInductive about (a ++ b) }
{}

/// The greatest inductive part of a longer list has that of a shorter one; so a list has one greatest inductive part.
pub fn one_largest_part()
    ensures { (about : CaseSystem) (old new : List Candidate) → IsPart old new → KeepsLargest about old new }
{}
