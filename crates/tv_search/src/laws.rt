// What the answers of a search exclude and what they are causes of, carried by functions that do nothing.

ghost use Rattle.std.specs.Prelude.{ℕ, List, Option};
ghost use Rattle.tv_cases.specs.LinearCases.{CaseSystem};
ghost use Rattle.tv_candidates.specs.declared.candidate.Candidate.{Candidate};
ghost use Rattle.tv_farkas.specs.declared.budget.Budget.{Budget};
ghost use Rattle.tv_search.specs.declared.search_fault.SearchFault.{SearchFault};
ghost use Rattle.tv_search.specs.Laws.{ShutsOut, LeavesNone, IsCauseOf};

/// Where all proposers report their rest and the greatest inductive part of it has no integer point at the location, no point is left: so
/// neither of the faults `Invariant` and `Paths` comes, whatever the limits are.
pub fn shut_out_leaves_none<P>()
    ensures { (rest : P → Option (List Candidate)) (ps : List P) (about : CaseSystem) (l : ℕ) →
        ShutsOut rest ps about l → LeavesNone rest ps about l }
{}

/// Where a search ends with `Invariant`, the invariants are too weak, and where it ends with `Paths`, there are too many paths: each is the
/// cause that an unknown answer reports.
pub fn faults_are_causes<P>()
    ensures { (rest : P → Option (List Candidate)) (ps : List P) (about : CaseSystem) (l : ℕ) (budget : Budget) (fault : SearchFault) →
        IsCauseOf rest ps about l budget fault }
{}
