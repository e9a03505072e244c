// The laws of the causes, each carried by a function that does nothing.

ghost use Rattle.std.specs.Prelude.{ℕ, List, ℤ};
ghost use Rattle.tv_cases.specs.LinearCases.{CaseSystem};
ghost use Rattle.tv_formula.specs.Properties.{Property};
ghost use Rattle.tv_candidates.specs.declared.candidate.Candidate.{Candidate};
ghost use Rattle.tv_causes.specs.Causes.{Told, IsInvariantCause};
ghost use Rattle.tv_causes.specs.Invariants.{IsSufficient};
ghost use Rattle.tv_causes.specs.Laws.{SafetyIsSettled, NoShortRun};

/// Where the greatest inductive part of what is offered has no integer point at a location, no cause for its safety speaks of invariants.
pub fn sufficient_invariants()
    ensures { (about : CaseSystem) (f : Property) (rests : List (List Candidate)) (l : ℕ) →
        IsSufficient about rests l → SafetyIsSettled about f rests l }
{}

/// Where invariants are too weak, no run of at most 8 steps comes to the location.
pub fn weak_invariants()
    ensures { (about : CaseSystem) (f : Property) (told : Told) (l : ℕ) (point : List ℤ) →
        IsInvariantCause about f told l point → NoShortRun about l }
{}
