// The laws of covers over derived rows, carried by a function that does nothing.

ghost use Rattle.std.specs.Prelude.{ℕ, List};
ghost use Rattle.tv_linear.specs.Linear.{Linear};
ghost use Rattle.tv_cases.specs.LinearCases.{LinearCase, CaseSystem};
ghost use Rattle.tv_derived.specs.Scopes.{Scope, Placed};
ghost use Rattle.tv_derived.specs.CaseQuestions.{IsAsked};
ghost use Rattle.tv_cover_refusals.specs.Covers.{CoverRefuses, CoverRefusesCase};

/// A refusal of `tv_cover::cover` over derived rows, and of the cover that shows that a case keeps a row.
pub fn covers_are_derived()
    ensures refusals { (about : CaseSystem) (base : List Placed) (f : Scope) (h : ℕ) → CoverRefuses about base f h }
    ensures case { (about : CaseSystem) (c : LinearCase) (rows : List Linear) (owed : Linear) →
        IsAsked about c owed → CoverRefusesCase about c rows owed }
{}
