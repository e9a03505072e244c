// The law of choices over derived rows, carried by a function that does nothing.

ghost use Rattle.std.specs.Prelude.{ℕ, List, Bool};
ghost use Rattle.tv_linear.specs.Linear.{Linear};
ghost use Rattle.tv_linear.specs.declared.region.Piece.{Piece};
ghost use Rattle.tv_cases.specs.LinearCases.{CaseSystem};
ghost use Rattle.tv_derived.specs.Scopes.{Placed};
ghost use Rattle.tv_choice_refusals.specs.Choices.{ChoiceRefuses};

/// A refusal of `tv_choice::choose` over derived rows.
pub fn choices_are_derived()
    ensures { (about : CaseSystem) (base : List Placed) (many h l : ℕ) (stop : Bool)
        → (rows : List Linear) (pieces : List Piece) → ChoiceRefuses about base many h l stop rows pieces }
{}
