// The laws of the texts of formulas, each carried by a function that does nothing.

ghost use Rattle.std.specs.Prelude.{ℕ, List};
ghost use Rattle.tv_formula_reader.specs.Laws.{HasOneFirstFault, HasOneFormula, IsFaultlessIfFormula};
ghost use Rattle.tv_program.specs.Systems.{System};

/// A text is that of one formula over a program at most.
pub fn one_formula()
    ensures { (p : System) (text : List ℕ) → HasOneFormula p text }
{}

/// A text has one first fault at most: one kind, at one place.
pub fn one_first_fault()
    ensures { (p : System) (text : List ℕ) → HasOneFirstFault p text }
{}

/// The text of a formula has no fault.
pub fn formula_texts_are_faultless()
    ensures { (p : System) (text : List ℕ) → IsFaultlessIfFormula p text }
{}
