// The laws of the texts of programs, each carried by a function that does nothing.

ghost use Rattle.std.specs.Prelude.{ℕ, List};
ghost use Rattle.tv_reader.specs.Laws.{HasOneFirstFault, HasOneProgram, IsFaultlessIfProgram};

/// A text is that of one program at most.
pub fn one_program()
    ensures { (text : List ℕ) → HasOneProgram text }
{}

/// A text has one first fault at most: one kind, at one place.
pub fn one_first_fault()
    ensures { (text : List ℕ) → HasOneFirstFault text }
{}

/// The text of a program has no fault.
pub fn program_texts_are_faultless()
    ensures { (text : List ℕ) → IsFaultlessIfProgram text }
{}
