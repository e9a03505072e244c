// The laws of rankings, rounds and sizes, each carried by a function that does nothing.

ghost use Rattle.std.specs.Prelude.{ℕ, List, Contains};
ghost use Rattle.tv_program.specs.Steps.{State};
ghost use Rattle.tv_program.specs.Systems.{System};
ghost use Rattle.tv_formula.specs.Properties.{Property};
ghost use Rattle.tv_formula.specs.declared.tree.Path.{Path};
ghost use Rattle.tv_formula.specs.declared.tree.Shape.{Shape};
ghost use Rattle.tv_cases.specs.LinearCases.{LinearCase, CaseSystem};
ghost use Rattle.tv_known.specs.Ranking.{HasLexicographicRanking};
ghost use Rattle.tv_known.specs.Known.{IsDecided};
ghost use Rattle.tv_known.specs.Recurrences.{HasSimpleRecurrence};
ghost use Rattle.tv_known.specs.Laws.{AreProper, AreCasesOf, EveryRunEnds, NoneIsEndless, ProgramEnds, IsRankedUntil, SettledIsRight, SettledHasAll, KnownHolds, KnownHoldsIn, SizeBoundsCounts, SizeBoundsRounds, EachCaseCounts, SomeNeverEnds};

/// Where the cases have a lexicographic linear ranking over the rationals, every run ends, and so does every run of their program.
pub fn ranked_cases_end()
    ensures ends { (about : CaseSystem) → HasLexicographicRanking about → EveryRunEnds about }
    ensures endless { (about : CaseSystem) → HasLexicographicRanking about → NoneIsEndless about }
    ensures program { (p : System) (about : CaseSystem) → AreCasesOf p about → HasLexicographicRanking about → ProgramEnds p }
{}

/// The sides of a fixpoint: the states on the way, and those at the end.
pub trait Sides {
    ghost hold: { State → Type 0 };

    ghost end: { State → Type 0 };
}

/// A round that equals the next one has the states where the fixpoint holds: only those, and all where each side can be told.
pub fn settled_round_is_exact<S: Sides>()
    ensures right { (about : CaseSystem) → AreProper about → (path : Path) (shape : Shape) (k : ℕ) → SettledIsRight about path shape S.hold S.end k }
    ensures all { (about : CaseSystem) → AreProper about → (path : Path) (shape : Shape) (k : ℕ) → SettledHasAll about path shape S.hold S.end k }
{}

/// Where the rounds tell of a state, the normal property holds there.
pub fn known_states_are_right()
    ensures cases { (about : CaseSystem) → AreProper about → (f : Property) → KnownHolds about f }
    ensures program { (p : System) (about : CaseSystem) → AreCasesOf p about → (f : Property) → KnownHoldsIn p about f }
{}

/// A fixpoint that every run must reach is decided, where its sides are properties of one state and the cases have a ranking.
pub fn ranked_until_is_decided()
    ensures { (about : CaseSystem) (f : Property) → IsRankedUntil about f → IsDecided about f }
{}

/// The size is no less than any count that it stands for, and each case from a location counts.
pub fn sizes_bound_counts()
    ensures properties { (about : CaseSystem) (last : ℕ) (f : Property) → SizeBoundsCounts about last f }
    ensures rounds { (about : CaseSystem) (last : ℕ) (f : Property) → SizeBoundsRounds about last f }
    ensures branches { (cases : List LinearCase) (count : ℕ → ℕ) (c : LinearCase) → Contains cases c → EachCaseCounts cases count c }
{}

/// Where there is a simple recurrence, some run from the start has no end.
pub fn simple_recurrences_never_end()
    ensures { (about : CaseSystem) → HasSimpleRecurrence about → SomeNeverEnds about }
{}
