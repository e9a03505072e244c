// The laws of derived rows, each carried by a function that does nothing.

ghost use Rattle.std.specs.Prelude.{◌≡◌, ℕ, List, ℤ};
ghost use Rattle.tv_linear.specs.Linear.{Linear, columns, IsNarrow};
ghost use Rattle.tv_linear.specs.declared.region.Piece.{Piece};
ghost use Rattle.tv_cases.specs.LinearCases.{LinearCase, CaseSystem};
ghost use Rattle.tv_derived.specs.Scopes.{Scope, Placed};
ghost use Rattle.tv_derived.specs.Derived.{AllNarrow};
ghost use Rattle.tv_derived.specs.Laws.{CancelsByLeast, IsSumOf, IsWellHanded, AreEven, ScopesArePaths, ColumnsAreOfPaths, AreNarrowlyHanded, AreNarrow, AreAllDerived, Carries, PiecesAreAllDerived, IsDerivedOver, Steps, Denies, Tightens, GoesBefore, PutsTerms, GoesOn, EmptyRefuses, ListsAreDifferent, NothingComes};
ghost use Rattle.tv_derived.specs.CaseQuestions.{IsAsked, KnownAreDerived, OwedIsPut, OwedIsDenied, EmptyRefusesCase};

/// What is derived from rows that are themselves derived with `k` cases on the way is derived with `k` more.
pub fn carries()
    ensures { (about : CaseSystem) (old base : List Placed) (k : ℕ) → AreAllDerived about old base k → Carries about old base k }
{}

/// The rows of pieces are derived where those of each piece are, and a derived row of a location is one of a list over each case from there.
pub fn places_are_kept()
    ensures pieces { (about : CaseSystem) (base : List Placed) (k : ℕ) (ps : List Piece) → PiecesAreAllDerived about base k ps }
    ensures over { (about : CaseSystem) (base : List Placed) (c : LinearCase) (h : ℕ) → IsDerivedOver about base c h }
{}

/// A derived row has a column for each variable and each draw of its scope, and its numbers are below 2^62 in magnitude.
pub fn rows_are_even()
    ensures even { (about : CaseSystem) (base : List Placed) → IsWellHanded about base → AreEven about base }
    ensures narrow { (about : CaseSystem) (base : List Placed) → AreNarrowlyHanded about base → AreNarrow about base }
{}

/// The cases that are taken on the way to a derived row are a path, with at most one case more than those on the way, and a step that is too
/// wide is so at a column of such a path.
pub fn columns_are_of_paths()
    ensures scopes { (about : CaseSystem) (base : List Placed) → ScopesArePaths about base }
    ensures columns { (about : CaseSystem) (base : List Placed) → IsWellHanded about base → ColumnsAreOfPaths about base }
{}

/// The calls on rows make derived rows of derived rows, or are refused since a row made by one step is too wide.
pub fn steps_are_derived()
    ensures narrow { (r : Linear) → IsNarrow r → AllNarrow r }
    ensures made { (about : CaseSystem) (base : List Placed) (f : Scope) (h : ℕ) → Steps about base f h }
    ensures denied { (about : CaseSystem) (base : List Placed) (f : Scope) (h : ℕ) → Denies about base f h }
    ensures tightened { (about : CaseSystem) (base : List Placed) (f : Scope) (h : ℕ) → Tightens about base f h }
    ensures before { (about : CaseSystem) (base : List Placed) (c : LinearCase) (h : ℕ) → GoesBefore about base c h }
    ensures drawn { (about : CaseSystem) (base : List Placed) (f : Scope) (h : ℕ) → PutsTerms about base f h }
{}

/// A list that goes on with a path of `tv_farkas::empty` is a list, and so is what a refusal of it keeps.
pub fn paths_are_listed()
    ensures on { (about : CaseSystem) (base : List Placed) (f : Scope) (h : ℕ) → GoesOn about base f h }
    ensures refusals { (about : CaseSystem) (base : List Placed) (f : Scope) (h : ℕ) → EmptyRefuses about base f h }
{}

/// The least multiples by which a draw is cancelled are those of a tightened row, and composing adds them up.
pub fn draws_are_cancelled()
    ensures least { (x y : ℤ) (t : Linear) → CancelsByLeast x y t }
    ensures sum { (p q : ℕ) (a b : Linear) → columns b ≡ columns a → IsSumOf p q a b }
{}

/// No row stands twice in a list.
pub fn lists_are_different()
    ensures { (about : CaseSystem) (base : List Placed) (f : Scope) (h : ℕ) → ListsAreDifferent about base f h }
{}

/// Rows come from one location to another only over cases. Each of these cases is counted.
pub fn cases_are_counted()
    ensures { (about : CaseSystem) (base : List Placed) (f : Scope) → NothingComes about base f }
{}

/// What is asked of a case, which is to keep a row where some rows hold before it, is derived from these with one case on the way.
pub fn case_questions_are_derived()
    ensures known { (about : CaseSystem) (c : LinearCase) (rows : List Linear) (owed : Linear) →
        IsAsked about c owed → KnownAreDerived about c rows owed }
    ensures put { (about : CaseSystem) (c : LinearCase) (rows : List Linear) (owed : Linear) →
        IsAsked about c owed → OwedIsPut about c rows owed }
    ensures denied { (about : CaseSystem) (c : LinearCase) (rows : List Linear) (owed : Linear) →
        IsAsked about c owed → OwedIsDenied about c rows owed }
    ensures refusals { (about : CaseSystem) (c : LinearCase) (rows : List Linear) (owed : Linear) →
        IsAsked about c owed → EmptyRefusesCase about c rows owed }
{}
