// The laws of regions over derived rows, carried by a function that does nothing.

ghost use Rattle.std.specs.Prelude.{ℕ, List};
ghost use Rattle.tv_cases.specs.LinearCases.{CaseSystem};
ghost use Rattle.tv_derived.specs.Scopes.{Placed};
ghost use Rattle.tv_derived.specs.Laws.{IsWellHanded};
ghost use Rattle.tv_rounds.specs.Derived.{BothDerives, BothRefuses, EitherDerives, EitherRefuses, RestDerives, RestRefuses, AnyDerives, AnyRefuses, EveryDerives, EveryRefuses};

/// The rows that a call on regions gives, or keeps in a refusal, are derived where those of the regions handed in are: with as many cases on
/// the way, and with one more where the call goes back over a step.
pub fn regions_are_derived()
    ensures both { (about : CaseSystem) (base : List Placed) (h : ℕ) → BothDerives about base h }
    ensures both_refused { (about : CaseSystem) (base : List Placed) (h : ℕ) → BothRefuses about base h }
    ensures either { (about : CaseSystem) (base : List Placed) (h : ℕ) → EitherDerives about base h }
    ensures either_refused { (about : CaseSystem) (base : List Placed) (h : ℕ) → EitherRefuses about base h }
    ensures rest { (about : CaseSystem) (base : List Placed) (h : ℕ) → RestDerives about base h }
    ensures rest_refused { (about : CaseSystem) (base : List Placed) (h : ℕ) → RestRefuses about base h }
    ensures any { (about : CaseSystem) (base : List Placed) (h : ℕ) → IsWellHanded about base → AnyDerives about base h }
    ensures any_refused { (about : CaseSystem) (base : List Placed) (h : ℕ) → IsWellHanded about base → AnyRefuses about base h }
    ensures every { (about : CaseSystem) (base : List Placed) (h : ℕ) → IsWellHanded about base → EveryDerives about base h }
    ensures every_refused { (about : CaseSystem) (base : List Placed) (h : ℕ) → IsWellHanded about base → EveryRefuses about base h }
{}
