// Laws of stuck sets and of refusals, each carried by a function that does nothing.

ghost use Rattle.std.specs.Prelude.{ℕ, List, ℤ};
ghost use Rattle.tv_cases.specs.LinearCases.{CaseSystem};
ghost use Rattle.tv_farkas.specs.declared.budget.Budget.{Budget};
ghost use Rattle.tv_known.specs.Ranking.{HasLexicographicRanking};
ghost use Rattle.tv_linear.specs.declared.region.Piece.{Piece};
ghost use Rattle.tv_rank.specs.declared.name.Name.{Name};
ghost use Rattle.tv_simplex.specs.declared.fault.SolveFault.TheVariants.{Memory};
ghost use Rattle.tv_lexrank.specs.declared.fault.RankFault.TheVariants.{Solve};
ghost use Rattle.tv_lexrank.specs.First.{RefusesFirst};
ghost use Rattle.tv_lexrank.specs.Outcomes.{Refuses};
ghost use Rattle.tv_lexrank.specs.Parts.{IsStuck};

/// Where a set of cases is stuck, whatever rows are known, the cases have no lexicographic linear ranking over the rationals.
pub fn stuck_sets_are_unranked()
    ensures { (about : CaseSystem) (known : List Piece) (set : List ℕ) (barriers : List (List ℤ)) →
        IsStuck about known set barriers → HasLexicographicRanking about → ⊥ }
{}

/// Want of memory is never the fault of a system that a refusal names.
pub fn systems_do_not_lack_memory()
    ensures first { (about : CaseSystem) (pivots : ℕ) (system : Name) → RefusesFirst about pivots (Solve system Memory) → ⊥ }
    ensures known { (about : CaseSystem) (known : List Piece) (budget : Budget) (system : Name) →
        Refuses about known budget (Solve system Memory) → ⊥ }
{}
