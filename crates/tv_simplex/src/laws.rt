// The laws of tableaus and chains, each carried by a function that does nothing.

ghost use Rattle.std.specs.Prelude.{ℕ, ◌+◌, ◌<◌, ◌≤◌, ◌≡◌, ◌⊎◌, List, ◌∷◌, length, get_or, ℤ, pos, ◌*ℤ◌, ◌<ℤ◌};
ghost use Rattle.tv_simplex.specs.Systems.{Equations, matrix};
ghost use Rattle.tv_simplex.specs.Tableaus.{Tableau};
ghost use Rattle.tv_simplex.specs.Chains.{IsSystem, IsChain, Step, Settles, column};
ghost use Rattle.tv_simplex.specs.Orders.{NoneTwice};
ghost use Rattle.tv_simplex.specs.Choices.{choices};
ghost use Rattle.tv_simplex.specs.Answers.{IsSolution, IsBarrier, values_of, barrier_of};
ghost use Rattle.tv_simplex.specs.Outcomes.{AreUnsettled, IsWide, TableauOf, HasNarrow, full_entry};

/// A system with its artificial columns is one that the other laws speak of.
pub fn system_with_artificial_columns()
    ensures { (s : Equations) → IsSystem (matrix s) s.rows s.columns }
{}

/// Two tableaus of one basis are equal, up to their scales.
pub fn one_tableau()
    ensures { (a : ℕ → ℕ → ℤ) (m n : ℕ) (b : ℕ → ℕ) (x y : Tableau a m n b) (i j : ℕ) → i < m →
        y.scale *ℤ x.entry i j ≡ x.scale *ℤ y.entry i j }
{}

/// The first bases of the chain are one list.
pub fn one_chain()
    ensures { (a : ℕ → ℕ → ℤ) (m n : ℕ) (bases others : List (List ℕ)) →
        IsChain a m n bases → IsChain a m n others → length bases ≡ length others → bases ≡ others }
{}

/// No two bases of a chain have the same columns.
pub fn none_comes_twice()
    ensures { (a : ℕ → ℕ → ℤ) (m n : ℕ) → IsSystem a m n → (bases : List (List ℕ)) →
        IsChain a m n bases → NoneTwice m bases }
{}

/// A chain is no longer than there are choices of a column for each row.
pub fn chain_is_bounded()
    ensures { (a : ℕ → ℕ → ℤ) (m n : ℕ) → IsSystem a m n → (bases : List (List ℕ)) →
        IsChain a m n bases → length bases ≤ choices (n + m) m }
{}

/// The last basis of a chain settles the system, or has a next one.
pub fn chain_goes_on()
    ensures { (a : ℕ → ℕ → ℤ) (m n : ℕ) → IsSystem a m n → (b : List ℕ) (bases : List (List ℕ)) →
        IsChain a m n (b ∷ bases) → (x : Tableau a m n (column b)) →
        Settles a m n (column b) x ⊎ ((new : List ℕ) × Step a m n b new) }
{}

/// A basis that settles the system gives a solution or a barrier.
pub fn settled_gives()
    ensures { (a : ℕ → ℕ → ℤ) (m n : ℕ) → IsSystem a m n → (b : List ℕ) (bases : List (List ℕ)) →
        IsChain a m n (b ∷ bases) → (x : Tableau a m n (column b)) → Settles a m n (column b) x →
        IsSolution a m n (values_of a m n (column b) x) x.scale
        ⊎ IsBarrier a m n (barrier_of a m n (column b) x) }
{}

/// Bases that do not settle the system are fewer than the choices of a column for each row.
pub fn unsettled_are_fewer()
    ensures { (s : Equations) (many : ℕ) → AreUnsettled s many → many < choices (s.columns + s.rows) s.rows }
{}

/// An entry that is not narrow in one tableau of a basis is narrow in none.
pub fn wide_in_each()
    ensures { (s : Equations) (basis : List ℕ) (row place : ℕ) → IsWide s basis row place →
        (x : TableauOf s basis) → HasNarrow (full_entry s basis x row place) x.scale → ⊥ }
{}
