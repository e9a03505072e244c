ghost use Rattle.std.specs.Prelude.{◌≡◌, ◌^◌, ℕ, pos, MatchOption};

/// A number of at least 0 that counts or names something.
pub fn natural(number: i64) -> Option<u64>
    ensures { MatchOption result ((n : ℕ) → number ≡ pos n → ⊥) (λ n. number ≡ pos n) }
{
    if number < 0 {
        None
    } else {
        Some(number as u64)
    }
}
