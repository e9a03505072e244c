// Rows of a target that are among the rows of a place.

ghost use Rattle.std.specs.Prelude.{◌≡◌, ◌++◌, ◌∷◌, [], ◌<◌, pos, IfOk, MatchOption};
ghost use Rattle.std.specs.List.{Contains};
ghost use Rattle.tv_linear.specs.Arithmetic.{unit};
ghost use Rattle.tv_cover.specs.Looking.{StandsAt};

use std::alloc::{AllocError, Global};
use tv_farkas::is_same;
use tv_linear::{Row, push_item};

/// The first place where a row stands.
pub fn place_of(rows: &[Row], row: &Row) -> Option<usize>
    ensures { MatchOption result (Contains rows.now row.now → ⊥) (StandsAt rows.now row.now) }
{
    'rows: for place in 0..rows.len() {
        if is_same(&rows[place], row) {
            return Some(place);
        }
    }
    None
}

/// Multipliers for `count` rows and one more: 1 for the row at the place and for the last one, and 0 for the others.
pub fn pair_at(alloc: Global, count: usize, place: usize) -> Result<Vec<i64>, AllocError>
    requires { place < count }
    ensures { IfOk result (λ v. v.items ≡ unit count place ++ pos 1 ∷ []) }
{
    let mut multipliers = vec![in alloc; 0i64; count]?;
    multipliers[place] = 1;
    push_item(&mut multipliers, 1)?;
    Ok(multipliers)
}
