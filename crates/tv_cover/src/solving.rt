// The refutation of the rows of a place and one more.

ghost use Rattle.std.specs.Prelude.{◌≡◌, ◌-◌, ◌^◌, ◌<◌, ◌++◌, ◌∷◌, [], All, MatchResult};
ghost use Rattle.tv_linear.specs.Linear.{columns as width};
ghost use Rattle.tv_cover.specs.Looking.{IsRefusedAt, IsRefutedWith};

use crate::question::Question;
use std::mem;
use tv_farkas::{CoverFault, Refuted, refute, unsolved};
use tv_linear::{Row, push_item};

/// Refutes the rows of a place and one more row, or finds a point that meets them.
pub fn refute_with(
    question: &Question,
    rows: &mut Vec<Row>,
    row: Row,
) -> Result<Refuted, CoverFault>
    requires bounded { question.now.columns < 2 ^ 32 - 1 }
    requires even { All (λ r. width r ≡ question.now.columns) rows.old.items }
    requires same { width row ≡ question.now.columns }
    ensures { MatchResult result
        (λ r. (rows.new.items ≡ rows.old.items) × IsRefutedWith question.now.columns rows.old.items row r)
        (λ f. IsRefusedAt question.now.columns (rows.old.items ++ row ∷ []) question.now.pivots f) }
{
    push_item(rows, row)?;
    match refute(question.alloc, rows, question.columns, question.pivots) {
        Err(fault) => Err(unsolved(mem::replace(rows, Vec::new(question.alloc)), fault)),
        Ok(refuted) => {
            let _ = rows.pop();
            Ok(refuted)
        }
    }
}
