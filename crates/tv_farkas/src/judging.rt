// Lists of rows that may hold repeated rows.

ghost use Rattle.std.specs.Prelude.{◌≡◌, ◌-◌, ◌^◌, ◌<◌, All, IfOk};
ghost use Rattle.std.specs.Result.{IfErr};
ghost use Rattle.tv_linear.specs.Linear.{columns as width};
ghost use Rattle.tv_farkas.specs.Judging.{IsJudged, IsJudgeFault, IsHandedOn};

use crate::refuting::refute;
use crate::rows::{Distinct, take_once};
use crate::stretching::stretch;
use crate::{CoverFault, Judged, Refuted};
use std::alloc::Global;
use tv_linear::{Row, shortened};
use tv_simplex::SolveFault;

/// The refusal of rows that were not solved: the rows with the fault, or want of memory.
pub fn unsolved(rows: Vec<Row>, fault: SolveFault) -> CoverFault
    ensures { IsHandedOn rows.items fault result }
{
    match fault {
        SolveFault::Memory => CoverFault::Memory,
        fault => CoverFault::Solve { rows, fault },
    }
}

/// Multipliers that refute the rows, or the point of the rows, each taken once. Some rows may be repeated.
///
/// The refusals are `Solve`, with the rows each taken once, and `Memory`.
pub fn judge(alloc: Global, rows: &[Row], columns: u32, pivots: u64) -> Result<Judged, CoverFault>
    requires bounded { columns < 2 ^ 32 - 1 }
    requires even { All (λ r. width r ≡ columns) rows.now }
    ensures answers { IfOk result (λ j. IsJudged columns rows.now j) }
    ensures refusals { IfErr result (λ e. IsJudgeFault columns rows.now pivots e) }
{
    let Distinct {
        rows: kept,
        repeated,
    } = take_once(alloc, rows)?;
    match refute(alloc, &kept, columns, pivots) {
        Ok(Refuted::Empty { multipliers }) => {
            let short = shortened(alloc, &multipliers)?;
            let all = stretch(alloc, &repeated, &short)?;
            Ok(Judged::Refuted(all))
        }
        Ok(Refuted::Point { values, scale }) => Ok(Judged::Point { values, scale }),
        Err(fault) => Err(unsolved(kept, fault)),
    }
}
