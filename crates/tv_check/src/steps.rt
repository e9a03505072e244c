ghost use Rattle.std.specs.Prelude.{◌↔◌, ◌+◌, ◌++◌, IsTrue};
ghost use Rattle.tv_linear.specs.Known.{as_given, given};
ghost use Rattle.tv_linear.specs.Covers.{IsMetCover};
ghost use Rattle.tv_linear.specs.Views.{rows_seen};
ghost use Rattle.tv_cases.specs.Views.{case_view};
ghost use Rattle.tv_cert.specs.Obligations.{case_change};
ghost use Rattle.tv_cert.specs.TargetViews.{owed_at};

use crate::entering::Entering;
use tv_cases::Case;
use tv_cert::Targets;
use tv_linear::{CoverTree, Rows};
use tv_refute::{Change, Frames, Terms, cover_is_met};

/// Whether the rows are covered by the targets.
pub fn rows_are_covered(columns: u32, rows: Rows, targets: &Targets, tree: &CoverTree) -> bool
    ensures { IsTrue result ↔ IsMetCover columns (owed_at given targets.now) (as_given (rows_seen rows.entry)) tree.now }
{
    let end = Frames::End;
    let place = Frames::Rows { rows, above: &end };
    let change = &Change::Kept;
    cover_is_met(
        columns as usize,
        &place,
        &Entering { targets, change },
        tree,
    )
}

/// Whether the rows and the guards of a case are covered by the targets, which are entered by the case.
pub fn step_is_covered(
    columns: u32,
    rows: Rows,
    case: &Case,
    targets: &Targets,
    tree: &CoverTree,
) -> bool
    ensures { let taken = case_view case.now in
        let known = as_given (rows_seen rows.entry) ++ as_given taken.guards in
        IsTrue result ↔ IsMetCover (columns + case.now.draws) (owed_at (case_change columns taken) targets.now) known tree.now }
{
    let terms = Terms::After {
        columns,
        updates: &case.updates,
    };
    let change = Change::Once(&terms);
    let end = Frames::End;
    let known = Frames::Rows { rows, above: &end };
    let place = Frames::Rows {
        rows: Rows::Each(&case.guards.rows),
        above: &known,
    };
    let entering = Entering {
        targets,
        change: &change,
    };
    let wide = columns as usize + case.draws as usize;
    cover_is_met(wide, &place, &entering, tree)
}
