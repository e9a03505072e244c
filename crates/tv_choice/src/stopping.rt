// Whether no step leads anywhere from the points of rows.

ghost use Rattle.std.specs.Prelude.{◌≡◌, ◌+◌, ◌-◌, ◌<◌, ◌≤◌, IfOk, IsTrue, Some};
ghost use Rattle.std.specs.Result.{IfErr};
ghost use Rattle.std.specs.List.{Contains};
ghost use Rattle.tv_cases.specs.LinearCases.{IsCase};
ghost use Rattle.tv_cases.specs.Views.{case_view};
ghost use Rattle.tv_cover.specs.Targets.{AreEven};
ghost use Rattle.tv_choice.specs.Asked.{query_of};
ghost use Rattle.tv_choice.specs.Refusals.{IsFaultHere};
ghost use Rattle.tv_choice.specs.Stopping.{IsStoppedBy, IsStopped};

use crate::question::Question;
use crate::trees::narrow_rows;
use tv_cases::Case;
use tv_cover::{Emptied, empty};
use tv_farkas::{Budget, CoverFault};
use tv_linear::{Cover, Row, all_padded, push_copies, push_item};

/// Whether no step leads anywhere.
#[derive(Drop)]
pub enum Stopped {
    /// None does: a cover without targets for each case from the location.
    Nowhere(Vec<Cover>),
    /// From this integer point of the rows some step does.
    Somewhere(Vec<i128>),
}

/// Whether no point of the rows can take the case.
fn stop_by(question: &Question, rows: &[Row], case: &Case, left: u32) -> Result<Emptied, CoverFault>
    requires left { left ≤ 128 }
    requires even { AreEven question.now.columns rows.now }
    requires stop { IsTrue question.now.stop }
    requires among { Contains (query_of question.now).system.cases (case_view case.now) }
    requires case { IsCase (query_of question.now).system.variables (query_of question.now).system.locations (case_view case.now) }
    requires from { case.now.from ≡ question.now.location }
    ensures stopped { IfOk result (IsStoppedBy question.now.columns rows.now (case_view case.now) left) }
    ensures refusals { IfErr result (IsFaultHere question.now.columns (query_of question.now) rows.now question.now.pivots left) }
{
    let alloc = question.alloc;
    let mut all = all_padded(alloc, rows, case.draws)?;
    push_copies(alloc, &case.guards.rows, &mut all)?;
    let budget = Budget {
        pivots: question.pivots,
        splits: left,
        disjuncts: 1,
    };
    match empty(alloc, &all, question.columns + case.draws, &budget) {
        Err(fault) => Err(fault),
        Ok(emptied) => Ok(emptied),
    }
}

/// Covers that show that no case can be taken, or an integer point of the rows that can take one.
pub fn stop(question: &Question, rows: &[Row], left: u32) -> Result<Stopped, CoverFault>
    requires left { left ≤ 128 }
    requires even { AreEven question.now.columns rows.now }
    requires stop { IsTrue question.now.stop }
    ensures stopped { IfOk result (IsStopped question.now.columns (query_of question.now) rows.now left) }
    ensures refusals { IfErr result (IsFaultHere question.now.columns (query_of question.now) rows.now question.now.pivots left) }
{
    let alloc = question.alloc;
    let mut covers = Vec::new(alloc);
    let mut k = 0;
    'cases: while let Some(case) = question.about.leaving(question.location, k) {
        match stop_by(question, rows, case, left) {
            Err(fault) => return Err(fault),
            Ok(Emptied::Tree(cover)) => {
                narrow_rows(cover.tree());
                push_item(&mut covers, cover)?;
            }
            Ok(Emptied::Whole(values)) => {
                let (point, _) = values.split_at(question.columns as usize);
                return Ok(Stopped::Somewhere(Vec::from_slice(alloc, point)?));
            }
        }
        k += 1;
    }
    Ok(Stopped::Nowhere(covers))
}
