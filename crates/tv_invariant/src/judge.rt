// Candidates after a case.

ghost use Rattle.std.specs.Prelude.{◌≡◌, ◌+◌, ◌-◌, ◌^◌, ◌<◌, ◌≤◌, All, IfOk, MatchBool};
ghost use Rattle.std.specs.Result.{IfErr};
ghost use Rattle.tv_linear.specs.Linear.{columns as width};
ghost use Rattle.tv_cover.specs.Targets.{AreEven};

use crate::kept::Kept;
use crate::question::is_met_by_all;
use crate::seen::Seen;
use std::alloc::Global;
use tv_candidates::Candidate;
use tv_cases::{Case, before};
use tv_farkas::{Budget, CoverFault, unmade};
use tv_linear::{Poly, Row};

/// Tells the candidates that a case keeps from those that it does not.
#[derive(Drop)]
pub struct Judge<'a> {
    pub case: &'a Case,
    /// What holds over the case.
    pub ambient: &'a Poly,
    pub budget: &'a Budget,
    pub ghost bounded: { ambient.now.columns < 2 ^ 32 - 1 },
    pub ghost even: { AreEven ambient.now.columns ambient.now.rows.items },
    pub ghost terms: { All (λ u. width u.term ≡ ambient.now.columns) case.now.updates.items },
    pub ghost splits: { budget.now.splits ≤ 128 },
}

impl Judge<'_> {
    ghost use Rattle.tv_invariant.specs.Seen.{IsSeen, IsSettled};
    ghost use Rattle.tv_invariant.specs.Judged.{row_before, Stays, Falls, RefusesRow, Refuses};

    /// Whether the states after the case meet the row.
    pub fn shows(
        &self,
        alloc: Global,
        row: &Row,
        seen: &mut Seen,
        memory: &mut Vec<Kept>,
    ) -> Result<bool, CoverFault>
        requires fits { width row.now + self.now.case.now.draws ≡ self.now.ambient.now.columns }
        requires seen { IsSeen self.now.ambient.now.columns self.now.ambient.now.rows.items seen.old }
        ensures settled { let ambient = self.now.ambient.now in
            IfOk result (IsSettled ambient.columns ambient.rows.items (row_before self.now row.now)) }
        ensures seen { IfOk result (λ _. IsSeen self.now.ambient.now.columns self.now.ambient.now.rows.items seen.new) }
        ensures refusals { IfErr result (RefusesRow self.now row.now) }
    {
        match before(alloc, row, self.case) {
            Err(fault) => Err(unmade(fault)),
            Ok(row) => is_met_by_all(alloc, self.ambient, row, seen, memory, self.budget),
        }
    }

    /// Whether the case keeps the candidate, or does not lead to its location.
    pub fn keeps(
        &self,
        alloc: Global,
        candidate: &Candidate,
        seen: &mut Seen,
        memory: &mut Vec<Kept>,
    ) -> Result<bool, CoverFault>
        requires fits { width candidate.now.row + self.now.case.now.draws ≡ self.now.ambient.now.columns }
        requires seen { IsSeen self.now.ambient.now.columns self.now.ambient.now.rows.items seen.old }
        ensures settled { IfOk result (λ b. MatchBool b (Stays self.now candidate.now) (Falls self.now candidate.now)) }
        ensures seen { IfOk result (λ _. IsSeen self.now.ambient.now.columns self.now.ambient.now.rows.items seen.new) }
        ensures refusals { IfErr result (Refuses self.now candidate.now) }
    {
        if candidate.location != self.case.to {
            return Ok(true);
        }
        self.shows(alloc, &candidate.row, seen, memory)
    }
}
