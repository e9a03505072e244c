// The rows that keep every run from a location.

ghost use Rattle.std.specs.Prelude.{◌<◌, ◌≤◌};
ghost use Rattle.tv_cases.specs.Systems.{cases_of};
ghost use Rattle.tv_rank.specs.Ways.{rows_at};
ghost use Rattle.tv_lexrank.specs.Known.{AreKnown};
ghost use Rattle.tv_settling.specs.Closed.{AreKept, HaveNoPoint};

use tv_cases::Cases;
use tv_farkas::Budget;
use tv_linear::Region;

/// Rows that are known at the locations: no case leads out of them, and no integer point meets those at the location.
#[derive(Drop)]
pub struct Barrier<'a> {
    pub about: &'a Cases,
    pub known: &'a Region,
    /// Where no run comes.
    pub location: u32,
    /// How much work each cover may do.
    pub budget: &'a Budget,
    pub ghost known_rows: { AreKnown (cases_of about.now) known.now.pieces.items },
    pub ghost kept: { AreKept (cases_of about.now) known.now.pieces.items },
    pub ghost inside: { location < (cases_of about.now).locations },
    pub ghost empty: { HaveNoPoint (cases_of about.now).variables (rows_at known.now.pieces.items location) },
    pub ghost splits: { budget.now.splits ≤ 128 },
}
