ghost use Rattle.std.specs.Prelude.{◌≡◌, ◌≤◌, length};
ghost use Rattle.tv_cases.specs.Systems.{cases_of};
ghost use Rattle.tv_search.specs.Rounds.{AreMarked};

use tv_cases::Cases;
use tv_farkas::Budget;

/// The location to which a run is sought.
#[derive(Drop)]
pub(crate) struct Aim<'a> {
    pub about: &'a Cases,
    pub location: u32,
    /// The locations from which it may be reached.
    pub marks: &'a [bool],
    pub budget: &'a Budget,
    pub ghost counted: { length marks.now ≡ (cases_of about.now).locations },
    pub ghost marked: { AreMarked (cases_of about.now) location marks.now },
    pub ghost splits: { budget.now.splits ≤ 128 },
}
