ghost use Rattle.std.specs.Prelude.{◌≡◌, ◌<◌, ℕ, List, [], length, get_or, slice_get, IfOk, IsSome};
ghost use Rattle.tv_linear.specs.Linear.{Linear};
ghost use Rattle.tv_cases.specs.LinearCases.{CaseSystem};
ghost use Rattle.tv_cases.specs.Systems.{cases_of};

use crate::walk::Walk;
use std::alloc::{AllocError, Global};
use tv_cases::Cases;
use tv_linear::Row;

/// Rows in groups: each group has places, and each place has at most four rows.
///
/// A row is made when it is asked for.
pub trait Table {
    /// The rows of each place of each group.
    ghost rows: { Self → CaseSystem → List (List (List Linear)) };

    /// How many groups there are.
    fn groups(&self, about: &Cases) -> usize
        ensures { result ≡ length (rows self.now (cases_of about.now)) };

    /// How many places a group has.
    fn places(&self, about: &Cases, group: usize) -> usize
        requires { group < length (rows self.now (cases_of about.now)) }
        ensures { result ≡ length (get_or (rows self.now (cases_of about.now)) group []) };

    /// The row at which a walk stands; `None` past the last row of the place.
    fn row(&self, alloc: Global, about: &Cases, at: &Walk) -> Result<Option<Row>, AllocError>
        requires group { at.now.group < length (rows self.now (cases_of about.now)) }
        requires place { at.now.place < length (get_or (rows self.now (cases_of about.now)) at.now.group []) }
        ensures is { let places = get_or (rows self.now (cases_of about.now)) at.now.group [] in
            IfOk result (λ r. r ≡ slice_get (get_or places at.now.place []) at.now.row) }
        ensures bounded { IfOk result (λ r. IsSome r → at.now.row < 4) };
}
