// The value of a variable after a case.

ghost use Rattle.std.specs.Prelude.{◌<◌, All, length, SomeIff, IfSome};
ghost use Rattle.tv_linear.specs.Linear.{IsWithin, value};
ghost use Rattle.tv_linear.specs.Known.{term_value};
ghost use Rattle.tv_linear.specs.Terms.{update_of};

use crate::exact::{dot_from, narrowed};
use crate::parts::Parts;
use tv_cases::Update;
use tv_linear::Row;

/// The value of a row at a point, where it is narrow.
fn value_of(row: &Row, point: &[i64]) -> Option<i64>
    requires { All (IsWithin 62) point.now }
    ensures exact { let number = value row.now point.now in SomeIff result (IsWithin 62 number) number }
    ensures narrow { IfSome result (IsWithin 62) }
{
    let constant = Parts {
        high: 0,
        low: row.constant(),
    };
    narrowed(dot_from(constant, row.coefficients(), point))
}

/// The value of a variable after the updates, where it is narrow.
pub(crate) fn value_after(updates: &[Update], point: &[i64], variable: u32) -> Option<i64>
    requires inside { variable < length point.now }
    requires narrow { All (IsWithin 62) point.now }
    ensures exact { let number = term_value point.now (update_of updates.now variable) in SomeIff result (IsWithin 62 number) number }
    ensures narrow { IfSome result (IsWithin 62) }
{
    for update in updates {
        if update.variable == variable {
            return value_of(&update.term, point);
        }
    }
    Some(point[variable as usize])
}
