// Ways whose rows differ.

ghost use Rattle.std.specs.Prelude.{◌≡◌, IfOk, IsTrue};
ghost use Rattle.std.specs.List.{Contains};
ghost use Rattle.tv_choice.specs.Ways.{lists_of, AreDifferentOf};

use crate::ways::Way;
use std::alloc::{AllocError, Global};
use tv_farkas::are_same;
use tv_linear::{Row, push_item};

/// Whether some way is found to have these rows.
fn has_way(ways: &[Way], rows: &[Row]) -> bool
    ensures { IsTrue result → Contains (lists_of ways.now) rows.now }
{
    'ways: for way in ways {
        if are_same(&way.rows, rows) {
            return true;
        }
    }
    false
}

/// The ways, of those with the same rows the first.
pub fn different(alloc: Global, ways: Vec<Way>) -> Result<Vec<Way>, AllocError>
    ensures { IfOk result (λ v. AreDifferentOf ways.items v.items) }
{
    let mut kept = Vec::new(alloc);
    'ways: for way in ways {
        if !has_way(&kept, &way.rows) {
            push_item(&mut kept, way)?;
        }
    }
    Ok(kept)
}
