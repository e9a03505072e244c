// What is asked of the polys that are handed in.

ghost use Rattle.std.specs.Prelude.{◌↔◌, All, IsTrue};
ghost use Rattle.tv_cover.specs.Targets.{lists_of, AreEven};

use tv_linear::{Poly, Row};

/// Whether each row has `columns` columns.
pub fn is_even(rows: &[Row], columns: u32) -> bool
    ensures { IsTrue result ↔ AreEven columns rows.now }
{
    rows.iter().all(|row| row.columns() == columns)
}

/// Whether each row of each poly has `columns` columns.
pub fn are_even(polys: &[Poly], columns: u32) -> bool
    ensures { IsTrue result ↔ All (AreEven columns) (lists_of polys.now) }
{
    'polys: for poly in polys {
        if !is_even(&poly.rows, columns) {
            return false;
        }
    }
    true
}
