// The numbers of rows.

ghost use Rattle.std.specs.Prelude.{All};
ghost use Rattle.tv_linear.specs.Linear.{IsNarrow};

use tv_linear::Row;

/// Each number of a row is below 2^62 in magnitude, whatever the row.
fn narrow_row(row: &Row)
    ensures { IsNarrow row.now }
{
    let _columns = row.columns();
}

pub(crate) fn narrow_rows(rows: &[Row])
    ensures { All IsNarrow rows.now }
{
    for row in rows {
        narrow_row(row);
    }
}
