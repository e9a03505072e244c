//! Rows that tests begin with.

ghost use Rattle.std.specs.Prelude.{◌≡◌, All, length, IfOk};
ghost use Rattle.tv_linear.specs.Linear.{columns};

use std::alloc::Global;
use std::test::Fail;
use tv_linear::Row;

pub(crate) const MOST: i128 = (1 << 62) - 1;

pub(crate) fn row(alloc: Global, coefficients: &[i128], constant: i128) -> Result<Row, Fail>
    ensures { IfOk result (λ row. columns row ≡ length coefficients.now) }
{
    if coefficients.len() > 576 {
        return Err(Fail::from("long"));
    }
    let row = Row::new(alloc, coefficients, constant)?.ok_or("wide")?;
    Ok(row)
}

pub(crate) fn one_row(alloc: Global, coefficient: i128, constant: i128) -> Result<Vec<Row>, Fail>
    ensures { IfOk result (λ v. All (λ r. columns r ≡ 1) v.items) }
{
    let mut rows = Vec::new(alloc);
    rows.push(row(alloc, &[coefficient], constant)?)?;
    Ok(rows)
}

pub(crate) fn is(row: &Row, coefficients: &[i64], constant: i128) -> bool {
    row.coefficients() == coefficients && row.constant() == constant
}
