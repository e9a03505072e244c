//! Which column of a comparison is too wide.

use crate::programs::program_of;
use std::alloc::Global;
use std::test::Fail;
use tv_causes::wide_column;
use tv_cert::Claim;
use tv_formula::Formula;
use tv_formula_reader::read_formula;

/// Two variables: x is column 0, y is column 1, and the constant has column 2.
const PAIR: &str = "START: 0; FROM: 0; x := x; y := y; TO: 0;";

/// Properties, and the first column that is too wide.
const COLUMNS: &[(&str, Option<u32>)] = &[
    ("x > 0", None),
    ("x >= 4611686018427387903", None),
    ("x > 4611686018427387903", Some(2)),
    ("x <= 4611686018427387903", Some(2)),
    ("x < 4611686018427387903 + 1", Some(2)),
    ("4611686018427387903*2*x > 0", Some(0)),
    ("4611686018427387903*2*y > x", Some(1)),
    ("4611686018427387903*2*0 > x", None),
    ("4611686018427387903*2 - 4611686018427387903*2 > x", Some(2)),
    ("4611686018427387903*y < -4611686018427387903*y", Some(1)),
    (
        "4611686018427387903*2*y > 0 || 4611686018427387903*2*x > 0",
        Some(1),
    ),
    ("[AX](x > 0 && [EF](4611686018427387903*2*x == y))", Some(0)),
];

/// Whether this is the first column of a claim's comparisons that is too wide.
fn is_column_of(alloc: Global, property: &Formula, wanted: Option<u32>) -> Result<bool, Fail> {
    if property.variables() > 512 {
        return Err(Fail::from("many variables"));
    }
    let claim = Claim::new(alloc, property)?;
    let found = wide_column(alloc, claim.proved(), claim.denied(), property.variables())?;
    Ok(found == wanted)
}

/// Whether this is the first column of a property of two variables that is too wide.
fn is_column_in(alloc: Global, property: &str, wanted: Option<u32>) -> Result<bool, Fail> {
    if property.len() > 65536 {
        return Err(Fail::from("a long property"));
    }
    let program = program_of(alloc, PAIR)?;
    let property = read_formula(alloc, property.as_bytes(), &program)?;
    is_column_of(alloc, &property, wanted)
}

#[test]
fn wide_columns_are_told(rt: HostRuntime) -> Result<(), Fail> {
    for (property, wanted) in COLUMNS {
        assert!(rt; is_column_in(rt.alloc(), property, *wanted)?, "{property}");
    }
    Ok(())
}
