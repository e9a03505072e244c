ghost use Rattle.std.specs.Prelude.{◌≡◌, ◌+◌, ◌-◌, ◌<◌, ◌^◌, All, MatchOption, length, min};
ghost use Rattle.tv_lines.specs.Numbers.{IsNarrow};
ghost use Rattle.tv_cert_reader.specs.Parts.{AppendsRow, AppendsRows, IsRowOf, ReadsLists, ReadsNumbers, ReadsRow, ReadsRows};

use crate::cursor::Cursor;
use crate::failure::Failure;
use crate::kind::LineKind;
use crate::lines::take;
use crate::number_line::NumberLine;
use std::alloc::Global;
use tv_linear::Row;

/// The numbers of a line of this kind that has `count` numbers.
pub fn numbers(
    alloc: Global,
    cursor: &mut Cursor,
    kind: NumberLine,
    count: u128,
) -> Result<Vec<i64>, Failure>
    ensures { ReadsNumbers kind count cursor.old cursor.new result }
{
    let (head, numbers) = take(alloc, cursor)?;
    if head != kind.head() {
        return Err(Failure::Fault(LineKind::Shape, cursor.taken));
    }
    if numbers.len() as u128 != count {
        return Err(Failure::Fault(LineKind::Shape, cursor.taken));
    }
    Ok(numbers)
}

/// The row of these numbers over `width` columns. The last number is its constant.
pub fn row_of(numbers: Vec<i64>, width: u32) -> Option<Row>
    requires bounded { width < 2 ^ 32 - 1 }
    requires narrow { All IsNarrow numbers.items }
    ensures { MatchOption result (¬ (length numbers.items ≡ width + 1)) (IsRowOf width numbers.items) }
{
    let mut coefficients = numbers;
    let constant = coefficients.pop()?;
    if coefficients.len() != width as usize {
        return None;
    }
    Some(Row::from_narrow(coefficients, constant))
}

/// A term over `width` columns.
fn row(alloc: Global, cursor: &mut Cursor, kind: NumberLine, width: u32) -> Result<Row, Failure>
    requires { width < 2 ^ 32 - 1 }
    ensures { ReadsRow kind width cursor.old cursor.new result }
{
    let numbers = numbers(alloc, cursor, kind, width as u128 + 1)?;
    match row_of(numbers, width) {
        Some(row) => Ok(row),
        None => unreachable!(),
    }
}

/// For how many parts room is made before they are read, where a line says that `count` follow: for 1,024 at most, since the text may
/// not have as many.
pub fn room(count: u128) -> usize
    ensures { result ≡ min count 1024 }
{
    count.min(1024) as usize
}

/// `count` terms over `width` columns.
pub fn rows(
    alloc: Global,
    cursor: &mut Cursor,
    kind: NumberLine,
    width: u32,
    count: u64,
) -> Result<Vec<Row>, Failure>
    requires { width < 2 ^ 32 - 1 }
    ensures { ReadsRows kind width count cursor.old cursor.new result }
{
    let mut rows = Vec::with_capacity(alloc, room(count as u128))?;
    'rows: for _ in 0..count {
        let row = row(alloc, cursor, kind, width)?;
        rows.push(row)?;
    }
    Ok(rows)
}

/// Reads a row or a rank over `width` columns, and puts its numbers after others.
fn append_row(
    alloc: Global,
    cursor: &mut Cursor,
    kind: NumberLine,
    width: u32,
    packed: &mut Vec<i64>,
) -> Result<(), Failure>
    requires { width < 2 ^ 32 - 1 }
    ensures { AppendsRow kind width packed.old.items packed.new.items cursor.old cursor.new result }
{
    let numbers = numbers(alloc, cursor, kind, width as u128 + 1)?;
    packed.extend_from_slice(&numbers)?;
    Ok(())
}

/// Reads `count` rows or ranks over `width` columns, and puts their numbers after others.
pub fn append_rows(
    alloc: Global,
    cursor: &mut Cursor,
    kind: NumberLine,
    width: u32,
    count: u64,
    packed: &mut Vec<i64>,
) -> Result<(), Failure>
    requires { width < 2 ^ 32 - 1 }
    ensures { AppendsRows kind width count packed.old.items packed.new.items cursor.old cursor.new result }
{
    'rows: for _ in 0..count {
        append_row(alloc, cursor, kind, width, packed)?;
    }
    Ok(())
}

/// `count` lines of multipliers, each of `wide` multipliers.
pub fn lists(
    alloc: Global,
    cursor: &mut Cursor,
    wide: u128,
    count: u128,
) -> Result<Vec<Vec<i64>>, Failure>
    ensures { ReadsLists wide count cursor.old cursor.new result }
{
    let mut lists = Vec::with_capacity(alloc, room(count))?;
    'lists: for _ in 0..count {
        let list = numbers(alloc, cursor, NumberLine::By, wide)?;
        lists.push(list)?;
    }
    Ok(lists)
}
