ghost use Rattle.std.specs.Prelude.{◌<◌, ◌^◌, ◌-◌, length};

use std::alloc::Global;
use std::test::Fail;
use tv_cert::{Mark, Marked, Pieces};
use tv_linear::{Row, RowView};

/// A piece without rows.
fn piece(alloc: Global, location: u32, columns: u32) -> Result<Marked, Fail>
    requires { columns < 2 ^ 32 - 1 }
{
    let made = Marked::from_rows(alloc, location, Mark::Go, columns, &[], &[])?;
    let piece = made.ok_or("columns")?;
    Ok(piece)
}

/// `count` pieces, in turn at the locations 5, 0 and 3. Each has as many columns as pieces stand before it.
fn pieces(alloc: Global, count: u32) -> Result<Pieces, Fail> {
    let mut list = Vec::new(alloc);
    for place in 0..count {
        let location = match place % 3 {
            0 => 5,
            1 => 0,
            _ => 3,
        };
        list.push(piece(alloc, location, place)?)?;
    }
    Ok(Pieces::new(alloc, list)?)
}

/// A location, a place among the pieces there, and the columns of that piece, if there is one.
const PLACES: [(u32, u32, Option<u32>); 7] = [
    (5, 0, Some(0)),
    (5, 2, Some(6)),
    (0, 0, Some(1)),
    (0, 1, Some(4)),
    (3, 1, Some(5)),
    (3, 40, None),
    (4, 0, None),
];

fn are_found(pieces: &Pieces) -> bool {
    for (location, k, columns) in PLACES {
        let found = pieces.at(location, k).map(|piece| piece.columns());
        if found != columns {
            return false;
        }
    }
    pieces.none().list().is_empty()
}

#[test]
fn pieces_are_found_at_a_location(rt: HostRuntime) -> Result<(), Fail> {
    for count in [7, 16, 17, 40] {
        let pieces = pieces(rt.alloc(), count)?;
        assert!(rt; pieces.list().len() == count as usize && are_found(&pieces));
    }
    Ok(())
}

fn row(alloc: Global, coefficients: &[i128], constant: i128) -> Result<Row, Fail>
    requires { length coefficients.now < 2 ^ 32 - 1 }
{
    let row = Row::new(alloc, coefficients, constant)?.ok_or("wide")?;
    Ok(row)
}

fn rows(alloc: Global) -> Result<Vec<Row>, Fail> {
    let mut rows = Vec::new(alloc);
    rows.push(row(alloc, &[1, -2], 3)?)?;
    rows.push(row(alloc, &[0, 5], -7)?)?;
    Ok(rows)
}

/// The piece of two rows and a rank over `columns` columns, if there is one.
fn ranked(alloc: Global, columns: u32) -> Result<Option<Marked>, Fail>
    requires { columns < 2 ^ 32 - 1 }
{
    let rows = rows(alloc)?;
    let rank = row(alloc, &[-1, 0], 9)?;
    let ranks = vec![in alloc; rank]?;
    Ok(Marked::from_rows(alloc, 4, Mark::Done, columns, &rows, &ranks)?)
}

fn is(row: RowView, coefficients: &[i64], constant: i128) -> bool {
    row.coefficients() == coefficients && row.constant() == constant
}

fn has_its_head(piece: &Marked) -> bool {
    piece.location() == 4
        && piece.mark() == Mark::Done
        && piece.columns() == 2
        && piece.row_count() == 2
}

fn has_its_rows(piece: &Marked) -> bool {
    piece.rows().len() == 2
        && is(piece.rows().row(0), &[1, -2], 3)
        && is(piece.rows().row(1), &[0, 5], -7)
}

fn has_its_rank(piece: &Marked) -> bool {
    piece.ranks().len() == 1 && is(piece.ranks().row(0), &[-1, 0], 9)
}

#[test]
fn rows_and_ranks_are_kept(rt: HostRuntime) -> Result<(), Fail> {
    let made = ranked(rt.alloc(), 2)?;
    let piece = made.ok_or("columns")?;
    assert!(rt; has_its_head(&piece));
    assert!(rt; has_its_rows(&piece) && has_its_rank(&piece));
    Ok(())
}

#[test]
fn rows_of_other_columns_make_no_piece(rt: HostRuntime) -> Result<(), Fail> {
    let made = ranked(rt.alloc(), 3)?;
    assert!(rt; made.is_none());
    Ok(())
}
