// The rows that are known at locations, and those that are met where a case is taken.

ghost use Rattle.std.specs.Prelude.{◌≡◌, ◌+◌, ◌-◌, ◌^◌, ◌<◌, ◌≤◌, ◌++◌, All, length, map, IfOk, IsTrue, ◌↔◌, MatchOption};
ghost use Rattle.tv_linear.specs.Linear.{columns as width};
ghost use Rattle.tv_cases.specs.Systems.{cases_of};
ghost use Rattle.tv_rank.specs.Ways.{rows_at};
ghost use Rattle.tv_linear.specs.Arithmetic.{padded_row};
ghost use Rattle.tv_lexrank.specs.Known.{AreKnown, AreBare, piece_rows};

use std::alloc::{AllocError, Global};
use tv_cases::Cases;
use tv_linear::{Piece, Region, Row, all_padded, push_copies};

fn are_even(rows: &[Row], columns: u32) -> bool
    ensures { IsTrue result ↔ All (λ r. width r ≡ columns) rows.now }
{
    rows.iter().all(|row| row.columns() == columns)
}

fn are_all_even(known: &[Piece], columns: u32) -> bool
    ensures { IsTrue result ↔ All (λ p. All (λ r. width r ≡ columns) (piece_rows p)) known.now }
{
    'pieces: for piece in known {
        if !are_even(&piece.poly.rows, columns) {
            return false;
        }
    }
    true
}

/// Whether the region has a piece for each location, with rows over the variables.
pub fn are_known(about: &Cases, known: &Region) -> bool
    ensures { IsTrue result ↔ AreKnown (cases_of about.now) known.now.pieces.items }
{
    let pieces: &[Piece] = &known.pieces;
    pieces.len() == about.locations() as usize && are_all_even(pieces, about.variables())
}

/// A location at which rows are known, or `None` where there are none.
pub fn rowed_at(known: &[Piece]) -> Option<usize>
    ensures { MatchOption result (AreBare known.now) (λ l. 0 < length (rows_at known.now l)) }
{
    'places: for place in 0..known.len() {
        let rows: &[Row] = &known[place].poly.rows;
        if !rows.is_empty() {
            return Some(place);
        }
    }
    None
}

/// The rows that are known at a location.
pub fn known_at(known: &[Piece], location: u32) -> &[Row]
    requires { location < length known.now }
    ensures { result.now ≡ rows_at known.now location }
{
    &known[location as usize].poly.rows
}

/// The known rows over the draws too, and then the guards.
pub fn rows_with(
    alloc: Global,
    known: &[Row],
    guards: &[Row],
    draws: u32,
) -> Result<Vec<Row>, AllocError>
    requires bounded { All (λ r. width r + draws < 2 ^ 32 - 1) known.now }
    ensures { IfOk result (λ v. v.items ≡ map (padded_row draws) known.now ++ guards.now) }
{
    let mut rows = all_padded(alloc, known, draws)?;
    push_copies(alloc, guards, &mut rows)?;
    Ok(rows)
}
