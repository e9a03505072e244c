// The pieces of the states of a run.

ghost use Rattle.std.specs.Prelude.{◌≡◌, ◌++◌, ◌+◌, ◌-◌, ◌^◌, ◌<◌, IfOk, length, All, slice_get, Some};
ghost use Rattle.tv_cert.specs.Pieces.{place_of, pieces_at};
ghost use Rattle.tv_points.specs.PointRows.{point_rows};
ghost use Rattle.tv_points.specs.States.{IsPointOf};
ghost use Rattle.tv_points.specs.StatePieces.{state_piece, state_pieces, rank_rows, mark_of};

use crate::rows::point_rows;
use crate::state::State;
use std::alloc::{AllocError, Global};
use tv_cert::{Mark, Marked};
use tv_linear::{Row, push_item};

/// The ranks of a state with `left` steps left.
fn ranks_of(alloc: Global, columns: u32, ends: bool, left: u32) -> Result<Vec<Row>, AllocError>
    requires bounded { columns < 2 ^ 32 - 1 }
    ensures { IfOk result (λ ranks. ranks.items ≡ rank_rows columns ends left) }
{
    let mut ranks = Vec::new(alloc);
    if ends && left > 0 {
        let zero = Row::zero(alloc, columns)?;
        push_item(&mut ranks, zero.with_constant(alloc, i128::from(left))?)?;
    }
    Ok(ranks)
}

/// What the piece of a state with `left` steps left is for.
fn mark(ends: bool, left: u32) -> Mark
    ensures { result ≡ mark_of ends left }
{
    if ends && left == 0 {
        Mark::Done
    } else {
        Mark::Go
    }
}

/// The piece of a state from which `left` steps are left.
fn piece_of(
    alloc: Global,
    columns: u32,
    ends: bool,
    left: u32,
    state: &State,
) -> Result<Marked, AllocError>
    requires bounded { columns < 2 ^ 31 - 1 }
    requires point { IsPointOf columns state.now }
    ensures { IfOk result (λ p. p ≡ state_piece columns ends left state.now) }
{
    let rows = point_rows(alloc, &state.values)?;
    let ranks = ranks_of(alloc, columns, ends, left)?;
    match Marked::from_rows(
        alloc,
        state.location,
        mark(ends, left),
        columns,
        &rows,
        &ranks,
    )? {
        Some(piece) => Ok(piece),
        None => unreachable!(),
    }
}

/// Puts the pieces of the states at the end of the list.
fn push_pieces(
    alloc: Global,
    columns: u32,
    ends: bool,
    states: &[State],
    pieces: &mut Vec<Marked>,
) -> Result<(), AllocError>
    requires bounded { columns < 2 ^ 31 - 1 }
    requires many { length states.now < 2 ^ 32 - 1 }
    requires points { All (IsPointOf columns) states.now }
    ensures { IfOk result (λ _. pieces.new.items ≡ pieces.old.items ++ state_pieces columns ends states.now) }
{
    match states {
        [] => Ok(()),
        [state, rest @ ..] => {
            let piece = piece_of(alloc, columns, ends, rest.len() as u32, state)?;
            push_item(pieces, piece)?;
            push_pieces(alloc, columns, ends, rest, pieces)
        }
    }
}

/// The pieces of the states, which are to come to an end or not.
pub(crate) fn pieces_of(
    alloc: Global,
    columns: u32,
    ends: bool,
    states: &[State],
) -> Result<Vec<Marked>, AllocError>
    requires bounded { columns < 2 ^ 31 - 1 }
    requires many { length states.now < 2 ^ 32 - 1 }
    requires points { All (IsPointOf columns) states.now }
    ensures { IfOk result (λ pieces. pieces.items ≡ state_pieces columns ends states.now) }
{
    let mut pieces = Vec::with_capacity(alloc, states.len())?;
    push_pieces(alloc, columns, ends, states, &mut pieces)?;
    Ok(pieces)
}

/// How many of the pieces are at the location.
fn count_at(pieces: &[Marked], location: u32) -> usize
    ensures { result ≡ length (pieces_at pieces.now location) }
{
    pieces
        .iter()
        .filter(|piece| piece.location() == location)
        .count()
}

/// The place of a piece among those at its location.
pub(crate) fn place_among(pieces: &[Marked], i: usize) -> u32
    requires inside { i < length pieces.now }
    requires bounded { length pieces.now < 2 ^ 32 - 1 }
    ensures { (p : Marked) → slice_get pieces.now i ≡ Some p → slice_get (pieces_at pieces.now (place_of p)) result ≡ Some p }
{
    let location = pieces[i].location();
    let (before, _) = pieces.split_at(i);
    count_at(before, location) as u32
}
