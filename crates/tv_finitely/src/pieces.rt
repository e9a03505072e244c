// The pieces of visits: one at each location, with the rows that are known there and its ranks.

ghost use Rattle.std.specs.Prelude.{◌≡◌, ◌+◌, ◌-◌, ◌<◌, ◌≤◌, ◌^◌, length, IfOk};
ghost use Rattle.tv_cert.specs.MarkedRows.{marked};
ghost use Rattle.tv_cert.specs.declared.node.Mark.TheVariants.{Go};
ghost use Rattle.tv_lexrank.specs.Pieces.{padded_ranks};
ghost use Rattle.tv_finitely.specs.Ranked.{system_of, ranked_piece, ranked_pieces};

use crate::ranking::Ranking;
use std::alloc::{AllocError, Global};
use tv_cert::{Mark, Marked};
use tv_lexrank::{Round, known_at, push_zeros, term_at};
use tv_linear::{Row, push_item};

/// The ranks at a location of a component: the number of the component, the terms of its rounds, and zeros up to `count` ranks.
fn ranks_of(
    alloc: Global,
    variables: u32,
    component: u32,
    rounds: &[Round],
    location: u32,
    count: u32,
) -> Result<Vec<Row>, AllocError>
    requires bounded { variables < 2 ^ 32 - 1 }
    requires enough { length rounds.now + 1 ≤ count }
    ensures { IfOk result (λ v. v.items ≡ padded_ranks variables component rounds.now location count) }
{
    let mut ranks = Vec::new(alloc);
    let row = Row::narrow_number(alloc, variables, i128::from(component))?;
    push_item(&mut ranks, row)?;
    'rounds: for round in rounds {
        push_item(
            &mut ranks,
            term_at(alloc, variables, &round.terms, location)?,
        )?;
    }
    push_zeros(
        &mut ranks,
        alloc,
        variables,
        count - 1 - rounds.len() as u32,
    )?;
    Ok(ranks)
}

/// The piece of these rows at a location, with these ranks. There is no room for 2^32 rows.
fn piece_of(
    alloc: Global,
    variables: u32,
    location: u32,
    rows: &[Row],
    ranks: &[Row],
) -> Result<Marked, AllocError>
    requires bounded { variables < 2 ^ 32 - 1 }
    ensures { IfOk result (λ piece. piece ≡ marked location variables Go rows.now ranks.now) }
{
    match Marked::from_rows(alloc, location, Mark::Go, variables, rows, ranks)? {
        Some(piece) => Ok(piece),
        None => Err(AllocError),
    }
}

/// The piece at a location.
fn piece_at(alloc: Global, ranking: &Ranking, location: u32) -> Result<Marked, AllocError>
    requires { location < (system_of ranking.now).locations }
    ensures { IfOk result (λ piece. piece ≡ ranked_piece ranking.now location) }
{
    let variables = ranking.about.cases.variables();
    let component = ranking.component_of(location);
    let rounds = ranking.rounds(component);
    let ranks = ranks_of(alloc, variables, component, rounds, location, ranking.count)?;
    let rows = known_at(&ranking.known.pieces, location);
    let piece = piece_of(alloc, variables, location, rows, &ranks)?;
    Ok(piece)
}

/// The pieces of all locations, in order.
pub fn pieces_of(alloc: Global, ranking: &Ranking) -> Result<Vec<Marked>, AllocError>
    ensures { IfOk result (λ v. v.items ≡ ranked_pieces ranking.now (system_of ranking.now).locations) }
{
    let locations = ranking.about.cases.locations();
    let mut pieces = Vec::with_capacity(alloc, locations as usize)?;
    'locations: for location in 0..locations {
        push_item(&mut pieces, piece_at(alloc, ranking, location)?)?;
    }
    Ok(pieces)
}
