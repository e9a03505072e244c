// The pieces of the node of nested terms: those by the signs of the terms at each location, with its ranks.

ghost use Rattle.std.specs.Prelude.{◌≡◌, ◌+◌, ◌-◌, ◌<◌, ◌≤◌, ◌^◌, ◌++◌, length, IfOk};
ghost use Rattle.std.specs.Result.{IfErr};
ghost use Rattle.tv_cases.specs.Systems.{cases_of};
ghost use Rattle.tv_cert.specs.MarkedRows.{marked};
ghost use Rattle.tv_cert.specs.declared.node.Mark.TheVariants.{Go};
ghost use Rattle.tv_lexrank.specs.Pieces.{zero_ranks};
ghost use Rattle.tv_lexrank.specs.Rounds.{ranks_at};
ghost use Rattle.tv_nested.specs.NodePieces.{node_pieces, pieces_there};
ghost use Rattle.tv_nested.specs.Parts.{nested_ranks};
ghost use Rattle.tv_nested.specs.Ranks.{AreRanked, RefusesRanking, all_ranks};
ghost use Rattle.tv_nested.specs.SignFaults.{RefusesSigns};
ghost use Rattle.tv_nested.specs.Signs.{sign_rows as spec_rows};

use crate::NestFault;
use crate::part::Part;
use crate::ranking::Ranking;
use crate::signs::{sign_rows, terms_there};
use std::alloc::{AllocError, Global};
use tv_cert::{Mark, Marked};
use tv_lexrank::{Round, push_zeros, term_at};
use tv_linear::{Row, push_item};

/// The number of a component, and the terms of its rounds at a location.
fn round_ranks(
    alloc: Global,
    variables: u32,
    component: u32,
    rounds: &[Round],
    location: u32,
) -> Result<Vec<Row>, AllocError>
    requires { variables < 2 ^ 32 - 1 }
    ensures { IfOk result (λ v. v.items ≡ ranks_at variables component rounds.now location) }
{
    let mut ranks = Vec::new(alloc);
    let row = Row::narrow_number(alloc, variables, i128::from(component))?;
    push_item(&mut ranks, row)?;
    'rounds: for round in rounds {
        push_item(
            &mut ranks,
            term_at(alloc, variables, &round.terms, location)?,
        )?;
    }
    Ok(ranks)
}

/// The ranks at a location of a component, with zeros up to `count` ranks.
fn ranks_of(
    alloc: Global,
    variables: u32,
    component: u32,
    part: &Part,
    location: u32,
    count: u32,
) -> Result<Vec<Row>, AllocError>
    requires bounded { variables < 2 ^ 32 - 1 }
    requires enough { length part.now.rounds.items + length part.now.family.terms.items + 1 ≤ count }
    ensures { let amount = length part.now.rounds.items + length part.now.family.terms.items in
        IfOk result (λ v. v.items ≡ nested_ranks variables component part.now location ++ zero_ranks variables (count - 1 - amount)) }
{
    let mut ranks = round_ranks(alloc, variables, component, &part.rounds, location)?;
    let mut terms = terms_there(alloc, variables, &part.family.terms, location)?;
    ranks.append(&mut terms)?;
    let amount = part.rounds.len() as u32 + part.family.terms.len() as u32;
    push_zeros(&mut ranks, alloc, variables, count - 1 - amount)?;
    Ok(ranks)
}

/// The ranks of a location.
fn ranks_there(alloc: Global, ranking: &Ranking, location: u32) -> Result<Vec<Row>, AllocError>
    requires { location < (cases_of ranking.now.about.now).locations }
    ensures { IfOk result (λ v. v.items ≡ all_ranks ranking.now location) }
{
    let component = ranking.component_of(location);
    let part = ranking.part(component);
    let variables = ranking.about.variables();
    let ranks = ranks_of(alloc, variables, component, part, location, ranking.count)?;
    Ok(ranks)
}

/// The piece of these rows at a location, with these ranks. There is no room for 2^32 rows.
fn piece_of(
    alloc: Global,
    variables: u32,
    location: u32,
    rows: &[Row],
    ranks: &[Row],
) -> Result<Marked, AllocError>
    requires { variables < 2 ^ 32 - 1 }
    ensures { IfOk result (λ piece. piece ≡ marked location variables Go rows.now ranks.now) }
{
    match Marked::from_rows(alloc, location, Mark::Go, variables, rows, ranks)? {
        Some(piece) => Ok(piece),
        None => Err(AllocError),
    }
}

/// The piece by signs with a number, with these ranks.
fn sign_piece(
    alloc: Global,
    variables: u32,
    location: u32,
    signs: &[Row],
    ranks: &[Row],
    piece: usize,
) -> Result<Marked, NestFault>
    requires bounded { variables < 2 ^ 32 - 1 }
    requires piece { piece ≤ length signs.now }
    ensures is { IfOk result (λ p. p ≡ marked location variables Go (spec_rows signs.now piece) ranks.now) }
    ensures refusals { IfErr result (RefusesSigns signs.now) }
{
    let rows = match sign_rows(alloc, signs, piece) {
        Ok(rows) => rows,
        Err(fault) => return Err(fault),
    };
    let made = piece_of(alloc, variables, location, &rows, ranks)?;
    Ok(made)
}

/// Puts the pieces at a location at the end of the list.
fn push_pieces(
    pieces: &mut Vec<Marked>,
    alloc: Global,
    ranking: &Ranking,
    location: u32,
) -> Result<(), NestFault>
    requires ranked { AreRanked ranking.now }
    requires location { location < (cases_of ranking.now.about.now).locations }
    ensures pieces { IfOk result (λ _. pieces.new.items ≡ pieces.old.items ++ pieces_there ranking.now location) }
    ensures refusals { IfErr result (RefusesRanking ranking.now) }
{
    let variables = ranking.about.variables();
    let signs = ranking.signs(alloc, location)?;
    let ranks = ranks_there(alloc, ranking, location)?;
    'pieces: for piece in 0..signs.len() + 1 {
        match sign_piece(alloc, variables, location, &signs, &ranks, piece) {
            Ok(made) => push_item(pieces, made)?,
            Err(fault) => return Err(fault),
        }
    }
    Ok(())
}

/// The pieces of all locations, in order.
pub fn pieces_of(alloc: Global, ranking: &Ranking) -> Result<Vec<Marked>, NestFault>
    requires { AreRanked ranking.now }
    ensures pieces { IfOk result (λ v. v.items ≡ node_pieces ranking.now (cases_of ranking.now.about.now).locations) }
    ensures refusals { IfErr result (RefusesRanking ranking.now) }
{
    let mut pieces = Vec::new(alloc);
    'locations: for location in 0..ranking.about.locations() {
        match push_pieces(&mut pieces, alloc, ranking, location) {
            Ok(()) => {}
            Err(fault) => return Err(fault),
        }
    }
    Ok(pieces)
}
