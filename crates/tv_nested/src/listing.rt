// The unknowns and the rows of a nested ranking system, in their order.

ghost use Rattle.std.specs.Prelude.{◌≡◌, ◌<◌, ◌≤◌, ◌++◌, ◌∷◌, [], suc, IfOk, None, Some};
ghost use Rattle.tv_rank.specs.Questions.{ways_of, many_of};
ghost use Rattle.tv_nested.specs.declared.unknown.Unknown.TheVariants.{Positive, Negative, Slack};
ghost use Rattle.tv_nested.specs.Questions.{unknowns_of, lines_of};
ghost use Rattle.tv_nested.specs.NestedSystem.{term_unknowns, local_unknowns, terms_below, multipliers_below, way_unknowns, lines_over, way_lines};

use crate::unknown::{Identity, Line, Unknown};
use std::alloc::{AllocError, Global};
use tv_linear::push_item;
use tv_rank::{Question, span_of, touches};

/// Puts the two parts of a number of a term at a location at the end of the list.
fn push_pair(
    items: &mut Vec<Unknown>,
    location: u32,
    term: u32,
    number: Option<usize>,
) -> Result<(), AllocError>
    ensures { IfOk result (λ _. items.new.items ≡ items.old.items ++ Positive location term number ∷ Negative location term number ∷ []) }
{
    push_item(items, Unknown::Positive(location, term, number))?;
    push_item(items, Unknown::Negative(location, term, number))?;
    Ok(())
}

fn push_term(
    items: &mut Vec<Unknown>,
    variables: usize,
    location: u32,
    term: u32,
) -> Result<(), AllocError>
    ensures { IfOk result (λ _. items.new.items ≡ items.old.items ++ term_unknowns variables location term) }
{
    'variables: for variable in 0..variables {
        push_pair(items, location, term, Some(variable))?;
    }
    push_pair(items, location, term, None)?;
    Ok(())
}

/// Puts the numbers of all terms at a location at the end of the list.
fn push_terms(
    items: &mut Vec<Unknown>,
    asked: &Question,
    depth: u32,
    location: u32,
) -> Result<(), AllocError>
    ensures { IfOk result (λ _. items.new.items ≡ items.old.items ++ local_unknowns asked.now.variables location depth) }
{
    'terms: for term in 0..depth {
        push_term(items, asked.variables as usize, location, term)?;
    }
    Ok(())
}

/// The numbers of the terms at the locations where a case of the set starts or ends.
fn term_list(alloc: Global, asked: &Question, depth: u32) -> Result<Vec<Unknown>, AllocError>
    ensures { IfOk result (λ v. v.items ≡ terms_below (ways_of asked.now) (many_of asked.now) depth asked.now.variables asked.now.locations) }
{
    let span = span_of(asked);
    let mut items = Vec::new(alloc);
    'locations: for location in span.low..span.high {
        if touches(asked, location) {
            push_terms(&mut items, asked, depth, location)?;
        }
    }
    Ok(items)
}

/// Puts the multipliers of an identity and its slack at the end of the list.
fn push_identity(
    items: &mut Vec<Unknown>,
    identity: Identity,
    rows: usize,
) -> Result<(), AllocError>
    ensures { IfOk result (λ _. items.new.items ≡ items.old.items ++ (multipliers_below identity rows ++ Slack identity ∷ [])) }
{
    'rows: for row in 0..rows {
        push_item(items, Unknown::Multiplier(identity, row))?;
    }
    push_item(items, Unknown::Slack(identity))?;
    Ok(())
}

/// Puts the multipliers and slacks of the identities of the case at a place of the set at the end of the list.
fn push_identities(
    items: &mut Vec<Unknown>,
    asked: &Question,
    depth: u32,
    place: usize,
) -> Result<(), AllocError>
    requires place { place < many_of asked.now }
    requires shallow { depth ≤ 4 }
    ensures { IfOk result (λ _. items.new.items ≡ items.old.items ++ way_unknowns place (ways_of asked.now place) (suc depth)) }
{
    let rows = asked.met_count(place);
    'identities: for index in 0..depth + 1 {
        push_identity(items, Identity { place, index }, rows)?;
    }
    Ok(())
}

/// The unknowns in their order.
pub fn unknown_list(alloc: Global, asked: &Question, depth: u32) -> Result<Vec<Unknown>, AllocError>
    requires { depth ≤ 4 }
    ensures { IfOk result (λ v. v.items ≡ unknowns_of asked.now depth) }
{
    let mut items = term_list(alloc, asked, depth)?;
    'places: for place in 0..asked.set.len() {
        push_identities(&mut items, asked, depth, place)?;
    }
    Ok(items)
}

/// Puts the rows of an identity over `columns` columns at the end of the list.
fn push_lines(items: &mut Vec<Line>, identity: Identity, columns: usize) -> Result<(), AllocError>
    ensures { IfOk result (λ _. items.new.items ≡ items.old.items ++ lines_over identity columns) }
{
    'columns: for column in 0..columns {
        push_item(
            items,
            Line {
                identity,
                column: Some(column),
            },
        )?;
    }
    push_item(
        items,
        Line {
            identity,
            column: None,
        },
    )?;
    Ok(())
}

/// Puts the rows of the identities of the case at a place of the set at the end of the list.
fn push_identity_lines(
    items: &mut Vec<Line>,
    asked: &Question,
    depth: u32,
    place: usize,
) -> Result<(), AllocError>
    requires place { place < many_of asked.now }
    requires shallow { depth ≤ 4 }
    ensures { IfOk result (λ _. items.new.items ≡ items.old.items ++ way_lines asked.now.variables place (ways_of asked.now place) (suc depth)) }
{
    let width = asked.width_at(place);
    'identities: for index in 0..depth + 1 {
        push_lines(items, Identity { place, index }, width)?;
    }
    Ok(())
}

/// The rows in their order.
pub fn line_list(alloc: Global, asked: &Question, depth: u32) -> Result<Vec<Line>, AllocError>
    requires { depth ≤ 4 }
    ensures { IfOk result (λ v. v.items ≡ lines_of asked.now depth) }
{
    let mut items = Vec::new(alloc);
    'places: for place in 0..asked.set.len() {
        push_identity_lines(&mut items, asked, depth, place)?;
    }
    Ok(items)
}
