// The unknowns and the rows of a ranking system, in their order.

ghost use Rattle.std.specs.Prelude.{◌≡◌, ◌++◌, ◌∷◌, [], IfOk, None, Some};
ghost use Rattle.tv_rank.specs.Questions.{ways_of, many_of, unknowns_of};
ghost use Rattle.tv_rank.specs.Ways.{touches as spec_touches};
ghost use Rattle.tv_rank.specs.declared.unknown.Unknown.TheVariants.{Positive, Negative, Slack};
ghost use Rattle.tv_rank.specs.RankingSystem.{term_unknowns, terms_below, multipliers_below, lines_over, lines as spec_lines};

use crate::question::Question;
use crate::span::span_of;
use crate::unknown::{Identity, Line, Unknown};
use std::alloc::{AllocError, Global};
use tv_linear::push_item;

/// Whether a case of the set starts or ends at the location.
pub fn touches(asked: &Question, location: u32) -> bool
    ensures { result ≡ spec_touches (ways_of asked.now) (many_of asked.now) location }
{
    let mut touched = false;
    'places: for place in 0..asked.set.len() {
        let case = asked.case_at(place);
        touched = touched || (case.from == location || case.to == location);
    }
    touched
}

/// Puts the two parts of a number of the term at a location at the end of the list.
fn push_pair(
    items: &mut Vec<Unknown>,
    location: u32,
    number: Option<usize>,
) -> Result<(), AllocError>
    ensures { IfOk result (λ _. items.new.items ≡ items.old.items ++ Positive location number ∷ Negative location number ∷ []) }
{
    push_item(items, Unknown::Positive(location, number))?;
    push_item(items, Unknown::Negative(location, number))?;
    Ok(())
}

fn push_term(items: &mut Vec<Unknown>, variables: usize, location: u32) -> Result<(), AllocError>
    ensures { IfOk result (λ _. items.new.items ≡ items.old.items ++ term_unknowns variables location) }
{
    'variables: for variable in 0..variables {
        push_pair(items, location, Some(variable))?;
    }
    push_pair(items, location, None)?;
    Ok(())
}

/// The numbers of the terms at the locations where a case of the set starts or ends.
fn term_list(alloc: Global, asked: &Question) -> Result<Vec<Unknown>, AllocError>
    ensures { IfOk result (λ v. v.items ≡ terms_below (ways_of asked.now) (many_of asked.now) asked.now.variables asked.now.locations) }
{
    let span = span_of(asked);
    let mut items = Vec::new(alloc);
    'locations: for location in span.low..span.high {
        if touches(asked, location) {
            push_term(&mut items, asked.variables as usize, location)?;
        }
    }
    Ok(items)
}

/// Puts the multipliers of an identity and its slack at the end of the list.
fn push_identity(
    items: &mut Vec<Unknown>,
    identity: Identity,
    rows: usize,
) -> Result<(), AllocError>
    ensures { IfOk result (λ _. items.new.items ≡ items.old.items ++ (multipliers_below identity rows ++ Slack identity ∷ [])) }
{
    'rows: for row in 0..rows {
        push_item(items, Unknown::Multiplier(identity, row))?;
    }
    push_item(items, Unknown::Slack(identity))?;
    Ok(())
}

/// The unknowns in their order.
pub fn unknown_list(alloc: Global, asked: &Question) -> Result<Vec<Unknown>, AllocError>
    ensures { IfOk result (λ v. v.items ≡ unknowns_of asked.now) }
{
    let mut items = term_list(alloc, asked)?;
    'places: for place in 0..asked.set.len() {
        push_identity(&mut items, Identity::Step(place), asked.met_count(place))?;
    }
    push_identity(&mut items, Identity::Bound, asked.met_count(asked.falling))?;
    Ok(items)
}

/// Puts the rows of an identity over `columns` columns at the end of the list.
fn push_lines(items: &mut Vec<Line>, identity: Identity, columns: usize) -> Result<(), AllocError>
    ensures { IfOk result (λ _. items.new.items ≡ items.old.items ++ lines_over identity columns) }
{
    'columns: for column in 0..columns {
        push_item(
            items,
            Line {
                identity,
                column: Some(column),
            },
        )?;
    }
    push_item(
        items,
        Line {
            identity,
            column: None,
        },
    )?;
    Ok(())
}

/// The rows in their order.
pub fn line_list(alloc: Global, asked: &Question) -> Result<Vec<Line>, AllocError>
    ensures { IfOk result (λ v. v.items ≡ spec_lines (ways_of asked.now) (many_of asked.now) asked.now.falling asked.now.variables) }
{
    let mut items = Vec::new(alloc);
    'places: for place in 0..asked.set.len() {
        push_lines(&mut items, Identity::Step(place), asked.width_at(place))?;
    }
    push_lines(&mut items, Identity::Bound, asked.width_at(asked.falling))?;
    Ok(items)
}
