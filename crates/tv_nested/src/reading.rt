// Reading terms and multipliers off a solution of the nested system.

ghost use Rattle.std.specs.Prelude.{◌≡◌, ◌+◌, ◌*◌, ◌<◌, ◌≤◌, ◌++◌, ◌∷◌, [], suc, length, IfOk};
ghost use Rattle.tv_rank.specs.Given.{lists};
ghost use Rattle.tv_rank.specs.Questions.{many_of};
ghost use Rattle.tv_nested.specs.Reading.{tuple_of, lines_of_cases};
ghost use Rattle.tv_nested.specs.ReadOff.{terms_until, there_of, terms_of, tuple_until, lines_until, line_place, way_of};

use crate::solution::Solved;
use std::alloc::{AllocError, Global};
use tv_linear::push_item;
use tv_rank::{LocalTerm, line_of, span_of, term_of, touches};

/// The place after the terms of a location, where they begin at this place.
fn place_after(solved: &Solved, location: u32, place: usize) -> usize
    requires place { place ≡ length (terms_until solved.now location) }
    requires within { location < solved.now.asked.now.locations }
    ensures { result ≡ length (terms_until solved.now (location + 1)) }
{
    if touches(solved.asked, location) {
        return place + solved.depth as usize * (2 * solved.asked.variables as usize + 2);
    }
    place
}

/// Puts the term with a number at a location, where one stands there, at the end of the list. The terms of the location begin at this place.
fn push_term(
    terms: &mut Vec<LocalTerm>,
    alloc: Global,
    solved: &Solved,
    number: u32,
    location: u32,
    place: usize,
) -> Result<(), AllocError>
    requires place { place ≡ length (terms_until solved.now location) }
    requires within { location < solved.now.asked.now.locations }
    requires number { number < solved.now.depth }
    ensures { IfOk result (λ _. terms.new.items ≡ terms.old.items ++ there_of solved.now number location) }
{
    if touches(solved.asked, location) {
        let pairs = 2 * solved.asked.variables as usize + 2;
        let start = place + number as usize * pairs;
        let row = term_of(alloc, solved.values, start, solved.asked.variables)?;
        push_item(terms, LocalTerm { location, row })?;
    }
    Ok(())
}

/// The terms with a number.
fn terms_with(alloc: Global, solved: &Solved, number: u32) -> Result<Vec<LocalTerm>, AllocError>
    requires { number < solved.now.depth }
    ensures { IfOk result (λ v. v.items ≡ terms_of solved.now number solved.now.asked.now.locations) }
{
    let span = span_of(solved.asked);
    let mut terms = Vec::new(alloc);
    let mut place = 0;
    'locations: for location in span.low..span.high {
        push_term(&mut terms, alloc, solved, number, location, place)?;
        place = place_after(solved, location, place);
    }
    Ok(terms)
}

/// The terms, from the first to the last.
pub fn tuple_with(alloc: Global, solved: &Solved) -> Result<Vec<Vec<LocalTerm>>, AllocError>
    ensures { IfOk result (λ v. tuple_of v.items ≡ tuple_until solved.now solved.now.depth) }
{
    let mut tuple = Vec::new(alloc);
    'terms: for number in 0..solved.depth {
        push_item(&mut tuple, terms_with(alloc, solved, number)?)?;
    }
    Ok(tuple)
}

/// The place after all terms.
fn lines_begin(solved: &Solved) -> usize
    ensures { result ≡ length (terms_until solved.now solved.now.asked.now.locations) }
{
    let span = span_of(solved.asked);
    let mut place = 0;
    'locations: for location in span.low..span.high {
        place = place_after(solved, location, place);
    }
    place
}

/// The multipliers of the case at a place of the set, which begin at this place, for each term and once more.
fn lines_at(
    alloc: Global,
    solved: &Solved,
    step: usize,
    start: usize,
) -> Result<Vec<Vec<i64>>, AllocError>
    requires step { step < many_of solved.now.asked.now }
    requires start { start ≡ line_place solved.now step }
    ensures { IfOk result (λ v. lists v.items ≡ way_of solved.now step (suc solved.now.depth)) }
{
    let count = solved.asked.met_count(step);
    let mut lines = Vec::new(alloc);
    let mut place = start;
    'identities: for index in 0..solved.depth + 1 {
        let _index = index;
        push_item(&mut lines, line_of(alloc, solved.values, place, count)?)?;
        place += count + 1;
    }
    Ok(lines)
}

/// The multipliers of all cases of the set.
pub fn lines_with(alloc: Global, solved: &Solved) -> Result<Vec<Vec<Vec<i64>>>, AllocError>
    ensures { IfOk result (λ v. lines_of_cases v.items ≡ lines_until solved.now (many_of solved.now.asked.now)) }
{
    let mut lines = Vec::new(alloc);
    let mut place = lines_begin(solved);
    'places: for step in 0..solved.asked.set.len() {
        push_item(&mut lines, lines_at(alloc, solved, step, place)?)?;
        place += (solved.depth as usize + 1) * (solved.asked.met_count(step) + 1);
    }
    Ok(lines)
}
