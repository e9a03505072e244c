// What shows the cases over which terms are nested, from each piece of their locations.

ghost use Rattle.std.specs.Prelude.{◌≡◌, ◌+◌, ◌^◌, ◌<◌, ◌≤◌, ◌++◌, [], ℕ, List, length, map, get_or, IfOk};
ghost use Rattle.tv_cases.specs.Systems.{cases_of};
ghost use Rattle.tv_linear.specs.declared.region.Piece.{Piece};
ghost use Rattle.tv_rank.specs.Given.{lists};
ghost use Rattle.tv_lexrank.specs.Covering.{AreLined};
ghost use Rattle.tv_lexrank.specs.Known.{AreBare};
ghost use Rattle.tv_nested.specs.Families.{line_at};
ghost use Rattle.tv_nested.specs.Lines.{under_line};
ghost use Rattle.tv_nested.specs.Parts.{IsNestedPart, ShowsFrom};
ghost use Rattle.tv_nested.specs.Reading.{lines_of_cases};
ghost use Rattle.tv_nested.specs.SetFalls.{HasLines, step_lines, end_line, IsSetFall};

use crate::Family;
use crate::part::Part;
use crate::splitting::{one_before, own_line};
use std::alloc::{AllocError, Global};
use tv_cases::Cases;
use tv_lexrank::{CaseShown, Fall, case_of, fall_of, put_in, zero_line};
use tv_linear::{Row, push_item};

/// Before the line multipliers of `many` rows: 1 for the row before a place, where there is one, and 0 for the others.
fn under_line(
    alloc: Global,
    many: usize,
    place: usize,
    line: &[i64],
) -> Result<Vec<i64>, AllocError>
    requires { place ≤ many }
    ensures { IfOk result (λ v. v.items ≡ under_line many place line.now) }
{
    if place == 0 {
        return put_in(alloc, line, 0, many);
    }
    one_before(alloc, many, place - 1, line)
}

/// The lines, each below `many` more rows, with 0 for each of these.
fn under_rows(alloc: Global, many: usize, old: &[Vec<i64>]) -> Result<Vec<Vec<i64>>, AllocError>
    ensures { IfOk result (λ v. lists v.items ≡ map (under_line many 0) (lists old.now)) }
{
    let mut all = Vec::new(alloc);
    'lines: for line in old {
        push_item(&mut all, under_line(alloc, many, 0, line)?)?;
    }
    Ok(all)
}

/// The multipliers with an index.
fn line_in(lines: &[Vec<i64>], index: usize) -> &[i64]
    requires { index < length lines.now }
    ensures { result.now ≡ get_or (lists lines.now) index [] }
{
    &lines[index]
}

/// The multipliers of the case at a place for the identity with an index.
fn identity_line(family: &Family, place: usize, index: usize) -> &[i64]
    requires place { place < length family.now.lines.items }
    requires index { index < length (get_or (lines_of_cases family.now.lines.items) place []) }
    ensures { result.now ≡ line_at (lines_of_cases family.now.lines.items) place index }
{
    line_in(&family.lines[place], index)
}

/// Puts the multipliers by which the first terms fall over the case at a place at the end of the list, from the piece with a number.
fn push_steps(
    all: &mut Vec<Vec<i64>>,
    alloc: Global,
    family: &Family,
    place: usize,
    piece: usize,
) -> Result<(), AllocError>
    requires room { piece + 1 < 2 ^ 64 }
    requires lines { HasLines family.now place piece }
    ensures { IfOk result (λ _. lists all.new.items ≡ lists all.old.items ++ step_lines family.now place piece) }
{
    'terms: for index in 0..piece + 1 {
        let line = identity_line(family, place, index);
        push_item(all, under_line(alloc, piece + 1, index, line)?)?;
    }
    Ok(())
}

/// The multipliers that refute that all terms are below 0 where the case at a place is taken.
fn end_line(alloc: Global, family: &Family, place: usize) -> Result<Vec<i64>, AllocError>
    requires { HasLines family.now place (length family.now.terms.items) }
    ensures { IfOk result (λ v. v.items ≡ end_line family.now place) }
{
    let terms = family.terms.len();
    let line = identity_line(family, place, terms);
    let (front, _) = line.split_at(line.len().saturating_sub(1));
    under_line(alloc, terms, terms, front)
}

/// The fall of the case at a place of the set that the rounds leave, whose number is given, from the piece at whose states the first terms are
/// below 0: the next one falls.
fn set_fall(
    alloc: Global,
    part: &Part,
    place: usize,
    piece: u32,
    number: u32,
    met: usize,
) -> Result<Fall, AllocError>
    requires small { piece ≤ 4 }
    requires met { met < 2 ^ 63 }
    requires lined { AreLined part.now.rounds.items }
    requires few { length part.now.rounds.items ≤ 8192 }
    requires lines { HasLines part.now.family place piece }
    ensures { IfOk result (IsSetFall part.now place piece number met) }
{
    let many = piece as usize + 1;
    let fallen = fall_of(alloc, &part.rounds, number, zero_line(alloc, met)?)?;
    let mut lines = under_rows(alloc, many, &fallen.lines)?;
    push_steps(&mut lines, alloc, &part.family, place, piece as usize)?;
    push_item(&mut lines, own_line(alloc, many + met, piece as usize)?)?;
    Ok(Fall {
        number: fallen.round as u32 + 2 + piece,
        lines,
    })
}

/// The number at a place of a set.
fn number_at(set: &[u32], place: usize) -> u32
    requires { place < length set.now }
    ensures { result ≡ get_or set.now place 0 }
{
    set[place]
}

/// What shows the case at a place of the set that the rounds leave, from a piece of its location by the signs of the nested terms: the
/// ranks fall at the first term that is at least 0, or, where all are below 0, the case is never taken.
pub fn set_shown(
    alloc: Global,
    about: &Cases,
    part: &Part,
    component: u32,
    place: usize,
    piece: u32,
) -> Result<CaseShown, AllocError>
    requires part { (known : List Piece) × (numbers : List ℕ) × AreBare known × IsNestedPart (cases_of about.now) known numbers component part.now }
    requires place { place < length part.now.left.items }
    requires piece { piece ≤ length part.now.family.terms.items }
    ensures { IfOk result (ShowsFrom (cases_of about.now) component part.now (get_or part.now.left.items place 0) piece) }
{
    if piece as usize == part.family.terms.len() {
        let line = end_line(alloc, &part.family, place)?;
        return Ok(CaseShown::Untaken(line));
    }
    let number = number_at(&part.left, place);
    let guards: &[Row] = &case_of(about, number).guards.rows;
    let fall = set_fall(alloc, part, place, piece, number, guards.len())?;
    Ok(CaseShown::Falls(fall))
}
