ghost use Rattle.std.specs.Prelude.{◌≡◌, ◌≤◌};
ghost use Rattle.tv_grammar.specs.Langs.{then, mapped, turns};
ghost use Rattle.tv_formula.specs.Properties.{negated};
ghost use Rattle.tv_formula.specs.Views.{property};
ghost use Rattle.tv_reading.specs.SumGrammar.{every};
ghost use Rattle.tv_reading.specs.Answers.{Gives, Turned};
ghost use Rattle.tv_formula_reader.specs.Answers.{left, IsOver, Stays, trees_view, is_memory};
ghost use Rattle.tv_reading.specs.ConditionGrammar.{is_and, is_or};
ghost use Rattle.tv_formula_reader.specs.FormulaGrammar.{closed, argument, operated, plain_at, literal_at, conjunction_from, conjunction_over, formula_from, formula_at, more_cases, of_one, of_two};

use crate::operators::{Operator, Single};
use crate::plain::{close, close_square, leaf, open, operator};
use crate::source::{Source, next_kind, pass_kind};
use crate::sums::comparison;
use crate::trees::{add_tree, all_of, applied, fixed_point, negation, some_of, trees_of};
use tv_formula::{Path, Shape, Tree};
use tv_language::TokenKind;
use tv_reading::{Reading, Reason, Turn};

/// Whether memory runs out.
fn is_memory(reason: Reason) -> bool
    ensures { result ≡ is_memory reason }
{
    matches!(reason, Reason::Memory)
}

/// A plain formula that nests at most `levels` deep.
#[cycle(formulas)]
fn plain(source: &Source, reading: &mut Reading, levels: u32) -> Result<Tree, Reason>
    requires over { IsOver source.now reading.old }
    requires bounded { levels ≤ 64 }
    ensures reads { Gives property result (left source.now reading.new) ((plain_at every levels).read (left source.now reading.old)) }
    ensures stays { Stays source.now reading.old reading.new }
{
    match next_kind(source, reading) {
        TokenKind::LeftRound => {
            if levels == 0 {
                return Err(Reason::Deep);
            }
            pass_kind(source, reading);
            enclosed(source, reading, levels - 1)
        }
        TokenKind::Not => {
            if levels == 0 {
                return Err(Reason::Deep);
            }
            pass_kind(source, reading);
            denied(source, reading, levels - 1)
        }
        TokenKind::LeftSquare => {
            if levels == 0 {
                return Err(Reason::Deep);
            }
            pass_kind(source, reading);
            operated(source, reading, levels - 1)
        }
        _ => leaf(source, reading),
    }
}

/// What follows a `!`.
#[cycle(formulas)]
fn denied(source: &Source, reading: &mut Reading, levels: u32) -> Result<Tree, Reason>
    requires over { IsOver source.now reading.old }
    requires bounded { levels ≤ 64 }
    ensures reads { Gives property result (left source.now reading.new) ((mapped negated (plain_at every levels)).read (left source.now reading.old)) }
    ensures stays { Stays source.now reading.old reading.new }
{
    let tree = plain(source, reading, levels)?;
    Ok(negation(source.alloc, tree)?)
}

/// A formula after a `(`, and the `)`.
#[cycle(formulas)]
fn enclosed(source: &Source, reading: &mut Reading, levels: u32) -> Result<Tree, Reason>
    requires over { IsOver source.now reading.old }
    requires bounded { levels ≤ 64 }
    ensures reads { Gives property result (left source.now reading.new) ((then (formula_at every levels) closed).read (left source.now reading.old)) }
    ensures stays { Stays source.now reading.old reading.new }
{
    let tree = formula(source, reading, levels)?;
    close(source, reading, tree)
}

/// An argument of an operator.
#[cycle(formulas)]
fn argument(source: &Source, reading: &mut Reading, levels: u32) -> Result<Tree, Reason>
    requires over { IsOver source.now reading.old }
    requires bounded { levels ≤ 64 }
    ensures reads { Gives property result (left source.now reading.new) ((argument (formula_at every levels)).read (left source.now reading.old)) }
    ensures stays { Stays source.now reading.old reading.new }
{
    open(source, reading)?;
    enclosed(source, reading, levels)
}

/// What follows the word of an operator of one argument.
#[cycle(formulas)]
fn with_one(
    source: &Source,
    reading: &mut Reading,
    levels: u32,
    path: Path,
    single: Single,
) -> Result<Tree, Reason>
    requires over { IsOver source.now reading.old }
    requires bounded { levels ≤ 64 }
    ensures reads { let before = left source.now reading.old in
        let after = left source.now reading.new in
        Gives property result after ((of_one (formula_at every levels) path single).read before) }
    ensures stays { Stays source.now reading.old reading.new }
{
    close_square(source, reading)?;
    let tree = argument(source, reading, levels)?;
    Ok(applied(source.alloc, path, single, tree)?)
}

/// What follows the word of an operator of two arguments.
#[cycle(formulas)]
fn with_two(
    source: &Source,
    reading: &mut Reading,
    levels: u32,
    path: Path,
    shape: Shape,
) -> Result<Tree, Reason>
    requires over { IsOver source.now reading.old }
    requires bounded { levels ≤ 64 }
    ensures reads { let before = left source.now reading.old in
        let after = left source.now reading.new in
        Gives property result after ((of_two (formula_at every levels) path shape).read before) }
    ensures stays { Stays source.now reading.old reading.new }
{
    close_square(source, reading)?;
    let first = argument(source, reading, levels)?;
    let second = argument(source, reading, levels)?;
    Ok(fixed_point(source.alloc, path, shape, first, second)?)
}

/// What follows a `[`.
#[cycle(formulas)]
fn operated(source: &Source, reading: &mut Reading, levels: u32) -> Result<Tree, Reason>
    requires over { IsOver source.now reading.old }
    requires bounded { levels ≤ 64 }
    ensures reads { Gives property result (left source.now reading.new) ((operated (formula_at every levels)).read (left source.now reading.old)) }
    ensures stays { Stays source.now reading.old reading.new }
{
    match operator(source, reading)? {
        Operator::One(path, single) => with_one(source, reading, levels, path, single),
        Operator::Two(path, shape) => with_two(source, reading, levels, path, shape),
    }
}

/// A literal is a comparison or a plain formula; where it is none, the fault that is further on counts.
#[cycle(formulas)]
fn literal(source: &Source, reading: &mut Reading, levels: u32) -> Result<Tree, Reason>
    requires over { IsOver source.now reading.old }
    requires bounded { levels ≤ 64 }
    ensures reads { Gives property result (left source.now reading.new) ((literal_at every levels).read (left source.now reading.old)) }
    ensures stays { Stays source.now reading.old reading.new }
{
    let start = reading.place();
    if start as usize >= source.list.len() {
        return Err(Reason::Syntax);
    }
    match comparison(source, reading, levels) {
        Ok(tree) => Ok(tree),
        Err(Reason::Syntax) => {
            let stop = reading.place();
            reading.go(start, 0);
            match plain(source, reading, levels) {
                Ok(tree) => Ok(tree),
                Err(reason) => {
                    if is_memory(reason) {
                        return Err(Reason::Memory);
                    }
                    if reading.place() >= stop {
                        return Err(reason);
                    }
                    reading.go(start, 0);
                    comparison(source, reading, levels)
                }
            }
        }
        Err(reason) => Err(reason),
    }
}

#[cycle(formulas)]
fn and(
    source: &Source,
    reading: &mut Reading,
    levels: u32,
    trees: Vec<Tree>,
) -> Result<Turn<Vec<Tree>>, Reason>
    requires over { IsOver source.now reading.old }
    requires bounded { levels ≤ 64 }
    ensures reads { let before = left source.now reading.old in
        let after = left source.now reading.new in
        Turned trees_view result after (more_cases is_and (literal_at every levels)) (trees_view trees) before }
    ensures stays { Stays source.now reading.old reading.new }
{
    match next_kind(source, reading) {
        TokenKind::And => {
            pass_kind(source, reading);
            let tree = literal(source, reading, levels)?;
            Ok(Turn::On(add_tree(trees, tree)?))
        }
        _ => Ok(Turn::Off(trees)),
    }
}

/// The literals after the first ones of a conjunction.
#[cycle(formulas)]
fn ands(
    source: &Source,
    reading: &mut Reading,
    levels: u32,
    first: Vec<Tree>,
) -> Result<Vec<Tree>, Reason>
    requires over { IsOver source.now reading.old }
    requires bounded { levels ≤ 64 }
    ensures reads { let before = left source.now reading.old in
        let after = left source.now reading.new in
        Gives trees_view result after ((turns (more_cases is_and (literal_at every levels)) (trees_view first)).read before) }
    ensures stays { Stays source.now reading.old reading.new }
{
    let mut trees = first;
    'turns: loop {
        match and(source, reading, levels, trees)? {
            Turn::On(more) => trees = more,
            Turn::Off(all) => return Ok(all),
        }
    }
}

#[cycle(formulas)]
fn conjunction(source: &Source, reading: &mut Reading, levels: u32) -> Result<Tree, Reason>
    requires over { IsOver source.now reading.old }
    requires bounded { levels ≤ 64 }
    ensures reads { let before = left source.now reading.old in
        let after = left source.now reading.new in
        Gives property result after ((conjunction_over (literal_at every levels)).read before) }
    ensures stays { Stays source.now reading.old reading.new }
{
    let first = literal(source, reading, levels)?;
    conjunction_from(source, reading, levels, first)
}

#[cycle(formulas)]
fn conjunction_from(
    source: &Source,
    reading: &mut Reading,
    levels: u32,
    first: Tree,
) -> Result<Tree, Reason>
    requires over { IsOver source.now reading.old }
    requires bounded { levels ≤ 64 }
    ensures reads { let before = left source.now reading.old in
        let after = left source.now reading.new in
        Gives property result after ((conjunction_from (literal_at every levels) (property first)).read before) }
    ensures stays { Stays source.now reading.old reading.new }
{
    let trees = trees_of(source.alloc, first)?;
    Ok(all_of(ands(source, reading, levels, trees)?))
}

#[cycle(formulas)]
fn or(
    source: &Source,
    reading: &mut Reading,
    levels: u32,
    trees: Vec<Tree>,
) -> Result<Turn<Vec<Tree>>, Reason>
    requires over { IsOver source.now reading.old }
    requires bounded { levels ≤ 64 }
    ensures reads { let before = left source.now reading.old in
        let after = left source.now reading.new in
        let more = more_cases is_or (conjunction_over (literal_at every levels)) in
        Turned trees_view result after more (trees_view trees) before }
    ensures stays { Stays source.now reading.old reading.new }
{
    match next_kind(source, reading) {
        TokenKind::Or => {
            pass_kind(source, reading);
            let tree = conjunction(source, reading, levels)?;
            Ok(Turn::On(add_tree(trees, tree)?))
        }
        _ => Ok(Turn::Off(trees)),
    }
}

/// The conjunctions after the first ones of a formula.
#[cycle(formulas)]
fn ors(
    source: &Source,
    reading: &mut Reading,
    levels: u32,
    first: Vec<Tree>,
) -> Result<Vec<Tree>, Reason>
    requires over { IsOver source.now reading.old }
    requires bounded { levels ≤ 64 }
    ensures reads { let before = left source.now reading.old in
        let after = left source.now reading.new in
        let more = more_cases is_or (conjunction_over (literal_at every levels)) in
        Gives trees_view result after ((turns more (trees_view first)).read before) }
    ensures stays { Stays source.now reading.old reading.new }
{
    let mut trees = first;
    'turns: loop {
        match or(source, reading, levels, trees)? {
            Turn::On(more) => trees = more,
            Turn::Off(all) => return Ok(all),
        }
    }
}

/// A formula that nests at most `levels` deep.
#[cycle(formulas)]
pub fn formula(source: &Source, reading: &mut Reading, levels: u32) -> Result<Tree, Reason>
    requires over { IsOver source.now reading.old }
    requires bounded { levels ≤ 64 }
    ensures reads { Gives property result (left source.now reading.new) ((formula_at every levels).read (left source.now reading.old)) }
    ensures stays { Stays source.now reading.old reading.new }
{
    let first = conjunction(source, reading, levels)?;
    formula_from(source, reading, levels, first)
}

#[cycle(formulas)]
fn formula_from(
    source: &Source,
    reading: &mut Reading,
    levels: u32,
    first: Tree,
) -> Result<Tree, Reason>
    requires over { IsOver source.now reading.old }
    requires bounded { levels ≤ 64 }
    ensures reads { let before = left source.now reading.old in
        let after = left source.now reading.new in
        Gives property result after ((formula_from (conjunction_over (literal_at every levels)) (property first)).read before) }
    ensures stays { Stays source.now reading.old reading.new }
{
    let trees = trees_of(source.alloc, first)?;
    Ok(some_of(ors(source, reading, levels, trees)?))
}
