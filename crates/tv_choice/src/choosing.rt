// Choices by splitting a piece.

ghost use Rattle.std.specs.Prelude.{◌≡◌, ◌+◌, ◌-◌, ◌^◌, ◌<◌, ◌≤◌, ◌++◌, ◌∷◌, [], All, length, IfOk, IsTrue};
ghost use Rattle.std.specs.Result.{IfErr};
ghost use Rattle.tv_linear.specs.Linear.{columns as width};
ghost use Rattle.tv_cases.specs.Systems.{cases_of};
ghost use Rattle.tv_farkas.specs.Judging.{IsPointAt};
ghost use Rattle.tv_cover.specs.Targets.{AreEven};
ghost use Rattle.tv_choice.specs.Asked.{query_of};
ghost use Rattle.tv_choice.specs.Leading.{piece_rows};
ghost use Rattle.tv_choice.specs.ChoicePaths.{IsSplit};
ghost use Rattle.tv_choice.specs.Refusals.{IsChoiceFault};
ghost use Rattle.tv_choice.specs.Choosing.{query, IsChosen, HasNoHole, HasShape, IsShallow, IsShortChosen};
ghost use Rattle.tv_choice.specs.Ways.{AreWays, way_rows};
ghost use Rattle.tv_choice.specs.declared.ways.Way.{Way};
ghost use Rattle.tv_choice.specs.Looking.{IsAt, IsOpen, NoneShown, AllShut};
ghost use Rattle.tv_choice.specs.Settling.{IsFound, IsGoing, AreHalves};

use crate::Chosen;
use crate::differing::different;
use crate::lists::with_row;
use crate::looking::{Best, Look, best_of, look_at};
use crate::place::Place;
use crate::question::Question;
use crate::splitting::{behind, halves_at_row};
use crate::stepping::{Standing, step_into};
use crate::stopping::{Stopped, stop};
use crate::trees::{split_of, take_of};
use crate::ways::{Way, first_ways};
use std::alloc::Global;
use tv_cases::Cases;
use tv_farkas::{
    Branch, Budget, CoverFault, Halves, Judged, divided, first_fraction, halves_at_point, judge,
};
use tv_linear::{Choice, ChoiceTree, Piece, Region, Row, push_item};

/// What rows have.
#[derive(Drop)]
enum Found {
    /// From each of their integer points a step, by this tree.
    Tree(ChoiceTree),
    /// An integer point from which none leads into the pieces.
    Hole(Vec<i128>),
}

/// Settles rows below which at most `left` splits may lie.
#[cycle(choosing)]
fn settle(
    question: &Question,
    rows: &[Row],
    ways: &mut Vec<Way>,
    left: u32,
) -> Result<Found, CoverFault>
    requires left { left ≤ 128 }
    requires even { AreEven question.now.columns rows.now }
    requires ways { AreWays question.now.columns (query_of question.now) rows.now ways.old.items }
    ensures found { IfOk result (IsFound question.now.columns (query_of question.now) rows.now left) }
    ensures kept { IfOk result (λ _. ways.new.items ≡ ways.old.items) }
    ensures refusals { IfErr result (IsChoiceFault question.now.columns (query_of question.now) rows.now question.now.pivots left) }
{
    let alloc = question.alloc;
    match judge(alloc, rows, question.columns, question.pivots) {
        Err(fault) => Err(fault),
        Ok(Judged::Refuted(multipliers)) => Ok(Found::Tree(ChoiceTree::Empty(multipliers))),
        Ok(Judged::Point { values, scale }) => {
            let place = Place {
                rows,
                values: &values,
                scale,
            };
            match best_of(question, &place, ways) {
                Err(fault) => Err(fault),
                Ok(Best::Take { way, lists }) => {
                    Ok(Found::Tree(take_of(alloc, &ways[way], lists)?))
                }
                Ok(Best::Split { way, row }) => split_way(question, rows, ways, left, way, row),
                Ok(Best::Nothing) => {
                    if question.stop {
                        stop_or_go(question, rows, ways, left)
                    } else {
                        go_or_split(question, rows, ways, left, &values, scale)
                    }
                }
            }
        }
    }
}

/// Settles rows at which each way is excluded, where a state without a step may stop.
#[cycle(choosing)]
fn stop_or_go(
    question: &Question,
    rows: &[Row],
    ways: &mut Vec<Way>,
    left: u32,
) -> Result<Found, CoverFault>
    requires left { left ≤ 128 }
    requires even { AreEven question.now.columns rows.now }
    requires ways { AreWays question.now.columns (query_of question.now) rows.now ways.old.items }
    requires none_shown { NoneShown question.now.columns rows.now ways.old.items }
    requires stop { IsTrue question.now.stop }
    ensures found { IfOk result (IsFound question.now.columns (query_of question.now) rows.now left) }
    ensures kept { IfOk result (λ _. ways.new.items ≡ ways.old.items) }
    ensures refusals { IfErr result (IsChoiceFault question.now.columns (query_of question.now) rows.now question.now.pivots left) }
{
    match stop(question, rows, left) {
        Err(fault) => Err(fault),
        Ok(Stopped::Nowhere(covers)) => Ok(Found::Tree(ChoiceTree::NoStep(covers))),
        Ok(Stopped::Somewhere(point)) => go_on(question, rows, ways, left, point),
    }
}

/// Settles rows at which each way is excluded, where each state is to have a step.
#[cycle(choosing)]
fn go_or_split(
    question: &Question,
    rows: &[Row],
    ways: &mut Vec<Way>,
    left: u32,
    values: &[i128],
    scale: i128,
) -> Result<Found, CoverFault>
    requires left { left ≤ 128 }
    requires even { AreEven question.now.columns rows.now }
    requires ways { AreWays question.now.columns (query_of question.now) rows.now ways.old.items }
    requires none_shown { NoneShown question.now.columns rows.now ways.old.items }
    requires shut { AllShut question.now.columns rows.now ways.old.items }
    requires point { IsPointAt question.now.columns rows.now values.now scale }
    requires stop { IsTrue question.now.stop → ⊥ }
    ensures found { IfOk result (IsFound question.now.columns (query_of question.now) rows.now left) }
    ensures kept { IfOk result (λ _. ways.new.items ≡ ways.old.items) }
    ensures refusals { IfErr result (IsChoiceFault question.now.columns (query_of question.now) rows.now question.now.pivots left) }
{
    let alloc = question.alloc;
    match first_fraction(values, scale) {
        None => {
            let point = divided(alloc, values, scale)?;
            go_on(question, rows, ways, left, point)
        }
        Some(column) => {
            if left == 0 {
                return Err(CoverFault::Splits {
                    path: Vec::new(alloc),
                });
            }
            let halves = halves_at_point(alloc, question.columns, column as u32, values, scale)?;
            split(question, rows, ways, left - 1, halves)
        }
    }
}

/// Settles rows at which each way is excluded, by an integer point of them.
#[cycle(choosing)]
fn go_on(
    question: &Question,
    rows: &[Row],
    ways: &mut Vec<Way>,
    left: u32,
    point: Vec<i128>,
) -> Result<Found, CoverFault>
    requires left { left ≤ 128 }
    requires even { AreEven question.now.columns rows.now }
    requires ways { AreWays question.now.columns (query_of question.now) rows.now ways.old.items }
    requires none_shown { NoneShown question.now.columns rows.now ways.old.items }
    requires going { IsGoing question.now.columns (query_of question.now) rows.now point.items }
    ensures found { IfOk result (IsFound question.now.columns (query_of question.now) rows.now left) }
    ensures kept { IfOk result (λ _. ways.new.items ≡ ways.old.items) }
    ensures refusals { IfErr result (IsChoiceFault question.now.columns (query_of question.now) rows.now question.now.pivots left) }
{
    let standing = Standing {
        rows,
        point: &point,
        left,
    };
    let way = match step_into(question, &standing) {
        Err(fault) => return Err(fault),
        Ok(None) => return Ok(Found::Hole(point)),
        Ok(Some(way)) => way,
    };
    let place = Place {
        rows,
        values: &point,
        scale: 1,
    };
    match look_at(question, &place, &way.rows) {
        Err(fault) => Err(fault),
        Ok(Look::Shown(lists)) => Ok(Found::Tree(take_of(question.alloc, &way, lists)?)),
        Ok(Look::Excluded) => unreachable!(),
        Ok(Look::Open(row)) => {
            let last = ways.len();
            push_item(ways, way)?;
            match split_way(question, rows, ways, left, last, row) {
                Err(fault) => Err(fault),
                Ok(found) => {
                    let _ = ways.pop();
                    Ok(found)
                }
            }
        }
    }
}

/// Splits at an open row of a way.
#[cycle(choosing)]
fn split_way(
    question: &Question,
    rows: &[Row],
    ways: &mut Vec<Way>,
    left: u32,
    way: usize,
    row: usize,
) -> Result<Found, CoverFault>
    requires left { left ≤ 128 }
    requires even { AreEven question.now.columns rows.now }
    requires ways { AreWays question.now.columns (query_of question.now) rows.now ways.old.items }
    requires none_shown { NoneShown question.now.columns rows.now ways.old.items }
    requires open { (w : Way) × IsAt ways.old.items way w × IsOpen question.now.columns rows.now (way_rows w) row }
    ensures found { IfOk result (IsFound question.now.columns (query_of question.now) rows.now left) }
    ensures kept { IfOk result (λ _. ways.new.items ≡ ways.old.items) }
    ensures refusals { IfErr result (IsChoiceFault question.now.columns (query_of question.now) rows.now question.now.pivots left) }
{
    let alloc = question.alloc;
    if left == 0 {
        return Err(CoverFault::Splits {
            path: Vec::new(alloc),
        });
    }
    let halves = halves_at_row(alloc, &ways[way].rows[row])?;
    split(question, rows, ways, left - 1, halves)
}

/// Settles the two sides of a split, the first one first.
#[cycle(choosing)]
fn split(
    question: &Question,
    rows: &[Row],
    ways: &mut Vec<Way>,
    left: u32,
    halves: Halves,
) -> Result<Found, CoverFault>
    requires left { left ≤ 128 }
    requires even { AreEven question.now.columns rows.now }
    requires ways { AreWays question.now.columns (query_of question.now) rows.now ways.old.items }
    requires halves { AreHalves question.now.columns (query_of question.now) rows.now halves }
    ensures found { IfOk result (IsFound question.now.columns (query_of question.now) rows.now (left + 1)) }
    ensures kept { IfOk result (λ _. ways.new.items ≡ ways.old.items) }
    ensures refusals { IfErr result (IsChoiceFault question.now.columns (query_of question.now) rows.now question.now.pivots (left + 1)) }
{
    let alloc = question.alloc;
    let Halves { first, second } = halves;
    let row = first.row.copy(alloc)?;
    let holds = match settle_side(question, rows, ways, left, first) {
        Err(fault) => return Err(fault),
        Ok(Found::Hole(point)) => return Ok(Found::Hole(point)),
        Ok(Found::Tree(tree)) => tree,
    };
    let fails = match settle_side(question, rows, ways, left, second) {
        Err(fault) => return Err(fault),
        Ok(Found::Hole(point)) => return Ok(Found::Hole(point)),
        Ok(Found::Tree(tree)) => tree,
    };
    Ok(Found::Tree(split_of(alloc, &row, holds, fails)?))
}

/// Settles one side of a split.
#[cycle(choosing)]
fn settle_side(
    question: &Question,
    rows: &[Row],
    ways: &mut Vec<Way>,
    left: u32,
    branch: Branch,
) -> Result<Found, CoverFault>
    requires left { left ≤ 128 }
    requires even { AreEven question.now.columns rows.now }
    requires ways { AreWays question.now.columns (query_of question.now) rows.now ways.old.items }
    requires rule { IsSplit question.now.columns (query_of question.now) rows.now branch }
    requires same { width branch.row ≡ question.now.columns }
    ensures found { IfOk result (IsFound question.now.columns (query_of question.now) (rows.now ++ branch.row ∷ []) left) }
    ensures kept { IfOk result (λ _. ways.new.items ≡ ways.old.items) }
    ensures refusals { IfErr result (IsChoiceFault question.now.columns (query_of question.now) rows.now question.now.pivots (left + 1)) }
{
    let alloc = question.alloc;
    let side = with_row(alloc, rows, &branch.row)?;
    match settle(question, &side, ways, left) {
        Err(fault) => Err(behind(alloc, branch, fault)?),
        Ok(found) => Ok(found),
    }
}

/// From each integer point of a piece a step into a region, or an integer point from which there is none.
///
/// The rows of the piece and of the region are over the variables. A tree is a proof tree as a certificate holds it. It
/// takes cases into the pieces of the region, with whole terms over the variables for their draws and with the fall 0.
/// `stop` says whether a state without any step may stop: only then a tree shows at some points that no case can be
/// taken, and only then some step leads somewhere from a hole.
///
/// At the rows with the splits above it takes a leaf where they have no point, or where each row of a way to step is
/// met by all of their points. The ways are those of the cases without draws, and of the cases with one draw, for which
/// a row of the case with the coefficient 1 or -1 gives the term; of ways with the same rows it keeps one. Else it
/// splits at a row of a way whose rows are each met by some point, and settles the side where the row is denied first.
/// Where each way is excluded, it takes an integer point of the rows, and splits below and above the first coordinate of
/// their point that is not whole (the branching of integer programming, after Land and Doig 1960). From the integer point
/// it looks for whole draws by which some case leads into a piece: with a term for each draw the case is a further way,
/// and else the point is a hole. That term is of a row of the case with the coefficient 1 or -1 at the draw, and 0 at
/// the others, whose value there is 0, and where there is none it is the number.
///
/// `Splits`, `Solve` and `Wide` come where the budget, the solver or the width of a row that is made end the search.
pub fn choose(
    alloc: Global,
    about: &Cases,
    ambient: &Piece,
    into: &Region,
    stop: bool,
    budget: &Budget,
) -> Result<Chosen, CoverFault>
    requires even { AreEven (cases_of about.now).variables (piece_rows ambient.now) }
    requires same { All (λ p. AreEven (cases_of about.now).variables (piece_rows p)) into.now.pieces.items }
    requires count { length into.now.pieces.items < 2 ^ 32 }
    requires splits { budget.now.splits ≤ 128 }
    ensures answers { let n = (cases_of about.now).variables in
        IfOk result (IsChosen n (query about.now ambient.now into.now stop) (piece_rows ambient.now)) }
    ensures none { let n = (cases_of about.now).variables in
        IfOk result (HasNoHole n (query about.now ambient.now into.now stop) (piece_rows ambient.now)) }
    ensures shape { let n = (cases_of about.now).variables in
        IfOk result (HasShape n (query about.now ambient.now into.now stop) (length (piece_rows ambient.now))) }
    ensures shallow { IfOk result (IsShallow budget.now.splits) }
    ensures short { IfOk result IsShortChosen }
    ensures refusals { let n = (cases_of about.now).variables in
        let q = query about.now ambient.now into.now stop in
        IfErr result (IsChoiceFault n q (piece_rows ambient.now) budget.now.pivots budget.now.splits) }
{
    let question = Question {
        alloc,
        about,
        pieces: &into.pieces,
        location: ambient.location,
        columns: about.variables(),
        stop,
        pivots: budget.pivots,
    };
    let first = match first_ways(&question) {
        Err(fault) => return Err(fault),
        Ok(first) => first,
    };
    let mut ways = different(alloc, first)?;
    match settle(&question, &ambient.poly.rows, &mut ways, budget.splits) {
        Err(fault) => Err(fault),
        Ok(Found::Hole(point)) => Ok(Chosen::Hole(point)),
        Ok(Found::Tree(tree)) => match Choice::new(tree) {
            Some(choice) => Ok(Chosen::Tree(choice)),
            None => unreachable!(),
        },
    }
}
