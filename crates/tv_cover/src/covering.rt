// Covers of rows by targets.

ghost use Rattle.std.specs.Prelude.{List, ◌+◌, ◌-◌, ◌^◌, ◌<◌, ◌≤◌, All, length, IfOk, MatchResult};
ghost use Rattle.std.specs.Result.{IfErr};
ghost use Rattle.tv_linear.specs.Linear.{Linear, columns as width};
ghost use Rattle.tv_cover.specs.Targets.{lists_of, AreEven};
ghost use Rattle.tv_cover.specs.Covering.{IsCovered, HasNoHole, GivesHole, IsShallow, IsShortCovered, HasSplitRows, IsCoverFault};
ghost use Rattle.tv_cover.specs.Stepping.{AreHalves};
ghost use Rattle.tv_cover.specs.Searching.{SearchesAt, IsPlace, IsPlaceWith, IsFound, IsSideFound, MaySplit, IsSearched};

use crate::Covered;
use crate::question::Question;
use crate::stepping::{Step, next_step};
use std::alloc::Global;
use std::mem;
use tv_farkas::{Branch, Budget, CoverFault, Distinct, Halves, split_of, take_once};
use tv_linear::{Cover, CoverTree, Poly, Row, push_item};

/// Where a search is: the rows handed in, each taken once, with the splits above, and these splits.
#[derive(Drop)]
struct Place {
    rows: Vec<Row>,
    path: Vec<Branch>,
}

/// What a place has.
#[derive(Drop)]
enum Found {
    /// No integer point outside the targets, by this tree.
    Tree(CoverTree),
    /// An integer point outside the targets.
    Hole(Vec<i128>),
}

/// Settles a place. At most `left` splits may lie on a path below it.
#[cycle(searching)]
fn settle(question: &Question, place: &mut Place, left: u32) -> Result<Found, CoverFault>
    requires bounded { question.now.columns < 2 ^ 32 - 1 }
    requires count { length question.now.targets.now < 2 ^ 32 - 1 }
    requires same { All (AreEven question.now.columns) (lists_of question.now.targets.now) }
    requires searches { IsPlace question.now.columns (lists_of question.now.targets.now) question.now.repeated.now place.old }
    ensures { let n = question.now.columns in
        let lists = lists_of question.now.targets.now in
        (rows : List Linear) → SearchesAt n lists rows question.now.repeated.now place.old →
        MatchResult result
        (λ found. IsFound n lists rows left place.old place.new found)
        (λ fault. IsCoverFault n lists rows question.now.pivots (length place.old.path.items + left) fault) }
{
    match next_step(question, &mut place.rows) {
        Err(fault) => Err(fault),
        Ok(Step::Leaf(tree)) => Ok(Found::Tree(tree)),
        Ok(Step::Hole(point)) => Ok(Found::Hole(point)),
        Ok(Step::Split(halves)) => {
            if left == 0 {
                return Err(CoverFault::Splits {
                    path: mem::replace(&mut place.path, Vec::new(question.alloc)),
                });
            }
            split(question, place, left - 1, halves)
        }
    }
}

/// Settles the two sides of a split, the first one first.
#[cycle(searching)]
fn split(
    question: &Question,
    place: &mut Place,
    left: u32,
    halves: Halves,
) -> Result<Found, CoverFault>
    requires bounded { question.now.columns < 2 ^ 32 - 1 }
    requires count { length question.now.targets.now < 2 ^ 32 - 1 }
    requires same { All (AreEven question.now.columns) (lists_of question.now.targets.now) }
    requires searches { IsPlace question.now.columns (lists_of question.now.targets.now) question.now.repeated.now place.old }
    requires halves { AreHalves question.now.columns (lists_of question.now.targets.now) place.old.rows.items halves }
    ensures { let n = question.now.columns in
        let lists = lists_of question.now.targets.now in
        (rows : List Linear) → SearchesAt n lists rows question.now.repeated.now place.old →
        MatchResult result
        (λ found. IsFound n lists rows (left + 1) place.old place.new found)
        (λ fault. IsCoverFault n lists rows question.now.pivots (length place.old.path.items + (left + 1)) fault) }
{
    let alloc = question.alloc;
    let Halves { first, second } = halves;
    let row = first.row.copy(alloc)?;
    let holds = match settle_side(question, place, left, first) {
        Err(fault) => return Err(fault),
        Ok(Found::Hole(point)) => return Ok(Found::Hole(point)),
        Ok(Found::Tree(tree)) => tree,
    };
    let fails = match settle_side(question, place, left, second) {
        Err(fault) => return Err(fault),
        Ok(Found::Hole(point)) => return Ok(Found::Hole(point)),
        Ok(Found::Tree(tree)) => tree,
    };
    Ok(Found::Tree(split_of(alloc, row, holds, fails)?))
}

/// Settles one side of a split.
#[cycle(searching)]
fn settle_side(
    question: &Question,
    place: &mut Place,
    left: u32,
    branch: Branch,
) -> Result<Found, CoverFault>
    requires bounded { question.now.columns < 2 ^ 32 - 1 }
    requires count { length question.now.targets.now < 2 ^ 32 - 1 }
    requires same { All (AreEven question.now.columns) (lists_of question.now.targets.now) }
    requires searches { let n = question.now.columns in
        IsPlaceWith n (lists_of question.now.targets.now) question.now.repeated.now place.old branch }
    ensures { let n = question.now.columns in
        let lists = lists_of question.now.targets.now in
        (rows : List Linear) → SearchesAt n lists rows question.now.repeated.now place.old →
        MaySplit n lists rows place.old branch →
        MatchResult result
        (λ found. IsSideFound n lists rows left place.old place.new branch.row found)
        (λ fault. IsCoverFault n lists rows question.now.pivots (length place.old.path.items + (left + 1)) fault) }
{
    push_item(&mut place.rows, branch.row.copy(question.alloc)?)?;
    push_item(&mut place.path, branch)?;
    match settle(question, place, left) {
        Err(fault) => Err(fault),
        Ok(found) => {
            let _ = place.rows.pop();
            let _ = place.path.pop();
            Ok(found)
        }
    }
}

/// Settles the rows of a place, each taken once. At most `budget.splits` splits may lie on a path.
fn search(
    alloc: Global,
    columns: u32,
    rows: &[Row],
    targets: &[Poly],
    budget: &Budget,
) -> Result<Found, CoverFault>
    requires bounded { columns < 2 ^ 32 - 1 }
    requires even { AreEven columns rows.now }
    requires same { All (AreEven columns) (lists_of targets.now) }
    requires count { length targets.now < 2 ^ 32 - 1 }
    ensures { let lists = lists_of targets.now in
        MatchResult result
        (λ found. IsSearched columns lists rows.now budget.now.splits found)
        (λ fault. IsCoverFault columns lists rows.now budget.now.pivots budget.now.splits fault) }
{
    let Distinct {
        rows: kept,
        repeated,
    } = take_once(alloc, rows)?;
    let question = Question {
        alloc,
        columns,
        pivots: budget.pivots,
        repeated: &repeated,
        targets,
    };
    let mut place = Place {
        rows: kept,
        path: Vec::new(alloc),
    };
    match settle(&question, &mut place, budget.splits) {
        Err(fault) => Err(fault),
        Ok(found) => Ok(found),
    }
}

/// The same as `cover`, over rows that are borrowed.
pub fn cover_of(
    alloc: Global,
    columns: u32,
    rows: &[Row],
    targets: &[Poly],
    budget: &Budget,
) -> Result<Covered, CoverFault>
    requires bounded { columns < 2 ^ 32 - 1 }
    requires even { AreEven columns rows.now }
    requires same { All (AreEven columns) (lists_of targets.now) }
    requires count { length targets.now < 2 ^ 32 - 1 }
    requires splits { budget.now.splits ≤ 128 }
    ensures answers { IfOk result (IsCovered columns (lists_of targets.now) rows.now) }
    ensures none { IfOk result (HasNoHole columns (lists_of targets.now) rows.now) }
    ensures point { IfOk result (GivesHole columns (lists_of targets.now) rows.now) }
    ensures shallow { IfOk result (IsShallow budget.now.splits) }
    ensures short { IfOk result IsShortCovered }
    ensures split_rows { IfOk result (HasSplitRows columns (lists_of targets.now)) }
    ensures refusals { let lists = lists_of targets.now in
        IfErr result (IsCoverFault columns lists rows.now budget.now.pivots budget.now.splits) }
{
    match search(alloc, columns, rows, targets, budget) {
        Err(fault) => Err(fault),
        Ok(Found::Hole(point)) => Ok(Covered::Hole(point)),
        Ok(Found::Tree(tree)) => match Cover::new(tree) {
            Some(cover) => Ok(Covered::Tree(cover)),
            None => unreachable!(),
        },
    }
}

/// A cover of the rows into the targets, or an integer point that meets the rows and lies in no target.
///
/// The rows of the ambient and of the targets have its columns, which are variables. A tree is a proof tree as a
/// certificate holds it: into target k, with the fall 0.
///
/// At the rows, each taken once, with the splits above it takes a leaf where they have no point, or where each row of a
/// target is met by all of their points. Else it splits at a row of a target that some of their points meet, and settles
/// the side where the row is denied first. Where no target can be entered so, their point is a hole if it is whole, and
/// else it splits below and above the first coordinate that is not (the branching of integer programming, after Land and
/// Doig 1960), and settles the lower side first. A row whose denial a point found before meets is open without a call of
/// the solver.
///
/// `Splits`, `Solve` and `Wide` come where the budget, the solver or the width of a denied row end the search.
pub fn cover(
    alloc: Global,
    ambient: &Poly,
    targets: &[Poly],
    budget: &Budget,
) -> Result<Covered, CoverFault>
    requires bounded { ambient.now.columns < 2 ^ 32 - 1 }
    requires even { AreEven ambient.now.columns ambient.now.rows.items }
    requires same { All (AreEven ambient.now.columns) (lists_of targets.now) }
    requires count { length targets.now < 2 ^ 32 - 1 }
    requires splits { budget.now.splits ≤ 128 }
    ensures answers { IfOk result (IsCovered ambient.now.columns (lists_of targets.now) ambient.now.rows.items) }
    ensures none { IfOk result (HasNoHole ambient.now.columns (lists_of targets.now) ambient.now.rows.items) }
    ensures point { IfOk result (GivesHole ambient.now.columns (lists_of targets.now) ambient.now.rows.items) }
    ensures shallow { IfOk result (IsShallow budget.now.splits) }
    ensures short { IfOk result IsShortCovered }
    ensures split_rows { IfOk result (HasSplitRows ambient.now.columns (lists_of targets.now)) }
    ensures refusals { let lists = lists_of targets.now in
        IfErr result (IsCoverFault ambient.now.columns lists ambient.now.rows.items budget.now.pivots budget.now.splits) }
{
    cover_of(alloc, ambient.columns, &ambient.rows, targets, budget)
}
