// What is done at a place: a leaf, a hole or a split.

ghost use Rattle.std.specs.Prelude.{◌≡◌, ◌-◌, ◌^◌, ◌<◌, List, All, length, MatchResult, MatchOption, IfOk};
ghost use Rattle.tv_linear.specs.Linear.{Linear};
ghost use Rattle.tv_cover.specs.Targets.{lists_of, AreEven, HasPoint};
ghost use Rattle.tv_cover.specs.CoverPaths.{IsShut, IsLeftOpen};
ghost use Rattle.tv_farkas.specs.declared.fault.CoverFault.TheVariants.{Memory};
ghost use Rattle.tv_cover.specs.Trying.{IsWideAt};
ghost use Rattle.tv_cover.specs.Looking.{AreWitnesses, IsLookedAt, IsPlaceFault, no_wide};
ghost use Rattle.tv_cover.specs.Stepping.{IsLook, IsEntered, IsStep, IsPointAt, MayEnter};

use crate::looking::{Shown, is_shut, show_all};
use crate::question::Question;
use crate::splitting::halves_at_row;
use crate::witness::Witness;
use std::alloc::AllocError;
use std::mem;
use tv_farkas::{
    CoverFault, Halves, Refuted, divided, first_fraction, halves_at_point, refute, stretch,
    unsolved,
};
use tv_linear::{CoverTree, Row, push_item, shortened};

/// Whether a target is shown.
#[derive(Drop)]
enum Look {
    /// The leaf that shows the first such target.
    Into(CoverTree),
    /// None is: for each target the place of a row that is not shown.
    Open(Vec<usize>),
}

/// Looks for the first target that is shown.
fn first_shown(
    question: &Question,
    rows: &mut Vec<Row>,
    points: &mut Vec<Witness>,
) -> Result<Look, CoverFault>
    requires bounded { question.now.columns < 2 ^ 32 - 1 }
    requires count { length question.now.targets.now < 2 ^ 32 - 1 }
    requires even { AreEven question.now.columns rows.old.items }
    requires same { All (AreEven question.now.columns) (lists_of question.now.targets.now) }
    requires points { AreWitnesses question.now.columns rows.old.items points.old.items }
    requires some { HasPoint question.now.columns rows.old.items }
    ensures { let n = question.now.columns in
        let lists = lists_of question.now.targets.now in
        MatchResult result
        (λ look. IsLookedAt n rows.old.items rows.new.items points.new.items × IsLook n lists question.now.repeated.now rows.old.items look)
        (λ fault. IsPlaceFault (IsWideAt n lists rows.old.items) n lists rows.old.items question.now.pivots fault) }
{
    let mut places = Vec::new(question.alloc);
    'targets: for number in 0..question.targets.len() {
        match show_all(question, rows, points, &question.targets[number].rows) {
            Err(fault) => return Err(fault),
            Ok(Shown::All(refutations)) => {
                return Ok(Look::Into(CoverTree::Into {
                    target: number as u32,
                    fall: 0,
                    refutations,
                }));
            }
            Ok(Shown::Open(place)) => push_item(&mut places, place)?,
        }
    }
    Ok(Look::Open(places))
}

/// The first target each of whose rows is met by some point of the rows of the place.
fn first_entered(
    question: &Question,
    rows: &mut Vec<Row>,
    points: &mut Vec<Witness>,
) -> Result<Option<usize>, CoverFault>
    requires bounded { question.now.columns < 2 ^ 32 - 1 }
    requires even { AreEven question.now.columns rows.old.items }
    requires same { All (AreEven question.now.columns) (lists_of question.now.targets.now) }
    requires points { AreWitnesses question.now.columns rows.old.items points.old.items }
    requires some { HasPoint question.now.columns rows.old.items }
    ensures { let n = question.now.columns in
        let lists = lists_of question.now.targets.now in
        MatchResult result
        (λ entered. IsLookedAt n rows.old.items rows.new.items points.new.items
        × MatchOption entered (All (IsShut n rows.old.items) lists) (IsEntered n lists rows.old.items))
        (λ fault. IsPlaceFault no_wide n lists rows.old.items question.now.pivots fault) }
{
    'targets: for number in 0..question.targets.len() {
        match is_shut(question, rows, points, &question.targets[number].rows) {
            Err(fault) => return Err(fault),
            Ok(true) => {}
            Ok(false) => return Ok(Some(number)),
        }
    }
    Ok(None)
}

/// What is done at a place.
#[derive(Drop)]
pub enum Step {
    Leaf(CoverTree),
    /// An integer point that lies in no target.
    Hole(Vec<i128>),
    Split(Halves),
}

/// What is done at a point of a place where each target is shut: the point is a hole where it is whole, and else the
/// place is split at its first coordinate that is not.
fn leave(question: &Question, values: &[i128], scale: i128) -> Result<Step, AllocError>
    requires bounded { question.now.columns < 2 ^ 32 - 1 }
    requires point { (kept : List Linear) × IsPointAt question.now.columns kept values.now scale }
    ensures { IfOk result (λ step. (lists : List (List Linear)) (kept : List Linear) →
        IsPointAt question.now.columns kept values.now scale → All (IsShut question.now.columns kept) lists →
        All (IsLeftOpen question.now.columns kept) lists → IsStep question.now.columns lists question.now.repeated.now kept step) }
{
    match first_fraction(values, scale) {
        None => Ok(Step::Hole(divided(question.alloc, values, scale)?)),
        Some(column) => Ok(Step::Split(halves_at_point(
            question.alloc,
            question.columns,
            column as u32,
            values,
            scale,
        )?)),
    }
}

/// Splits a place at a row of the target with the number, which is not shown and which some points of the rows of the
/// place meet.
fn enter(question: &Question, number: usize, places: &[usize]) -> Result<Step, CoverFault>
    requires same { All (AreEven question.now.columns) (lists_of question.now.targets.now) }
    requires target { (kept : List Linear) × MayEnter question.now.columns (lists_of question.now.targets.now) kept number places.now }
    ensures { let n = question.now.columns in
        let lists = lists_of question.now.targets.now in
        MatchResult result
        (λ step. (kept : List Linear) → MayEnter n lists kept number places.now → IsStep n lists question.now.repeated.now kept step)
        (λ fault. fault ≡ Memory) }
{
    let target = &question.targets[number].rows;
    match halves_at_row(question.alloc, &target[places[number]]) {
        Err(fault) => Err(fault),
        Ok(halves) => Ok(Step::Split(halves)),
    }
}

/// What is done at a place with a point.
fn step_at(
    question: &Question,
    rows: &mut Vec<Row>,
    values: &[i128],
    scale: i128,
) -> Result<Step, CoverFault>
    requires bounded { question.now.columns < 2 ^ 32 - 1 }
    requires count { length question.now.targets.now < 2 ^ 32 - 1 }
    requires even { AreEven question.now.columns rows.old.items }
    requires same { All (AreEven question.now.columns) (lists_of question.now.targets.now) }
    requires point { IsPointAt question.now.columns rows.old.items values.now scale }
    ensures { let n = question.now.columns in
        let lists = lists_of question.now.targets.now in
        MatchResult result
        (λ step. (rows.new.items ≡ rows.old.items) × IsStep n lists question.now.repeated.now rows.old.items step)
        (λ fault. IsPlaceFault (IsWideAt n lists rows.old.items) n lists rows.old.items question.now.pivots fault) }
{
    let mut points = Vec::new(question.alloc);
    let copy = Vec::from_slice(question.alloc, values)?;
    push_item(
        &mut points,
        Witness {
            values: copy,
            scale,
        },
    )?;
    let places = match first_shown(question, rows, &mut points) {
        Err(fault) => return Err(fault),
        Ok(Look::Into(tree)) => return Ok(Step::Leaf(tree)),
        Ok(Look::Open(places)) => places,
    };
    match first_entered(question, rows, &mut points) {
        Err(fault) => Err(fault),
        Ok(Some(number)) => match enter(question, number, &places) {
            Err(fault) => Err(fault),
            Ok(step) => Ok(step),
        },
        Ok(None) => match leave(question, values, scale) {
            Err(_) => Err(CoverFault::Memory),
            Ok(step) => Ok(step),
        },
    }
}

/// What is done at a place.
pub fn next_step(question: &Question, rows: &mut Vec<Row>) -> Result<Step, CoverFault>
    requires bounded { question.now.columns < 2 ^ 32 - 1 }
    requires count { length question.now.targets.now < 2 ^ 32 - 1 }
    requires even { AreEven question.now.columns rows.old.items }
    requires same { All (AreEven question.now.columns) (lists_of question.now.targets.now) }
    ensures { let n = question.now.columns in
        let lists = lists_of question.now.targets.now in
        MatchResult result
        (λ step. (rows.new.items ≡ rows.old.items) × IsStep n lists question.now.repeated.now rows.old.items step)
        (λ fault. IsPlaceFault (IsWideAt n lists rows.old.items) n lists rows.old.items question.now.pivots fault) }
{
    let alloc = question.alloc;
    match refute(alloc, rows, question.columns, question.pivots) {
        Err(fault) => Err(unsolved(mem::replace(rows, Vec::new(alloc)), fault)),
        Ok(Refuted::Empty { multipliers }) => {
            let short = shortened(alloc, &multipliers)?;
            let all = stretch(alloc, question.repeated, &short)?;
            Ok(Step::Leaf(CoverTree::Empty(all)))
        }
        Ok(Refuted::Point { values, scale }) => step_at(question, rows, &values, scale),
    }
}
