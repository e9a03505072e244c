// What the targets are at the rows of a place: shown, open or shut.

ghost use Rattle.std.specs.Prelude.{◌≡◌, ◌-◌, ◌^◌, ◌<◌, ◌++◌, ◌∷◌, [], All, MatchResult, MatchOption, MatchBool};
ghost use Rattle.std.specs.List.{Contains};
ghost use Rattle.tv_linear.specs.Linear.{columns as width};
ghost use Rattle.tv_linear.specs.Arithmetic.{denial};
ghost use Rattle.tv_cover.specs.Targets.{lists_of, AreEven, HasPoint, IsTargetRow};
ghost use Rattle.tv_cover.specs.CoverPaths.{IsShut};
ghost use Rattle.tv_cover.specs.Trying.{IsWideDenialAt, IsWideIn};
ghost use Rattle.tv_cover.specs.Looking.{AreWitnesses, IsLookedAt, IsShowing, IsOpenRow, IsPlaceFault, no_wide, IsShown, AreEntered};

use crate::question::Question;
use crate::sharing::{pair_at, place_of};
use crate::solving::refute_with;
use crate::witness::{Witness, has_point};
use tv_farkas::{CoverFault, Refuted, stretch};
use tv_linear::{Row, RowFault, push_item, shortened};

/// Multipliers that refute the rows and the denial of this row; `None` where a point of the rows meets the denial.
fn show(
    question: &Question,
    rows: &mut Vec<Row>,
    points: &mut Vec<Witness>,
    row: &Row,
) -> Result<Option<Vec<i64>>, CoverFault>
    requires bounded { question.now.columns < 2 ^ 32 - 1 }
    requires even { AreEven question.now.columns rows.old.items }
    requires same { width row.now ≡ question.now.columns }
    requires target { IsTargetRow (lists_of question.now.targets.now) row.now }
    requires points { AreWitnesses question.now.columns rows.old.items points.old.items }
    requires some { HasPoint question.now.columns rows.old.items }
    ensures { let n = question.now.columns in
        MatchResult result
        (λ shown. IsLookedAt n rows.old.items rows.new.items points.new.items
        × MatchOption shown (IsOpenRow n rows.old.items row.now)
        (λ all. IsShowing n question.now.repeated.now rows.old.items row.now all.items))
        (λ fault. IsPlaceFault (IsWideDenialAt row.now) n (lists_of question.now.targets.now) rows.old.items question.now.pivots fault) }
{
    let alloc = question.alloc;
    let denied = match row.deny(alloc) {
        Ok(denied) => denied,
        Err(RowFault::Wide { column }) => return Err(CoverFault::Wide { column }),
        Err(RowFault::Memory) => return Err(CoverFault::Memory),
    };
    if let Some(place) = place_of(rows, row) {
        let pair = pair_at(alloc, rows.len(), place)?;
        return Ok(Some(stretch(alloc, question.repeated, &pair)?));
    }
    if has_point(rows, points, &denied) {
        return Ok(None);
    }
    match refute_with(question, rows, denied) {
        Err(fault) => Err(fault),
        Ok(Refuted::Empty { multipliers }) => {
            let short = shortened(alloc, &multipliers)?;
            Ok(Some(stretch(alloc, question.repeated, &short)?))
        }
        Ok(Refuted::Point { values, scale }) => {
            push_item(points, Witness { values, scale })?;
            Ok(None)
        }
    }
}

/// Whether no point of the rows meets this row.
fn excludes(
    question: &Question,
    rows: &mut Vec<Row>,
    points: &mut Vec<Witness>,
    row: &Row,
) -> Result<bool, CoverFault>
    requires bounded { question.now.columns < 2 ^ 32 - 1 }
    requires even { AreEven question.now.columns rows.old.items }
    requires same { width row.now ≡ question.now.columns }
    requires target { IsTargetRow (lists_of question.now.targets.now) row.now }
    requires points { AreWitnesses question.now.columns rows.old.items points.old.items }
    requires some { HasPoint question.now.columns rows.old.items }
    ensures { let n = question.now.columns in
        MatchResult result
        (λ none. IsLookedAt n rows.old.items rows.new.items points.new.items
        × MatchBool none (HasPoint n (rows.old.items ++ row.now ∷ []) → ⊥) (HasPoint n (rows.old.items ++ row.now ∷ [])))
        (λ fault. IsPlaceFault no_wide n (lists_of question.now.targets.now) rows.old.items question.now.pivots fault) }
{
    if has_point(rows, points, row) {
        return Ok(false);
    }
    let copy = row.copy(question.alloc)?;
    match refute_with(question, rows, copy) {
        Err(fault) => Err(fault),
        Ok(Refuted::Empty { .. }) => Ok(true),
        Ok(Refuted::Point { values, scale }) => {
            push_item(points, Witness { values, scale })?;
            Ok(false)
        }
    }
}

/// Whether the rows of a target are shown.
#[derive(Drop)]
pub enum Shown {
    /// All of them, each by its multipliers.
    All(Vec<Vec<i64>>),
    /// Not the row at this place, whose denial some point of the rows meets.
    Open(usize),
}

/// Shows the rows of a target, up to the first that is open.
pub fn show_all(
    question: &Question,
    rows: &mut Vec<Row>,
    points: &mut Vec<Witness>,
    target: &[Row],
) -> Result<Shown, CoverFault>
    requires bounded { question.now.columns < 2 ^ 32 - 1 }
    requires even { AreEven question.now.columns rows.old.items }
    requires same { AreEven question.now.columns target.now }
    requires target { Contains (lists_of question.now.targets.now) target.now }
    requires points { AreWitnesses question.now.columns rows.old.items points.old.items }
    requires some { HasPoint question.now.columns rows.old.items }
    ensures { let n = question.now.columns in
        let lists = lists_of question.now.targets.now in
        MatchResult result
        (λ shown. IsLookedAt n rows.old.items rows.new.items points.new.items
        × IsShown n question.now.repeated.now rows.old.items target.now shown)
        (λ fault. IsPlaceFault (IsWideIn n rows.old.items target.now) n lists rows.old.items question.now.pivots fault) }
{
    let mut shown = Vec::new(question.alloc);
    'rows: for place in 0..target.len() {
        match show(question, rows, points, &target[place]) {
            Err(fault) => return Err(fault),
            Ok(None) => return Ok(Shown::Open(place)),
            Ok(Some(multipliers)) => push_item(&mut shown, multipliers)?,
        }
    }
    Ok(Shown::All(shown))
}

/// Whether some row of a target is met by no point of the rows.
pub fn is_shut(
    question: &Question,
    rows: &mut Vec<Row>,
    points: &mut Vec<Witness>,
    target: &[Row],
) -> Result<bool, CoverFault>
    requires bounded { question.now.columns < 2 ^ 32 - 1 }
    requires even { AreEven question.now.columns rows.old.items }
    requires same { AreEven question.now.columns target.now }
    requires target { Contains (lists_of question.now.targets.now) target.now }
    requires points { AreWitnesses question.now.columns rows.old.items points.old.items }
    requires some { HasPoint question.now.columns rows.old.items }
    ensures { let n = question.now.columns in
        MatchResult result
        (λ shut. IsLookedAt n rows.old.items rows.new.items points.new.items
        × MatchBool shut (IsShut n rows.old.items target.now) (AreEntered n rows.old.items target.now))
        (λ fault. IsPlaceFault no_wide n (lists_of question.now.targets.now) rows.old.items question.now.pivots fault) }
{
    'rows: for row in target {
        match excludes(question, rows, points, row) {
            Err(fault) => return Err(fault),
            Ok(true) => return Ok(true),
            Ok(false) => {}
        }
    }
    Ok(false)
}
