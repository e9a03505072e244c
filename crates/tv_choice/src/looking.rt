// Which ways are shown at rows, and which are excluded.

ghost use Rattle.std.specs.Prelude.{◌≡◌, ◌-◌, ◌<◌, ◌∷◌, [], All, IfOk};
ghost use Rattle.std.specs.Result.{IfErr};
ghost use Rattle.tv_linear.specs.Linear.{columns as width};
ghost use Rattle.tv_cover.specs.Targets.{AreEven};
ghost use Rattle.tv_cover.specs.Trying.{IsWideDenialAt, IsWideIn};
ghost use Rattle.tv_choice.specs.Asked.{query_of};
ghost use Rattle.tv_choice.specs.ChoicePaths.{IsWayRows};
ghost use Rattle.tv_choice.specs.Refusals.{IsWideHere};
ghost use Rattle.tv_choice.specs.Looking.{IsPlace, IsWayRow, IsLookFault, no_wide, IsShown, AreAllShown, IsAnyExcluded, IsLook, IsOneMore, IsBest};
ghost use Rattle.tv_choice.specs.Ways.{AreWays};

use crate::lists::with_row;
use crate::place::{Place, is_met};
use crate::question::Question;
use crate::ways::Way;
use tv_farkas::{CoverFault, Judged, judge, unmade};
use tv_linear::{Row, push_item};

/// Whether rows are shown.
#[derive(Drop)]
pub enum Shown {
    /// Multipliers for each.
    All(Vec<Vec<i64>>),
    /// The row at this place in the list is not.
    Not(usize),
}

/// What becomes of a way.
#[derive(Drop)]
pub enum Look {
    /// It can be taken at each point.
    Shown(Vec<Vec<i64>>),
    /// The row at this place in its list is met at some point, and not met at some other; no row of the way is
    /// excluded.
    Open(usize),
    /// Some row of it is met at no point.
    Excluded,
}

/// What the ways come to.
#[derive(Drop)]
pub enum Best {
    /// The way at this place in the list can be taken.
    Take { way: usize, lists: Vec<Vec<i64>> },
    /// None can be taken, and of this way this row is open.
    Split { way: usize, row: usize },
    /// Each is excluded.
    Nothing,
}

/// Multipliers that refute the rows together with the denial of this row, if there are some.
fn show(question: &Question, place: &Place, row: &Row) -> Result<Option<Vec<i64>>, CoverFault>
    requires place { IsPlace question.now.columns place.now }
    requires same { width row.now ≡ question.now.columns }
    requires way { IsWayRow question.now.columns (query_of question.now) place.now.rows.now row.now }
    ensures shown { IfOk result (IsShown question.now.columns place.now.rows.now row.now) }
    ensures refusals { let n = question.now.columns in
        let q = query_of question.now in
        IfErr result (IsLookFault (IsWideDenialAt row.now) n q place.now.rows.now question.now.pivots) }
{
    let alloc = question.alloc;
    let denied = match row.deny(alloc) {
        Ok(denied) => denied,
        Err(fault) => return Err(unmade(fault)),
    };
    if is_met(&denied, place) {
        return Ok(None);
    }
    let all = with_row(alloc, place.rows, &denied)?;
    match judge(alloc, &all, question.columns, question.pivots) {
        Err(fault) => Err(fault),
        Ok(Judged::Refuted(multipliers)) => Ok(Some(multipliers)),
        Ok(Judged::Point { .. }) => Ok(None),
    }
}

/// Whether each of these rows is shown.
fn all_shown(question: &Question, place: &Place, owed: &[Row]) -> Result<Shown, CoverFault>
    requires place { IsPlace question.now.columns place.now }
    requires same { AreEven question.now.columns owed.now }
    requires way { IsWayRows question.now.columns (query_of question.now) place.now.rows.now owed.now }
    ensures shown { IfOk result (AreAllShown question.now.columns place.now.rows.now owed.now) }
    ensures refusals { let wide = IsWideIn question.now.columns place.now.rows.now owed.now in
        IfErr result (IsLookFault wide question.now.columns (query_of question.now) place.now.rows.now question.now.pivots) }
{
    let mut lists = Vec::new(question.alloc);
    'owed: for number in 0..owed.len() {
        match show(question, place, &owed[number]) {
            Err(fault) => return Err(fault),
            Ok(None) => return Ok(Shown::Not(number)),
            Ok(Some(multipliers)) => push_item(&mut lists, multipliers)?,
        }
    }
    Ok(Shown::All(lists))
}

/// Whether this row is met at no point.
fn is_excluded(question: &Question, place: &Place, row: &Row) -> Result<bool, CoverFault>
    requires place { IsPlace question.now.columns place.now }
    requires same { width row.now ≡ question.now.columns }
    requires way { IsWayRow question.now.columns (query_of question.now) place.now.rows.now row.now }
    ensures excluded { IfOk result (IsAnyExcluded question.now.columns place.now.rows.now (row.now ∷ [])) }
    ensures refusals { IfErr result (IsLookFault no_wide question.now.columns (query_of question.now) place.now.rows.now question.now.pivots) }
{
    if is_met(row, place) {
        return Ok(false);
    }
    let alloc = question.alloc;
    let all = with_row(alloc, place.rows, row)?;
    match judge(alloc, &all, question.columns, question.pivots) {
        Err(fault) => Err(fault),
        Ok(Judged::Refuted(_)) => Ok(true),
        Ok(Judged::Point { .. }) => Ok(false),
    }
}

/// Whether some of these rows is met at no point.
fn any_excluded(question: &Question, place: &Place, owed: &[Row]) -> Result<bool, CoverFault>
    requires place { IsPlace question.now.columns place.now }
    requires same { AreEven question.now.columns owed.now }
    requires way { IsWayRows question.now.columns (query_of question.now) place.now.rows.now owed.now }
    ensures excluded { IfOk result (IsAnyExcluded question.now.columns place.now.rows.now owed.now) }
    ensures refusals { IfErr result (IsLookFault no_wide question.now.columns (query_of question.now) place.now.rows.now question.now.pivots) }
{
    'owed: for number in 0..owed.len() {
        match is_excluded(question, place, &owed[number]) {
            Err(fault) => return Err(fault),
            Ok(true) => return Ok(true),
            Ok(false) => {}
        }
    }
    Ok(false)
}

/// What becomes of a way with these rows.
pub fn look_at(question: &Question, place: &Place, owed: &[Row]) -> Result<Look, CoverFault>
    requires place { IsPlace question.now.columns place.now }
    requires same { AreEven question.now.columns owed.now }
    requires way { IsWayRows question.now.columns (query_of question.now) place.now.rows.now owed.now }
    ensures look { IfOk result (IsLook question.now.columns place.now.rows.now owed.now) }
    ensures refusals { let wide = IsWideIn question.now.columns place.now.rows.now owed.now in
        IfErr result (IsLookFault wide question.now.columns (query_of question.now) place.now.rows.now question.now.pivots) }
{
    let open = match all_shown(question, place, owed) {
        Err(fault) => return Err(fault),
        Ok(Shown::All(lists)) => return Ok(Look::Shown(lists)),
        Ok(Shown::Not(number)) => number,
    };
    match any_excluded(question, place, owed) {
        Err(fault) => Err(fault),
        Ok(true) => Ok(Look::Excluded),
        Ok(false) => Ok(Look::Open(open)),
    }
}

/// What ways and one more come to: it is taken if it can be, and else the first that has an open row is split.
fn one_more(best: Best, way: usize, look: Look) -> Best
    ensures { IsOneMore way look best result }
{
    match look {
        Look::Shown(lists) => Best::Take { way, lists },
        Look::Open(row) => match best {
            Best::Nothing => Best::Split { way, row },
            best => best,
        },
        Look::Excluded => best,
    }
}

/// What the ways come to.
pub fn best_of(question: &Question, place: &Place, ways: &[Way]) -> Result<Best, CoverFault>
    requires place { IsPlace question.now.columns place.now }
    requires ways { AreWays question.now.columns (query_of question.now) place.now.rows.now ways.now }
    ensures best { IfOk result (IsBest question.now.columns place.now.rows.now ways.now) }
    ensures refusals { let wide = IsWideHere question.now.columns (query_of question.now) place.now.rows.now in
        IfErr result (IsLookFault wide question.now.columns (query_of question.now) place.now.rows.now question.now.pivots) }
{
    let mut best = Best::Nothing;
    'ways: for way in 0..ways.len() {
        match look_at(question, place, &ways[way].rows) {
            Err(fault) => return Err(fault),
            Ok(look) => best = one_more(best, way, look),
        }
        if let Best::Take { way, lists } = best {
            return Ok(Best::Take { way, lists });
        }
    }
    Ok(best)
}
