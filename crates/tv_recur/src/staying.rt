// Steps from an initial state to itself.

ghost use Rattle.std.specs.Prelude.{◌≡◌, ◌+◌, ◌++◌, ◌∷◌, [], ◌-◌, ◌^◌, ◌<◌, ◌≤◌, All, IfOk, MatchOption, Some, slice_get};
ghost use Rattle.std.specs.Result.{IfErr};
ghost use Rattle.tv_linear.specs.Linear.{columns as width};
ghost use Rattle.tv_cases.specs.Systems.{cases_of};
ghost use Rattle.tv_cases.specs.Views.{case_view};
ghost use Rattle.tv_farkas.specs.EmptyPaths.{IsWholePointOf};
ghost use Rattle.tv_farkas.specs.Paths.{IsWholePoint};
ghost use Rattle.tv_farkas.specs.Refuting.{AreShort};
ghost use Rattle.tv_recur.specs.Staying.{added, taken_off, unchanged_rows, staying_rows, NeverStaysAt};
ghost use Rattle.tv_recur.specs.Nodes.{on_piece, IsEndlessNode};
ghost use Rattle.tv_recur.specs.Choosing.{LeadsInto};
ghost use Rattle.tv_derived.specs.Scopes.{over_case};
ghost use Rattle.tv_recur.specs.Refusing.{IsRefusal, AreFrom, IsUnmadeUpdate, IsUnmadeAmong};
ghost use Rattle.tv_recur.specs.Recurring.{IsRecurrence};

use crate::Recurrence;
use crate::making::{drawn_terms, handed_on, rows_put};
use crate::node::{endless_node, piece_of};
use crate::taking::{Search, Taking, case_of, leading, narrow_rows};
use std::alloc::{AllocError, Global};
use tv_cases::{Case, Cases};
use tv_cert::{Node, Proof};
use tv_cover::{Emptied, empty};
use tv_farkas::CoverFault;
use tv_linear::{Choice, Poly, Row, Update, push_copies, push_item};

/// Puts the two rows that are met where the update changes nothing at the end of the list.
fn push_unchanged(
    alloc: Global,
    columns: u32,
    update: &Update,
    rows: &mut Vec<Row>,
) -> Result<(), CoverFault>
    requires bounded { columns < 2 ^ 32 - 1 }
    requires even { width update.now.term ≡ columns }
    requires inside { update.now.variable < columns }
    ensures pushed { IfOk result (λ _. rows.new.items ≡ rows.old.items ++ added columns update.now ∷ taken_off columns update.now ∷ []) }
    ensures refusals { IfErr result (IsUnmadeUpdate columns update.now) }
{
    let column = Row::column(alloc, columns, update.variable)?;
    let more = match update.term.add(alloc, &column.opposite(alloc)?) {
        Ok(more) => more,
        Err(fault) => return Err(handed_on(fault)),
    };
    let less = match column.add(alloc, &update.term.opposite(alloc)?) {
        Ok(less) => less,
        Err(fault) => return Err(handed_on(fault)),
    };
    push_item(rows, more)?;
    push_item(rows, less)?;
    Ok(())
}

/// Puts the rows that are met where the updates change nothing at the end of the list.
fn push_all_unchanged(
    alloc: Global,
    columns: u32,
    updates: &[Update],
    rows: &mut Vec<Row>,
) -> Result<(), CoverFault>
    requires bounded { columns < 2 ^ 32 - 1 }
    requires even { All (λ u. width u.term ≡ columns) updates.now }
    requires inside { All (λ u. u.variable < columns) updates.now }
    ensures pushed { IfOk result (λ _. rows.new.items ≡ rows.old.items ++ unchanged_rows columns updates.now) }
    ensures refusals { IfErr result (IsUnmadeAmong columns updates.now) }
{
    'updates: for update in updates {
        match push_unchanged(alloc, columns, update, rows) {
            Ok(()) => {}
            Err(fault) => return Err(fault),
        }
    }
    Ok(())
}

/// The node of one piece, from which a choice leads into it again.
pub(crate) fn lone_node(
    alloc: Global,
    about: &Cases,
    case: &Case,
    rows: &[Row],
    choice: Choice,
) -> Result<Node, AllocError>
    requires place { (case_view case.now).from < (cases_of about.now).locations }
    requires back { (case_view case.now).from ≡ (case_view case.now).to }
    requires even { All (λ r. width r ≡ (cases_of about.now).variables) rows.now }
    requires leads { LeadsInto (cases_of about.now) (case_view case.now) 0 rows.now rows.now choice }
    ensures { let piece = on_piece (cases_of about.now).variables (case_view case.now).from rows.now in
        IfOk result (IsEndlessNode (cases_of about.now) (piece ∷ [])) }
{
    let mut pieces = Vec::new(alloc);
    let piece = piece_of(alloc, about.variables(), case.from, rows)?;
    push_item(&mut pieces, piece)?;
    let mut proofs = Vec::new(alloc);
    push_item(&mut proofs, Proof::Chosen(choice))?;
    endless_node(alloc, about, pieces, proofs)
}

/// The recurrence at an integer point where the case can be taken and changes nothing.
fn staying_at(
    search: &Search,
    case: &Case,
    number: u32,
    rows: &[Row],
    point: &[i128],
) -> Result<Recurrence, CoverFault>
    requires splits { search.now.budget.now.splits ≤ 128 }
    requires found { slice_get (cases_of search.now.about.now).cases number ≡ Some (case_view case.now) }
    requires starts { (case_view case.now).from ≡ (cases_of search.now.about.now).start }
    requires ends { (case_view case.now).to ≡ (cases_of search.now.about.now).start }
    requires rows { rows.now ≡ staying_rows (cases_of search.now.about.now).variables (case_view case.now) }
    requires point { IsWholePoint ((cases_of search.now.about.now).variables + (case_view case.now).draws) rows.now point.now }
    requires first { IsWholePointOf ((cases_of search.now.about.now).variables + (case_view case.now).draws) rows.now point.now }
    requires short { AreShort point.now }
    requires from { AreFrom (cases_of search.now.about.now) (over_case (case_view case.now)) 1 rows.now }
    ensures found { IfOk result (IsRecurrence (cases_of search.now.about.now)) }
    ensures refusals { IfErr result (IsRefusal (cases_of search.now.about.now) search.now.budget.now) }
{
    let alloc = search.alloc;
    let variables = search.about.variables();
    let (values, draws) = point.split_at(variables as usize);
    let terms = drawn_terms(alloc, variables, draws)?;
    let put = match rows_put(alloc, rows, &terms) {
        Ok(put) => put,
        Err(fault) => return Err(fault),
    };
    let piece = Poly {
        columns: variables,
        rows: put,
    };
    let taking = Taking {
        alloc,
        about: search.about,
        case,
        number,
        draws,
        place: 0,
        budget: search.budget,
    };
    match leading(&taking, &piece, &piece.rows) {
        Err(fault) => Err(fault),
        Ok(None) => unreachable!(),
        Ok(Some(choice)) => {
            let root = lone_node(alloc, search.about, case, &piece.rows, choice)?;
            let values = Vec::from_slice(alloc, values)?;
            Ok(Recurrence {
                root,
                piece: 0,
                values,
            })
        }
    }
}

/// A recurrence by a step from an initial state to itself, by the case of a number.
pub(crate) fn stay(search: &Search, number: u32) -> Result<Option<Recurrence>, CoverFault>
    requires splits { search.now.budget.now.splits ≤ 128 }
    ensures found { let cases = cases_of search.now.about.now in
        IfOk result (λ found. MatchOption found (NeverStaysAt cases number) (IsRecurrence cases)) }
    ensures refusals { IfErr result (IsRefusal (cases_of search.now.about.now) search.now.budget.now) }
{
    let Some(case) = case_of(search.about, number) else {
        return Ok(None);
    };
    if case.from != search.about.start() || case.to != search.about.start() {
        return Ok(None);
    }
    let columns = search.about.variables() + case.draws;
    let mut rows = Vec::new(search.alloc);
    push_copies(search.alloc, &case.guards.rows, &mut rows)?;
    match push_all_unchanged(search.alloc, columns, &case.updates, &mut rows) {
        Ok(()) => {}
        Err(fault) => return Err(fault),
    }
    narrow_rows(&rows);
    match empty(search.alloc, &rows, columns, search.budget) {
        Err(fault) => Err(fault),
        Ok(Emptied::Tree(_)) => Ok(None),
        Ok(Emptied::Whole(point)) => match staying_at(search, case, number, &rows, &point) {
            Err(fault) => Err(fault),
            Ok(recurrence) => Ok(Some(recurrence)),
        },
    }
}
