// Ways to come to a loop at once.

ghost use Rattle.std.specs.Prelude.{◌≡◌, ◌≢◌, ◌∷◌, [], ◌≤◌, All, IfOk, MatchOption, Contains, length};
ghost use Rattle.std.specs.Result.{IfErr};
ghost use Rattle.tv_linear.specs.Linear.{columns as width};
ghost use Rattle.tv_cases.specs.Systems.{cases_of};
ghost use Rattle.tv_cases.specs.Views.{case_view};
ghost use Rattle.tv_known.specs.Recurrences.{IsEntered};
ghost use Rattle.tv_recur.specs.Keeping.{IsKeptBy, AreEntering, IsEntry, IsStem, NoEntryAt, NoEntryBelow};
ghost use Rattle.tv_recur.specs.Nodes.{on_piece, IsEndlessNode};
ghost use Rattle.tv_derived.specs.Scopes.{at_location};
ghost use Rattle.tv_recur.specs.Refusing.{IsRefusal, AreFrom};
ghost use Rattle.tv_recur.specs.Recurring.{IsRecurrence};

use crate::Recurrence;
use crate::making::{drawn_terms, rows_before, rows_put};
use crate::node::{endless_node, piece_of};
use crate::staying::lone_node;
use crate::taking::{Search, Taking, case_of, leading};
use std::alloc::{AllocError, Global};
use tv_cases::{Case, Cases};
use tv_cert::{Node, Proof};
use tv_cover::{Emptied, empty};
use tv_farkas::CoverFault;
use tv_linear::{Choice, Poly, Row, push_copies, push_item};

/// A case from the start to where a loop can be taken.
#[derive(Drop)]
pub(crate) struct Entry {
    /// The number of the case.
    pub number: u32,
    /// The rows that are met where it leads there.
    pub rows: Vec<Row>,
    /// A value for each variable, and then the draws.
    pub point: Vec<i128>,
}

/// The rows that are met where the case is taken and leads to where the guards of the loop are met.
fn entering_rows(search: &Search, case: &Case, kept: &Case) -> Result<Vec<Row>, CoverFault>
    requires among { Contains (cases_of search.now.about.now).cases (case_view case.now) }
    requires even { All (λ r. width r ≡ (cases_of search.now.about.now).variables) (case_view kept.now).guards }
    requires from { AreFrom (cases_of search.now.about.now) (at_location (case_view case.now).to) 1 (case_view kept.now).guards }
    ensures entering { IfOk result (λ v. AreEntering (case_view case.now) (case_view kept.now).guards v.items) }
    ensures refusals { IfErr result (IsRefusal (cases_of search.now.about.now) search.now.budget.now) }
{
    let mut rows = Vec::new(search.alloc);
    push_copies(search.alloc, &case.guards.rows, &mut rows)?;
    match rows_before(
        search.alloc,
        &kept.guards.rows,
        case,
        search.about.variables(),
    ) {
        Err(fault) => Err(fault),
        Ok(mut before) => {
            rows.append(&mut before)?;
            Ok(rows)
        }
    }
}

/// The way in by the case of a number, if it is one.
fn entry_at(search: &Search, kept: &Case, number: u32) -> Result<Option<Entry>, CoverFault>
    requires splits { search.now.budget.now.splits ≤ 128 }
    requires even { All (λ r. width r ≡ (cases_of search.now.about.now).variables) (case_view kept.now).guards }
    requires from { AreFrom (cases_of search.now.about.now) (at_location (case_view kept.now).from) 1 (case_view kept.now).guards }
    ensures found { let cases = cases_of search.now.about.now in
        let goal = case_view kept.now in
        IfOk result (λ found. MatchOption found (NoEntryAt cases goal number) (IsEntry cases goal)) }
    ensures refusals { IfErr result (IsRefusal (cases_of search.now.about.now) search.now.budget.now) }
{
    let Some(case) = case_of(search.about, number) else {
        return Ok(None);
    };
    if case.from != search.about.start() || case.to != kept.from {
        return Ok(None);
    }
    let rows = match entering_rows(search, case, kept) {
        Ok(rows) => rows,
        Err(fault) => return Err(fault),
    };
    let columns = search.about.variables() + case.draws;
    match empty(search.alloc, &rows, columns, search.budget) {
        Err(fault) => Err(fault),
        Ok(Emptied::Tree(_)) => Ok(None),
        Ok(Emptied::Whole(point)) => Ok(Some(Entry {
            number,
            rows,
            point,
        })),
    }
}

/// The first way in.
fn first_entry(search: &Search, kept: &Case) -> Result<Option<Entry>, CoverFault>
    requires splits { search.now.budget.now.splits ≤ 128 }
    requires even { All (λ r. width r ≡ (cases_of search.now.about.now).variables) (case_view kept.now).guards }
    requires from { AreFrom (cases_of search.now.about.now) (at_location (case_view kept.now).from) 1 (case_view kept.now).guards }
    ensures found { let cases = cases_of search.now.about.now in
        let goal = case_view kept.now in
        IfOk result (λ found. MatchOption found (NoEntryBelow cases goal (length cases.cases)) (IsEntry cases goal)) }
    ensures refusals { IfErr result (IsRefusal (cases_of search.now.about.now) search.now.budget.now) }
{
    let count = search.about.list().len() as u32;
    'numbers: for number in 0..count {
        match entry_at(search, kept, number) {
            Err(fault) => return Err(fault),
            Ok(Some(entry)) => return Ok(Some(entry)),
            Ok(None) => {}
        }
    }
    Ok(None)
}

/// A way in with the choice that takes it.
#[derive(Drop)]
struct Stem<'a> {
    case: &'a Case,
    rows: &'a [Row],
    choice: Choice,
}

/// The node of the guards of a loop, and of the rows at the start from which a case leads there.
fn stem_node(
    alloc: Global,
    about: &Cases,
    kept: &Case,
    choice: Choice,
    stem: Stem,
) -> Result<Node, AllocError>
    requires among { Contains (cases_of about.now).cases (case_view kept.now) }
    requires kept { IsKeptBy (cases_of about.now) (case_view kept.now) choice }
    requires stem { IsStem (cases_of about.now) (case_view kept.now) stem }
    ensures { let n = (cases_of about.now).variables in
        let goal = on_piece n (case_view kept.now).from (case_view kept.now).guards in
        let first = on_piece n (cases_of about.now).start stem.entry.rows.now in
        IfOk result (IsEndlessNode (cases_of about.now) (goal ∷ first ∷ [])) }
{
    let mut pieces = Vec::new(alloc);
    let guards = piece_of(alloc, about.variables(), kept.from, &kept.guards.rows)?;
    push_item(&mut pieces, guards)?;
    let first = piece_of(alloc, about.variables(), about.start(), stem.rows)?;
    push_item(&mut pieces, first)?;
    let mut proofs = Vec::new(alloc);
    push_item(&mut proofs, Proof::Chosen(choice))?;
    push_item(&mut proofs, Proof::Chosen(stem.choice))?;
    endless_node(alloc, about, pieces, proofs)
}

/// The recurrence that comes to the loop by a case from the start.
fn enter_by(
    search: &Search,
    kept: &Case,
    choice: Choice,
    entry: &Entry,
) -> Result<Recurrence, CoverFault>
    requires splits { search.now.budget.now.splits ≤ 128 }
    requires among { Contains (cases_of search.now.about.now).cases (case_view kept.now) }
    requires away { (case_view kept.now).from ≢ (cases_of search.now.about.now).start }
    requires kept { IsKeptBy (cases_of search.now.about.now) (case_view kept.now) choice }
    requires entry { IsEntry (cases_of search.now.about.now) (case_view kept.now) entry.now }
    ensures found { IfOk result (IsRecurrence (cases_of search.now.about.now)) }
    ensures refusals { IfErr result (IsRefusal (cases_of search.now.about.now) search.now.budget.now) }
{
    let alloc = search.alloc;
    let Some(case) = case_of(search.about, entry.number) else {
        unreachable!()
    };
    let columns = search.about.variables();
    let (values, draws) = entry.point.split_at(columns as usize);
    let terms = drawn_terms(alloc, columns, draws)?;
    let put = match rows_put(alloc, &entry.rows, &terms) {
        Ok(put) => put,
        Err(fault) => return Err(fault),
    };
    let first = Poly { columns, rows: put };
    let taking = Taking {
        alloc,
        about: search.about,
        case,
        number: entry.number,
        draws,
        place: 0,
        budget: search.budget,
    };
    match leading(&taking, &first, &kept.guards.rows) {
        Err(fault) => Err(fault),
        Ok(None) => unreachable!(),
        Ok(Some(taken)) => {
            let stem = Stem {
                case,
                rows: &first.rows,
                choice: taken,
            };
            let root = stem_node(alloc, search.about, kept, choice, stem)?;
            let values = Vec::from_slice(alloc, values)?;
            Ok(Recurrence {
                root,
                piece: 0,
                values,
            })
        }
    }
}

/// The recurrence of a loop at the start.
fn enter_here(
    search: &Search,
    kept: &Case,
    choice: Choice,
) -> Result<Option<Recurrence>, CoverFault>
    requires splits { search.now.budget.now.splits ≤ 128 }
    requires among { Contains (cases_of search.now.about.now).cases (case_view kept.now) }
    requires here { (case_view kept.now).from ≡ (cases_of search.now.about.now).start }
    requires kept { IsKeptBy (cases_of search.now.about.now) (case_view kept.now) choice }
    ensures found { let cases = cases_of search.now.about.now in
        IfOk result (λ found. MatchOption found (IsEntered cases (case_view kept.now) → ⊥) (IsRecurrence cases)) }
    ensures refusals { IfErr result (IsRefusal (cases_of search.now.about.now) search.now.budget.now) }
{
    let columns = search.about.variables();
    let rows = &kept.guards.rows;
    match empty(search.alloc, rows, columns, search.budget) {
        Err(fault) => Err(fault),
        Ok(Emptied::Tree(_)) => Ok(None),
        Ok(Emptied::Whole(values)) => {
            let root = lone_node(search.alloc, search.about, kept, rows, choice)?;
            Ok(Some(Recurrence {
                root,
                piece: 0,
                values,
            }))
        }
    }
}

/// The recurrence of a loop, if it is entered at once.
pub(crate) fn enter(
    search: &Search,
    kept: &Case,
    choice: Choice,
) -> Result<Option<Recurrence>, CoverFault>
    requires splits { search.now.budget.now.splits ≤ 128 }
    requires among { Contains (cases_of search.now.about.now).cases (case_view kept.now) }
    requires kept { IsKeptBy (cases_of search.now.about.now) (case_view kept.now) choice }
    ensures found { let cases = cases_of search.now.about.now in
        IfOk result (λ found. MatchOption found (IsEntered cases (case_view kept.now) → ⊥) (IsRecurrence cases)) }
    ensures refusals { IfErr result (IsRefusal (cases_of search.now.about.now) search.now.budget.now) }
{
    if kept.from == search.about.start() {
        return enter_here(search, kept, choice);
    }
    match first_entry(search, kept) {
        Err(fault) => Err(fault),
        Ok(None) => Ok(None),
        Ok(Some(entry)) => match enter_by(search, kept, choice, &entry) {
            Err(fault) => Err(fault),
            Ok(recurrence) => Ok(Some(recurrence)),
        },
    }
}
