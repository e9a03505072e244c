ghost use Rattle.std.specs.Prelude.{◌≡◌, ◌+◌, ◌-◌, ◌<◌, ◌≤◌, ◌^◌, ℕ, Bool, [], All, length};
ghost use Rattle.tv_lines.specs.Numbers.{IsNarrow};
ghost use Rattle.tv_cases.specs.LinearCases.{CaseSystem, leaving};
ghost use Rattle.tv_cases.specs.Systems.{cases_of};
ghost use Rattle.tv_cases.specs.Views.{case_view};
ghost use Rattle.tv_cert.specs.declared.node.Marked.{Marked};
ghost use Rattle.tv_cert.specs.declared.owes.Destination.{Destination};
ghost use Rattle.tv_refute.specs.Frames.{known_at};
ghost use Rattle.tv_cert.specs.TargetViews.{AreFewAt};
ghost use Rattle.tv_cert_reader.specs.declared.cursor.Cursor.{Cursor};
ghost use Rattle.tv_cert_reader.specs.Covers.{IsBehind};
ghost use Rattle.tv_check_text.specs.Checking.{ChecksChoice, ChecksChoiceSides, ChecksStop, ChecksStops};

use crate::covers::Covering;
use crate::empty::is_empty;
use tv_cases::Case;
use tv_cert::{Destination, Marked, Targets};
use tv_cert_reader::{Context, Cursor, Failure, LineKind, row_of, take};
use tv_linear::{Row, RowView, Rows};
use tv_lines::Head;
use tv_refute::{Built, Change, Frames};

/// What choices are read and checked with: the piece at which they are made, where they lead, and whether they may show that there is
/// no step.
#[derive(Drop)]
pub struct ChoiceCheck<'a> {
    pub context: Context<'a>,
    pub piece: &'a Marked,
    pub stop: bool,
    pub destination: &'a Destination<'a>,
}

/// Whether the cover that comes next is met: one without targets, of the place and the guards of a case.
fn stop_is_met(
    context: &Context,
    cursor: &mut Cursor,
    left: u32,
    frames: &Frames,
    known: u128,
    case: &Case,
) -> Result<bool, Failure>
    requires shallow { left ≤ 128 }
    requires draws { case.now.draws ≤ 64 }
    requires counted { known ≡ length (known_at frames.now) }
    requires room { known < 2 ^ 125 }
    ensures { ChecksStop (cases_of context.now.about.now).variables (known_at frames.now) left (case_view case.now) cursor.old cursor.new result }
{
    let covering = Covering {
        alloc: context.alloc,
        columns: context.about.variables() + case.draws,
        targets: &Targets::Nowhere,
        change: &Change::Kept,
    };
    let place = Frames::Rows {
        rows: Rows::Each(&case.guards.rows),
        above: &*frames,
    };
    let rows = known + case.guards.rows.len() as u128;
    covering.is_met(cursor, left, &place, rows)
}

/// Whether the covers that stand next are met: one for each case from the location.
fn stops_are_met(
    context: &Context,
    cursor: &mut Cursor,
    left: u32,
    frames: &Frames,
    known: u128,
    location: u32,
) -> Result<bool, Failure>
    requires shallow { left ≤ 128 }
    requires counted { known ≡ length (known_at frames.now) }
    requires room { known < 2 ^ 125 }
    ensures { let system = cases_of context.now.about.now in
        ChecksStops system.variables (known_at frames.now) left (leaving location system.cases) cursor.old cursor.new result }
{
    let mut met = true;
    let mut k = 0;
    'cases: while let Some(case) = context.about.leaving(location, k) {
        let stuck = stop_is_met(context, cursor, left, frames, known, case)?;
        met = met && stuck;
        k += 1;
    }
    Ok(met)
}

impl ChoiceCheck<'_> {
    /// Whether the lines after one that says that there is no step show it.
    fn no_step_is_met(
        &self,
        cursor: &mut Cursor,
        left: u32,
        frames: &Frames,
        known: u128,
    ) -> Result<bool, Failure>
        requires shallow { left ≤ 128 }
        requires counted { known ≡ length (known_at frames.now) }
        requires room { known < 2 ^ 125 }
        ensures { let system = cases_of self.now.context.about.now in
            (old : Cursor) → IsBehind Head.NoStep [] old cursor.old →
            ChecksChoice system self.now.piece.now self.now.stop self.now.destination.now (known_at frames.now) left old cursor.new result }
    {
        if !self.stop {
            return Err(Failure::Fault(LineKind::Shape, cursor.taken));
        }
        let location = self.piece.location();
        stops_are_met(&self.context, cursor, left, frames, known, location)
    }

    /// Whether the choices that stand next are met: one where the row is met, and one where it is not.
    #[cycle(is_met)]
    fn sides_are_met(
        &self,
        cursor: &mut Cursor,
        left: u32,
        frames: &Frames,
        known: u128,
        row: &Row,
    ) -> Result<bool, Failure>
        requires bounded { AreFewAt self.now.piece.now self.now.destination.now }
        requires shallow { left < 128 }
        requires counted { known ≡ length (known_at frames.now) }
        requires room { known + left + 1 < 2 ^ 125 }
        ensures { let system = cases_of self.now.context.about.now in
            let checks = ChecksChoiceSides system self.now.piece.now self.now.stop self.now.destination.now in
            checks (known_at frames.now) left row.now cursor.old cursor.new result }
    {
        let given = Built::Given(RowView::of(row));
        let denied = Built::Denied(&given);
        let inside = Frames::More {
            row: &given,
            above: &*frames,
        };
        let outside = Frames::More {
            row: &denied,
            above: &*frames,
        };
        let holds = self.is_met(cursor, left, &inside, known + 1)?;
        let fails = self.is_met(cursor, left, &outside, known + 1)?;
        Ok(holds && fails)
    }

    /// Whether the choice that comes next is met at a place with `known` rows. At most `left` splits may lie on a path, counting into
    /// its covers.
    ///
    /// It is read to its end also where a part of it is not met.
    #[cycle(is_met)]
    pub fn is_met(
        &self,
        cursor: &mut Cursor,
        left: u32,
        frames: &Frames,
        known: u128,
    ) -> Result<bool, Failure>
        requires bounded { AreFewAt self.now.piece.now self.now.destination.now }
        requires shallow { left ≤ 128 }
        requires counted { known ≡ length (known_at frames.now) }
        requires room { known + left < 2 ^ 125 }
        ensures { let system = cases_of self.now.context.about.now in
            ChecksChoice system self.now.piece.now self.now.stop self.now.destination.now (known_at frames.now) left cursor.old cursor.new result }
    {
        let (head, numbers) = take(self.context.alloc, cursor)?;
        let columns = self.context.about.variables();
        match head {
            Head::Split => {
                if left == 0 {
                    return Err(Failure::Fault(LineKind::Deep, cursor.taken));
                }
                let Some(row) = row_of(numbers, columns) else {
                    return Err(Failure::Fault(LineKind::Shape, cursor.taken));
                };
                self.sides_are_met(cursor, left - 1, frames, known, &row)
            }
            Head::Empty => is_empty(columns, frames, known, numbers, cursor.taken),
            Head::NoStep => self.no_step_is_met(cursor, left, frames, known),
            Head::Take => self.take_is_met(cursor, frames, known, &numbers),
            _ => Err(Failure::Fault(LineKind::Shape, cursor.taken)),
        }
    }
}
