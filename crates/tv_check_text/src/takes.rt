ghost use Rattle.std.specs.Prelude.{◌≡◌, ◌<◌, ◌++◌, ◌^◌, ℕ, List, Some, IsSome, length};
ghost use Rattle.tv_linear.specs.Known.{Known};
ghost use Rattle.tv_cases.specs.Systems.{cases_of};
ghost use Rattle.tv_cases.specs.Views.{case_view};
ghost use Rattle.tv_cert.specs.Choices.{drawn_guards};
ghost use Rattle.tv_cert.specs.OwesViews.{destination_owes};
ghost use Rattle.tv_refute.specs.Frames.{known_at};
ghost use Rattle.tv_cert.specs.TargetViews.{AreFewAt};
ghost use Rattle.tv_cert_reader.specs.declared.cursor.Cursor.{Cursor};
ghost use Rattle.tv_cert_reader.specs.Covers.{IsBehind};
ghost use Rattle.tv_check_text.specs.Checking.{ChecksChoice, ChecksLists};

use crate::choices::ChoiceCheck;
use crate::shown::rows_are_shown;
use tv_cert::{OwedRows, TakenGuards, targets_after};
use tv_cert_reader::{Cursor, Failure, LineKind, NumberLine, Taken, read_rows};
use tv_linear::Row;
use tv_lines::Head;
use tv_refute::{Change, Frames, Terms};

impl<'a> ChoiceCheck<'a> {
    /// Whether the lines that stand next show the guards of a case that is taken, with these terms for its draws, and what is owed.
    fn is_shown(
        &self,
        cursor: &mut Cursor,
        frames: &Frames,
        known: u128,
        taken: &Taken<'a>,
        draws: &[Row],
    ) -> Result<bool, Failure>
        requires counted { known ≡ length (known_at frames.now) }
        requires room { known < 2 ^ 126 }
        requires owes { let system = cases_of self.now.context.about.now in
            let owes = destination_owes system.variables self.now.piece.now self.now.destination.now in
            IsSome (owes (case_view taken.now.case.now) draws.now taken.now.target taken.now.fall) }
        ensures { let n = (cases_of self.now.context.about.now).variables in
            let case = case_view taken.now.case.now in
            let owes = destination_owes n self.now.piece.now self.now.destination.now case draws.now in
            (rows : List Known) → owes taken.now.target taken.now.fall ≡ Some rows →
            ChecksLists n (known_at frames.now) (drawn_guards n case draws.now ++ rows) cursor.old cursor.new result }
    {
        let columns = self.context.about.variables();
        let case = taken.case;
        let after = Terms::After {
            columns,
            updates: &case.updates,
        };
        let drawn = Terms::Drawn { columns, draws };
        let change = Change::Twice(&after, &drawn);
        let targets = targets_after(self.piece, case, self.destination);
        let Some(entered) = targets.entered(taken.target, taken.fall) else {
            unreachable!();
        };
        let guards_change = Change::Once(&drawn);
        let guards = TakenGuards {
            rows: &case.guards.rows,
            change: &guards_change,
        };
        let owed = OwedRows {
            guards: Some(guards),
            entered,
            change: &change,
        };
        rows_are_shown(
            self.context.alloc,
            cursor,
            columns as usize,
            frames,
            known,
            &owed,
        )
    }

    /// Whether the lines after one that takes a case, which has these numbers, show its guards and what is owed.
    pub fn take_is_met(
        &self,
        cursor: &mut Cursor,
        frames: &Frames,
        known: u128,
        numbers: &[i64],
    ) -> Result<bool, Failure>
        requires bounded { AreFewAt self.now.piece.now self.now.destination.now }
        requires counted { known ≡ length (known_at frames.now) }
        requires room { known < 2 ^ 126 }
        ensures { let system = cases_of self.now.context.about.now in
            (left : ℕ) (old : Cursor) → IsBehind Head.Take numbers.now old cursor.old →
            ChecksChoice system self.now.piece.now self.now.stop self.now.destination.now (known_at frames.now) left old cursor.new result }
    {
        let Some(taken) = self.context.taken_of(numbers, self.piece, self.destination) else {
            return Err(Failure::Fault(LineKind::Shape, cursor.taken));
        };
        let columns = self.context.about.variables();
        let count = taken.case.draws as u64;
        let draws = read_rows(self.context.alloc, cursor, NumberLine::Draw, columns, count)?;
        let shown = self.is_shown(cursor, frames, known, &taken, &draws)?;
        Ok(shown)
    }
}
