ghost use Rattle.std.specs.Prelude.{◌≡◌, ◌+◌, ◌-◌, ◌<◌, ◌^◌, ℕ, List, All, Option, MatchOption, length};
ghost use Rattle.tv_linear.specs.Linear.{Linear};
ghost use Rattle.tv_lines.specs.Numbers.{IsNarrow};
ghost use Rattle.tv_linear.specs.Known.{Known};
ghost use Rattle.tv_refute.specs.Built.{change_of};
ghost use Rattle.tv_refute.specs.Frames.{known_at};
ghost use Rattle.tv_cert.specs.TargetViews.{AreFew};
ghost use Rattle.tv_cert_reader.specs.declared.cursor.Cursor.{Cursor};
ghost use Rattle.tv_cert_reader.specs.Covers.{IsBehind};
ghost use Rattle.tv_check_text.specs.Checking.{EntersNone, IsEntered, ChecksCover, ChecksSides};
ghost use Rattle.tv_cert.specs.TargetViews.{owed_at};

use crate::empty::is_empty;
use crate::shown::rows_are_shown;
use std::alloc::Global;
use tv_cert::{Entered, OwedRows, Targets};
use tv_cert_reader::{Cursor, Failure, LineKind, row_of, take, two_small};
use tv_linear::{Row, RowView};
use tv_lines::Head;
use tv_refute::{Built, Change, Frames};

/// What covers are read and checked with: how many columns the rows of their places have, and what they lead into.
#[derive(Drop)]
pub struct Covering<'a, 'b> {
    pub alloc: Global,
    pub columns: u32,
    pub targets: &'a Targets<'a>,
    /// How the rows of the targets are changed.
    pub change: &'b Change<'b>,
}

impl Covering<'_, '_> {
    /// What is owed on entering the target and the fall that the numbers name.
    fn entered_by(&self, numbers: &[i64]) -> Option<Entered<'_>>
        requires { AreFew self.now.targets.now }
        ensures { (change : Linear → Known) →
            let owed = owed_at change self.now.targets.now in
            MatchOption result (EntersNone owed numbers.now) (IsEntered change owed numbers.now) }
    {
        let Some((target, fall)) = two_small(numbers) else {
            return None;
        };
        self.targets.entered(target, fall)
    }

    /// Whether the lines after one into a target, which has these numbers, show what is owed.
    fn is_shown(
        &self,
        cursor: &mut Cursor,
        frames: &Frames,
        known: u128,
        numbers: &[i64],
    ) -> Result<bool, Failure>
        requires bounded { AreFew self.now.targets.now }
        requires counted { known ≡ length (known_at frames.now) }
        requires room { known < 2 ^ 127 }
        ensures { (left : ℕ) (old : Cursor) → IsBehind Head.Into numbers.now old cursor.old →
            let owed = owed_at (change_of self.now.change.now) self.now.targets.now in
            ChecksCover self.now.columns owed (known_at frames.now) left old cursor.new result }
    {
        let Some(entered) = self.entered_by(numbers) else {
            return Err(Failure::Fault(LineKind::Shape, cursor.taken));
        };
        let owed = OwedRows {
            guards: None,
            entered,
            change: self.change,
        };
        rows_are_shown(
            self.alloc,
            cursor,
            self.columns as usize,
            frames,
            known,
            &owed,
        )
    }

    /// Whether the covers that stand next are met: one where the row is met, and one where it is not.
    #[cycle(is_met)]
    fn sides_are_met(
        &self,
        cursor: &mut Cursor,
        left: u32,
        frames: &Frames,
        known: u128,
        row: &Row,
    ) -> Result<bool, Failure>
        requires narrow { self.now.columns < 2 ^ 32 - 1 }
        requires bounded { AreFew self.now.targets.now }
        requires counted { known ≡ length (known_at frames.now) }
        requires room { known + left + 1 < 2 ^ 127 }
        ensures { let owed = owed_at (change_of self.now.change.now) self.now.targets.now in
            ChecksSides self.now.columns owed (known_at frames.now) left row.now cursor.old cursor.new result }
    {
        let given = Built::Given(RowView::of(row));
        let denied = Built::Denied(&given);
        let inside = Frames::More {
            row: &given,
            above: &*frames,
        };
        let outside = Frames::More {
            row: &denied,
            above: &*frames,
        };
        let holds = self.is_met(cursor, left, &inside, known + 1)?;
        let fails = self.is_met(cursor, left, &outside, known + 1)?;
        Ok(holds && fails)
    }

    /// Whether the cover that comes next is met at a place with `known` rows. At most `left` splits may lie on a path.
    ///
    /// It is read to its end also where a part of it is not met.
    #[cycle(is_met)]
    pub fn is_met(
        &self,
        cursor: &mut Cursor,
        left: u32,
        frames: &Frames,
        known: u128,
    ) -> Result<bool, Failure>
        requires narrow { self.now.columns < 2 ^ 32 - 1 }
        requires bounded { AreFew self.now.targets.now }
        requires counted { known ≡ length (known_at frames.now) }
        requires room { known + left < 2 ^ 127 }
        ensures { let owed = owed_at (change_of self.now.change.now) self.now.targets.now in
            ChecksCover self.now.columns owed (known_at frames.now) left cursor.old cursor.new result }
    {
        let (head, numbers) = take(self.alloc, cursor)?;
        match head {
            Head::Split => {
                if left == 0 {
                    return Err(Failure::Fault(LineKind::Deep, cursor.taken));
                }
                let Some(row) = row_of(numbers, self.columns) else {
                    return Err(Failure::Fault(LineKind::Shape, cursor.taken));
                };
                self.sides_are_met(cursor, left - 1, frames, known, &row)
            }
            Head::Empty => is_empty(self.columns, frames, known, numbers, cursor.taken),
            Head::Into => self.is_shown(cursor, frames, known, &numbers),
            _ => Err(Failure::Fault(LineKind::Shape, cursor.taken)),
        }
    }
}
