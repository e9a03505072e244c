ghost use Rattle.std.specs.Prelude.{ℕ, Option, List};
ghost use Rattle.tv_linear.specs.Known.{Known};
ghost use Rattle.tv_refute.specs.Built.{change_of};
ghost use Rattle.tv_cert.specs.TargetViews.{owed_at};

use crate::shown::rows_are_shown;
use tv_cert::{OwedRows, Targets};
use tv_refute::{Change, Frames};

/// What a cover leads into, and how the rows of its targets are changed.
#[derive(Drop)]
pub struct Entering<'a, 'b> {
    pub targets: &'a Targets<'a>,
    pub change: &'b Change<'b>,
}

impl tv_refute::Targets for Entering<'_, '_> {
    ghost owed = { λ t. owed_at (change_of t.change.now) t.targets.now };

    fn are_shown(
        &self,
        columns: usize,
        frames: &Frames,
        target: u32,
        fall: u32,
        lists: &[Vec<i64>],
    ) -> bool {
        match self.targets.entered(target, fall) {
            None => false,
            Some(entered) => {
                let owed = OwedRows {
                    guards: None,
                    entered,
                    change: self.change,
                };
                rows_are_shown(columns, frames, &owed, lists)
            }
        }
    }
}
