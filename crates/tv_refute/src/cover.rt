ghost use Rattle.std.specs.Prelude.{◌↔◌, ℕ, Option, List, IsTrue, map};
ghost use Rattle.tv_linear.specs.Known.{Known};
ghost use Rattle.tv_linear.specs.Covers.{ShownAt, IsMetCover};
ghost use Rattle.tv_refute.specs.Frames.{known_at};
ghost use Rattle.tv_refute.specs.Points.{AllEnter};

use crate::built::Built;
use crate::frames::Frames;
use crate::refute::refutes;
use tv_linear::{CoverTree, RowView};

/// What a cover leads into.
pub trait Targets {
    /// The rows owed on entering a target by a fall.
    ghost owed: { Self → ℕ → ℕ → Option (List Known) };

    /// Whether there are this target and fall, and the multipliers show each row that they owe.
    fn are_shown(
        &self,
        columns: usize,
        frames: &Frames,
        target: u32,
        fall: u32,
        lists: &[Vec<i64>],
    ) -> bool
        ensures { IsTrue result ↔ ShownAt columns (known_at frames.now)
            (Self.owed self.now target fall) (map (λ l. l.items) lists.now) };
}

/// Whether the cover is met at the place.
pub fn cover_is_met<T: Targets>(
    columns: usize,
    frames: &Frames,
    targets: &T,
    tree: &CoverTree,
) -> bool
    ensures exact { IsTrue result ↔ IsMetCover columns (T.owed targets.now) (known_at frames.now) tree.now }
    ensures sound { IsTrue result → AllEnter columns (known_at frames.now) (T.owed targets.now) }
{
    match tree {
        CoverTree::Split(row, holds, fails) => {
            let known = Built::Given(RowView::of(row));
            let denied = Built::Denied(&known);
            let met = Frames::More {
                row: &known,
                above: &*frames,
            };
            let not_met = Frames::More {
                row: &denied,
                above: &*frames,
            };
            cover_is_met(columns, &met, targets, holds)
                && cover_is_met(columns, &not_met, targets, fails)
        }
        CoverTree::Empty(multipliers) => refutes(columns, frames, multipliers),
        CoverTree::Into {
            target,
            fall,
            refutations,
        } => targets.are_shown(columns, frames, *target, *fall, refutations),
    }
}
