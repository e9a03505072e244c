ghost use Rattle.std.specs.Prelude.{◌↔◌, IsTrue, map};
ghost use Rattle.tv_linear.specs.Covers.{Shown};
ghost use Rattle.tv_refute.specs.Frames.{known_at};
ghost use Rattle.tv_cert.specs.Entering.{owed_listed};

use tv_cert::OwedRows;
use tv_refute::Frames;

/// Whether there is a list of multipliers for each of the rows, and it shows its row.
pub fn rows_are_shown(columns: usize, frames: &Frames, owed: &OwedRows, lists: &[Vec<i64>]) -> bool
    ensures { IsTrue result ↔ Shown columns (known_at frames.now) (owed_listed owed.now) (map (λ l. l.items) lists.now) }
{
    if owed.count() != lists.len() as u128 {
        return false;
    }
    for (i, multipliers) in lists.iter().enumerate() {
        if !owed.is_shown(columns, frames, i as u128, multipliers) {
            return false;
        }
    }
    true
}
