// Ranks none of which is to grow.

ghost use Rattle.std.specs.Prelude.{◌≡◌, ◌<◌, length};
ghost use Rattle.tv_linear.specs.Linear.{Linear};
ghost use Rattle.tv_linear.specs.Known.{Known};
ghost use Rattle.tv_linear.specs.Views.{rows_seen};
ghost use Rattle.tv_refute.specs.Built.{change_of};
ghost use Rattle.tv_refute.specs.Frames.{known_at};
ghost use Rattle.tv_cert.specs.Entering.{ShowsRow};

use tv_linear::Rows;
use tv_refute::{Change, Frames, Rank, shows, shows_less};

/// The rows of a piece that is entered, and as many ranks before as after, none of which is to grow.
#[derive(Drop)]
pub struct Kept<'a> {
    pub rows: Rows<'a>,
    pub old: Rows<'a>,
    pub new: Rows<'a>,
    pub ghost as_many: { length (rows_seen old) ≡ length (rows_seen new) },
}

impl Kept<'_> {
    ghost use Rattle.tv_finitely.specs.Entrances.{kept_listed};

    /// How many rows are to be shown.
    pub fn count(&self) -> usize
        ensures { (change : Linear → Known) → result ≡ length (kept_listed change self.now) }
    {
        self.rows.len() + self.old.len()
    }

    /// Whether the multipliers show the row at a place.
    pub fn is_shown(
        &self,
        columns: usize,
        frames: &Frames,
        change: &Change,
        place: usize,
        multipliers: &[i64],
    ) -> bool
        requires { place < length (kept_listed (change_of change.now) self.now) }
        ensures { ShowsRow columns (known_at frames.now) (kept_listed (change_of change.now) self.now) place multipliers.now result }
    {
        let rows = self.rows.len();
        if place < rows {
            let row = self.rows.row(place);
            return shows(columns, frames, change, row, multipliers);
        }
        let further = place - rows;
        let old = self.old.row(further);
        let new = self.new.row(further);
        let rank = Rank { change, old, new };
        shows_less(columns, frames, &rank, 0, multipliers)
    }
}
