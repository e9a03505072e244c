// What is owed on entering a piece.

ghost use Rattle.std.specs.Prelude.{◌≡◌, ◌↔◌, ◌<◌, IsTrue, length, map};
ghost use Rattle.tv_linear.specs.Linear.{Linear};
ghost use Rattle.tv_linear.specs.Known.{Known};
ghost use Rattle.tv_linear.specs.Covers.{Shown};
ghost use Rattle.tv_refute.specs.Built.{change_of};
ghost use Rattle.tv_refute.specs.Frames.{known_at};
ghost use Rattle.tv_cert.specs.Entering.{ShowsRow};
ghost use Rattle.tv_finitely.specs.Entrances.{listed, rows_listed};

use crate::kept::Kept;
use tv_cert::{Entered, OwedRows as FallingRows};
use tv_refute::{Change, Frames};

/// The rows of a piece, and that its ranks fall or that none of them grows.
#[derive(Drop)]
pub enum Owed<'a> {
    Falling(Entered<'a>),
    Keeping(Kept<'a>),
}

/// The same, with the change of the rows by a case.
#[derive(Drop)]
pub enum OwedRows<'a, 'b> {
    Falling(FallingRows<'a, 'b>),
    Keeping(Kept<'a>, &'b Change<'b>),
}

impl<'a> Owed<'a> {
    /// How many rows are to be shown.
    pub fn count(&self) -> usize
        ensures { (change : Linear → Known) → result ≡ length (listed change self.now) }
    {
        match self {
            Owed::Falling(entered) => entered.count(),
            Owed::Keeping(kept) => kept.count(),
        }
    }

    /// The rows to be shown, which are changed.
    pub fn changed<'b>(self, change: &'b Change<'b>) -> OwedRows<'a, 'b>
        ensures { rows_listed result ≡ listed (change_of change.now) self.entry }
    {
        match self {
            Owed::Falling(entered) => OwedRows::Falling(FallingRows {
                guards: None,
                entered,
                change,
            }),
            Owed::Keeping(kept) => OwedRows::Keeping(kept, change),
        }
    }
}

impl OwedRows<'_, '_> {
    /// How many there are.
    fn count(&self) -> u128
        ensures { result ≡ length (rows_listed self.now) }
    {
        match self {
            OwedRows::Falling(rows) => rows.count(),
            OwedRows::Keeping(kept, _) => kept.count() as u128,
        }
    }

    /// Whether the multipliers show the row at a place.
    fn is_shown(&self, columns: usize, frames: &Frames, place: usize, multipliers: &[i64]) -> bool
        requires { place < length (rows_listed self.now) }
        ensures { ShowsRow columns (known_at frames.now) (rows_listed self.now) place multipliers.now result }
    {
        match self {
            OwedRows::Falling(rows) => rows.is_shown(columns, frames, place as u128, multipliers),
            OwedRows::Keeping(kept, change) => {
                kept.is_shown(columns, frames, change, place, multipliers)
            }
        }
    }
}

/// Whether there is a list of multipliers for each of the rows, and it shows its row.
pub fn rows_are_shown(columns: usize, frames: &Frames, owed: &OwedRows, lists: &[Vec<i64>]) -> bool
    ensures { IsTrue result ↔ Shown columns (known_at frames.now) (rows_listed owed.now) (map (λ l. l.items) lists.now) }
{
    if owed.count() != lists.len() as u128 {
        return false;
    }
    for (i, multipliers) in lists.iter().enumerate() {
        if !owed.is_shown(columns, frames, i, multipliers) {
            return false;
        }
    }
    true
}
