ghost use Rattle.std.specs.Prelude.{◌≡◌, ◌<◌, ◌^◌, length, Some};
ghost use Rattle.tv_linear.specs.Linear.{Linear};
ghost use Rattle.tv_linear.specs.Known.{Known};
ghost use Rattle.tv_refute.specs.Built.{change_of};
ghost use Rattle.tv_refute.specs.Frames.{known_at};
ghost use Rattle.tv_cert.specs.Entering.{entered_listed, fall_listed, owed_listed, ShowsRow};

use crate::fall::Fall;
use tv_linear::{Row, RowView, Rows};
use tv_refute::{Change, Frames, Rank, shows, shows_less, shows_not_below};

/// The rows to be shown on entering a target: its own, and then those of a fall.
#[derive(Drop)]
pub struct Entered<'a> {
    pub rows: Rows<'a>,
    pub fall: Option<Fall<'a>>,
}

/// The guards of a case that is taken, and how they are changed.
#[derive(Drop)]
pub struct TakenGuards<'a, 'b> {
    pub rows: &'a [Row],
    pub change: &'b Change<'b>,
}

/// All rows to be shown by lines that follow one another: the guards of a case where one is taken, and what is owed on entering a target.
#[derive(Drop)]
pub struct OwedRows<'a, 'b> {
    pub guards: Option<TakenGuards<'a, 'b>>,
    pub entered: Entered<'a>,
    /// How the rows of the target and its ranks are changed.
    pub change: &'b Change<'b>,
}

impl Fall<'_> {
    fn count(&self) -> usize
        ensures many { (change : Linear → Known) → result ≡ length (fall_listed change (Some self.now)) }
        ensures bounded { result < 2 ^ 33 }
    {
        self.place + 2
    }

    /// Whether the multipliers show the row of the fall at a place.
    fn is_shown(
        &self,
        columns: usize,
        frames: &Frames,
        change: &Change,
        place: usize,
        multipliers: &[i64],
    ) -> bool
        requires { place < length (fall_listed (change_of change.now) (Some self.now)) }
        ensures { ShowsRow columns (known_at frames.now) (fall_listed (change_of change.now) (Some self.now)) place multipliers.now result }
    {
        let old = self.old.row(self.place);
        if place > self.place {
            return shows_not_below(columns, frames, old, multipliers);
        }
        let new = self.new.row(place);
        if place == self.place {
            let rank = Rank { change, old, new };
            return shows_less(columns, frames, &rank, 1, multipliers);
        }
        let old = self.old.row(place);
        let rank = Rank { change, old, new };
        shows_less(columns, frames, &rank, 0, multipliers)
    }
}

impl Entered<'_> {
    /// How many there are.
    pub fn count(&self) -> usize
        ensures { (change : Linear → Known) → result ≡ length (entered_listed change self.now) }
    {
        let rows = self.rows.len();
        match &self.fall {
            None => rows,
            Some(fall) => rows + fall.count(),
        }
    }

    /// Whether the multipliers show the row at a place.
    fn is_shown(
        &self,
        columns: usize,
        frames: &Frames,
        change: &Change,
        place: u128,
        multipliers: &[i64],
    ) -> bool
        requires { place < length (entered_listed (change_of change.now) self.now) }
        ensures { ShowsRow columns (known_at frames.now) (entered_listed (change_of change.now) self.now) place multipliers.now result }
    {
        let rows = self.rows.len() as u128;
        if place < rows {
            let row = self.rows.row(place as usize);
            return shows(columns, frames, change, row, multipliers);
        }
        match &self.fall {
            None => unreachable!(),
            Some(fall) => {
                let further = (place - rows) as usize;
                fall.is_shown(columns, frames, change, further, multipliers)
            }
        }
    }
}

impl OwedRows<'_, '_> {
    /// How many there are.
    pub fn count(&self) -> u128
        ensures { result ≡ length (owed_listed self.now) }
    {
        let entered = self.entered.count() as u128;
        match &self.guards {
            None => entered,
            Some(guards) => guards.rows.len() as u128 + entered,
        }
    }

    /// Whether the multipliers show the row at a place.
    pub fn is_shown(
        &self,
        columns: usize,
        frames: &Frames,
        place: u128,
        multipliers: &[i64],
    ) -> bool
        requires { place < length (owed_listed self.now) }
        ensures { ShowsRow columns (known_at frames.now) (owed_listed self.now) place multipliers.now result }
    {
        let mut further = place;
        if let Some(guards) = &self.guards {
            let count = guards.rows.len() as u128;
            if place < count {
                let row = RowView::of(&guards.rows[place as usize]);
                return shows(columns, frames, guards.change, row, multipliers);
            }
            further = place - count;
        }
        self.entered
            .is_shown(columns, frames, self.change, further, multipliers)
    }
}
