// Proofs of the steps from places, into places where a rank falls, or to the end.

use crate::area::{Area, count_before};
use crate::budget::Spending;
use crate::covers::{Target, cover_of};
use crate::effect::{Effect, Steps};
use crate::partition::Partition;
use crate::passage::{may_enter, passage_between};
use crate::place::Place;
use std::alloc::{AllocError, Global};
use tv_cert::Proof;
use tv_linear::{Row, push_copies};

/// The number of the piece of the place at this place among those of places at its location.
pub(crate) fn piece_number(places: &[Place], at: usize) -> u32 {
    let Some(own) = places.get(at) else {
        return 0;
    };
    let mut count: u32 = 0;
    for place in places.iter().take(at) {
        if !place.is_out && place.location == own.location {
            count = count.saturating_add(1);
        }
    }
    count
}

/// What the steps from places are shown by.
#[derive(Drop)]
pub(crate) struct Shown<'a> {
    pub steps: &'a Steps,
    pub partition: &'a Partition,
    /// The areas at the end, whose pieces stand before those of the places.
    pub done: &'a [Area],
}

/// Puts the rows that are met where the first ranks do not grow over a step and the last of them falls at the end of the list; whether none
/// is too wide.
fn push_falls(
    alloc: Global,
    effect: &Effect,
    fall: u32,
    from: &Place,
    to: &Place,
    rows: &mut Vec<Row>,
) -> Result<bool, AllocError> {
    let last = fall as usize;
    for (place, (before, after)) in from.ranks.iter().zip(&to.ranks).take(last).enumerate() {
        let row = if place.saturating_add(1) == last {
            effect.fall(alloc, before, after)?
        } else {
            effect.growth(alloc, before, after)?
        };
        match row {
            None => return Ok(false),
            Some(row) => rows.push(row)?,
        }
    }
    let bound = match last.checked_sub(1).and_then(|place| from.ranks.get(place)) {
        None => None,
        Some(rank) => effect.not_below(alloc, rank)?,
    };
    match bound {
        None => Ok(false),
        Some(row) => {
            rows.push(row)?;
            Ok(true)
        }
    }
}

/// The rows, read before the step, and then the guards, as they stand in a certificate.
pub(crate) fn rows_left(
    alloc: Global,
    effect: &Effect,
    rows: &[Row],
) -> Result<Option<Vec<Row>>, AllocError> {
    let mut left = Vec::new(alloc);
    for row in rows {
        match effect.before(alloc, row)? {
            None => return Ok(None),
            Some(row) => left.push(row)?,
        }
    }
    push_copies(alloc, &effect.guards, &mut left)?;
    Ok(Some(left))
}

impl Shown<'_> {
    /// How many pieces at the location are at the end.
    fn done_at(&self, location: u32) -> u32 {
        count_before(self.done, self.done.len(), location)
    }

    /// The target that is entered by a case between two places; `None` where a row is too wide.
    fn target_of(
        &self,
        effect: &Effect,
        fall: u32,
        from: &Place,
        to: usize,
    ) -> Result<Option<Target>, AllocError> {
        let alloc = self.steps.alloc;
        let Some(entered) = self.partition.places.get(to) else {
            return Ok(None);
        };
        let Some(mut rows) = effect.all_after(alloc, &entered.rows)? else {
            return Ok(None);
        };
        if !push_falls(alloc, effect, fall, from, entered, &mut rows)? {
            return Ok(None);
        }
        let number = piece_number(&self.partition.places, to);
        Ok(Some(Target {
            rows,
            target: number.saturating_add(self.done_at(entered.location)),
            fall,
        }))
    }

    /// Puts the areas at the end that the case may enter from the place at the end of the list.
    fn push_done(
        &self,
        from: &Place,
        effect: &Effect,
        spending: &mut Spending,
        targets: &mut Vec<Target>,
    ) -> Result<(), AllocError> {
        let alloc = self.steps.alloc;
        for (at, area) in self.done.iter().enumerate() {
            if area.location == effect.to
                && may_enter(alloc, effect, &from.rows, &area.rows, spending)?
                && let Some(rows) = effect.all_after(alloc, &area.rows)?
            {
                targets.push(Target {
                    rows,
                    target: count_before(self.done, at, area.location),
                    fall: 0,
                })?;
            }
        }
        Ok(())
    }

    /// Puts the places that the case of this number enters from the place at this place at the end of the list.
    fn push_entered(
        &self,
        at: usize,
        number: usize,
        spending: &mut Spending,
        targets: &mut Vec<Target>,
    ) -> Result<(), AllocError> {
        let places = &self.partition.places;
        let (Some(from), Some(effect)) = (places.get(at), self.steps.effects.get(number)) else {
            return Ok(());
        };
        for (to, entered) in places.iter().enumerate() {
            if !entered.is_out
                && let Some(fall) = self.partition.fall_over(from, number, entered)
                && passage_between(self.steps, places, at, number, to, spending)?.is_some()
                && let Some(target) = self.target_of(effect, fall, from, to)?
            {
                targets.push(target)?;
            }
        }
        Ok(())
    }

    /// The proof of the steps by a case from the place at this place; `None` where none was found.
    fn step_proof(
        &self,
        at: usize,
        number: usize,
        spending: &mut Spending,
    ) -> Result<Option<Proof>, AllocError> {
        let alloc = self.steps.alloc;
        let (Some(place), Some(effect)) = (
            self.partition.places.get(at),
            self.steps.effects.get(number),
        ) else {
            return Ok(None);
        };
        let Some(rows) = rows_left(alloc, effect, &place.rows)? else {
            return Ok(None);
        };
        let mut targets = Vec::new(alloc);
        self.push_done(place, effect, spending, &mut targets)?;
        self.push_entered(at, number, spending, &mut targets)?;
        match cover_of(alloc, effect.width, rows, &targets, spending)? {
            None => Ok(None),
            Some(cover) => Ok(Some(Proof::Covered(cover))),
        }
    }

    /// Puts the proofs of the steps from the place at this place at the end of the list; whether all were found.
    pub(crate) fn push_steps(
        &self,
        at: usize,
        spending: &mut Spending,
        proofs: &mut Vec<Proof>,
    ) -> Result<bool, AllocError> {
        let Some(place) = self.partition.places.get(at) else {
            return Ok(false);
        };
        for (number, effect) in self.steps.effects.iter().enumerate() {
            if effect.from == place.location {
                match self.step_proof(at, number, spending)? {
                    None => return Ok(false),
                    Some(proof) => proofs.push(proof)?,
                }
            }
        }
        Ok(true)
    }
}
