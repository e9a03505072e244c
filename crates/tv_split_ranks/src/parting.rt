// Places cut to where some step is possible.

use crate::budget::Spending;
use crate::choosing::some_step;
use crate::covers::all_stand_in;
use crate::effect::Steps;
use crate::guards::ways_from;
use crate::partition::Partition;
use crate::place::Place;
use std::alloc::AllocError;

/// Places, and the first name that none of them has.
#[derive(Drop)]
struct Parts {
    places: Vec<Place>,
    names: usize,
}

impl Parts {
    /// Whether the place lies inside of one that stands from this place on.
    fn has_around(&self, first: usize, place: &Place) -> bool {
        self.places
            .iter()
            .skip(first)
            .any(|other| all_stand_in(&place.rows, &other.rows))
    }

    /// Puts the parts of the place where a case can be taken at the end.
    fn push_parts(
        &mut self,
        steps: &Steps,
        place: &Place,
        spending: &mut Spending,
    ) -> Result<(), AllocError> {
        let first = self.places.len();
        for way in ways_from(steps, place.location)? {
            if let Some(part) = place.part_where(
                steps.alloc,
                steps.columns,
                &way.rows,
                self.names,
                spending,
            )?
                && !self.has_around(first, &part)
            {
                self.names = self.names.saturating_add(1);
                self.places.push(part)?;
            }
        }
        Ok(())
    }
}

/// The partition where each place from which a step may be missing is cut to its parts where a case can be taken; `None` where there are too
/// many.
pub(crate) fn with_steps(
    steps: &Steps,
    partition: Partition,
    spending: &mut Spending,
) -> Result<Option<Partition>, AllocError> {
    let Partition {
        places,
        ranks,
        left,
        stuck,
        falls,
        names,
    } = partition;
    let mut parts = Parts {
        places: Vec::new(steps.alloc),
        names,
    };
    for place in places {
        if place.is_out {
            continue;
        }
        if some_step(steps, &place, spending)?.is_some() {
            parts.places.push(place)?;
        } else {
            parts.push_parts(steps, &place, spending)?;
        }
    }
    if parts.places.len() > spending.pieces {
        return Ok(None);
    }
    let Parts { places, names } = parts;
    Ok(Some(Partition {
        places,
        ranks,
        left,
        stuck,
        falls,
        names,
    }))
}
