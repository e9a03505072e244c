// The terms of all components.

ghost use Rattle.std.specs.Prelude.{◌≡◌, length, IfOk};
ghost use Rattle.std.specs.Result.{IfErr};
ghost use Rattle.tv_cases.specs.Systems.{cases_of};
ghost use Rattle.tv_lexrank.specs.Known.{AreBare, AreKnown};
ghost use Rattle.tv_nested.specs.Attempts.{IsAttempt, RefusesAttempt};

use crate::NestFault;
use crate::part::Part;
use crate::parted::{Parted, part_of};
use std::alloc::Global;
use tv_cases::Cases;
use tv_lexrank::{Component, rowed_at, stands_inside};
use tv_linear::{Region, push_item};

/// The components with their terms, in the order of their numbers, or the first that has none.
#[derive(Drop)]
pub enum Attempt {
    Whole(Vec<Part>),
    Stuck {
        component: u32,
        set: Vec<u32>,
        barriers: Vec<Vec<i128>>,
    },
}

/// Looks for terms of the components with the numbers below a count, one after the other. No rows are known.
pub fn nest_components(
    alloc: Global,
    about: &Cases,
    known: &Region,
    numbers: &[u32],
    count: u32,
    pivots: u64,
) -> Result<Attempt, NestFault>
    requires locations { length numbers.now ≡ (cases_of about.now).locations }
    requires known { AreKnown (cases_of about.now) known.now.pieces.items }
    requires bare { AreBare known.now.pieces.items }
    ensures attempt { IfOk result (IsAttempt (cases_of about.now) known.now.pieces.items numbers.now count) }
    ensures refusals { IfErr result (RefusesAttempt (cases_of about.now) known.now.pieces.items numbers.now pivots) }
{
    let stands = stands_inside(alloc, about, numbers, count)?;
    let rowed = rowed_at(&known.pieces);
    let mut parts = Vec::new(alloc);
    'components: for number in 0..count {
        let component = Component {
            about,
            known,
            rowed,
            numbers,
            stands: &stands,
            count,
            number,
            pivots,
        };
        let parted = match part_of(alloc, &component) {
            Ok(parted) => parted,
            Err(fault) => return Err(fault),
        };
        match parted {
            Parted::Stuck { set, barriers } => {
                return Ok(Attempt::Stuck {
                    component: number,
                    set,
                    barriers,
                });
            }
            Parted::Done(part) => push_item(&mut parts, part)?,
        }
    }
    Ok(Attempt::Whole(parts))
}
