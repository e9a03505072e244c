// The rounds of all components.

ghost use Rattle.std.specs.Prelude.{◌≡◌, length, IfOk};
ghost use Rattle.std.specs.Result.{IfErr};
ghost use Rattle.tv_lexrank.specs.Known.{AreKnown};
ghost use Rattle.tv_lexrank.specs.Parts.{AreGrouped};
ghost use Rattle.tv_finitely.specs.Parts.{IsAttempt, RefusesAttempt};
ghost use Rattle.tv_finitely.specs.Splits.{split_of};

use crate::part::{Part, Parted, part_of};
use crate::split_program::Split;
use std::alloc::Global;
use tv_lexrank::{Component, RankFault, rowed_at, stands_inside};
use tv_linear::{Region, push_item};

/// The components with their rounds, in the order of their numbers, or a set of cases that is stuck.
#[derive(Drop)]
pub enum Attempt {
    Whole(Vec<Part>),
    Stuck {
        set: Vec<u32>,
        barriers: Vec<Vec<i128>>,
    },
}

/// Goes through the components with the numbers below a count, one after the other.
pub fn visit_components(
    alloc: Global,
    about: &Split,
    known: &Region,
    numbers: &[u32],
    count: u32,
    pivots: u64,
) -> Result<Attempt, RankFault>
    requires locations { length numbers.now ≡ (split_of about.now).system.locations }
    requires known { AreKnown (split_of about.now).system known.now.pieces.items }
    requires grouped { AreGrouped (split_of about.now).system numbers.now }
    ensures attempt { IfOk result (IsAttempt (split_of about.now) known.now.pieces.items numbers.now count) }
    ensures refusals { IfErr result (RefusesAttempt (split_of about.now) known.now.pieces.items numbers.now pivots) }
{
    let stands = stands_inside(alloc, &about.cases, numbers, count)?;
    let rowed = rowed_at(&known.pieces);
    let mut parts = Vec::new(alloc);
    'components: for number in 0..count {
        let component = Component {
            about: &about.cases,
            known,
            rowed,
            numbers,
            stands: &stands,
            count,
            number,
            pivots,
        };
        let parted = match part_of(alloc, &component, &about.entering) {
            Ok(parted) => parted,
            Err(fault) => return Err(fault),
        };
        match parted {
            Parted::Stuck { set, barriers } => return Ok(Attempt::Stuck { set, barriers }),
            Parted::Done(part) => push_item(&mut parts, part)?,
        }
    }
    Ok(Attempt::Whole(parts))
}
