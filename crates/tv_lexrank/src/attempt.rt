// The ranks of all components.

ghost use Rattle.std.specs.Prelude.{◌≡◌, length, All, IfOk};
ghost use Rattle.std.specs.Result.{IfErr};
ghost use Rattle.tv_cases.specs.Systems.{cases_of};
ghost use Rattle.tv_known.specs.Ranking.{HasLexicographicRanking};
ghost use Rattle.tv_linear.specs.Linear.{columns as width};
ghost use Rattle.tv_lexrank.specs.Known.{AreBare, AreKnown, piece_rows};
ghost use Rattle.tv_lexrank.specs.Parts.{AreGrouped};
ghost use Rattle.tv_lexrank.specs.Attempt.{IsAttempt, IsWhole, RefusesAttempt};

use crate::RankFault;
use crate::component::Component;
use crate::inside::stands_inside;
use crate::known::rowed_at;
use crate::part::{Part, Parted, part_of};
use std::alloc::{AllocError, Global};
use tv_cases::Cases;
use tv_linear::{Piece, Poly, Region, push_item};

/// The ranks of all components, in the order of their numbers, or a set of cases that is stuck.
#[derive(Drop)]
pub enum Attempt {
    Whole(Vec<Part>),
    Stuck {
        set: Vec<u32>,
        barriers: Vec<Vec<i128>>,
    },
}

/// The region of all states: a piece without rows at each location.
pub fn bare_region(alloc: Global, variables: u32, locations: u32) -> Result<Region, AllocError>
    ensures bare { IfOk result (λ r. AreBare r.pieces.items) }
    ensures as_many { IfOk result (λ r. length r.pieces.items ≡ locations) }
    ensures over { IfOk result (λ r. All (λ p. All (λ r. width r ≡ variables) (piece_rows p)) r.pieces.items) }
{
    let mut pieces = Vec::with_capacity(alloc, locations as usize)?;
    'locations: for location in 0..locations {
        push_item(
            &mut pieces,
            Piece {
                location,
                poly: Poly {
                    columns: variables,
                    rows: Vec::new(alloc),
                },
            },
        )?;
    }
    Ok(Region {
        variables,
        locations,
        pieces,
    })
}

/// Ranks the components with the numbers below a count, one after the other.
pub fn rank_components(
    alloc: Global,
    about: &Cases,
    known: &Region,
    numbers: &[u32],
    count: u32,
    pivots: u64,
) -> Result<Attempt, RankFault>
    requires locations { length numbers.now ≡ (cases_of about.now).locations }
    requires known { AreKnown (cases_of about.now) known.now.pieces.items }
    requires grouped { AreGrouped (cases_of about.now) numbers.now }
    ensures attempt { IfOk result (λ a. IsAttempt (cases_of about.now) known.now.pieces.items numbers.now count a) }
    ensures never_stuck { HasLexicographicRanking (cases_of about.now) → IfOk result IsWhole }
    ensures refusals { IfErr result (λ e. RefusesAttempt (cases_of about.now) known.now.pieces.items numbers.now pivots e) }
{
    let stands = stands_inside(alloc, about, numbers, count)?;
    let rowed = rowed_at(&known.pieces);
    let mut parts = Vec::new(alloc);
    'components: for number in 0..count {
        let component = Component {
            about,
            known,
            rowed,
            numbers,
            stands: &stands,
            count,
            number,
            pivots,
        };
        let parted = match part_of(alloc, &component) {
            Ok(parted) => parted,
            Err(fault) => return Err(fault),
        };
        match parted {
            Parted::Stuck { set, barriers } => return Ok(Attempt::Stuck { set, barriers }),
            Parted::Done(part) => push_item(&mut parts, part)?,
        }
    }
    Ok(Attempt::Whole(parts))
}
