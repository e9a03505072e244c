// The states at the start, and whether they lie in a region.

ghost use Rattle.std.specs.Prelude.{◌≡◌, ◌≤◌, IfOk, MatchOption};
ghost use Rattle.std.specs.Result.{IfErr};
ghost use Rattle.tv_cases.specs.Systems.{cases_of};
ghost use Rattle.tv_region.specs.Regions.{IsRegion};
ghost use Rattle.tv_pre.specs.Pieces.{ArePieces};
ghost use Rattle.tv_pre.specs.Questions.{IsRefusal};
ghost use Rattle.tv_pre.specs.Starting.{StartAnswer, AsksStart, IsInside, HasNoStart, AsksEmpty};

use crate::Setting;
use crate::inside::cover_at;
use crate::targets::targets_at;
use tv_cover::Covered;
use tv_farkas::CoverFault;
use tv_linear::{Piece, Poly, Region};

/// Values at the start, and the place of the piece they are in among those of a region there.
#[derive(Drop)]
pub(crate) struct Inside {
    pub piece: u32,
    pub values: Vec<i128>,
}

/// A cover of all states at the start by the pieces of a region there, or values at the start that lie in none of them.
pub(crate) fn start_covered(setting: &Setting, region: &Region) -> Result<Covered, CoverFault>
    requires splits { setting.now.budget.now.splits ≤ 128 }
    requires over { IsRegion (cases_of setting.now.about.now).variables (cases_of setting.now.about.now).locations region.now }
    ensures answer { IfOk result (StartAnswer (cases_of setting.now.about.now) region.now.pieces.items) }
    ensures refusals { let about = cases_of setting.now.about.now in
        IfErr result (IsRefusal about setting.now.budget.now (AsksStart about region.now.pieces.items)) }
{
    let start = Piece {
        location: setting.about.start(),
        poly: Poly {
            columns: setting.about.variables(),
            rows: Vec::new(setting.alloc),
        },
    };
    let targets = targets_at(setting.alloc, &region.pieces, start.location)?;
    match cover_at(setting, &start, &targets) {
        Err(fault) => Err(fault),
        Ok(covered) => Ok(covered),
    }
}

/// The first piece at the start that has a state, with one of its states; `None` where there is no such piece. There is no room for 2^32
/// pieces.
pub(crate) fn first_inside(
    setting: &Setting,
    pieces: &[Piece],
) -> Result<Option<Inside>, CoverFault>
    requires splits { setting.now.budget.now.splits ≤ 128 }
    requires over { ArePieces (cases_of setting.now.about.now) pieces.now }
    ensures answer { let about = cases_of setting.now.about.now in
        IfOk result (λ found. MatchOption found (HasNoStart about pieces.now) (IsInside about pieces.now)) }
    ensures refusals { let about = cases_of setting.now.about.now in
        IfErr result (IsRefusal about setting.now.budget.now (AsksEmpty about pieces.now)) }
{
    let start = setting.about.start();
    let mut place = 0u32;
    'pieces: for piece in pieces {
        if piece.location == start {
            match cover_at(setting, piece, &[]) {
                Err(fault) => return Err(fault),
                Ok(Covered::Hole(values)) => return Ok(Some(Inside {
                    piece: place,
                    values,
                })),
                Ok(Covered::Tree(_)) => {}
            }
            if place == u32::MAX {
                return Err(CoverFault::Memory);
            }
            place += 1;
        }
    }
    Ok(None)
}
