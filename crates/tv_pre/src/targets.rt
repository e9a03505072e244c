// The pieces at a location as the targets of a cover.

ghost use Rattle.std.specs.Prelude.{◌≡◌, ◌+◌, ◌++◌, ◌-◌, ◌^◌, ◌<◌, [], ◌∷◌, All, IfOk, length};
ghost use Rattle.std.specs.Result.{IfErr};
ghost use Rattle.tv_linear.specs.Linear.{columns as width};
ghost use Rattle.tv_cases.specs.Views.{case_view};
ghost use Rattle.tv_cover.specs.Targets.{lists_of};
ghost use Rattle.tv_region.specs.Regions.{lists_at};
ghost use Rattle.tv_choice.specs.Leading.{piece_rows};
ghost use Rattle.tv_pre.specs.Parts.{joined_pieces};
ghost use Rattle.tv_pre.specs.Targets.{AreBefore, IsUnmade};

use crate::rows::rows_before;
use std::alloc::{AllocError, Global};
use tv_cases::Case;
use tv_farkas::CoverFault;
use tv_linear::{Piece, Poly, Region, push_copies, push_item};

/// How many targets a cover can tell apart.
const MOST_TARGETS: usize = 0xffff_fffe;

/// Puts the pieces at the location at the end of the list.
fn push_targets(
    alloc: Global,
    pieces: &[Piece],
    location: u32,
    targets: &mut Vec<Poly>,
) -> Result<(), AllocError>
    ensures { IfOk result (λ _. lists_of targets.new.items ≡ lists_of targets.old.items ++ lists_at location pieces.now) }
{
    'pieces: for piece in pieces {
        if piece.location == location {
            let mut rows = Vec::new(alloc);
            push_copies(alloc, &piece.poly.rows, &mut rows)?;
            let columns = piece.poly.columns;
            push_item(targets, Poly { columns, rows })?;
        }
    }
    Ok(())
}

/// The pieces at the location. More than a cover can tell apart are as good as no memory for them.
pub(crate) fn targets_at(
    alloc: Global,
    pieces: &[Piece],
    location: u32,
) -> Result<Vec<Poly>, AllocError>
    ensures targets { IfOk result (λ v. lists_of v.items ≡ lists_at location pieces.now) }
    ensures bounded { IfOk result (λ v. length v.items < 2 ^ 32 - 1) }
{
    let mut targets = Vec::new(alloc);
    push_targets(alloc, pieces, location, &mut targets)?;
    if targets.len() > MOST_TARGETS {
        return Err(AllocError);
    }
    Ok(targets)
}

/// The pieces of all regions at the location.
pub(crate) fn targets_in(
    alloc: Global,
    regions: &[Region],
    location: u32,
) -> Result<Vec<Poly>, AllocError>
    ensures targets { IfOk result (λ v. lists_of v.items ≡ lists_at location (joined_pieces regions.now)) }
    ensures bounded { IfOk result (λ v. length v.items < 2 ^ 32 - 1) }
{
    let mut targets = Vec::new(alloc);
    'regions: for region in regions {
        push_targets(alloc, &region.pieces, location, &mut targets)?;
    }
    if targets.len() > MOST_TARGETS {
        return Err(AllocError);
    }
    Ok(targets)
}

/// The pieces of two regions at the location.
pub(crate) fn targets_of_two(
    alloc: Global,
    first: &Region,
    second: &Region,
    location: u32,
) -> Result<Vec<Poly>, AllocError>
    ensures targets { IfOk result (λ v. lists_of v.items ≡ lists_at location (joined_pieces (first.now ∷ second.now ∷ []))) }
    ensures bounded { IfOk result (λ v. length v.items < 2 ^ 32 - 1) }
{
    let mut targets = Vec::new(alloc);
    push_targets(alloc, &first.pieces, location, &mut targets)?;
    push_targets(alloc, &second.pieces, location, &mut targets)?;
    if targets.len() > MOST_TARGETS {
        return Err(AllocError);
    }
    Ok(targets)
}

/// The pieces where a case leads, before it.
pub(crate) fn targets_before(
    alloc: Global,
    pieces: &[Piece],
    case: &Case,
    variables: u32,
) -> Result<Vec<Poly>, CoverFault>
    requires bounded { variables + case.now.draws < 2 ^ 32 - 1 }
    requires terms { All (λ u. width u.term ≡ variables + case.now.draws) (case_view case.now).updates }
    requires even { All (λ p. All (λ r. width r ≡ variables) (piece_rows p)) pieces.now }
    ensures targets { IfOk result (λ v. AreBefore (case_view case.now) (lists_at case.now.to pieces.now) (lists_of v.items)) }
    ensures bounded { IfOk result (λ v. length v.items < 2 ^ 32 - 1) }
    ensures refusals { IfErr result (IsUnmade (case_view case.now) (lists_at case.now.to pieces.now)) }
{
    let mut targets = Vec::new(alloc);
    'pieces: for piece in pieces {
        if piece.location == case.to {
            let rows = match rows_before(alloc, &piece.poly.rows, case, variables) {
                Err(fault) => return Err(fault),
                Ok(rows) => rows,
            };
            let columns = variables + case.draws;
            push_item(&mut targets, Poly { columns, rows })?;
        }
    }
    if targets.len() > MOST_TARGETS {
        return Err(CoverFault::Memory);
    }
    Ok(targets)
}
