// Covers by pieces over which the ranks of a program fall.

ghost use Rattle.std.specs.Prelude.{◌≡◌, ◌+◌, ◌^◌, ◌<◌, ◌≤◌, Contains, List, IfOk};
ghost use Rattle.std.specs.Result.{IfErr};
ghost use Rattle.tv_formula.specs.declared.tree.Path.TheVariants.{Every};
ghost use Rattle.tv_linear.specs.Depth.{splits};
ghost use Rattle.tv_cases.specs.Systems.{cases_of};
ghost use Rattle.tv_cases.specs.Views.{case_view};
ghost use Rattle.tv_cert.specs.declared.node.Marked.{Marked};
ghost use Rattle.tv_shape.specs.Narrow.{CountNarrow, CoverNarrow};
ghost use Rattle.tv_region.specs.Regions.{IsPieceOf};
ghost use Rattle.tv_rank.specs.Given.{lists as lists_of};
ghost use Rattle.tv_lexrank.specs.Falling.{AreNarrowLines};
ghost use Rattle.tv_pre.specs.Inclusions.{OfPiece, LeadsTo};
ghost use Rattle.tv_pre.specs.Lowering.{IsLowered, ShowsRankedStep, FallsFrom};
ghost use Rattle.tv_pre.specs.Pieces.{ArePieces, InPieces};
ghost use Rattle.tv_pre.specs.Questions.{steps, IsRefusal};

use crate::Setting;
use crate::inside::step_inside;
use crate::trees::count_at;
use std::alloc::{AllocError, Global};
use tv_cases::Case;
use tv_farkas::{CoverFault, split_of};
use tv_lexrank::{Fall, append_spread};
use tv_linear::{Cover, CoverTree, Piece, copies_of_lists};

/// The number of a fall, which is below 2^62.
fn number_of(fall: &Fall) -> u32
    ensures is { result ≡ fall.now.number }
    ensures narrow { CountNarrow result }
{
    fall.number
}

/// The cover, below `above` splits, with the lines of the fall at the targets from number `first` on.
fn lowered(
    alloc: Global,
    tree: &CoverTree,
    fall: &Fall,
    above: usize,
    first: usize,
) -> Result<CoverTree, AllocError>
    requires room { above + splits tree.now < 2 ^ 64 }
    requires narrow { CoverNarrow tree.now }
    requires lines { AreNarrowLines (lists_of fall.now.lines.items) }
    ensures { IfOk result (IsLowered fall.now first above tree.now) }
{
    match tree {
        CoverTree::Split(row, holds, fails) => {
            let holds = lowered(alloc, holds, fall, above + 1, first)?;
            let fails = lowered(alloc, fails, fall, above + 1, first)?;
            Ok(split_of(alloc, row.copy(alloc)?, holds, fails)?)
        }
        CoverTree::Empty(multipliers) => Ok(CoverTree::Empty(Vec::from_slice(alloc, multipliers)?)),
        CoverTree::Into {
            target,
            fall: none,
            refutations,
        } => {
            let mut lists = copies_of_lists(alloc, refutations)?;
            if (*target as usize) < first {
                return Ok(CoverTree::Into {
                    target: *target,
                    fall: *none,
                    refutations: lists,
                });
            }
            append_spread(alloc, &mut lists, &fall.lines, above)?;
            Ok(CoverTree::Into {
                target: *target,
                fall: number_of(fall),
                refutations: lists,
            })
        }
    }
}

/// A cover of a piece and a case by pieces that are done and pieces over which the ranks of the program fall, where each step leads into
/// one of them.
pub(crate) fn step_lowered(
    setting: &Setting,
    piece: &Piece,
    case: &Case,
    into: &[Piece],
    done: &[Piece],
    fall: &Fall,
) -> Result<Cover, CoverFault>
    requires splits { setting.now.budget.now.splits ≤ 128 }
    requires piece { IsPieceOf (cases_of setting.now.about.now).variables (cases_of setting.now.about.now).locations piece.now }
    requires among { Contains (cases_of setting.now.about.now).cases (case_view case.now) }
    requires from { case.now.from ≡ piece.now.location }
    requires into { ArePieces (cases_of setting.now.about.now) into.now }
    requires inside { let about = cases_of setting.now.about.now in
        OfPiece about piece.now (LeadsTo about Every (InPieces into.now)) }
    requires lines { AreNarrowLines (lists_of fall.now.lines.items) }
    ensures shows { let about = cases_of setting.now.about.now in
        let case = case_view case.now in
        IfOk result (λ tree. (ranked : List Marked) → FallsFrom about ranked piece.now case fall.now →
        ShowsRankedStep about ranked piece.now case done.now into.now tree) }
    ensures refusals { let system = cases_of setting.now.about.now in
        IfErr result (IsRefusal system setting.now.budget.now (λ a. a ≡ steps piece.now (case_view case.now) into.now)) }
{
    let cover = match step_inside(setting, piece, case, into) {
        Err(fault) => return Err(fault),
        Ok(cover) => cover,
    };
    let first = count_at(done, case.to);
    let tree = lowered(setting.alloc, cover.tree(), fall, 0, first)?;
    match Cover::new(tree) {
        Some(cover) => Ok(cover),
        None => unreachable!(),
    }
}
