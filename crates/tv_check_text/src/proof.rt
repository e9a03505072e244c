ghost use Rattle.std.specs.Prelude.{◌≡◌, ◌≤◌, ◌<◌, ◌-◌, ◌^◌, [], Some, length};
ghost use Rattle.tv_linear.specs.Known.{given, as_given};
ghost use Rattle.tv_cases.specs.Systems.{cases_of};
ghost use Rattle.tv_cert.specs.Obligations.{a_cover};
ghost use Rattle.tv_cert.specs.OwesViews.{OwedIn, owed_by};
ghost use Rattle.tv_cert.specs.Pieces.{rows_of};
ghost use Rattle.tv_cert.specs.Targets.{owed_into, no_fall};
ghost use Rattle.tv_cert.specs.declared.owes.Owes.TheVariants as owing;
ghost use Rattle.tv_refute.specs.Built.{change_of};
ghost use Rattle.tv_refute.specs.Frames.{known_at};
ghost use Rattle.tv_check_text.specs.Checking.{ChecksCover, ChecksProof};
ghost use Rattle.tv_cert.specs.TargetViews.{owed_at};

use crate::choices::ChoiceCheck;
use crate::covers::Covering;
use tv_cases::Case;
use tv_cert::{Destination, Marked, Owes, Pieces, Targets};
use tv_cert_reader::{Context, Cursor, Failure, are_few, chosen_are_few};
use tv_linear::{MAX_SPLITS, Rows};
use tv_refute::{Change, Frames, Terms};

/// Whether the cover that comes next is met at a place with `known` rows of `covering.columns` columns.
///
/// More targets than can be counted with 32 bits are more than memory holds.
fn cover_is_met(
    covering: &Covering,
    cursor: &mut Cursor,
    frames: &Frames,
    known: u128,
) -> Result<bool, Failure>
    requires narrow { covering.now.columns < 2 ^ 32 - 1 }
    requires counted { known ≡ length (known_at frames.now) }
    requires room { known < 2 ^ 126 }
    ensures { let owed = owed_at (change_of covering.now.change.now) covering.now.targets.now in
        ChecksProof (a_cover covering.now.columns (known_at frames.now) owed) cursor.old cursor.new result }
{
    if !are_few(covering.targets) {
        return Err(Failure::Memory);
    }
    covering.is_met(cursor, MAX_SPLITS, frames, known)
}

/// Whether the cover of a piece that comes next is met.
fn piece_is_covered(
    context: &Context,
    cursor: &mut Cursor,
    piece: &Marked,
    targets: &Targets,
) -> Result<bool, Failure>
    ensures { let system = cases_of context.now.about.now in
        ChecksProof (a_cover system.variables (as_given (rows_of piece.now)) (owed_at given targets.now)) cursor.old cursor.new result }
{
    let columns = context.about.variables();
    let rows = piece.rows();
    let end = Frames::End;
    let place = Frames::Rows { rows, above: &end };
    let covering = Covering {
        alloc: context.alloc,
        columns,
        targets,
        change: &Change::Kept,
    };
    cover_is_met(&covering, cursor, &place, rows.len() as u128)
}

/// Whether the cover that comes next is met: one of a piece and the guards of a case.
fn step_is_covered(
    context: &Context,
    cursor: &mut Cursor,
    piece: &Marked,
    case: &Case,
    targets: &Targets,
) -> Result<bool, Failure>
    requires { case.now.draws ≤ 64 }
    ensures { let system = cases_of context.now.about.now in
        ChecksProof (owed_by system (owing.Cover piece.entry (Some case.entry) targets.now)) cursor.old cursor.new result }
{
    let variables = context.about.variables();
    let terms = Terms::After {
        columns: variables,
        updates: &case.updates,
    };
    let change = Change::Once(&terms);
    let end = Frames::End;
    let inside = Frames::Rows {
        rows: piece.rows(),
        above: &end,
    };
    let place = Frames::Rows {
        rows: Rows::Each(&case.guards.rows),
        above: &inside,
    };
    let known = piece.rows().len() as u128 + case.guards.rows.len() as u128;
    let covering = Covering {
        alloc: context.alloc,
        columns: variables + case.draws,
        targets,
        change: &change,
    };
    cover_is_met(&covering, cursor, &place, known)
}

/// Whether the choice at a piece that comes next is met.
fn is_chosen(
    context: &Context,
    cursor: &mut Cursor,
    piece: &Marked,
    stop: bool,
    destination: &Destination,
) -> Result<bool, Failure>
    ensures { ChecksProof (owed_by (cases_of context.now.about.now) (owing.Choice piece.entry stop destination.now)) cursor.old cursor.new result }
{
    if !chosen_are_few(piece, destination) {
        return Err(Failure::Memory);
    }
    let choosing = ChoiceCheck {
        context: *context,
        piece,
        stop,
        destination,
    };
    let rows = piece.rows();
    let end = Frames::End;
    let place = Frames::Rows { rows, above: &end };
    choosing.is_met(cursor, MAX_SPLITS, &place, rows.len() as u128)
}

/// Reads a proof of what is owed, and says whether it meets that.
pub fn proof_is_met(context: &Context, cursor: &mut Cursor, owes: &Owes) -> Result<bool, Failure>
    requires { OwedIn (cases_of context.now.about.now) owes.now }
    ensures { ChecksProof (owed_by (cases_of context.now.about.now) owes.now) cursor.old cursor.new result }
{
    match owes {
        Owes::Cover {
            piece,
            case,
            targets,
        } => match case {
            Some(case) => step_is_covered(context, cursor, piece, case, targets),
            None => piece_is_covered(context, cursor, piece, targets),
        },
        Owes::Choice {
            piece,
            stop,
            destination,
        } => is_chosen(context, cursor, piece, *stop, destination),
    }
}

/// Reads a cover of the start by the pieces of the root, and says whether it is met.
pub fn start_is_covered(
    context: &Context,
    cursor: &mut Cursor,
    pieces: &Pieces,
) -> Result<bool, Failure>
    requires { length pieces.now < 2 ^ 32 }
    ensures { let system = cases_of context.now.about.now in
        ChecksCover system.variables (owed_into pieces.now system.start given no_fall) [] 128 cursor.old cursor.new result }
{
    let targets = Targets::Pieces {
        from: None,
        into: pieces,
        location: context.about.start(),
    };
    let covering = Covering {
        alloc: context.alloc,
        columns: context.about.variables(),
        targets: &targets,
        change: &Change::Kept,
    };
    covering.is_met(cursor, MAX_SPLITS, &Frames::End, 0)
}
