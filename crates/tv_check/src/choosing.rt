ghost use Rattle.std.specs.Prelude.{◌≡◌, ◌↔◌, ℕ, ◌+◌, ◌++◌, ◌∷◌, [], IsTrue, List, Option, None, Some, slice_get, map};
ghost use Rattle.std.specs.Option.{option_map};
ghost use Rattle.tv_linear.specs.Linear.{Linear};
ghost use Rattle.tv_linear.specs.Known.{Known, as_given};
ghost use Rattle.tv_linear.specs.Covers.{no_target, ShownAt, IsMetCover};
ghost use Rattle.tv_refute.specs.Frames.{known_at};
ghost use Rattle.tv_cases.specs.LinearCases.{LinearCase, leaving};
ghost use Rattle.tv_cases.specs.Systems.{cases_of};
ghost use Rattle.tv_cases.specs.Views.{case_view};
ghost use Rattle.tv_cert.specs.Choices.{NoStepMet, TakeMet, IsMetChoice, drawn_guards};
ghost use Rattle.tv_cert.specs.Pieces.{place_of};
ghost use Rattle.tv_cert.specs.OwesViews.{destination_owes};

use crate::entering::Entering;
use crate::shown::rows_are_shown;
use tv_cases::{Case, Cases};
use tv_cert::{Choosing, OwedRows, Take, TakenGuards, Targets, targets_after};
use tv_linear::{ChoiceTree, Cover, RowView, Rows};
use tv_refute::{Built, Change, Frames, Terms, cover_is_met, refutes};

/// Whether the cover shows that the case cannot be taken.
fn stop_is_met(columns: u32, frames: &Frames, case: &Case, cover: &Cover) -> bool
    ensures { let taken = case_view case.now in
        IsTrue result ↔ IsMetCover (columns + case.now.draws) no_target (known_at frames.now ++ as_given taken.guards) cover.now }
{
    let place = Frames::Rows {
        rows: Rows::Each(&case.guards.rows),
        above: &*frames,
    };
    let entering = Entering {
        targets: &Targets::Nowhere,
        change: &Change::Kept,
    };
    let wide = columns as usize + case.draws as usize;
    cover_is_met(wide, &place, &entering, cover.tree())
}

/// Whether the covers show that no case from the location can be taken.
fn no_step_is_met(
    columns: u32,
    frames: &Frames,
    location: u32,
    about: &Cases,
    covers: &[Cover],
) -> bool
    ensures { IsTrue result ↔ NoStepMet columns (known_at frames.now) (leaving location (cases_of about.now).cases) covers.now }
{
    let mut k = 0;
    'cases: while let Some(case) = about.leaving(location, k) {
        let Some(cover) = covers.get(k) else {
            return false;
        };
        if !stop_is_met(columns, frames, case, cover) {
            return false;
        }
        k += 1;
    }
    covers.len() <= k
}

/// Whether the refutations show the guards of the case, with terms for its draws, and then the target.
fn take_is_shown(choosing: &Choosing, frames: &Frames, case: &Case, take: &Take) -> bool
    ensures { let taken = case_view case.now in
        let n = (cases_of choosing.now.about.now).variables in
        let owes = destination_owes n choosing.now.piece.now choosing.now.destination.now in
        let entered = owes taken take.now.draws.now take.now.target take.now.fall in
        let rows = option_map (λ rows. drawn_guards n taken take.now.draws.now ++ rows) entered in
        IsTrue result ↔ ShownAt n (known_at frames.now) rows (map (λ l. l.items) take.now.refutations.now) }
{
    let columns = choosing.about.variables();
    let targets = targets_after(choosing.piece, case, choosing.destination);
    let Some(entered) = targets.entered(take.target, take.fall) else {
        return false;
    };
    let after = Terms::After {
        columns,
        updates: &case.updates,
    };
    let drawn = Terms::Drawn {
        columns,
        draws: take.draws,
    };
    let change = Change::Twice(&after, &drawn);
    let guards_change = Change::Once(&drawn);
    let guards = TakenGuards {
        rows: &case.guards.rows,
        change: &guards_change,
    };
    let owed = OwedRows {
        guards: Some(guards),
        entered,
        change: &change,
    };
    rows_are_shown(columns as usize, frames, &owed, take.refutations)
}

/// Whether there is this case from the location, a term for each of its draws, and the refutations show its guards and the target.
fn take_is_met(choosing: &Choosing, frames: &Frames, take: &Take) -> bool
    ensures { let system = cases_of choosing.now.about.now in
        let owes = destination_owes system.variables choosing.now.piece.now choosing.now.destination.now in
        let case = slice_get system.cases take.now.taken in
        let shown = map (λ l. l.items) take.now.refutations.now in
        let met = TakeMet system.variables (place_of choosing.now.piece.now) owes (known_at frames.now) case in
        IsTrue result ↔ met take.now.target take.now.fall take.now.draws.now shown }
{
    match choosing.about.list().get(take.taken as usize) {
        None => false,
        Some(case) => {
            if case.from != choosing.piece.location() {
                return false;
            }
            if take.draws.len() != case.draws as usize {
                return false;
            }
            take_is_shown(choosing, frames, case, take)
        }
    }
}

/// Whether the choice is met at the place.
pub fn choice_is_met(choosing: &Choosing, frames: &Frames, tree: &ChoiceTree) -> bool
    ensures { let system = cases_of choosing.now.about.now in
        let owes = destination_owes system.variables choosing.now.piece.now choosing.now.destination.now in
        let met = IsMetChoice system.variables system.cases (place_of choosing.now.piece.now) choosing.now.stop owes in
        IsTrue result ↔ met (known_at frames.now) tree.now }
{
    match tree {
        ChoiceTree::Split(row, holds, fails) => {
            let known = Built::Given(RowView::of(row));
            let denied = Built::Denied(&known);
            let met = Frames::More {
                row: &known,
                above: &*frames,
            };
            let not_met = Frames::More {
                row: &denied,
                above: &*frames,
            };
            choice_is_met(choosing, &met, holds) && choice_is_met(choosing, &not_met, fails)
        }
        ChoiceTree::Empty(multipliers) => {
            let columns = choosing.about.variables() as usize;
            refutes(columns, frames, multipliers)
        }
        ChoiceTree::NoStep(covers) => {
            let columns = choosing.about.variables();
            let location = choosing.piece.location();
            choosing.stop && no_step_is_met(columns, frames, location, choosing.about, covers)
        }
        ChoiceTree::Take {
            taken,
            target,
            fall,
            draws,
            refutations,
        } => {
            let take = Take {
                taken: *taken,
                target: *target,
                fall: *fall,
                draws,
                refutations,
            };
            take_is_met(choosing, frames, &take)
        }
    }
}
