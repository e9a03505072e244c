ghost use Rattle.std.specs.Prelude.{◌≡◌, ◌↔◌, ◌+◌, ◌<◌, ◌^◌, All, IsTrue, Some, length, map, slice_get};
ghost use Rattle.std.specs.Option.{option_map};
ghost use Rattle.tv_linear.specs.ChoiceDepth.{choice_splits};
ghost use Rattle.tv_linear.specs.Linear.{columns as columns_of};
ghost use Rattle.tv_linear.specs.Covers.{no_target};
ghost use Rattle.tv_cases.specs.LinearCases.{leaving};
ghost use Rattle.tv_cases.specs.Systems.{cases_of};
ghost use Rattle.tv_cases.specs.Views.{case_view};
ghost use Rattle.tv_cert.specs.OwesViews.{destination_owes};
ghost use Rattle.tv_cert.specs.Shapes.{ChoiceShape, CoverShape, NoStepShape, TakeShape, owed_count};

use crate::covers::{cover_has_shape, have_length};
use tv_cases::{Case, Cases};
use tv_cert::{Choosing, Take, Targets, targets_after};
use tv_linear::{ChoiceTree, Cover, Row, have_columns};

/// Whether the target after the case owes `rows` rows.
fn destination_owes_rows(choosing: &Choosing, case: &Case, take: &Take, rows: usize) -> bool
    ensures { let taken = case_view case.now in
        let system = cases_of choosing.now.about.now in
        let owes = destination_owes system.variables choosing.now.piece.now choosing.now.destination.now in
        IsTrue result ↔ (owed_count (owes taken take.now.draws.now) take.now.target take.now.fall ≡ Some rows) }
{
    let targets = targets_after(choosing.piece, case, choosing.destination);
    targets.count(take.target, take.fall) == Some(rows)
}

/// Whether there are terms of `columns` columns for the draws of the case.
fn draws_fit(columns: u32, case: &Case, draws: &[Row]) -> bool
    ensures { IsTrue result ↔ ((length draws.now ≡ case.now.draws) × All (λ r. columns_of r ≡ columns) draws.now) }
{
    draws.len() == case.draws as usize && have_columns(draws, columns)
}

/// Whether the taken case leaves the location of the piece and has these terms for its draws, and the lists are as many as the rows of
/// its guards and the target.
fn take_has_shape(choosing: &Choosing, known: u128, take: &Take) -> bool
    requires { known < 2 ^ 65 }
    ensures { let system = cases_of choosing.now.about.now in
        let owes = destination_owes system.variables choosing.now.piece.now choosing.now.destination.now in
        let case = slice_get system.cases take.now.taken in
        let shape = TakeShape system.variables choosing.now.piece.now.location owes known case in
        IsTrue result ↔ shape take.now.target take.now.fall take.now.draws.now (map (λ l. l.items) take.now.refutations.now) }
{
    match choosing.about.list().get(take.taken as usize) {
        None => false,
        Some(case) => {
            let guards = case.guards.rows.len();
            let lists = take.refutations;
            case.from == choosing.piece.location()
                && draws_fit(choosing.about.variables(), case, take.draws)
                && lists.len() >= guards
                && destination_owes_rows(choosing, case, take, lists.len() - guards)
                && have_length(lists, known + 1)
        }
    }
}

/// Whether the cover has the shape of one without targets of the place and the guards of the case.
fn stop_has_shape(columns: u32, known: u128, case: &Case, cover: &Cover) -> bool
    requires { known < 2 ^ 65 }
    ensures { IsTrue result ↔ CoverShape (columns + case.now.draws) (owed_count no_target) (known + length (case_view case.now).guards) cover.now }
{
    let wide = columns as usize + case.draws as usize;
    let guarded = known + case.guards.rows.len() as u128;
    cover_has_shape(cover.tree(), wide, guarded, &Targets::Nowhere)
}

/// Whether there is a cover without targets for each case from the location.
fn no_step_has_shape(
    columns: u32,
    known: u128,
    location: u32,
    about: &Cases,
    covers: &[Cover],
) -> bool
    requires { known < 2 ^ 65 }
    ensures { IsTrue result ↔ NoStepShape columns known (leaving location (cases_of about.now).cases) covers.now }
{
    let mut k = 0;
    'cases: while let Some(case) = about.leaving(location, k) {
        let Some(cover) = covers.get(k) else {
            return false;
        };
        if !stop_has_shape(columns, known, case, cover) {
            return false;
        }
        k += 1;
    }
    covers.len() <= k
}

/// Whether the choice has the shape that is owed at a place with `known` known rows.
pub fn choice_has_shape(choosing: &Choosing, known: u128, tree: &ChoiceTree) -> bool
    requires { known + choice_splits tree.now < 2 ^ 65 }
    ensures { let system = cases_of choosing.now.about.now in
        let owes = destination_owes system.variables choosing.now.piece.now choosing.now.destination.now in
        let shape = ChoiceShape system.variables system.cases choosing.now.piece.now.location choosing.now.stop owes known in
        IsTrue result ↔ shape tree.now }
{
    let columns = choosing.about.variables();
    match tree {
        ChoiceTree::Split(row, holds, fails) => {
            row.columns() == columns
                && choice_has_shape(choosing, known + 1, holds)
                && choice_has_shape(choosing, known + 1, fails)
        }
        ChoiceTree::Empty(multipliers) => multipliers.len() as u128 == known,
        ChoiceTree::NoStep(covers) => {
            let location = choosing.piece.location();
            choosing.stop && no_step_has_shape(columns, known, location, choosing.about, covers)
        }
        ChoiceTree::Take {
            taken,
            target,
            fall,
            draws,
            refutations,
        } => {
            let take = Take {
                taken: *taken,
                target: *target,
                fall: *fall,
                draws,
                refutations,
            };
            take_has_shape(choosing, known, &take)
        }
    }
}
