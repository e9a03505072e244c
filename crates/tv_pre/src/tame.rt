// Whether going back over the steps of a program is exact for a claim.

ghost use Rattle.std.specs.Prelude.{IsTrue, IsFalse, All, map};
ghost use Rattle.tv_cases.specs.Systems.{cases_of};
ghost use Rattle.tv_cert.specs.AimViews.{aim_states};
ghost use Rattle.tv_pre.specs.Tame.{AreListsOfDifferences, IsOfDifferencesIn};
ghost use Rattle.tv_pre.specs.Proving.{IsTameClaim};

use crate::differences::{are_cases_of_differences, are_differences};
use tv_cases::Cases;
use tv_cert::{Aim, Claim};
use tv_linear::Row;
use tv_rounds::has_no_draws;

/// Whether each row of the lists is a difference.
fn are_lists_of_differences(lists: &[Vec<Row>]) -> bool
    ensures found { IsTrue result → AreListsOfDifferences (map (λ l. l.items) lists.now) }
    ensures all { AreListsOfDifferences (map (λ l. l.items) lists.now) → IsTrue result }
{
    match lists {
        [] => true,
        [list, rest @ ..] => are_differences(list) && are_lists_of_differences(rest),
    }
}

/// Whether each row of the comparisons in the formulas is a difference.
#[cycle(tame)]
fn are_aims_of_differences(aims: &[Aim]) -> bool
    ensures found { IsTrue result → All (λ a. IsOfDifferencesIn (aim_states a)) aims.now }
    ensures all { All (λ a. IsOfDifferencesIn (aim_states a)) aims.now → IsTrue result }
{
    'aims: for aim in aims {
        if !is_aim_of_differences(aim) {
            return false;
        }
    }
    true
}

/// Whether each row of the comparisons in the formula is a difference.
#[cycle(tame)]
fn is_aim_of_differences(aim: &Aim) -> bool
    ensures found { IsTrue result → IsOfDifferencesIn (aim_states aim.now) }
    ensures all { IsOfDifferencesIn (aim_states aim.now) → IsTrue result }
{
    match aim {
        Aim::Rows(lists) => are_lists_of_differences(lists),
        Aim::Here(_) => true,
        Aim::Elsewhere(_) => true,
        Aim::Ends => true,
        Aim::NeverEnds => true,
        Aim::EachOf(aims) => are_aims_of_differences(aims),
        Aim::OneOf(aims) => are_aims_of_differences(aims),
        Aim::After(_, inner) => is_aim_of_differences(inner),
        Aim::Along(_, _, first, second) => {
            is_aim_of_differences(first) && is_aim_of_differences(second)
        }
    }
}

/// Whether no case has a draw, or the cases and the rows of the comparisons are of differences.
pub(crate) fn is_tame_claim(about: &Cases, claim: &Claim) -> bool
    ensures tame { IsTrue result → IsTameClaim (cases_of about.now) claim.now }
    ensures wild { IsFalse result → IsTameClaim (cases_of about.now) claim.now → ⊥ }
{
    if has_no_draws(about) {
        return true;
    }
    if !are_cases_of_differences(about) {
        return false;
    }
    if !is_aim_of_differences(claim.proved_aim()) {
        return false;
    }
    is_aim_of_differences(claim.denied_aim())
}
