// What a formula asks for, constants left out.

use tv_cert::Aim;
use tv_formula::{Path, Shape};
use tv_linear::Row;

/// What is to be shown of every run.
#[derive(Clone, Copy)]
pub(crate) enum Goal<'a> {
    /// It ends.
    Ends,
    /// It comes to a state where the second formula holds. The first, which is to hold up to there, is true.
    Comes { first: &'a Aim, second: &'a Aim },
}

/// Whether one of the lists has no rows.
fn has_empty(lists: &[Vec<Row>]) -> bool {
    lists.iter().any(|rows| rows.is_empty())
}

/// Whether the formula has this truth value by its constants alone.
#[cycle(constants)]
pub(crate) fn is_constant(aim: &Aim, truth: bool) -> bool {
    match aim {
        Aim::Rows(lists) => {
            if truth {
                has_empty(lists)
            } else {
                lists.is_empty()
            }
        }
        Aim::EachOf(parts) => {
            if truth {
                are_constant(parts, truth)
            } else {
                has_constant(parts, truth)
            }
        }
        Aim::OneOf(parts) => {
            if truth {
                has_constant(parts, truth)
            } else {
                are_constant(parts, truth)
            }
        }
        _ => false,
    }
}

/// Whether each of the formulas has this truth value by its constants alone.
#[cycle(constants)]
fn are_constant(parts: &[Aim], truth: bool) -> bool {
    for part in parts {
        if !is_constant(part, truth) {
            return false;
        }
    }
    true
}

/// Whether one of the formulas has this truth value by its constants alone.
#[cycle(constants)]
pub(crate) fn has_constant(parts: &[Aim], truth: bool) -> bool {
    for part in parts {
        if is_constant(part, truth) {
            return true;
        }
    }
    false
}

/// What the one formula asks for that does not have this truth value by its constants alone; `None` where there is none, or several.
#[cycle(goals)]
fn goal_besides(parts: &[Aim], truth: bool) -> Option<Goal<'_>> {
    let mut goal = None;
    let mut is_found = false;
    for part in parts {
        if !is_constant(part, truth) {
            if is_found {
                return None;
            }
            is_found = true;
            goal = goal_of(part);
        }
    }
    goal
}

/// What the formula asks for, where that is one of the goals.
#[cycle(goals)]
pub(crate) fn goal_of(aim: &Aim) -> Option<Goal<'_>> {
    match aim {
        Aim::Ends => Some(Goal::Ends),
        Aim::OneOf(parts) => goal_besides(parts, false),
        Aim::EachOf(parts) => goal_besides(parts, true),
        Aim::Along(Path::Every, Shape::Until, first, second) => {
            if is_constant(first, true) {
                Some(Goal::Comes { first, second })
            } else {
                None
            }
        }
        _ => None,
    }
}
