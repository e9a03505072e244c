// Formulas that are equal.

ghost use Rattle.std.specs.Prelude.{◌≡◌, ◌↔◌, IsTrue, map};
ghost use Rattle.tv_cert.specs.AimViews.{aim_states};

use tv_cert::Aim;
use tv_farkas::are_same;
use tv_linear::Row;

/// Whether the lists have the same rows, one by one.
fn lists_are_equal(first: &[Vec<Row>], second: &[Vec<Row>]) -> bool
    ensures { IsTrue result ↔ map (λ l. l.items) first.now ≡ map (λ l. l.items) second.now }
{
    match (first, second) {
        ([], []) => true,
        ([list, lists @ ..], [other, others @ ..]) => {
            are_same(list, other) && lists_are_equal(lists, others)
        }
        _ => false,
    }
}

/// Whether the formulas are equal, one by one.
#[cycle(equality)]
fn all_are_equal(first: &[Aim], second: &[Aim]) -> bool
    ensures { IsTrue result ↔ map aim_states first.now ≡ map aim_states second.now }
{
    if first.len() != second.len() {
        return false;
    }
    'aims: for place in 0..first.len() {
        if !are_equal(&first[place], &second[place]) {
            return false;
        }
    }
    true
}

/// Whether the two formulas are equal: they have the same parts at the same places.
#[cycle(equality)]
pub(crate) fn are_equal(first: &Aim, second: &Aim) -> bool
    ensures { IsTrue result ↔ aim_states first.now ≡ aim_states second.now }
{
    match (first, second) {
        (Aim::Rows(lists), Aim::Rows(others)) => lists_are_equal(lists, others),
        (Aim::Here(location), Aim::Here(other)) => location == other,
        (Aim::Elsewhere(location), Aim::Elsewhere(other)) => location == other,
        (Aim::Ends, Aim::Ends) => true,
        (Aim::NeverEnds, Aim::NeverEnds) => true,
        (Aim::EachOf(aims), Aim::EachOf(others)) => all_are_equal(aims, others),
        (Aim::OneOf(aims), Aim::OneOf(others)) => all_are_equal(aims, others),
        (Aim::After(path, inner), Aim::After(other_path, other)) => {
            path == other_path && are_equal(inner, other)
        }
        (
            Aim::Along(path, shape, front, back),
            Aim::Along(other_path, other_shape, other_front, other_back),
        ) => {
            path == other_path
                && shape == other_shape
                && are_equal(front, other_front)
                && are_equal(back, other_back)
        }
        _ => false,
    }
}
