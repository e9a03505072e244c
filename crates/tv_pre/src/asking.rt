// Whether ranks of a program may serve for a formula.

use crate::along::must_come;
use tv_cert::Aim;

/// The same as `asks_ranks`, of any of the formulas.
#[cycle(asking)]
fn any_asks(aims: &[Aim]) -> bool {
    'aims: for aim in aims {
        if asks_ranks(aim) {
            return true;
        }
    }
    false
}

/// Whether termination stands in the formula, or a fixpoint over every run that must come to its end. For others the ranks of the program
/// are of no use, and to look for them may take long.
#[cycle(asking)]
pub(crate) fn asks_ranks(aim: &Aim) -> bool {
    match aim {
        Aim::Rows(_) => false,
        Aim::Here(_) => false,
        Aim::Elsewhere(_) => false,
        Aim::Ends => true,
        Aim::NeverEnds => true,
        Aim::EachOf(aims) => any_asks(aims),
        Aim::OneOf(aims) => any_asks(aims),
        Aim::After(_, inner) => asks_ranks(inner),
        Aim::Along(path, shape, first, second) => {
            must_come(*path, *shape) || asks_ranks(first) || asks_ranks(second)
        }
    }
}
