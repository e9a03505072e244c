use tv_choice::Chosen;
use tv_farkas::CoverFault;
use tv_linear::{ChoiceTree, Row};
use tv_simplex::SolveFault;

/// A row by its coefficients and its constant.
pub(crate) type Numbers = (&'static [i128], i128);

/// What a choice is to give.
#[derive(Clone, Copy)]
pub(crate) enum Wanted {
    /// The rows of the piece have no point.
    Empty,
    /// The case is taken at once into the piece at this place, with these terms for its draws.
    Take(u32, u32, &'static [Numbers]),
    /// A split at a row, with the case that is taken where it is met, and the one where it is not.
    Sides(Numbers, u32, u32),
    /// A split at a row. Where it is met no step is possible, and else the case is taken.
    StopOrSide(Numbers, u32),
    /// No step is possible, by this many covers.
    NoStep(usize),
    /// A tree with this many splits on its longest path, not counting those of covers.
    Depth(u32),
    Hole(&'static [i128]),
    /// A path of this many splits, those of the choice itself among them.
    Splits(usize),
    /// A number of rows for which the solver finds no basis in time.
    Solve(usize),
    Wide(u32),
}

fn is_row(row: &Row, numbers: &Numbers) -> bool {
    let coefficients = row.coefficients();
    coefficients.len() == numbers.0.len()
        && coefficients
            .iter()
            .zip(numbers.0)
            .all(|(number, wanted)| i128::from(*number) == *wanted)
        && row.constant() == numbers.1
}

fn takes(tree: &ChoiceTree, case: u32) -> bool {
    match tree {
        ChoiceTree::Take { taken, .. } => *taken == case,
        _ => false,
    }
}

fn stops(tree: &ChoiceTree, count: usize) -> bool {
    match tree {
        ChoiceTree::NoStep(covers) => covers.len() == count,
        _ => false,
    }
}

/// The splits on the longest path.
fn depth(tree: &ChoiceTree) -> u32 {
    match tree {
        ChoiceTree::Split(_, holds, fails) => depth(holds).max(depth(fails)).saturating_add(1),
        _ => 0,
    }
}

fn are_terms(draws: &[Row], terms: &[Numbers]) -> bool {
    draws.len() == terms.len() && draws.iter().zip(terms).all(|(row, term)| is_row(row, term))
}

fn is_tree(wanted: &Wanted, tree: &ChoiceTree) -> bool {
    match (wanted, tree) {
        (Wanted::Empty, ChoiceTree::Empty(_)) => true,
        (Wanted::Depth(splits), _) => depth(tree) == *splits,
        (Wanted::NoStep(count), _) => stops(tree, *count),
        (
            Wanted::Take(case, at, terms),
            ChoiceTree::Take {
                taken,
                target,
                fall: 0,
                draws,
                ..
            },
        ) => taken == case && target == at && are_terms(draws, *terms),
        (Wanted::Sides(at, first, second), ChoiceTree::Split(row, holds, fails)) => {
            is_row(row, at) && takes(holds, *first) && takes(fails, *second)
        }
        (Wanted::StopOrSide(at, case), ChoiceTree::Split(row, holds, fails)) => {
            is_row(row, at) && stops(holds, 1) && takes(fails, *case)
        }
        _ => false,
    }
}

pub(crate) fn is_wanted(wanted: &Wanted, found: &Result<Chosen, CoverFault>) -> bool {
    match (wanted, found) {
        (_, Ok(Chosen::Tree(choice))) => is_tree(wanted, choice.tree()),
        (Wanted::Hole(numbers), Ok(Chosen::Hole(values))) => values.as_slice() == *numbers,
        (Wanted::Splits(count), Err(CoverFault::Splits { path })) => path.len() == *count,
        (
            Wanted::Solve(count),
            Err(
                CoverFault::Solve {
                    rows,
                    fault: SolveFault::Pivots { .. },
                },
            ),
        ) => rows.len() == *count,
        (Wanted::Wide(wide), Err(CoverFault::Wide { column })) => wide == column,
        _ => false,
    }
}
