ghost use Rattle.std.specs.Prelude.{◌≡◌, true, false, MatchOption};
ghost use Rattle.tv_sound.specs.Following.{chosen_at};
ghost use Rattle.tv_trace.specs.Widths.{way_is_held};

use crate::sums::value_at;
use tv_linear::ChoiceTree;

/// Where the truth of its split rows leads in a choice; `None` where the value of one that is looked at is not held.
pub(crate) fn end_at<'a>(tree: &'a ChoiceTree, values: &[i128]) -> Option<&'a ChoiceTree>
    ensures { let held = way_is_held values.now tree.now in
        MatchOption result (held ≡ false) (λ end. (held ≡ true) × (end.now ≡ chosen_at values.now tree.now)) }
{
    match tree {
        ChoiceTree::Split(row, holds, fails) => match value_at(row, values) {
            None => None,
            Some(value) => {
                if value <= 0 {
                    end_at(holds, values)
                } else {
                    end_at(fails, values)
                }
            }
        },
        _ => Some(tree),
    }
}
