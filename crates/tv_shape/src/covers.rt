ghost use Rattle.std.specs.Prelude.{◌≡◌, ◌↔◌, ◌+◌, ◌<◌, ◌^◌, IsTrue, All, length, map};
ghost use Rattle.tv_linear.specs.Depth.{splits};
ghost use Rattle.tv_cert.specs.Shapes.{CoverShape};
ghost use Rattle.tv_cert.specs.TargetViews.{counts_of};

use tv_cert::Targets;
use tv_linear::CoverTree;

/// Whether each list has `count` numbers.
fn all_have_length(lists: &[Vec<i64>], count: u128) -> bool
    ensures { IsTrue result ↔ All (λ l. length l.items ≡ count) lists.now }
{
    lists.iter().all(|list| list.len() as u128 == count)
}

/// Whether each list has `count` numbers, as a contract reads the lists of a proof.
pub fn have_length(lists: &[Vec<i64>], count: u128) -> bool
    ensures { IsTrue result ↔ All (λ ms. length ms ≡ count) (map (λ l. l.items) lists.now) }
{
    all_have_length(lists, count)
}

/// Whether the cover has the shape that is owed at a place with `known` known rows of `columns` columns.
pub fn cover_has_shape(tree: &CoverTree, columns: usize, known: u128, targets: &Targets) -> bool
    requires { known + splits tree.now < 2 ^ 66 }
    ensures { IsTrue result ↔ CoverShape columns (counts_of targets.now) known tree.now }
{
    match tree {
        CoverTree::Split(row, holds, fails) => {
            row.columns() as usize == columns
                && cover_has_shape(holds, columns, known + 1, targets)
                && cover_has_shape(fails, columns, known + 1, targets)
        }
        CoverTree::Empty(multipliers) => multipliers.len() as u128 == known,
        CoverTree::Into {
            target,
            fall,
            refutations,
        } => {
            targets.count(*target, *fall) == Some(refutations.len())
                && have_length(refutations, known + 1)
        }
    }
}
