// The formulas that say that no run comes to a location.

ghost use Rattle.std.specs.Prelude.{◌≡◌, ◌↔◌, ℕ, IsTrue, MatchOption, false};
ghost use Rattle.tv_formula.specs.Forms.{never_at};
ghost use Rattle.tv_formula.specs.Formulas.{property_of};
ghost use Rattle.tv_formula.specs.Properties.{at, negated, truth};
ghost use Rattle.tv_formula.specs.Views.{property};

use tv_formula::{Formula, Path, Shape, Tree};

/// The location whose test the tree is, if it is one.
fn tested(tree: &Tree) -> Option<u32>
    ensures { MatchOption result ((l : ℕ) → property tree.now ≡ at l → ⊥) (λ l. property tree.now ≡ at l) }
{
    match tree {
        Tree::At(location) => Some(*location),
        _ => None,
    }
}

/// The location whose test the tree denies, if it does that.
fn denied(tree: &Tree) -> Option<u32>
    ensures { MatchOption result ((l : ℕ) → property tree.now ≡ negated (at l) → ⊥) (λ l. property tree.now ≡ negated (at l)) }
{
    match tree {
        Tree::Not(part) => tested(part),
        _ => None,
    }
}

/// Whether the tree is `false`.
fn is_false(tree: &Tree) -> bool
    ensures { IsTrue result ↔ (property tree.now ≡ truth false) }
{
    match tree {
        Tree::Truth(value) => !*value,
        _ => false,
    }
}

/// The location that no run comes to, where that is what the formula says.
pub(crate) fn excluded(formula: &Formula) -> Option<u32>
    ensures { MatchOption result ((l : ℕ) → property_of formula.now ≡ never_at l → ⊥) (λ l. property_of formula.now ≡ never_at l) }
{
    match formula.tree() {
        Tree::Fix(Path::Every, Shape::Weak, hold, end) => {
            if is_false(end) { denied(hold) } else { None }
        }
        _ => None,
    }
}
