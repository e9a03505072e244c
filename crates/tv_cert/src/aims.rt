ghost use Rattle.std.specs.Prelude.{◌≡◌, ◌<◌, ◌-◌, ◌^◌, [], IfOk, IsTrue};
ghost use Rattle.tv_formula.specs.Forms.{is_mark, is_normal};
ghost use Rattle.tv_formula.specs.Formulas.{property_of, variables_of};
ghost use Rattle.tv_formula.specs.Views.{property, properties};
ghost use Rattle.tv_cases.specs.Comparisons.{comparison_lists};
ghost use Rattle.tv_cert.specs.AimViews.{aim_states, aims_state};
ghost use Rattle.tv_cert.specs.Statable.{IsStatable, AreStatable};
ghost use Rattle.tv_cert.specs.Statements.{stated, stated_all, denial_of};
ghost use Rattle.tv_cert.specs.Statements as statements;
ghost use Rattle.tv_formula.specs.Properties as props;

use crate::aim::Aim;
use std::alloc::{AllocError, Global};
use tv_cases::comparison_lists;
use tv_formula::{Formula, Path, Shape, Tree};
use tv_linear::Row;

/// One list without rows where it is true, and none else.
fn truth_lists(alloc: Global, truth: bool) -> Result<Aim, AllocError>
    ensures { IfOk result (λ aim. aim_states aim ≡ stated (λ r a b. []) (props.truth truth)) }
{
    let mut lists: Vec<Vec<Row>> = Vec::new(alloc);
    if truth {
        lists.push(Vec::new(alloc))?;
    }
    Ok(Aim::Rows(lists))
}

/// What a location test or `term` states where it is denied.
fn denial(tree: &Tree) -> Aim
    requires normal { IsTrue (is_mark (property tree.now)) }
    ensures { aim_states result ≡ denial_of (property tree.now) }
{
    match tree {
        Tree::At(location) => Aim::Elsewhere(*location),
        Tree::Term => Aim::NeverEnds,
        _ => unreachable!(),
    }
}

fn after(alloc: Global, path: Path, aim: Aim) -> Result<Aim, AllocError>
    ensures { IfOk result (λ a. aim_states a ≡ statements.after path (aim_states aim)) }
{
    Ok(Aim::After(path, Box::new(alloc, aim)?))
}

fn along(
    alloc: Global,
    path: Path,
    shape: Shape,
    first: Aim,
    second: Aim,
) -> Result<Aim, AllocError>
    ensures { IfOk result (λ a. aim_states a ≡ statements.along path shape (aim_states first) (aim_states second)) }
{
    let first = Box::new(alloc, first)?;
    let second = Box::new(alloc, second)?;
    Ok(Aim::Along(path, shape, first, second))
}

#[cycle(aims)]
fn aim_of_tree(alloc: Global, tree: &Tree, variables: u32) -> Result<Aim, AllocError>
    requires bounded { variables < 2 ^ 32 - 1 }
    requires statable { IsStatable (property tree.now) }
    ensures { IfOk result (λ aim. aim_states aim ≡ stated (comparison_lists variables) (property tree.now)) }
{
    match tree {
        Tree::Truth(truth) => truth_lists(alloc, *truth),
        Tree::Compare(relation, left, right) => {
            let lists = comparison_lists(alloc, *relation, left, right, variables)?;
            Ok(Aim::Rows(lists))
        }
        Tree::At(location) => Ok(Aim::Here(*location)),
        Tree::Term => Ok(Aim::Ends),
        Tree::Not(inner) => Ok(denial(inner)),
        Tree::And(parts) => Ok(Aim::EachOf(aims_of(alloc, parts, variables)?)),
        Tree::Or(parts) => Ok(Aim::OneOf(aims_of(alloc, parts, variables)?)),
        Tree::Next(path, inner) => {
            let inner = aim_of_tree(alloc, inner, variables)?;
            after(alloc, *path, inner)
        }
        Tree::Fix(path, shape, first, second) => {
            let first = aim_of_tree(alloc, first, variables)?;
            let second = aim_of_tree(alloc, second, variables)?;
            along(alloc, *path, *shape, first, second)
        }
    }
}

#[cycle(aims)]
fn aims_of(alloc: Global, parts: &[Tree], variables: u32) -> Result<Vec<Aim>, AllocError>
    requires bounded { variables < 2 ^ 32 - 1 }
    requires statable { AreStatable (properties parts.now) }
    ensures { IfOk result (λ aims. aims_state aims.items ≡ stated_all (comparison_lists variables) (properties parts.now)) }
{
    let mut aims = Vec::new(alloc);
    for part in parts {
        aims.push(aim_of_tree(alloc, part, variables)?)?;
    }
    Ok(aims)
}

/// What a normal formula states, its comparisons as lists of rows.
pub(crate) fn aim_of(alloc: Global, formula: &Formula) -> Result<Aim, AllocError>
    requires bounded { variables_of formula.now < 2 ^ 32 - 1 }
    requires normal { IsTrue (is_normal (property_of formula.now)) }
    ensures { IfOk result (λ aim. aim_states aim ≡ stated (comparison_lists (variables_of formula.now)) (property_of formula.now)) }
{
    aim_of_tree(alloc, formula.tree(), formula.variables())
}
