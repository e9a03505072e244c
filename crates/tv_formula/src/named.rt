ghost use Rattle.std.specs.Prelude.{◌≡◌, ◌<◌, IfOk, length};
ghost use Rattle.tv_program.specs.Programs.{system_of};
ghost use Rattle.tv_formula.specs.Forms.{never_at};
ghost use Rattle.tv_formula.specs.Formulas.{property_of, variables_of, locations_of};
ghost use Rattle.tv_formula.specs.Parts.{HasParts};
ghost use Rattle.tv_formula.specs.Properties as properties;
ghost use Rattle.tv_formula.specs.Views.{property};

use crate::formula::Formula;
use crate::tree::{Path, Shape, Tree};
use std::alloc::{AllocError, Global};
use tv_program::Program;

/// `term`: no endless run begins at the state.
pub fn termination(_alloc: Global, program: &Program) -> Result<Formula, AllocError>
    ensures gives { IfOk result (λ f. property_of f ≡ properties.term) }
    ensures parts { IfOk result (λ f. HasParts (property_of f)) }
    ensures variables { IfOk result (λ f. variables_of f ≡ length (system_of program.now).variables) }
    ensures locations { IfOk result (λ f. locations_of f ≡ length (system_of program.now).locations) }
{
    let variables = program.variables().len();
    let locations = program.locations().len();
    Ok(Formula::new(Tree::Term, variables, locations))
}

fn never_at(alloc: Global, location: u32) -> Result<Tree, AllocError>
    ensures { IfOk result (λ t. property t ≡ never_at location) }
{
    let there = Box::new(alloc, Tree::At(location))?;
    let elsewhere = Box::new(alloc, Tree::Not(there))?;
    let never = Box::new(alloc, Tree::Truth(false))?;
    Ok(Tree::Fix(Path::Every, Shape::Weak, elsewhere, never))
}

/// `[AG](!at(l))`: no run from the state comes to the location.
pub fn unreachable(alloc: Global, program: &Program, location: u32) -> Result<Formula, AllocError>
    requires { location < length (system_of program.now).locations }
    ensures gives { IfOk result (λ f. property_of f ≡ never_at location) }
    ensures parts { IfOk result (λ f. HasParts (property_of f)) }
    ensures variables { IfOk result (λ f. variables_of f ≡ length (system_of program.now).variables) }
    ensures locations { IfOk result (λ f. locations_of f ≡ length (system_of program.now).locations) }
{
    let tree = never_at(alloc, location)?;
    let variables = program.variables().len();
    let locations = program.locations().len();
    Ok(Formula::new(tree, variables, locations))
}
