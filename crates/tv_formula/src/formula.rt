ghost use Rattle.tv_formula.specs.Limits.{IsFormula};
ghost use Rattle.tv_formula.specs.Views.{property};

use crate::tree::Tree;

/// A formula over the variables and locations of a program.
///
/// A path has at most 200 nodes that are conjunctions, disjunctions, next or fixpoints, and at most 64 negations.
#[derive(Drop)]
pub struct Formula {
    tree: Tree,
    variables: u32,
    locations: u32,
    pub ghost within_limits: { IsFormula variables locations (property tree) },
}

impl Formula {
    ghost use Rattle.std.specs.Prelude.{◌≡◌};
    ghost use Rattle.tv_formula.specs.Formulas.{property_of, variables_of, locations_of};

    /// The formula of a tree over `variables` variables and `locations` locations.
    pub fn new(tree: Tree, variables: u32, locations: u32) -> Formula
        requires { IsFormula variables locations (property tree) }
        ensures same { property_of result ≡ property tree }
        ensures variables { variables_of result ≡ variables }
        ensures locations { locations_of result ≡ locations }
    {
        Formula {
            tree,
            variables,
            locations,
        }
    }

    pub fn tree(&self) -> &Tree
        ensures same { property result.now ≡ property_of self.now }
        ensures limits { IsFormula (variables_of self.now) (locations_of self.now) (property_of self.now) }
    {
        &self.tree
    }

    /// How many variables there are to speak of.
    pub fn variables(&self) -> u32
        ensures { result ≡ variables_of self.now }
    {
        self.variables
    }

    /// How many locations there are to speak of.
    pub fn locations(&self) -> u32
        ensures { result ≡ locations_of self.now }
    {
        self.locations
    }
}
