ghost use Rattle.std.specs.Prelude.{length};
ghost use Rattle.tv_program.specs.Limits.{IsWithinLimits};
ghost use Rattle.tv_program.specs.Views.{transitions};

use crate::names::Names;
use crate::tree::Edge;

/// A program within its limits: its names, its start location and its edges.
///
/// It has at most 512 variables, 1,024 locations, 4,096 edges and 64 draws on an edge. Each place in a tree is in range, each
/// number is below 2^62 in magnitude, and at most one factor of a product has a variable or a draw.
#[derive(Drop)]
pub struct Program {
    variables: Names,
    locations: Names,
    start: u32,
    edges: Vec<Edge>,
    pub ghost within_limits: { IsWithinLimits (length variables) (length locations) start (transitions edges.items) },
}

impl Program {
    ghost use Rattle.std.specs.Prelude.{◌≡◌, ◌<◌, ◌≤◌};
    ghost use Rattle.tv_program.specs.Programs.{system_of};
    ghost use Rattle.tv_program.specs.Systems.{IsLimited};

    pub fn new(variables: Names, locations: Names, start: u32, edges: Vec<Edge>) -> Program
        requires { IsWithinLimits (length variables) (length locations) start (transitions edges.items) }
        ensures { system_of result ≡ record { variables = variables; locations = locations; start = start; edges = transitions edges.items } }
    {
        Program {
            variables,
            locations,
            start,
            edges,
        }
    }

    /// The variables, in the order of their numbers.
    pub fn variables(&self) -> &Names
        ensures same { result.now ≡ (system_of self.now).variables }
        ensures limits { IsLimited (system_of self.now) }
    {
        &self.variables
    }

    /// The locations' labels, in the order of their numbers.
    pub fn locations(&self) -> &Names
        ensures same { result.now ≡ (system_of self.now).locations }
        ensures limits { IsLimited (system_of self.now) }
    {
        &self.locations
    }

    /// The number of the location where runs begin.
    pub fn start(&self) -> u32
        ensures same { result ≡ (system_of self.now).start }
        ensures limits { IsLimited (system_of self.now) }
    {
        self.start
    }

    /// The edges, in the order of the text.
    pub fn edges(&self) -> &[Edge]
        ensures same { transitions result.now ≡ (system_of self.now).edges }
        ensures limits { IsLimited (system_of self.now) }
    {
        &self.edges
    }
}
