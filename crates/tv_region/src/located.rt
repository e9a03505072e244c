// Regions that are made location by location.

ghost use Rattle.std.specs.Prelude.{◌≡◌, ◌⊎◌, ◌<◌, ℕ, ℤ, List, IfOk};
ghost use Rattle.std.specs.Result.{IfErr};
ghost use Rattle.tv_linear.specs.Linear.{Linear};
ghost use Rattle.tv_cases.specs.Given.{lists};
ghost use Rattle.tv_region.specs.declared.fault.RegionFault.{RegionFault};
ghost use Rattle.tv_region.specs.declared.fault.RegionFault.TheVariants.{Memory};
ghost use Rattle.tv_region.specs.Regions.{IsAt, IsAssembled};

use crate::fault::RegionFault;
use crate::lists::place;
use std::alloc::Global;
use tv_linear::{Region, Row};

/// Lists of rows for each location. One of the lists is met where a state is to be in the region that they make.
pub(crate) trait Located {
    ghost variables: { Self → ℕ };

    ghost locations: { Self → ℕ };

    /// What is so of the states of a region that is made.
    ghost only: { Self → ℕ → List ℤ → Type 0 };

    /// What is so of the other states.
    ghost out: { Self → ℕ → List ℤ → Type 0 };

    /// The rows that are made at a location.
    ghost made: { Self → ℕ → Linear → Type 0 };

    /// What is so of how many pieces there are at a location.
    ghost bounded: { Self → ℕ → ℕ → Type 0 };

    /// What a refusal shows.
    ghost refused: { Self → RegionFault → Type 0 };

    fn lists(&self, alloc: Global, location: u32) -> Result<Vec<Vec<Row>>, RegionFault>
        requires { location < locations self.now }
        ensures at { let made_here = made self.now location in
            let few_here = bounded self.now location in
            IfOk result (λ v. IsAt (variables self.now) (only self.now location) (out self.now location) made_here few_here (lists v)) }
        ensures refused { IfErr result (refused self.now) };
}

/// The region with these lists at each location.
pub(crate) fn assemble<L: Located>(
    alloc: Global,
    located: &L,
    variables: u32,
    locations: u32,
) -> Result<Region, RegionFault>
    requires variables { variables ≡ L.variables located.now }
    requires locations { locations ≡ L.locations located.now }
    ensures assembled { let by = located.now in
        IfOk result (λ r. IsAssembled (L.variables by) (L.locations by) (L.only by) (L.out by) (L.made by) (L.bounded by) r) }
    ensures refused { IfErr result (λ fault. (fault ≡ Memory) ⊎ L.refused located.now fault) }
{
    let mut pieces = Vec::new(alloc);
    'locations: for location in 0..locations {
        let more = match located.lists(alloc, location) {
            Ok(more) => more,
            Err(fault) => return Err(fault),
        };
        pieces = place(pieces, location, variables, more)?;
    }
    Ok(Region {
        variables,
        locations,
        pieces,
    })
}
