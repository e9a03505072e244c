// The intersection, the union and the complement of regions.

ghost use Rattle.std.specs.Prelude.{◌≡◌, ◌-◌, ◌+◌, ◌*◌, ◌^◌, ◌<◌, ◌≤◌, IfOk};
ghost use Rattle.std.specs.Result.{IfErr};
ghost use Rattle.tv_cases.specs.Given.{lists};
ghost use Rattle.tv_region.specs.Regions.{IsRegion, count_at};
ghost use Rattle.tv_region.specs.Algebra.{OfEither, OfRest, IsBoth, IsEither, IsRest, denied_count, IsBothFault, IsEitherFault, IsRestFault};
ghost use Rattle.tv_region.specs.AlgebraAt.{InBoth, OutOfBoth, InEither, OutOfEither, InRest, OutOfRest, IsBothAt, IsEitherAt, IsRestAt};

use crate::RegionFault;
use crate::counted::{product_at, rest_of, sum_at};
use crate::lists::lists_at;
use crate::located::{Located, assemble};
use std::alloc::Global;
use tv_farkas::Budget;
use tv_linear::{Region, Row};

/// The lists of the intersection at a location.
fn both_at(
    alloc: Global,
    a: &Region,
    b: &Region,
    location: u32,
    budget: &Budget,
) -> Result<Vec<Vec<Row>>, RegionFault>
    requires bounded { a.now.variables < 2 ^ 32 - 1 }
    requires first { IsRegion a.now.variables a.now.locations a.now }
    requires second { IsRegion a.now.variables a.now.locations b.now }
    ensures at { IfOk result (λ v. IsBothAt a.now b.now location (lists v)) }
    ensures refused { IfErr result (IsBothFault a.now b.now budget.now) }
{
    let first = lists_at(alloc, &a.pieces, location)?;
    let second = lists_at(alloc, &b.pieces, location)?;
    product_at(alloc, &first, &second, location, a.variables, budget)
}

/// The lists of the union at a location.
fn either_at(
    alloc: Global,
    a: &Region,
    b: &Region,
    location: u32,
    budget: &Budget,
) -> Result<Vec<Vec<Row>>, RegionFault>
    requires bounded { a.now.variables < 2 ^ 32 - 1 }
    requires first { IsRegion a.now.variables a.now.locations a.now }
    requires second { IsRegion a.now.variables a.now.locations b.now }
    ensures at { IfOk result (λ v. IsEitherAt a.now b.now location (lists v)) }
    ensures refused { IfErr result (IsEitherFault a.now b.now budget.now) }
{
    let first = lists_at(alloc, &a.pieces, location)?;
    let second = lists_at(alloc, &b.pieces, location)?;
    sum_at(alloc, &first, &second, location, a.variables, budget)
}

/// The lists of the complement at a location.
pub(crate) fn rest_at(
    alloc: Global,
    a: &Region,
    location: u32,
    budget: &Budget,
) -> Result<Vec<Vec<Row>>, RegionFault>
    requires bounded { a.now.variables < 2 ^ 32 - 1 }
    requires fits { IsRegion a.now.variables a.now.locations a.now }
    ensures at { IfOk result (λ v. IsRestAt a.now location (lists v)) }
    ensures refused { IfErr result (IsRestFault a.now budget.now) }
{
    let pieces = lists_at(alloc, &a.pieces, location)?;
    rest_of(alloc, &pieces, location, a.variables, budget)
}

#[derive(Drop)]
struct BothOf<'a> {
    a: &'a Region,
    b: &'a Region,
    budget: &'a Budget,
    ghost bounded: { a.now.variables < 2 ^ 32 - 1 },
    ghost first: { IsRegion a.now.variables a.now.locations a.now },
    ghost second: { IsRegion a.now.variables a.now.locations b.now },
}

impl Located for BothOf<'_> {
    ghost variables = { λ s. s.a.now.variables };

    ghost locations = { λ s. s.a.now.locations };

    ghost only = { λ s l xs. InBoth s.a.now s.b.now l xs };

    ghost out = { λ s l xs. OutOfBoth s.a.now s.b.now l xs };

    ghost made = { λ s l r. OfEither s.a.now s.b.now l r };

    ghost bounded = { λ s l k. k ≤ count_at l s.a.now * count_at l s.b.now };

    ghost refused = { λ s fault. IsBothFault s.a.now s.b.now s.budget.now fault };

    fn lists(&self, alloc: Global, location: u32) -> Result<Vec<Vec<Row>>, RegionFault> {
        both_at(alloc, self.a, self.b, location, self.budget)
    }
}

#[derive(Drop)]
struct EitherOf<'a> {
    a: &'a Region,
    b: &'a Region,
    budget: &'a Budget,
    ghost bounded: { a.now.variables < 2 ^ 32 - 1 },
    ghost first: { IsRegion a.now.variables a.now.locations a.now },
    ghost second: { IsRegion a.now.variables a.now.locations b.now },
}

impl Located for EitherOf<'_> {
    ghost variables = { λ s. s.a.now.variables };

    ghost locations = { λ s. s.a.now.locations };

    ghost only = { λ s l xs. InEither s.a.now s.b.now l xs };

    ghost out = { λ s l xs. OutOfEither s.a.now s.b.now l xs };

    ghost made = { λ s l r. OfEither s.a.now s.b.now l r };

    ghost bounded = { λ s l k. k ≤ count_at l s.a.now + count_at l s.b.now };

    ghost refused = { λ s fault. IsEitherFault s.a.now s.b.now s.budget.now fault };

    fn lists(&self, alloc: Global, location: u32) -> Result<Vec<Vec<Row>>, RegionFault> {
        either_at(alloc, self.a, self.b, location, self.budget)
    }
}

#[derive(Drop)]
struct RestOf<'a> {
    a: &'a Region,
    budget: &'a Budget,
    ghost bounded: { a.now.variables < 2 ^ 32 - 1 },
    ghost fits: { IsRegion a.now.variables a.now.locations a.now },
}

impl Located for RestOf<'_> {
    ghost variables = { λ s. s.a.now.variables };

    ghost locations = { λ s. s.a.now.locations };

    ghost only = { λ s l xs. InRest s.a.now l xs };

    ghost out = { λ s l xs. OutOfRest s.a.now l xs };

    ghost made = { λ s l r. OfRest s.a.now l r };

    ghost bounded = { λ s l k. k ≤ denied_count s.a.now l };

    ghost refused = { λ s fault. IsRestFault s.a.now s.budget.now fault };

    fn lists(&self, alloc: Global, location: u32) -> Result<Vec<Vec<Row>>, RegionFault> {
        rest_at(alloc, self.a, location, self.budget)
    }
}

/// The states that both regions have.
pub fn both(alloc: Global, a: &Region, b: &Region, budget: &Budget) -> Result<Region, RegionFault>
    requires bounded { a.now.variables < 2 ^ 32 - 1 }
    requires first { IsRegion a.now.variables a.now.locations a.now }
    requires second { IsRegion a.now.variables a.now.locations b.now }
    ensures both { IfOk result (λ region. IsBoth a.now b.now region) }
    ensures refused { IfErr result (IsBothFault a.now b.now budget.now) }
{
    assemble(alloc, &BothOf { a, b, budget }, a.variables, a.locations)
}

/// The states that one of the regions has.
pub fn either(alloc: Global, a: &Region, b: &Region, budget: &Budget) -> Result<Region, RegionFault>
    requires bounded { a.now.variables < 2 ^ 32 - 1 }
    requires first { IsRegion a.now.variables a.now.locations a.now }
    requires second { IsRegion a.now.variables a.now.locations b.now }
    ensures either { IfOk result (λ region. IsEither a.now b.now region) }
    ensures refused { IfErr result (IsEitherFault a.now b.now budget.now) }
{
    assemble(alloc, &EitherOf { a, b, budget }, a.variables, a.locations)
}

/// The states that the region does not have.
pub fn complement(alloc: Global, a: &Region, budget: &Budget) -> Result<Region, RegionFault>
    requires bounded { a.now.variables < 2 ^ 32 - 1 }
    requires fits { IsRegion a.now.variables a.now.locations a.now }
    ensures rest { IfOk result (λ region. IsRest a.now region) }
    ensures refused { IfErr result (IsRestFault a.now budget.now) }
{
    assemble(alloc, &RestOf { a, budget }, a.variables, a.locations)
}
