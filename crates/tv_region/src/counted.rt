// Lists of a location that are joined with others or denied, within the budget.

ghost use Rattle.std.specs.Prelude.{◌≡◌, ◌⊎◌, ◌+◌, ◌*◌, ◌-◌, ◌^◌, ◌<◌, IfOk, length};
ghost use Rattle.std.specs.Result.{IfErr};
ghost use Rattle.tv_linear.specs.Linear.{Linear, columns as width};
ghost use Rattle.tv_cases.specs.Given.{lists, row_lists};
ghost use Rattle.tv_region.specs.Met.{InSome};
ghost use Rattle.tv_region.specs.Adding.{IsProduct, IsUnion, IsComplement, IsDenied, IsWideDenial, row_product, NoColumn};
ghost use Rattle.tv_region.specs.Regions.{capped, MadeAt, IsCountAt, IsRegionFault};

use crate::RegionFault;
use crate::limits::limits_for;
use crate::lists::{product_of_lengths, refusal};
use crate::products::{complement_of, products, unions};
use std::alloc::Global;
use tv_farkas::Budget;
use tv_linear::Row;

/// The sum of two counts, or 2^64 - 1 where it is greater.
fn sum_of_counts(first: usize, second: usize) -> u64
    ensures { result ≡ capped (first + second) }
{
    (first as u64).saturating_add(second as u64)
}

/// Each list of the first joined with each of the second.
pub(crate) fn product_at(
    alloc: Global,
    first: &[Vec<Row>],
    second: &[Vec<Row>],
    location: u32,
    columns: u32,
    budget: &Budget,
) -> Result<Vec<Vec<Row>>, RegionFault>
    requires bounded { columns < 2 ^ 32 - 1 }
    requires first { (r : Linear) → InSome (row_lists first.now) r → width r ≡ columns }
    requires second { (r : Linear) → InSome (row_lists second.now) r → width r ≡ columns }
    ensures product { IfOk result (λ v. IsProduct columns (row_lists first.now) (row_lists second.now) (lists v)) }
    ensures refused { let ones = row_lists first.now in
        let others = row_lists second.now in
        let made = MadeAt location (λ r. InSome ones r ⊎ InSome others r) in
        IfErr result (IsRegionFault columns made NoColumn (IsCountAt location (length ones * length others)) budget.now) }
{
    let count = (first.len() as u64).saturating_mul(second.len() as u64);
    let limits = limits_for(budget, columns, count);
    match products(alloc, first, second, &limits) {
        Ok(made) => Ok(made),
        Err(fault) => Err(refusal(fault, location, count)),
    }
}

/// The lists of both.
pub(crate) fn sum_at(
    alloc: Global,
    first: &[Vec<Row>],
    second: &[Vec<Row>],
    location: u32,
    columns: u32,
    budget: &Budget,
) -> Result<Vec<Vec<Row>>, RegionFault>
    requires bounded { columns < 2 ^ 32 - 1 }
    requires first { (r : Linear) → InSome (row_lists first.now) r → width r ≡ columns }
    requires second { (r : Linear) → InSome (row_lists second.now) r → width r ≡ columns }
    ensures union { IfOk result (λ v. IsUnion columns (row_lists first.now) (row_lists second.now) (lists v)) }
    ensures refused { let ones = row_lists first.now in
        let others = row_lists second.now in
        let made = MadeAt location (λ r. InSome ones r ⊎ InSome others r) in
        IfErr result (IsRegionFault columns made NoColumn (IsCountAt location (length ones + length others)) budget.now) }
{
    let count = sum_of_counts(first.len(), second.len());
    let limits = limits_for(budget, columns, count);
    match unions(alloc, first, second, &limits) {
        Ok(made) => Ok(made),
        Err(fault) => Err(refusal(fault, location, count)),
    }
}

/// Lists: one of them is met where none of these is.
pub(crate) fn rest_of(
    alloc: Global,
    first: &[Vec<Row>],
    location: u32,
    columns: u32,
    budget: &Budget,
) -> Result<Vec<Vec<Row>>, RegionFault>
    requires bounded { columns < 2 ^ 32 - 1 }
    requires wide { (r : Linear) → InSome (row_lists first.now) r → width r ≡ columns }
    ensures complement { IfOk result (λ v. IsComplement columns (row_lists first.now) (lists v)) }
    ensures refused { let ones = row_lists first.now in
        let made = MadeAt location (IsDenied (InSome ones)) in
        let wide = IsWideDenial (InSome ones) in
        IfErr result (IsRegionFault columns made wide (IsCountAt location (row_product ones)) budget.now) }
{
    let count = product_of_lengths(first);
    if count == 0 {
        return Ok(Vec::new(alloc));
    }
    let limits = limits_for(budget, columns, count);
    match complement_of(alloc, first, &limits) {
        Ok(made) => Ok(made),
        Err(fault) => Err(refusal(fault, location, count)),
    }
}
