// The pieces of a location by the signs of nested terms.

ghost use Rattle.std.specs.Prelude.{◌≡◌, ◌+◌, ◌-◌, ◌^◌, ◌<◌, ◌≤◌, length, map, take, IfOk};
ghost use Rattle.std.specs.Result.{IfErr};
ghost use Rattle.tv_nested.specs.Reading.{tuple_of};
ghost use Rattle.tv_nested.specs.Signs.{terms_there, signs_there, sign_rows};
ghost use Rattle.tv_linear.specs.Arithmetic.{denial};
ghost use Rattle.tv_nested.specs.SignFaults.{RefusesDenial, RefusesSigns};

use crate::NestFault;
use std::alloc::{AllocError, Global};
use tv_farkas::CoverFault;
use tv_lexrank::term_at;
use tv_linear::{Row, RowFault, push_item};
use tv_rank::LocalTerm;

/// The terms at a location, from the first to the last.
pub fn terms_there(
    alloc: Global,
    variables: u32,
    terms: &[Vec<LocalTerm>],
    location: u32,
) -> Result<Vec<Row>, AllocError>
    requires { variables < 2 ^ 32 - 1 }
    ensures { IfOk result (λ v. v.items ≡ terms_there variables (tuple_of terms.now) location) }
{
    let mut all = Vec::new(alloc);
    'terms: for term in terms {
        push_item(&mut all, term_at(alloc, variables, term, location)?)?;
    }
    Ok(all)
}

/// For each term a row that is met where the term is at least 0.
pub fn signs_there(
    alloc: Global,
    variables: u32,
    terms: &[Vec<LocalTerm>],
    location: u32,
) -> Result<Vec<Row>, AllocError>
    requires { variables < 2 ^ 32 - 1 }
    ensures { IfOk result (λ v. v.items ≡ signs_there variables (tuple_of terms.now) location) }
{
    let mut all = Vec::new(alloc);
    'terms: for term in terms {
        let row = term_at(alloc, variables, term, location)?;
        push_item(&mut all, row.opposite(alloc)?)?;
    }
    Ok(all)
}

/// The denial of a sign.
fn denied_sign(alloc: Global, sign: &Row) -> Result<Row, NestFault>
    ensures denied { IfOk result (λ row. row ≡ denial sign.now) }
    ensures refusals { IfErr result (RefusesDenial sign.now) }
{
    match sign.deny(alloc) {
        Ok(row) => Ok(row),
        Err(RowFault::Wide { column }) => Err(NestFault::Cover {
            fault: CoverFault::Wide { column },
        }),
        Err(RowFault::Memory) => Err(NestFault::Memory),
    }
}

/// The denials of the first signs.
fn denied_signs(alloc: Global, signs: &[Row], count: usize) -> Result<Vec<Row>, NestFault>
    requires { count ≤ length signs.now }
    ensures rows { IfOk result (λ v. v.items ≡ map denial (take count signs.now)) }
    ensures refusals { IfErr result (RefusesSigns signs.now) }
{
    let mut rows = Vec::new(alloc);
    'signs: for place in 0..count {
        push_item(&mut rows, denied_sign(alloc, &signs[place])?)?;
    }
    Ok(rows)
}

/// The rows of a piece: the first signs are denied, and the next is met, where there is one.
pub fn sign_rows(alloc: Global, signs: &[Row], piece: usize) -> Result<Vec<Row>, NestFault>
    requires { piece ≤ length signs.now }
    ensures rows { IfOk result (λ v. v.items ≡ sign_rows signs.now piece) }
    ensures refusals { IfErr result (RefusesSigns signs.now) }
{
    let mut rows = denied_signs(alloc, signs, piece)?;
    if piece == signs.len() {
        return Ok(rows);
    }
    push_item(&mut rows, signs[piece].copy(alloc)?)?;
    Ok(rows)
}
