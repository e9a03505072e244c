ghost use Rattle.std.specs.Prelude.{◌≡◌, ◌^◌, ◌<◌, ◌≤◌, neg_ℤ, unsigned_abs, All, IfOk, map, length};
ghost use Rattle.tv_linear.specs.Linear.{IsWithin};
ghost use Rattle.tv_linear.specs.Arithmetic.{zeros, unit};

use crate::narrow::{opposite, short};
use std::alloc::{AllocError, Global};

/// So many zeros.
pub fn all_zero(alloc: Global, columns: u32) -> Result<Vec<i64>, AllocError>
    ensures exact { IfOk result (λ v. v.items ≡ zeros columns) }
    ensures counted { IfOk result (λ v. length v.items ≡ columns) }
    ensures small { IfOk result (λ v. All (λ z. unsigned_abs z ≤ 0) v.items) }
{
    let numbers = vec![in alloc; 0; columns as usize]?;
    Ok(numbers)
}

/// 1 in the one column and 0 in the others.
pub fn one_at(alloc: Global, columns: u32, column: u32) -> Result<Vec<i64>, AllocError>
    requires { column < columns }
    ensures exact { IfOk result (λ v. v.items ≡ unit columns column) }
    ensures counted { IfOk result (λ v. length v.items ≡ columns) }
    ensures narrow { IfOk result (λ v. All (IsWithin 62) v.items) }
{
    let mut numbers = vec![in alloc; 0; columns as usize]?;
    numbers[column as usize] = 1;
    Ok(numbers)
}

/// The narrow numbers in half the bits.
pub fn shortened(alloc: Global, numbers: &[i128]) -> Result<Vec<i64>, AllocError>
    requires { All (IsWithin 62) numbers.now }
    ensures { IfOk result (λ v. v.items ≡ numbers.now) }
{
    let mut half = Vec::with_capacity(alloc, numbers.len())?;
    for number in numbers {
        half.push(short(*number))?;
    }
    Ok(half)
}

/// The numbers in twice the bits.
pub fn widened(alloc: Global, numbers: &[i64]) -> Result<Vec<i128>, AllocError>
    ensures { IfOk result (λ v. v.items ≡ numbers.now) }
{
    let mut wide = Vec::with_capacity(alloc, numbers.len())?;
    for number in numbers {
        wide.push(i128::from(*number))?;
    }
    Ok(wide)
}

/// Each number with its sign turned.
pub fn all_opposite(alloc: Global, numbers: &[i64]) -> Result<Vec<i64>, AllocError>
    requires { All (IsWithin 62) numbers.now }
    ensures exact { IfOk result (λ v. v.items ≡ map neg_ℤ numbers.now) }
    ensures counted { IfOk result (λ v. length v.items ≡ length numbers.now) }
    ensures narrow { IfOk result (λ v. All (IsWithin 62) v.items) }
{
    let mut turned = Vec::with_capacity(alloc, numbers.len())?;
    for number in numbers {
        turned.push(short(opposite(i128::from(*number))))?;
    }
    Ok(turned)
}
