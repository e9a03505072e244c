// Multipliers of rows, where some rows are repeated.

ghost use Rattle.std.specs.Prelude.{◌≡◌, ◌++◌, IfOk};
ghost use Rattle.tv_farkas.specs.Stretching.{stretched};

use std::alloc::{AllocError, Global};
use tv_linear::push_item;

/// Puts more numbers at the end of a list.
fn append(numbers: &mut Vec<i64>, more: &[i64]) -> Result<(), AllocError>
    ensures { IfOk result (λ _. numbers.new.items ≡ numbers.old.items ++ more.now) }
{
    'more: for number in more {
        push_item(numbers, *number)?;
    }
    Ok(())
}

/// The multipliers with 0 at each repeated row.
pub fn stretch(
    alloc: Global,
    repeated: &[bool],
    multipliers: &[i64],
) -> Result<Vec<i64>, AllocError>
    ensures { IfOk result (λ v. v.items ≡ stretched repeated.now multipliers.now) }
{
    let mut stretched = Vec::new(alloc);
    let mut left = multipliers;
    'rows: for again in repeated {
        if *again {
            push_item(&mut stretched, 0)?;
        } else if let [first, rest @ ..] = left {
            push_item(&mut stretched, *first)?;
            left = rest;
        }
    }
    append(&mut stretched, left)?;
    Ok(stretched)
}
