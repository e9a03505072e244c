// The constants of a program, in order.

ghost use Rattle.std.specs.Prelude.{◌≡◌, neg_ℤ, All, IfOk};
ghost use Rattle.tv_linear.specs.Linear.{IsWithin};
ghost use Rattle.tv_cases.specs.Systems.{cases_of};
ghost use Rattle.tv_cases.specs.Views.{case_view};
ghost use Rattle.tv_propose.specs.Constants.{with_numbers, both_signs, row_constants, term_constants, case_constants, constants};

use std::alloc::{AllocError, Global};
use std::collections::BTreeSet;
use tv_cases::{Case, Cases};
use tv_linear::{Row, Update};

/// The constants of the guards and updates of a program with their negatives, and 0, each once and ascending.
#[derive(Drop)]
pub struct Constants {
    pub numbers: Vec<i128>,
    pub ghost narrow: { All (IsWithin 62) numbers.items },
}

fn opposite(number: i128) -> i128
    requires { IsWithin 62 number }
    ensures is { result ≡ neg_ℤ number }
    ensures narrow { IsWithin 62 result }
{
    -number
}

/// Puts a number and its negative into the set.
fn put(numbers: &mut BTreeSet<i128>, number: i128) -> Result<(), AllocError>
    requires narrow { IsWithin 62 number }
    requires all { All (IsWithin 62) numbers.old.keys }
    ensures put { IfOk result (λ _. numbers.new.keys ≡ with_numbers numbers.old.keys (both_signs number)) }
    ensures all { IfOk result (λ _. All (IsWithin 62) numbers.new.keys) }
{
    numbers.insert(number)?;
    numbers.insert(opposite(number))?;
    Ok(())
}

/// Puts the constants of rows and their negatives into the set.
fn put_rows(numbers: &mut BTreeSet<i128>, rows: &[Row]) -> Result<(), AllocError>
    requires { All (IsWithin 62) numbers.old.keys }
    ensures put { IfOk result (λ _. numbers.new.keys ≡ with_numbers numbers.old.keys (row_constants rows.now)) }
    ensures all { IfOk result (λ _. All (IsWithin 62) numbers.new.keys) }
{
    'rows: for row in rows {
        put(numbers, row.constant())?;
    }
    Ok(())
}

/// Puts the constants of the terms of updates and their negatives into the set.
fn put_terms(numbers: &mut BTreeSet<i128>, updates: &[Update]) -> Result<(), AllocError>
    requires { All (IsWithin 62) numbers.old.keys }
    ensures put { IfOk result (λ _. numbers.new.keys ≡ with_numbers numbers.old.keys (term_constants updates.now)) }
    ensures all { IfOk result (λ _. All (IsWithin 62) numbers.new.keys) }
{
    'updates: for update in updates {
        put(numbers, update.term.constant())?;
    }
    Ok(())
}

/// Puts the constants of a case and their negatives into the set.
fn put_case(numbers: &mut BTreeSet<i128>, case: &Case) -> Result<(), AllocError>
    requires { All (IsWithin 62) numbers.old.keys }
    ensures put { IfOk result (λ _. numbers.new.keys ≡ with_numbers numbers.old.keys (case_constants (case_view case.now))) }
    ensures all { IfOk result (λ _. All (IsWithin 62) numbers.new.keys) }
{
    put_rows(numbers, &case.guards.rows)?;
    put_terms(numbers, &case.updates)?;
    Ok(())
}

/// The numbers of a set, in order.
fn listed(alloc: Global, numbers: &BTreeSet<i128>) -> Result<Vec<i128>, AllocError>
    ensures { IfOk result (λ v. v.items ≡ numbers.now.keys) }
{
    numbers.iter().copied().collect(alloc)
}

impl Constants {
    /// The constants of the cases.
    pub fn new(alloc: Global, about: &Cases) -> Result<Constants, AllocError>
        ensures { IfOk result (λ c. c.numbers.items ≡ constants (cases_of about.now)) }
    {
        let mut numbers = BTreeSet::new(alloc);
        numbers.insert(0)?;
        'cases: for case in about.list() {
            put_case(&mut numbers, case)?;
        }
        Ok(Constants {
            numbers: listed(alloc, &numbers)?,
        })
    }
}
