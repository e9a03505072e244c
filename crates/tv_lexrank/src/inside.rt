// Which cases lead inside which component.

ghost use Rattle.std.specs.Prelude.{◌≡◌, ◌<◌, length, IfOk};
ghost use Rattle.tv_cases.specs.Systems.{cases_of};
ghost use Rattle.tv_cases.specs.Views.{case_view};
ghost use Rattle.tv_places.specs.Places.{IsIndexOf};
ghost use Rattle.tv_lexrank.specs.Inside.{inside_key, inside_keys};

use crate::sorting::case_of;
use std::alloc::{AllocError, Global};
use tv_cases::{Case, Cases};
use tv_linear::push_item;
use tv_places::{Stand, index};

/// The component inside which a case leads, or the count of the components where it leads out of one.
fn key_of(numbers: &[u32], count: u32, case: &Case) -> u32
    requires from { case.now.from < length numbers.now }
    requires to { case.now.to < length numbers.now }
    ensures { result ≡ inside_key numbers.now count (case_view case.now) }
{
    let component = numbers[case.from as usize];
    if component == numbers[case.to as usize] {
        component
    } else {
        count
    }
}

/// Where the cases inside each component stand among all, by its number.
pub fn stands_inside(
    alloc: Global,
    about: &Cases,
    numbers: &[u32],
    count: u32,
) -> Result<Vec<Stand>, AllocError>
    requires { length numbers.now ≡ (cases_of about.now).locations }
    ensures { IfOk result (λ v. IsIndexOf (inside_keys (cases_of about.now) numbers.now count) v.items) }
{
    let mut keys = Vec::new(alloc);
    'cases: for number in 0..about.list().len() as u32 {
        let case = case_of(about, number);
        push_item(&mut keys, key_of(numbers, count, case))?;
    }
    let stands = index(alloc, &keys)?;
    Ok(stands)
}
