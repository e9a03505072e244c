// The index of a list of numbers: a row of places for each number.

ghost use Rattle.std.specs.Prelude.{◌≡◌, ℕ, ◌^◌, ◌<◌, List, length, slice_get, IfOk};
ghost use Rattle.std.specs.List.Sorted.{IsNonDecreasingBy};
ghost use Rattle.tv_places.specs.Places.{number_of, places_of, IsIndexOf, IsFrom};

use std::alloc::{AllocError, Global};

/// A number, and a place in a list where it stands.
#[derive(Clone, Copy, Debug, PartialEq, Eq)]
pub struct Stand {
    pub number: u32,
    pub place: u32,
}

/// The places of a list of numbers, by number and then by place.
pub fn index(alloc: Global, numbers: &[u32]) -> Result<Vec<Stand>, AllocError>
    requires { length numbers.now < 2 ^ 32 }
    ensures { IfOk result (λ stands. IsIndexOf numbers.now stands.items) }
{
    let mut stands = Vec::with_capacity(alloc, numbers.len())?;
    for (place, number) in numbers.iter().enumerate() {
        stands.push(Stand {
            number: *number,
            place: place as u32,
        })?;
    }
    stands.sort_by_key(|stand| stand.number)?;
    Ok(stands)
}

/// The stands from the first on whose number is not less than this one.
fn from_number(index: &[Stand], number: u32) -> &[Stand]
    ensures { IsNonDecreasingBy number_of index.now → IsFrom number index.now result.now }
{
    let first = index.partition_point(|stand| stand.number < number);
    &index[first..]
}

/// The k-th place, from 0, at which the number stands.
///
/// It takes time logarithmic in the length of the list.
pub fn place_at(index: &[Stand], number: u32, k: usize) -> Option<u32>
    ensures { (numbers : List ℕ) → IsIndexOf numbers index.now →
        result ≡ slice_get (places_of number numbers) k }
{
    let stand = from_number(index, number).get(k)?;
    if stand.number == number {
        Some(stand.place)
    } else {
        None
    }
}

/// How often the number stands in the list.
///
/// It takes time logarithmic in the length of the list.
pub fn count_of(index: &[Stand], number: u32) -> usize
    ensures { (numbers : List ℕ) → IsIndexOf numbers index.now →
        result ≡ length (places_of number numbers) }
{
    from_number(index, number).partition_point(|stand| stand.number == number)
}
