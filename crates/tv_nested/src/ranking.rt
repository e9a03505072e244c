// The terms of all components of a program.

ghost use Rattle.std.specs.Prelude.{◌≡◌, ℕ, ◌+◌, ◌≤◌, ◌<◌, length, get_or};
ghost use Rattle.tv_cases.specs.Systems.{cases_of};
ghost use Rattle.tv_lexrank.specs.Attempt.{AreBelow, NeverRises};
ghost use Rattle.tv_nested.specs.Amounts.{AreFew, amount_in};

use crate::part::Part;
use crate::signs::signs_there;
use std::alloc::{AllocError, Global};
use tv_cases::Cases;
use tv_linear::Row;

/// The components of the location graph with their terms, and how many ranks a location has.
#[derive(Drop)]
pub struct Ranking<'a> {
    pub about: &'a Cases,
    /// The number of the component of each location.
    pub numbers: &'a [u32],
    /// The components in the order of their numbers.
    pub parts: &'a [Part],
    pub count: u32,
    pub ghost located: { length numbers.now ≡ (cases_of about.now).locations },
    pub ghost never_rises: { NeverRises (cases_of about.now) numbers.now },
    pub ghost below: { AreBelow (length parts.now) numbers.now },
    pub ghost enough: { (number : ℕ) → amount_in parts.now number + 1 ≤ count },
    pub ghost bounded: { count ≤ 8197 },
    pub ghost few_parts: { length parts.now ≤ 1024 },
}

impl Ranking<'_> {
    ghost use Rattle.std.specs.Prelude.{All, IfOk};
    ghost use Rattle.tv_linear.specs.Linear.{columns as width};
    ghost use Rattle.tv_nested.specs.Amounts.{rounds_in, tuple_at};
    ghost use Rattle.tv_nested.specs.Parts.{tuple_in};
    ghost use Rattle.tv_nested.specs.Ranks.{AreRanked, component_of as spec_component, signs_at};
    ghost use Rattle.tv_nested.specs.Signs.{sign_rows};

    /// The number of the component of a location.
    pub fn component_of(&self, location: u32) -> u32
        requires { location < (cases_of self.now.about.now).locations }
        ensures is { result ≡ spec_component self.now location }
        ensures below { result < length self.now.parts.now }
    {
        number_in(self.numbers, location)
    }

    /// The component with a number.
    pub fn part(&self, number: u32) -> &Part
        requires { number < length self.now.parts.now }
        ensures is { result.now ≡ get_or self.now.parts.now number result.now }
        ensures rounds { result.now.rounds.items ≡ rounds_in self.now.parts.now number }
        ensures tuple { tuple_in result.now ≡ tuple_at self.now.parts.now number }
    {
        part_at(self.parts, number)
    }

    /// How many signs a location has, one for each nested term of its component.
    pub fn sign_count(&self, location: u32) -> u32
        requires ranked { AreRanked self.now }
        requires location { location < (cases_of self.now.about.now).locations }
        ensures is { result ≡ length (signs_at self.now location) }
        ensures few { result ≤ 4 }
    {
        let part = self.part(self.component_of(location));
        part.family.terms.len() as u32
    }

    /// How many rows a piece of a location has.
    pub fn row_count(&self, location: u32, piece: u32) -> usize
        requires ranked { AreRanked self.now }
        requires location { location < (cases_of self.now.about.now).locations }
        requires piece { piece ≤ length (signs_at self.now location) }
        ensures is { result ≡ length (sign_rows (signs_at self.now location) piece) }
        ensures few { result ≤ 4 }
    {
        if piece == self.sign_count(location) {
            return piece as usize;
        }
        piece as usize + 1
    }

    /// The signs of the nested terms at a location.
    pub fn signs(&self, alloc: Global, location: u32) -> Result<Vec<Row>, AllocError>
        requires ranked { AreRanked self.now }
        requires location { location < (cases_of self.now.about.now).locations }
        ensures is { IfOk result (λ v. v.items ≡ signs_at self.now location) }
        ensures few { IfOk result (λ v. length v.items ≤ 4) }
        ensures even { IfOk result (λ v. All (λ r. width r ≡ (cases_of self.now.about.now).variables) v.items) }
    {
        let part = self.part(self.component_of(location));
        let signs = signs_there(alloc, self.about.variables(), &part.family.terms, location)?;
        Ok(signs)
    }
}

/// The number at a place.
fn number_in(numbers: &[u32], place: u32) -> u32
    requires { place < length numbers.now }
    ensures { result ≡ get_or numbers.now place 0 }
{
    numbers[place as usize]
}

/// The part at a place.
fn part_at(parts: &[Part], place: u32) -> &Part
    requires { place < length parts.now }
    ensures { result.now ≡ get_or parts.now place result.now }
{
    &parts[place as usize]
}

/// The greater of two numbers.
fn greater(a: u32, b: u32) -> u32
    ensures first { a ≤ result }
    ensures second { b ≤ result }
    ensures least { (n : ℕ) → a ≤ n → b ≤ n → result ≤ n }
{
    if a < b { b } else { a }
}

/// How many terms a component has.
fn amount_of(part: &Part) -> u32
    requires { length part.now.rounds.items + length part.now.family.terms.items ≤ 8196 }
    ensures { result ≡ length part.now.rounds.items + length part.now.family.terms.items }
{
    part.rounds.len() as u32 + part.family.terms.len() as u32
}

/// How many ranks a location has: the number of its component, and as many terms as some component has.
pub fn rank_count(parts: &[Part]) -> u32
    requires { AreFew parts.now }
    ensures enough { (number : ℕ) → amount_in parts.now number + 1 ≤ result }
    ensures bounded { result ≤ 8197 }
{
    let mut count = 1;
    'parts: for part in parts {
        count = greater(count, amount_of(part) + 1);
    }
    count
}
