// The rounds of all components of a split program.

ghost use Rattle.std.specs.Prelude.{◌≡◌, ℕ, ◌+◌, ◌≤◌, ◌<◌, length, get_or};
ghost use Rattle.tv_lexrank.specs.Attempt.{AreBelow, NeverRises};
ghost use Rattle.tv_lexrank.specs.Known.{AreKnown};
ghost use Rattle.tv_finitely.specs.Parts.{AreFew, rounds_in};
ghost use Rattle.tv_finitely.specs.Splits.{split_of};

use crate::part::Part;
use crate::split_program::Split;
use tv_farkas::Budget;
use tv_lexrank::Round;
use tv_linear::Region;

/// The components of the location graph, with the rounds that take cases out, and how many ranks a location has.
#[derive(Drop)]
pub struct Ranking<'a> {
    pub about: &'a Split,
    /// The rows that are known at the locations.
    pub known: &'a Region,
    /// The number of the component of each location.
    pub numbers: &'a [u32],
    /// The components in the order of their numbers.
    pub parts: &'a [Part],
    pub count: u32,
    /// How much work each cover may do.
    pub budget: &'a Budget,
    pub ghost located: { length numbers.now ≡ (split_of about.now).system.locations },
    pub ghost known_rows: { AreKnown (split_of about.now).system known.now.pieces.items },
    pub ghost splits: { budget.now.splits ≤ 128 },
    pub ghost below: { AreBelow (length parts.now) numbers.now },
    pub ghost never_rises: { NeverRises (split_of about.now).system numbers.now },
    pub ghost enough: { (number : ℕ) → length (rounds_in parts.now number) + 1 ≤ count },
    pub ghost bounded: { count ≤ 8193 },
    pub ghost few_parts: { length parts.now ≤ 1024 },
}

impl Ranking<'_> {
    ghost use Rattle.tv_finitely.specs.Parts.{IsPart};
    ghost use Rattle.tv_finitely.specs.Ranked.{AreRanked};

    /// The number of the component of a location.
    pub fn component_of(&self, location: u32) -> u32
        requires { location < length self.now.numbers.now }
        ensures is { result ≡ get_or self.now.numbers.now location 0 }
        ensures below { result < length self.now.parts.now }
    {
        self.numbers[location as usize]
    }

    /// The component with a number.
    pub fn part(&self, number: u32) -> &Part
        requires number { number < length self.now.parts.now }
        requires ranked { AreRanked self.now }
        ensures part { IsPart (split_of self.now.about.now) self.now.known.now.pieces.items self.now.numbers.now number result.now }
        ensures rounds { result.now.rounds.items ≡ rounds_in self.now.parts.now number }
    {
        part_at(self.parts, number)
    }

    /// The rounds of the component with a number.
    pub fn rounds(&self, number: u32) -> &[Round]
        requires { number < length self.now.parts.now }
        ensures is { result.now ≡ rounds_in self.now.parts.now number }
        ensures bounded { length result.now + 1 ≤ self.now.count }
    {
        &part_at(self.parts, number).rounds
    }
}

/// The part at a place.
fn part_at(parts: &[Part], place: u32) -> &Part
    requires { place < length parts.now }
    ensures { result.now ≡ get_or parts.now place result.now }
{
    &parts[place as usize]
}

/// The greater of two numbers.
fn greater(a: u32, b: u32) -> u32
    ensures first { a ≤ result }
    ensures second { b ≤ result }
    ensures least { (n : ℕ) → a ≤ n → b ≤ n → result ≤ n }
{
    if a < b { b } else { a }
}

/// How many ranks a location has: the number of its component, and the terms of as many rounds as some component has.
pub fn rank_count(parts: &[Part]) -> u32
    requires { AreFew parts.now }
    ensures enough { (number : ℕ) → length (rounds_in parts.now number) + 1 ≤ result }
    ensures bounded { result ≤ 8193 }
{
    let mut count = 1;
    'parts: for part in parts {
        count = greater(count, part.rounds.len() as u32 + 1);
    }
    count
}
