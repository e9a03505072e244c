// What a ranking system is asked of.

ghost use Rattle.std.specs.Prelude.{◌≡◌, ◌≤◌, ◌<◌, ◌++◌, length, All};
ghost use Rattle.tv_cases.specs.Views.{case_views};
ghost use Rattle.tv_rank.specs.Given.{AreNumbered, AreStarted, IsBetween};
ghost use Rattle.tv_rank.specs.Ways.{rows_at as spec_rows};

use tv_cases::Case;
use tv_linear::{Piece, Row};

/// Whether terms rank the cases of a set. One of the cases is to fall, and rows are known at the locations.
#[derive(Drop)]
pub struct Question<'a> {
    pub cases: &'a [Case],
    /// A piece for each location, in order.
    pub known: &'a [Piece],
    /// The numbers of the cases.
    pub set: &'a [u32],
    /// Where the case that is to fall stands in the set.
    pub falling: usize,
    pub variables: u32,
    pub locations: u32,
    pub ghost bounded: { variables ≤ 512 },
    pub ghost numbered: { AreNumbered (length cases.now) set.now },
    pub ghost started: { AreStarted (case_views cases.now) known.now },
    pub ghost within: { All (IsBetween locations) (case_views cases.now) },
    pub ghost falls: { falling < length set.now },
}

impl Question<'_> {
    ghost use Rattle.std.specs.Prelude.{◌+◌};
    ghost use Rattle.tv_cases.specs.Views.{case_view};
    ghost use Rattle.tv_rank.specs.Questions.{ways_of};
    ghost use Rattle.tv_rank.specs.Ways.{met_rows};

    /// The case at a place of the set.
    pub fn case_at(&self, place: usize) -> &Case
        requires { place < length self.now.set.now }
        ensures { case_view result.now ≡ (ways_of self.now place).taken }
    {
        &self.cases[self.set[place] as usize]
    }

    /// The rows that are known where the case at a place of the set starts.
    pub fn known_at(&self, place: usize) -> &[Row]
        requires { place < length self.now.set.now }
        ensures { result.now ≡ (ways_of self.now place).known }
    {
        rows_at(self.known, self.case_at(place).from)
    }

    /// How many rows are met at the case at a place of the set.
    pub fn met_count(&self, place: usize) -> usize
        requires { place < length self.now.set.now }
        ensures { result ≡ length (met_rows (ways_of self.now place)) }
    {
        count(self.known_at(place), &self.case_at(place).guards.rows)
    }

    /// The variables and draws of the case at a place of the set.
    pub fn width_at(&self, place: usize) -> usize
        requires { place < length self.now.set.now }
        ensures { result ≡ self.now.variables + (ways_of self.now place).taken.draws }
    {
        self.variables as usize + self.case_at(place).draws as usize
    }
}

/// The rows that are known at a location.
fn rows_at(known: &[Piece], location: u32) -> &[Row]
    requires { location < length known.now }
    ensures { result.now ≡ spec_rows known.now location }
{
    &known[location as usize].poly.rows
}

/// How many rows are met.
fn count(known: &[Row], guards: &[Row]) -> usize
    ensures { result ≡ length (known.now ++ guards.now) }
{
    known.len() + guards.len()
}
