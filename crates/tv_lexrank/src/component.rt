// A component of the location graph.

ghost use Rattle.std.specs.Prelude.{◌≡◌, ℕ, ◌<◌, length, MatchBool, None, Some};
ghost use Rattle.tv_cases.specs.Systems.{cases_of};
ghost use Rattle.tv_places.specs.Places.{IsIndexOf};
ghost use Rattle.tv_rank.specs.Ways.{rows_at};
ghost use Rattle.tv_lexrank.specs.Known.{AreKnown, AreBare, HaveRows};
ghost use Rattle.tv_lexrank.specs.Inside.{inside_keys};

use tv_cases::Cases;
use tv_linear::Region;
use tv_places::Stand;

/// A component of the location graph, by the number that its locations have.
#[derive(Drop)]
pub struct Component<'a> {
    pub about: &'a Cases,
    /// The rows that are known at the locations.
    pub known: &'a Region,
    /// A location at which there are some.
    pub rowed: Option<usize>,
    /// The number of the component of each location.
    pub numbers: &'a [u32],
    /// Where the cases inside each component stand among all, by its number.
    pub stands: &'a [Stand],
    /// How many components there are.
    pub count: u32,
    pub number: u32,
    /// How many bases of each system are met at most.
    pub pivots: u64,
    pub ghost known_rows: { AreKnown (cases_of about.now) known.now.pieces.items },
    pub ghost without: { rowed ≡ None → (l : ℕ) → length (rows_at known.now.pieces.items l) ≡ 0 },
    pub ghost with_rows: { (l : ℕ) → rowed ≡ Some l → 0 < length (rows_at known.now.pieces.items l) },
    pub ghost located: { length numbers.now ≡ (cases_of about.now).locations },
    pub ghost indexed: { IsIndexOf (inside_keys (cases_of about.now) numbers.now count) stands.now },
    pub ghost below: { number < count },
}

impl Component<'_> {
    /// Whether no rows are known.
    pub fn is_bare(&self) -> bool
        ensures { MatchBool result (AreBare self.now.known.now.pieces.items) (HaveRows self.now.known.now.pieces.items) }
    {
        match self.rowed {
            None => true,
            Some(_) => false,
        }
    }
}
