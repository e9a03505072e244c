// Covers into the pieces of visits.

ghost use Rattle.std.specs.Prelude.{◌≡◌, ◌↔◌, ◌<◌, ◌+◌, ◌++◌, [], false, IsTrue, MatchOption, None, Some, length};
ghost use Rattle.tv_linear.specs.Linear.{Linear};
ghost use Rattle.tv_linear.specs.Known.{Known, as_given, given};
ghost use Rattle.tv_linear.specs.Covers.{IsMetCover};
ghost use Rattle.tv_refute.specs.Built.{change_of};
ghost use Rattle.tv_cases.specs.LinearCases.{from_of};
ghost use Rattle.tv_cases.specs.Views.{case_view};
ghost use Rattle.tv_cert.specs.Obligations.{case_change};
ghost use Rattle.tv_cert.specs.Pieces.{place_of, ranks_of, rows_of};
ghost use Rattle.tv_cert.specs.Shapes.{owed_count};
ghost use Rattle.tv_cert.specs.Targets.{owed_into, no_fall, target_rows};
ghost use Rattle.tv_finitely.specs.Entrances.{entrance_owes, listed};
ghost use Rattle.tv_finitely.specs.Kept.{visit_fall};
ghost use Rattle.tv_finitely.specs.Splits.{split_of};
ghost use Rattle.tv_finitely.specs.Walks.{marked_at};

use crate::kept::Kept;
use crate::owed::{Owed, rows_are_shown};
use crate::split_program::Split;
use tv_cases::Case;
use tv_cert::{Marked, Pieces, Targets};
use tv_linear::{CoverTree, Rows};
use tv_refute::{Change, Frames, Terms, cover_is_met};

/// The pieces at a location, into which a cover leads.
#[derive(Drop)]
pub struct Entrance<'a> {
    /// The piece that is left, where the ranks are to fall or not to grow.
    pub left: Option<&'a Marked>,
    /// Whether the ranks have to fall.
    pub enters: bool,
    pub into: &'a Pieces,
    pub location: u32,
}

/// What a piece owes that is entered from another one where no rank is to grow.
fn kept_between<'a>(left: &'a Marked, piece: &'a Marked) -> Option<Owed<'a>>
    ensures { (change : Linear → Known) →
        let owed = target_rows change (visit_fall false change (ranks_of left.now)) (Some piece.now) 0 in
        MatchOption result (owed ≡ None) (λ x. owed ≡ Some (listed change x)) }
{
    let old = left.ranks();
    let new = piece.ranks();
    if old.len() != new.len() {
        return None;
    }
    let rows = piece.rows();
    Some(Owed::Keeping(Kept { rows, old, new }))
}

impl<'a> Entrance<'a> {
    /// What is owed on entering the target without a fall from a piece.
    fn kept_into(&self, left: &'a Marked, target: u32) -> Option<Owed<'a>>
        requires { self.now.left ≡ Some left }
        ensures { (change : Linear → Known) →
            let owed = entrance_owes change self.now target 0 in
            MatchOption result (owed ≡ None) (λ x. owed ≡ Some (listed change x)) }
    {
        if self.enters {
            return None;
        }
        match self.into.at(self.location, target) {
            None => None,
            Some(piece) => kept_between(left, piece),
        }
    }

    /// What is owed on entering the target by the fall, where no piece is left or the fall is 1 or more.
    fn fallen_into(&self, target: u32, fall: u32) -> Option<Owed<'a>>
        requires { fall ≡ 0 → self.now.left ≡ None }
        ensures { (change : Linear → Known) →
            let owed = entrance_owes change self.now target fall in
            MatchOption result (owed ≡ None) (λ x. owed ≡ Some (listed change x)) }
    {
        let falling = Targets::Pieces {
            from: self.left,
            into: self.into,
            location: self.location,
        };
        match falling.entered(target, fall) {
            None => None,
            Some(entered) => Some(Owed::Falling(entered)),
        }
    }

    /// What is owed on entering the target by the fall, where there are such.
    pub fn owed(&self, target: u32, fall: u32) -> Option<Owed<'a>>
        ensures { (change : Linear → Known) →
            let owed = entrance_owes change self.now target fall in
            MatchOption result (owed ≡ None) (λ x. owed ≡ Some (listed change x)) }
    {
        match self.left {
            None => self.fallen_into(target, fall),
            Some(left) => {
                if fall == 0 {
                    self.kept_into(left, target)
                } else {
                    self.fallen_into(target, fall)
                }
            }
        }
    }

    /// How many rows are owed on entering the target by the fall, where there are such.
    pub fn count(&self, target: u32, fall: u32) -> Option<usize>
        ensures { result ≡ owed_count (entrance_owes given self.now) target fall }
    {
        match self.owed(target, fall) {
            None => None,
            Some(owed) => Some(owed.count()),
        }
    }
}

/// The pieces that a cover leads into, and how their rows are changed.
#[derive(Drop)]
struct Changed<'a, 'b> {
    entrance: &'a Entrance<'a>,
    change: &'b Change<'b>,
}

impl tv_refute::Targets for Changed<'_, '_> {
    ghost use Rattle.tv_refute.specs.Built.{change_of};
    ghost use Rattle.tv_finitely.specs.Entrances.{entrance_owes};

    ghost owed = { λ t. entrance_owes (change_of t.change.now) t.entrance.now };

    fn are_shown(
        &self,
        columns: usize,
        frames: &Frames,
        target: u32,
        fall: u32,
        lists: &[Vec<i64>],
    ) -> bool {
        match self.entrance.owed(target, fall) {
            None => false,
            Some(owed) => rows_are_shown(columns, frames, &owed.changed(self.change), lists),
        }
    }
}

/// Whether all values are covered by the pieces.
pub fn all_are_covered(columns: u32, entrance: &Entrance, tree: &CoverTree) -> bool
    ensures { IsTrue result ↔ IsMetCover columns (entrance_owes given entrance.now) [] tree.now }
{
    let end = Frames::End;
    let change = &Change::Kept;
    let changed = Changed { entrance, change };
    cover_is_met(columns as usize, &end, &changed, tree)
}

/// Whether the rows of a piece and the guards of a case are covered by the pieces, which are entered over the case.
pub fn step_is_covered(
    columns: u32,
    piece: &Marked,
    case: &Case,
    entrance: &Entrance,
    tree: &CoverTree,
) -> bool
    ensures { let taken = case_view case.now in
        let known = as_given (rows_of piece.now) ++ as_given taken.guards in
        IsTrue result ↔ IsMetCover (columns + case.now.draws) (entrance_owes (case_change columns taken) entrance.now) known tree.now }
{
    let terms = Terms::After {
        columns,
        updates: &case.updates,
    };
    let change = Change::Once(&terms);
    let end = Frames::End;
    let known = Frames::Rows {
        rows: piece.rows(),
        above: &end,
    };
    let place = Frames::Rows {
        rows: Rows::Each(&case.guards.rows),
        above: &known,
    };
    let changed = Changed {
        entrance,
        change: &change,
    };
    let wide = columns as usize + case.draws as usize;
    cover_is_met(wide, &place, &changed, tree)
}

/// The pieces where a case leads, entered from a piece.
pub fn entrance_over<'a>(
    about: &Split,
    pieces: &'a Pieces,
    piece: &'a Marked,
    number: u32,
) -> Entrance<'a>
    requires { number < length (split_of about.now).system.cases }
    ensures { let s = split_of about.now in
        let m = marked_at s number in
        (change : Linear → Known) → entrance_owes change result
        ≡ owed_into pieces.now m.0.to change (visit_fall m.1 change (ranks_of piece.now)) }
{
    Entrance {
        left: Some(piece),
        enters: about.enters(number),
        into: pieces,
        location: about.case(number).to,
    }
}

/// The pieces at the start, where no piece is left.
pub fn entrance_at_start<'a>(about: &Split, pieces: &'a Pieces) -> Entrance<'a>
    ensures { (change : Linear → Known) →
        entrance_owes change result ≡ owed_into pieces.now (split_of about.now).system.start change no_fall }
{
    Entrance {
        left: None,
        enters: false,
        into: pieces,
        location: about.cases().start(),
    }
}

/// Whether the case starts at the location of the piece.
pub fn starts_at(about: &Split, piece: &Marked, number: u32) -> bool
    requires { number < length (split_of about.now).system.cases }
    ensures { IsTrue result ↔ (from_of (marked_at (split_of about.now) number).0 ≡ place_of piece.now) }
{
    about.case(number).from == piece.location()
}
