ghost use Rattle.std.specs.Prelude.{◌≡◌, ◌<◌, ◌^◌, ℕ, List, MatchOption, None, Some, length, map};
ghost use Rattle.tv_linear.specs.Linear.{Linear};
ghost use Rattle.tv_linear.specs.Known.{Known, as_given};
ghost use Rattle.tv_linear.specs.Falls.{fall_rows};
ghost use Rattle.tv_linear.specs.Views.{rows_seen};
ghost use Rattle.tv_cases.specs.Views.{case_view};
ghost use Rattle.tv_cert.specs.Choices.{drawn_change};
ghost use Rattle.tv_cert.specs.Entering.{entered_listed, fall_listed};
ghost use Rattle.tv_cert.specs.OwesViews.{destination_owes, falls_where};
ghost use Rattle.tv_cert.specs.Pieces.{ranks_of};
ghost use Rattle.tv_cert.specs.Shapes.{owed_count};
ghost use Rattle.tv_cert.specs.Targets.{owed_into, target_rows};
ghost use Rattle.tv_cert.specs.TargetViews.{counts_of, falls_past, owed_at, AreFew, AreFewAt};

use crate::fall::Fall;
use crate::node::{Mark, Marked, Node};
use crate::owed::Entered;
use crate::owes::Destination;
use crate::pieces::{Pieces, joined_piece_at};
use tv_cases::Case;
use tv_linear::{Row, Rows};

/// What a cover or a choice leads into.
#[derive(Drop)]
pub enum Targets<'a> {
    /// There is no target.
    Nowhere,
    /// Lists of rows.
    Lists(&'a [Vec<Row>]),
    /// One target without rows where it is true, and none where it is false.
    Truth(bool),
    /// The pieces of all nodes at the location, in order.
    Joined {
        nodes: &'a [Node],
        location: u32,
    },
    /// The pieces at the location, with a fall from the ranks of another piece where one is owed.
    Pieces {
        from: Option<&'a Marked>,
        into: &'a Pieces,
        location: u32,
    },
}

/// The pieces at a location, with a fall from the ranks of a piece where one is owed.
pub fn pieces_into<'a>(
    piece: &'a Marked,
    into: &'a Pieces,
    location: u32,
    falls: bool,
) -> Targets<'a>
    ensures owed { (change : Linear → Known) →
        owed_at change result ≡ owed_into into.now location change (falls_where falls change piece.now) }
    ensures bounded { length into.now < 2 ^ 32 → length (ranks_of piece.now) < 2 ^ 32 → AreFew result }
{
    if falls {
        let from = Some(piece);
        Targets::Pieces {
            from,
            into,
            location,
        }
    } else {
        let from = None;
        Targets::Pieces {
            from,
            into,
            location,
        }
    }
}

/// Where a choice leads by a case.
pub fn targets_after<'a>(
    piece: &'a Marked,
    case: &Case,
    destination: &Destination<'a>,
) -> Targets<'a>
    ensures owed { let taken = case_view case.now in
        (n : ℕ) → (draws : List Linear) →
        owed_at (drawn_change n taken draws) result ≡ destination_owes n piece.now destination.now taken draws }
    ensures bounded { AreFewAt piece.now destination.now → AreFew result }
{
    match destination {
        Destination::Anywhere => Targets::Truth(true),
        Destination::Into { pieces, falls } => pieces_into(piece, pieces, case.to, *falls),
    }
}

/// The fall at this place, from 1, from ranks to others, if there is one.
fn fall_between<'a>(old: Rows<'a>, new: Rows<'a>, fall: u32) -> Option<Fall<'a>>
    ensures { (change : Linear → Known) →
        let falls = fall_rows (as_given (rows_seen old.entry)) (map change (rows_seen new.entry)) fall in
        MatchOption result (falls ≡ None) (λ f. falls ≡ Some (fall_listed change (Some f))) }
{
    let after = fall as usize;
    let before = old.len();
    let behind = new.len();
    if after == 0 || after > before || after > behind {
        return None;
    }
    Some(Fall {
        old,
        new,
        place: after - 1,
    })
}

/// What rows owe that are entered without a fall.
fn rows_entered(rows: Rows, fall: u32) -> Option<Entered<'_>>
    ensures { MatchOption result
        (fall ≡ 0 → ⊥)
        (λ x. (fall ≡ 0) × ((change : Linear → Known) → entered_listed change x ≡ map change (rows_seen rows.entry))) }
{
    if fall == 0 {
        Some(Entered { rows, fall: None })
    } else {
        None
    }
}

/// What a piece owes that is entered by the fall, from the ranks of a piece where one is owed.
fn piece_entered<'a>(from: Option<&'a Marked>, piece: &'a Marked, fall: u32) -> Option<Entered<'a>>
    ensures { (change : Linear → Known) →
        let owed = target_rows change (falls_past change from.entry) (Some piece.now) fall in
        MatchOption result (owed ≡ None) (λ x. owed ≡ Some (entered_listed change x)) }
{
    let rows = piece.rows();
    match from {
        None => rows_entered(rows, fall),
        Some(left) => match piece.mark() {
            Mark::Done => rows_entered(rows, fall),
            Mark::Go => match fall_between(left.ranks(), piece.ranks(), fall) {
                None => None,
                Some(fall) => Some(Entered {
                    rows,
                    fall: Some(fall),
                }),
            },
        },
    }
}

impl<'a> Targets<'a> {
    /// What is owed on entering the target by the fall, where there are such.
    pub fn entered(&self, target: u32, fall: u32) -> Option<Entered<'a>>
        ensures { (change : Linear → Known) →
            let owed = owed_at change self.now target fall in
            MatchOption result (owed ≡ None) (λ x. owed ≡ Some (entered_listed change x)) }
    {
        match self {
            Targets::Nowhere => None,
            Targets::Lists(lists) => match lists.get(target as usize) {
                None => None,
                Some(rows) => rows_entered(Rows::Each(rows), fall),
            },
            Targets::Truth(truth) => {
                if *truth && target == 0 {
                    rows_entered(Rows::Each(&[]), fall)
                } else {
                    None
                }
            }
            Targets::Joined { nodes, location } => {
                match joined_piece_at(nodes, *location, target) {
                    None => None,
                    Some(piece) => piece_entered(None, piece, fall),
                }
            }
            Targets::Pieces {
                from,
                into,
                location,
            } => match into.at(*location, target) {
                None => None,
                Some(piece) => piece_entered(*from, piece, fall),
            },
        }
    }

    /// How many rows are owed on entering the target by the fall, where there are such.
    pub fn count(&self, target: u32, fall: u32) -> Option<usize>
        ensures { result ≡ counts_of self.now target fall }
    {
        match self.entered(target, fall) {
            None => None,
            Some(entered) => Some(entered.count()),
        }
    }
}
