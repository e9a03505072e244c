use crate::node::Marked;
use crate::pieces::Pieces;
use crate::targets::Targets;
use tv_cases::Case;

/// Where a choice leads: anywhere, or into pieces, with a fall of the ranks where it is owed.
#[derive(Drop)]
pub enum Destination<'a> {
    Anywhere,
    Into { pieces: &'a Pieces, falls: bool },
}

/// What a piece of a node owes, as it lies in the certificate and the cases.
#[derive(Drop)]
pub enum Owes<'a> {
    /// A cover of the piece, and of the guards of a case where it is one of a step, into the targets.
    Cover {
        piece: &'a Marked,
        case: Option<&'a Case>,
        targets: Targets<'a>,
    },
    /// A choice, which may show that there is no step where `stop` is true.
    Choice {
        piece: &'a Marked,
        stop: bool,
        destination: Destination<'a>,
    },
}
