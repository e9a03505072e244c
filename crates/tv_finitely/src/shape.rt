// Whether pieces and proofs have the shape of visits.

ghost use Rattle.std.specs.Prelude.{◌≡◌, ◌↔◌, ◌+◌, ◌<◌, ◌≤◌, ◌^◌, IsTrue, All, false, length, map};
ghost use Rattle.tv_linear.specs.Known.{given};
ghost use Rattle.tv_linear.specs.Depth.{splits};
ghost use Rattle.tv_cert.specs.Shapes.{CoverShape, PieceShape, ProofShape, owed_count};
ghost use Rattle.tv_cert.specs.Targets.{owed_into, no_fall};
ghost use Rattle.tv_finitely.specs.Entrances.{entrance_owes};
ghost use Rattle.tv_finitely.specs.Obligations.{step_owed, case_owes, piece_owes, steps_owed, offered_by};
ghost use Rattle.tv_finitely.specs.Shapes.{VisitShape};
ghost use Rattle.tv_finitely.specs.Splits.{split_of};
ghost use Rattle.tv_finitely.specs.Walks.{marked_at, Offered, IsShaped};

use crate::entering::{Entrance, entrance_at_start, entrance_over, starts_at};
use crate::split_program::Split;
use tv_cert::{Mark, Marked, Node, Pieces, Proof};
use tv_linear::CoverTree;

/// Whether each list has `count` numbers.
fn all_have_length(lists: &[Vec<i64>], count: u128) -> bool
    ensures { IsTrue result ↔ All (λ l. length l.items ≡ count) lists.now }
{
    lists.iter().all(|list| list.len() as u128 == count)
}

/// Whether each list has `count` numbers, as a contract reads the lists of a proof.
fn have_length(lists: &[Vec<i64>], count: u128) -> bool
    ensures { IsTrue result ↔ All (λ ms. length ms ≡ count) (map (λ l. l.items) lists.now) }
{
    all_have_length(lists, count)
}

/// Whether the cover has the shape that is owed at a place with `known` known rows of `columns` columns.
fn cover_has_shape(tree: &CoverTree, columns: usize, known: u128, entrance: &Entrance) -> bool
    requires { known + splits tree.now < 2 ^ 66 }
    ensures { IsTrue result ↔ CoverShape columns (owed_count (entrance_owes given entrance.now)) known tree.now }
{
    match tree {
        CoverTree::Split(row, holds, fails) => {
            row.columns() as usize == columns
                && cover_has_shape(holds, columns, known + 1, entrance)
                && cover_has_shape(fails, columns, known + 1, entrance)
        }
        CoverTree::Empty(multipliers) => multipliers.len() as u128 == known,
        CoverTree::Into {
            target,
            fall,
            refutations,
        } => {
            entrance.count(*target, *fall) == Some(refutations.len())
                && have_length(refutations, known + 1)
        }
    }
}

/// Whether the proof has the shape of what the piece owes over the case.
fn proof_has_shape(
    about: &Split,
    pieces: &Pieces,
    piece: &Marked,
    number: u32,
    proof: &Proof,
) -> bool
    requires { number < length (split_of about.now).system.cases }
    ensures { let s = split_of about.now in
        IsTrue result ↔ ProofShape (step_owed s.system pieces.now piece.now (marked_at s number)).owed proof.now }
{
    let case = about.case(number);
    let entrance = entrance_over(about, pieces, piece, number);
    let known = piece.rows().len() as u128;
    let guarded = known + case.guards.rows.len() as u128;
    let columns = about.cases().variables() as usize;
    match proof {
        Proof::Covered(cover) => cover_has_shape(
            cover.tree(),
            columns + case.draws as usize,
            guarded,
            &entrance,
        ),
        Proof::Chosen(_) => false,
    }
}

/// The proof after that of the step over a case, where the case is from the piece and its proof has the shape that is owed.
fn after_case(
    about: &Split,
    pieces: &Pieces,
    piece: &Marked,
    number: u32,
    proofs: &[Proof],
    from: usize,
) -> Option<usize>
    requires number { number < length (split_of about.now).system.cases }
    requires from { from ≤ length proofs.now }
    ensures { let s = split_of about.now in
        IsShaped (case_owes s.system pieces.now piece.now (marked_at s number)) proofs.now from result }
{
    if !starts_at(about, piece, number) {
        return Some(from);
    }
    if from >= proofs.len() {
        return None;
    }
    if proof_has_shape(about, pieces, piece, number, &proofs[from]) {
        Some(from + 1)
    } else {
        None
    }
}

/// The proof after those of the steps from a piece, where they have the shapes that are owed.
fn after_piece(
    about: &Split,
    pieces: &Pieces,
    piece: &Marked,
    proofs: &[Proof],
    from: usize,
) -> Option<usize>
    requires { from ≤ length proofs.now }
    ensures { IsShaped (piece_owes (split_of about.now) pieces.now piece.now) proofs.now from result }
{
    let count = about.count();
    let mut next = from;
    'cases: for number in 0..count {
        match after_case(about, pieces, piece, number, proofs, next) {
            None => return None,
            Some(after) => next = after,
        }
    }
    Some(next)
}

/// Whether there is one proof of the shape that is owed for each step from the pieces, in order.
fn proofs_have_shape(about: &Split, pieces: &Pieces, proofs: &[Proof]) -> bool
    ensures { IsTrue result ↔ Offered (steps_owed (split_of about.now) pieces.now) proofs.now }
{
    let list = pieces.list();
    let mut next = 0;
    'pieces: for number in 0..list.len() {
        match after_piece(about, pieces, &list[number], proofs, next) {
            None => return false,
            Some(after) => next = after,
        }
    }
    next == proofs.len()
}

/// Whether it is a piece of visits with `ranks` ranks.
fn piece_has_shape(about: &Split, piece: &Marked, ranks: u32) -> bool
    ensures { IsTrue result ↔ PieceShape (split_of about.now).system ranks false piece.now }
{
    piece.location() < about.cases().locations()
        && piece.columns() == about.cases().variables()
        && piece.mark() == Mark::Go
        && piece.ranks().len() == ranks as usize
}

/// Whether each is a piece of visits with `ranks` ranks.
fn pieces_have_shape(about: &Split, pieces: &[Marked], ranks: u32) -> bool
    ensures { IsTrue result ↔ All (PieceShape (split_of about.now).system ranks false) pieces.now }
{
    pieces
        .iter()
        .all(|piece| piece_has_shape(about, piece, ranks))
}

/// Whether the cover of the start has the shape that is owed.
fn root_has_shape(about: &Split, pieces: &Pieces, root: &CoverTree) -> bool
    requires { splits root.now ≤ 128 }
    ensures { let system = (split_of about.now).system in
        IsTrue result ↔ CoverShape system.variables (owed_count (owed_into pieces.now system.start given no_fall)) 0 root.now }
{
    let start = entrance_at_start(about, pieces);
    cover_has_shape(root, about.cases().variables() as usize, 0, &start)
}

/// Whether the node and the cover have the shape of visits, but for children of the node.
pub fn has_shape(about: &Split, node: &Node, root: &CoverTree) -> bool
    requires { splits root.now ≤ 128 }
    ensures { IsTrue result ↔ VisitShape (split_of about.now) (offered_by node.now root.now) }
{
    pieces_have_shape(about, node.pieces.list(), node.ranks)
        && proofs_have_shape(about, &node.pieces, &node.proofs)
        && root_has_shape(about, &node.pieces, root)
}
