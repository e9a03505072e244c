ghost use Rattle.std.specs.Prelude.{◌↔◌, IsTrue, All};
ghost use Rattle.tv_cert.specs.NodeViews.{pieces_list};
ghost use Rattle.tv_shape.specs.Narrow.{AreNarrow, CountNarrow, ListsNarrow, RowNarrow, CoverNarrow, ChoiceNarrow, ProofNarrow, PieceNarrow, PartsNarrow};
ghost use Rattle.tv_shape.specs.Parts.{proofs_of, ranks_at};

use tv_cert::{Marked, Node, Proof};
use tv_linear::{ChoiceTree, Cover, CoverTree, Row, is_narrow};

/// Whether each multiplier is below 2^62 in magnitude.
fn multipliers_are_narrow(multipliers: &[i64]) -> bool
    ensures { IsTrue result ↔ AreNarrow multipliers.now }
{
    multipliers
        .iter()
        .all(|multiplier| is_narrow(i128::from(*multiplier)))
}

fn lists_are_narrow(lists: &[Vec<i64>]) -> bool
    ensures { IsTrue result ↔ ListsNarrow lists.now }
{
    lists.iter().all(|list| multipliers_are_narrow(list))
}

/// The numbers of a row are narrow, whatever the row.
fn narrow_row(row: &Row)
    ensures { RowNarrow row.now }
{
    row.columns();
}

fn narrow_rows(rows: &[Row])
    ensures { All RowNarrow rows.now }
{
    for row in rows {
        narrow_row(row);
    }
}

/// So are those of a piece.
fn narrow_piece(piece: &Marked)
    ensures { PieceNarrow piece.now }
{
    piece.location();
    piece.row_count();
    piece.columns();
}

/// So are those of these pieces.
pub(crate) fn narrow_pieces(pieces: &[Marked])
    ensures { All PieceNarrow pieces.now }
{
    for piece in pieces {
        narrow_piece(piece);
    }
}

/// So is a number of 32 bits.
fn narrow_count(count: u32)
    ensures { CountNarrow count }
{}

/// Whether each number of the cover is narrow.
pub fn cover_is_narrow(tree: &CoverTree) -> bool
    ensures { IsTrue result ↔ CoverNarrow tree.now }
{
    match tree {
        CoverTree::Split(row, holds, fails) => {
            narrow_row(row);
            cover_is_narrow(holds) && cover_is_narrow(fails)
        }
        CoverTree::Empty(multipliers) => multipliers_are_narrow(multipliers),
        CoverTree::Into {
            target,
            fall,
            refutations,
        } => {
            narrow_count(*target);
            narrow_count(*fall);
            lists_are_narrow(refutations)
        }
    }
}

fn covers_are_narrow(covers: &[Cover]) -> bool
    ensures { IsTrue result ↔ All CoverNarrow covers.now }
{
    covers.iter().all(|cover| cover_is_narrow(cover.tree()))
}

fn choice_is_narrow(tree: &ChoiceTree) -> bool
    ensures { IsTrue result ↔ ChoiceNarrow tree.now }
{
    match tree {
        ChoiceTree::Split(row, holds, fails) => {
            narrow_row(row);
            choice_is_narrow(holds) && choice_is_narrow(fails)
        }
        ChoiceTree::Empty(multipliers) => multipliers_are_narrow(multipliers),
        ChoiceTree::NoStep(covers) => covers_are_narrow(covers),
        ChoiceTree::Take {
            taken,
            target,
            fall,
            draws,
            refutations,
        } => {
            narrow_count(*taken);
            narrow_count(*target);
            narrow_count(*fall);
            narrow_rows(draws);
            lists_are_narrow(refutations)
        }
    }
}

fn proof_is_narrow(proof: &Proof) -> bool
    ensures { IsTrue result ↔ ProofNarrow proof.now }
{
    match proof {
        Proof::Covered(cover) => cover_is_narrow(cover.tree()),
        Proof::Chosen(choice) => choice_is_narrow(choice.tree()),
    }
}

fn proofs_are_narrow(proofs: &[Proof]) -> bool
    ensures { IsTrue result ↔ All ProofNarrow proofs.now }
{
    proofs.iter().all(proof_is_narrow)
}

/// Whether each number of the node's own lines is narrow.
pub fn parts_are_narrow(node: &Node) -> bool
    ensures { IsTrue result ↔ PartsNarrow (ranks_at node.now) (pieces_list node.now) (proofs_of node.now) }
{
    let pieces = node.pieces.list();
    narrow_pieces(pieces);
    narrow_count(node.ranks);
    pieces.len() < 1 << 62 && proofs_are_narrow(&node.proofs)
}
