ghost use Rattle.std.specs.Prelude.{◌≡◌, ◌++◌, ◌∷◌, [], pos, map, length, IfOk, OnOk};
ghost use Rattle.std.specs.List.{flat_map};
ghost use Rattle.tv_lines.specs.Lines.{formed};
ghost use Rattle.tv_cert_reader.specs.CertificateLines.{row_line, row_lines, by_lines, mark_named, piece_lines, cover_lines, choice_lines, proof_lines};
ghost use Rattle.tv_cert_spelling.specs.Spelling.{spelled, all_spelled};
ghost use Rattle.tv_linear.specs.Views.{row_seen, rows_seen};

use std::alloc::{AllocError, Global};
use tv_cert::{Mark, Marked, Proof};
use tv_linear::{ChoiceTree, Cover, CoverTree, RowView, Rows, widened};
use tv_lines::{Head, PieceMark, write_line};

/// The numbers of a row: its coefficients and then its constant.
fn numbers_of(alloc: Global, row: RowView) -> Result<Vec<i128>, AllocError>
    ensures { IfOk result (λ numbers. numbers.items ≡ (row_seen row.entry).coefficients ++ (row_seen row.entry).constant ∷ []) }
{
    let mut numbers = widened(alloc, row.coefficients())?;
    numbers.push(row.constant())?;
    Ok(numbers)
}

pub fn append_line(
    alloc: Global,
    out: &mut Vec<u8>,
    head: Head,
    numbers: &[i128],
) -> Result<(), AllocError>
    ensures { OnOk result (out.new.items ≡ out.old.items ++ spelled (formed head numbers.now)) }
{
    write_line(alloc, out, head, numbers)
}

fn append_row(alloc: Global, out: &mut Vec<u8>, head: Head, row: RowView) -> Result<(), AllocError>
    ensures { OnOk result (out.new.items ≡ out.old.items ++ spelled (row_line head (row_seen row.entry))) }
{
    let numbers = numbers_of(alloc, row)?;
    append_line(alloc, out, head, &numbers)
}

/// Adds a line for each of the rows.
fn append_rows(alloc: Global, out: &mut Vec<u8>, head: Head, rows: Rows) -> Result<(), AllocError>
    ensures { OnOk result (out.new.items ≡ out.old.items ++ all_spelled (row_lines head (rows_seen rows.entry))) }
{
    for i in 0..rows.len() {
        append_row(alloc, out, head, rows.row(i))?;
    }
    Ok(())
}

fn append_multipliers(
    alloc: Global,
    out: &mut Vec<u8>,
    head: Head,
    multipliers: &[i64],
) -> Result<(), AllocError>
    ensures { OnOk result (out.new.items ≡ out.old.items ++ spelled (formed head multipliers.now)) }
{
    let numbers = widened(alloc, multipliers)?;
    append_line(alloc, out, head, &numbers)
}

/// Adds a line of multipliers for each row to be shown.
fn append_lists(alloc: Global, out: &mut Vec<u8>, lists: &[Vec<i64>]) -> Result<(), AllocError>
    ensures { OnOk result (out.new.items ≡ out.old.items ++ all_spelled (by_lines (map (λ l. l.items) lists.now))) }
{
    for list in lists {
        append_multipliers(alloc, out, Head::By, list)?;
    }
    Ok(())
}

/// Adds a cover; of a split the side where its row holds comes first.
pub fn append_cover(alloc: Global, out: &mut Vec<u8>, tree: &CoverTree) -> Result<(), AllocError>
    ensures { OnOk result (out.new.items ≡ out.old.items ++ all_spelled (cover_lines tree.now)) }
{
    match tree {
        CoverTree::Split(row, holds, fails) => {
            append_row(alloc, out, Head::Split, RowView::of(row))?;
            append_cover(alloc, out, holds)?;
            append_cover(alloc, out, fails)
        }
        CoverTree::Empty(multipliers) => append_multipliers(alloc, out, Head::Empty, multipliers),
        CoverTree::Into {
            target,
            fall,
            refutations,
        } => {
            append_line(alloc, out, Head::Into, &[*target as i128, *fall as i128])?;
            append_lists(alloc, out, refutations)
        }
    }
}

fn append_covers(alloc: Global, out: &mut Vec<u8>, covers: &[Cover]) -> Result<(), AllocError>
    ensures { OnOk result (out.new.items ≡ out.old.items ++ all_spelled (flat_map cover_lines covers.now)) }
{
    for cover in covers {
        append_cover(alloc, out, cover.tree())?;
    }
    Ok(())
}

/// Adds a choice; of a split the side where its row holds comes first.
fn append_choice(alloc: Global, out: &mut Vec<u8>, tree: &ChoiceTree) -> Result<(), AllocError>
    ensures { OnOk result (out.new.items ≡ out.old.items ++ all_spelled (choice_lines tree.now)) }
{
    match tree {
        ChoiceTree::Split(row, holds, fails) => {
            append_row(alloc, out, Head::Split, RowView::of(row))?;
            append_choice(alloc, out, holds)?;
            append_choice(alloc, out, fails)
        }
        ChoiceTree::Empty(multipliers) => append_multipliers(alloc, out, Head::Empty, multipliers),
        ChoiceTree::NoStep(covers) => {
            append_line(alloc, out, Head::NoStep, &[])?;
            append_covers(alloc, out, covers)
        }
        ChoiceTree::Take {
            taken,
            target,
            fall,
            draws,
            refutations,
        } => {
            let numbers = [*taken as i128, *target as i128, *fall as i128];
            append_line(alloc, out, Head::Take, &numbers)?;
            append_rows(alloc, out, Head::Draw, Rows::Each(draws))?;
            append_lists(alloc, out, refutations)
        }
    }
}

fn append_proof(alloc: Global, out: &mut Vec<u8>, proof: &Proof) -> Result<(), AllocError>
    ensures { OnOk result (out.new.items ≡ out.old.items ++ all_spelled (proof_lines proof.now)) }
{
    match proof {
        Proof::Covered(cover) => append_cover(alloc, out, cover.tree()),
        Proof::Chosen(choice) => append_choice(alloc, out, choice.tree()),
    }
}

pub fn append_proofs(alloc: Global, out: &mut Vec<u8>, proofs: &[Proof]) -> Result<(), AllocError>
    ensures { OnOk result (out.new.items ≡ out.old.items ++ all_spelled (flat_map proof_lines proofs.now)) }
{
    for proof in proofs {
        append_proof(alloc, out, proof)?;
    }
    Ok(())
}

fn mark_named(mark: Mark) -> PieceMark
    ensures { result ≡ mark_named mark }
{
    match mark {
        Mark::Done => PieceMark::Done,
        Mark::Go => PieceMark::Go,
    }
}

/// Adds a piece: its location, its mark and the number of its rows, then its rows and its ranks.
fn append_piece(alloc: Global, out: &mut Vec<u8>, piece: &Marked) -> Result<(), AllocError>
    ensures { OnOk result (out.new.items ≡ out.old.items ++ all_spelled (piece_lines piece.now)) }
{
    let numbers = [piece.location() as i128, piece.rows().len() as i128];
    append_line(alloc, out, Head::Piece(mark_named(piece.mark())), &numbers)?;
    append_rows(alloc, out, Head::Row, piece.rows())?;
    append_rows(alloc, out, Head::Rank, piece.ranks())
}

pub fn append_pieces(alloc: Global, out: &mut Vec<u8>, pieces: &[Marked]) -> Result<(), AllocError>
    ensures { OnOk result (out.new.items ≡ out.old.items ++ all_spelled (flat_map piece_lines pieces.now)) }
{
    for piece in pieces {
        append_piece(alloc, out, piece)?;
    }
    Ok(())
}
