// Covers of rows by one row.

ghost use Rattle.std.specs.Prelude.{◌∷◌, [], ◌↔◌, IsTrue};
ghost use Rattle.tv_cover.specs.Targets.{owed_lists};
ghost use Rattle.tv_invariant.specs.Kept.{Follows};
ghost use Rattle.tv_invariant.specs.Thinning.{Shows};

use tv_linear::{CoverTree, Row, RowView, Rows};
use tv_refute::{Change, Frames, Targets, cover_is_met, shows};

/// A row as the only target.
#[derive(Drop)]
struct OneRow<'a> {
    row: &'a Row,
}

impl Targets for OneRow<'_> {
    ghost owed = { λ t. owed_lists ((t.row.now ∷ []) ∷ []) };

    fn are_shown(
        &self,
        columns: usize,
        frames: &Frames,
        target: u32,
        fall: u32,
        lists: &[Vec<i64>],
    ) -> bool {
        if target != 0 || fall != 0 {
            return false;
        }
        match lists {
            [multipliers] => shows(
                columns,
                frames,
                &Change::Kept,
                RowView::of(self.row),
                multipliers,
            ),
            _ => false,
        }
    }
}

/// Whether the tree is a cover of the rows by the row, by which the row follows from them.
pub fn is_shown_by(columns: u32, rows: &[Row], row: &Row, tree: &CoverTree) -> bool
    ensures exact { IsTrue result ↔ Shows columns rows.now row.now tree.now }
    ensures follows { IsTrue result → Follows columns rows.now row.now }
{
    let end = Frames::End;
    let place = Frames::Rows {
        rows: Rows::Each(rows),
        above: &end,
    };
    cover_is_met(columns as usize, &place, &OneRow { row }, tree)
}
