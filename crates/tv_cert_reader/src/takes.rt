ghost use Rattle.std.specs.Prelude.{◌≡◌, ◌+◌, ◌<◌, ◌^◌, ℕ, pos, [], ◌∷◌, MatchOption};
ghost use Rattle.tv_cases.specs.Systems.{cases_of};
ghost use Rattle.tv_cases.specs.Views.{case_view};
ghost use Rattle.tv_cert.specs.TargetViews.{AreFewAt};
ghost use Rattle.tv_cert_reader.specs.declared.cursor.Cursor.{Cursor};
ghost use Rattle.tv_cert_reader.specs.Covers.{IsBehind};
ghost use Rattle.tv_cert_reader.specs.Choices.{IsTaken, NamesNoCase, ReadsChoice};

use crate::choices::ChoiceRead;
use crate::context::Context;
use crate::covers::small;
use crate::cursor::Cursor;
use crate::failure::Failure;
use crate::kind::LineKind;
use crate::number_line::NumberLine;
use crate::rows::{lists, rows};
use tv_cases::Case;
use tv_cert::{Destination, Marked, targets_after};
use tv_linear::ChoiceTree;
use tv_lines::Head;

/// Three numbers of 32 bits.
fn three_small(numbers: &[i64]) -> Option<(u32, u32, u32)>
    ensures { MatchOption result
        ((c k j : ℕ) → numbers.now ≡ pos c ∷ pos k ∷ pos j ∷ [] → c < 2 ^ 32 → k < 2 ^ 32 → j < 2 ^ 32 → ⊥)
        (λ x. numbers.now ≡ pos x.0 ∷ pos x.1 ∷ pos x.2 ∷ []) }
{
    let [first, second, third] = numbers else {
        return None;
    };
    match (small(*first), small(*second), small(*third)) {
        (Some(first), Some(second), Some(third)) => Some((first, second, third)),
        _ => None,
    }
}

/// The case that is taken, the target and the fall, and how many rows they owe.
#[derive(Drop)]
pub struct Taken<'a> {
    pub case: &'a Case,
    pub taken: u32,
    pub target: u32,
    pub fall: u32,
    pub owed: usize,
}

impl Context<'_> {
    /// The case, which leaves the location of the piece, the target and the fall that the numbers name.
    pub fn taken_of(
        &self,
        numbers: &[i64],
        piece: &Marked,
        destination: &Destination,
    ) -> Option<Taken<'_>>
        requires { AreFewAt piece.now destination.now }
        ensures { let system = cases_of self.now.about.now in
            MatchOption result
            (NamesNoCase system piece.now destination.now numbers.now)
            (λ x. IsTaken system piece.now destination.now numbers.now (case_view x.case.now) x.taken x.target x.fall x.owed) }
    {
        let list = self.about.list();
        let (taken, target, fall) = three_small(numbers)?;
        let case = list.get(taken as usize)?;
        if case.from != piece.location() {
            return None;
        }
        let owed = targets_after(piece, case, destination).count(target, fall)?;
        Some(Taken {
            case,
            taken,
            target,
            fall,
            owed,
        })
    }

    /// A choice whose line that takes a case has these numbers.
    pub fn takes(
        &self,
        cursor: &mut Cursor,
        numbers: &[i64],
        choosing: &ChoiceRead,
        known: u128,
    ) -> Result<ChoiceTree, Failure>
        requires bounded { AreFewAt choosing.now.piece.now choosing.now.destination.now }
        requires room { known < 2 ^ 126 }
        ensures { let system = cases_of self.now.about.now in
            let reads = ReadsChoice system choosing.now.piece.now choosing.now.stop choosing.now.destination.now known in
            (left : ℕ) (old : Cursor) → IsBehind Head.Take numbers.now old cursor.old → reads left old cursor.new result }
    {
        let Some(taken) = self.taken_of(numbers, choosing.piece, choosing.destination) else {
            return Err(Failure::Fault(LineKind::Shape, cursor.taken));
        };
        let case = taken.case;
        let columns = self.about.variables();
        let draws = rows(
            self.alloc,
            cursor,
            NumberLine::Draw,
            columns,
            case.draws as u64,
        )?;
        let count = case.guards.rows.len() as u128 + taken.owed as u128;
        let refutations = lists(self.alloc, cursor, known + 1, count)?;
        Ok(ChoiceTree::Take {
            taken: taken.taken,
            target: taken.target,
            fall: taken.fall,
            draws,
            refutations,
        })
    }
}
