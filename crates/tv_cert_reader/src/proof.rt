ghost use Rattle.std.specs.Prelude.{◌≡◌, ◌^◌, ◌-◌, ◌<◌, ◌≤◌, ℕ, List, Option, Some, length};
ghost use Rattle.tv_linear.specs.Known.{Known};
ghost use Rattle.tv_cases.specs.Systems.{cases_of};
ghost use Rattle.tv_cert.specs.Obligations.{a_cover};
ghost use Rattle.tv_cert.specs.OwesViews.{OwedIn, owed_by};
ghost use Rattle.tv_cert.specs.Shapes.{owed_count};
ghost use Rattle.tv_cert.specs.declared.owes.Owes.TheVariants as owing;
ghost use Rattle.tv_cert.specs.TargetViews.{counts_of};
ghost use Rattle.tv_cert_reader.specs.Proofs.{ReadsProof};

use crate::choices::ChoiceRead;
use crate::context::Context;
use crate::counts::{are_few, chosen_are_few};
use crate::cursor::Cursor;
use crate::failure::Failure;
use tv_cases::Case;
use tv_cert::{Destination, Marked, Owes, Proof, Targets};
use tv_linear::{Choice, Cover, MAX_SPLITS};

impl Context<'_> {
    /// A cover of a place with `known` rows of `columns` columns.
    ///
    /// More targets than can be counted with 32 bits are more than memory holds.
    fn cover(
        &self,
        cursor: &mut Cursor,
        columns: u32,
        known: u128,
        targets: &Targets,
    ) -> Result<Proof, Failure>
        requires narrow { columns < 2 ^ 32 - 1 }
        requires room { known < 2 ^ 126 }
        ensures { (rows : List Known) (owed : ℕ → ℕ → Option (List Known)) → length rows ≡ known →
            counts_of targets.now ≡ owed_count owed →
            ReadsProof (a_cover columns rows owed) cursor.old cursor.new result }
    {
        if !are_few(targets) {
            return Err(Failure::Memory);
        }
        let tree = self.cover_tree(cursor, MAX_SPLITS, columns, known, targets)?;
        match Cover::new(tree) {
            Some(cover) => Ok(Proof::Covered(cover)),
            None => unreachable!(),
        }
    }

    /// A cover of a piece and the guards of a case.
    fn step(
        &self,
        cursor: &mut Cursor,
        piece: &Marked,
        case: &Case,
        targets: &Targets,
    ) -> Result<Proof, Failure>
        requires { case.now.draws ≤ 64 }
        ensures { let system = cases_of self.now.about.now in
            ReadsProof (owed_by system (owing.Cover piece.entry (Some case.entry) targets.now)) cursor.old cursor.new result }
    {
        let columns = self.about.variables() + case.draws;
        let known = piece.rows().len() as u128 + case.guards.rows.len() as u128;
        self.cover(cursor, columns, known, targets)
    }

    /// A choice at a piece.
    fn choice(
        &self,
        cursor: &mut Cursor,
        piece: &Marked,
        stop: bool,
        destination: &Destination,
    ) -> Result<Proof, Failure>
        ensures { ReadsProof (owed_by (cases_of self.now.about.now) (owing.Choice piece.entry stop destination.now)) cursor.old cursor.new result }
    {
        if !chosen_are_few(piece, destination) {
            return Err(Failure::Memory);
        }
        let known = piece.rows().len() as u128;
        let choosing = ChoiceRead {
            piece,
            stop,
            destination,
        };
        let tree = self.choice_tree(cursor, MAX_SPLITS, &choosing, known)?;
        match Choice::new(tree) {
            Some(choice) => Ok(Proof::Chosen(choice)),
            None => unreachable!(),
        }
    }

    /// A proof of what is owed.
    pub fn proof(&self, cursor: &mut Cursor, owes: &Owes) -> Result<Proof, Failure>
        requires { OwedIn (cases_of self.now.about.now) owes.now }
        ensures { ReadsProof (owed_by (cases_of self.now.about.now) owes.now) cursor.old cursor.new result }
    {
        match owes {
            Owes::Cover {
                piece,
                case,
                targets,
            } => match case {
                Some(case) => self.step(cursor, piece, case, targets),
                None => {
                    let columns = self.about.variables();
                    let known = piece.rows().len() as u128;
                    self.cover(cursor, columns, known, targets)
                }
            },
            Owes::Choice {
                piece,
                stop,
                destination,
            } => self.choice(cursor, piece, *stop, destination),
        }
    }
}
