ghost use Rattle.std.specs.Prelude.{◌≡◌, ◌+◌, ◌-◌, ◌<◌, ◌≤◌, ◌^◌, ℕ, Bool, [], All, IfOk, length};
ghost use Rattle.tv_linear.specs.Linear.{Linear};
ghost use Rattle.tv_cases.specs.LinearCases.{CaseSystem, leaving};
ghost use Rattle.tv_cases.specs.Systems.{cases_of};
ghost use Rattle.tv_cases.specs.Views.{case_view};
ghost use Rattle.tv_cert.specs.declared.node.Marked.{Marked};
ghost use Rattle.tv_cert.specs.declared.owes.Destination.{Destination};
ghost use Rattle.tv_cert.specs.TargetViews.{AreFewAt};
ghost use Rattle.tv_cert_reader.specs.declared.cursor.Cursor.{Cursor};
ghost use Rattle.tv_cert_reader.specs.Covers.{IsBehind};
ghost use Rattle.tv_cert_reader.specs.Choices.{IsChoiceSplitOf, ReadsChoice, ReadsStop, ReadsStops};

use crate::context::Context;
use crate::cursor::Cursor;
use crate::failure::Failure;
use crate::kind::LineKind;
use crate::lines::take;
use crate::rows::row_of;
use std::alloc::{AllocError, Global};
use tv_cases::Case;
use tv_cert::{Destination, Marked, Targets};
use tv_linear::{ChoiceTree, Cover, Row};
use tv_lines::Head;

/// What choices are read with: the piece at which they are made, where they lead, and whether they may show that there is no step.
#[derive(Clone, Copy)]
pub struct ChoiceRead<'a> {
    pub piece: &'a Marked,
    pub stop: bool,
    pub destination: &'a Destination<'a>,
}

/// A split at the row.
fn split_of(
    alloc: Global,
    row: Row,
    holds: ChoiceTree,
    fails: ChoiceTree,
) -> Result<ChoiceTree, AllocError>
    ensures { IfOk result (IsChoiceSplitOf row holds fails) }
{
    let holds = Box::new(alloc, holds)?;
    let fails = Box::new(alloc, fails)?;
    Ok(ChoiceTree::Split(row, holds, fails))
}

/// A refutation of the place by the multipliers of a line, if there are as many as rows.
fn empty_of(multipliers: Vec<i64>, known: u128, line: u32) -> Result<ChoiceTree, Failure>
    ensures { (system : CaseSystem) (piece : Marked) (stop : Bool) (destination : Destination) (left : ℕ) (old new : Cursor) →
        IsBehind Head.Empty multipliers.items old new → new.taken ≡ line →
        ReadsChoice system piece stop destination known left old new result }
{
    if multipliers.len() as u128 == known {
        Ok(ChoiceTree::Empty(multipliers))
    } else {
        Err(Failure::Fault(LineKind::Shape, line))
    }
}

impl Context<'_> {
    /// A cover without targets of the place and the guards of a case.
    fn stop_cover(
        &self,
        cursor: &mut Cursor,
        left: u32,
        known: u128,
        case: &Case,
    ) -> Result<Cover, Failure>
        requires shallow { left ≤ 128 }
        requires draws { case.now.draws ≤ 64 }
        requires room { known < 2 ^ 125 }
        ensures { ReadsStop (cases_of self.now.about.now).variables known left (case_view case.now) cursor.old cursor.new result }
    {
        let width = self.about.variables() + case.draws;
        let rows = known + case.guards.rows.len() as u128;
        let tree = self.cover_tree(cursor, left, width, rows, &Targets::Nowhere)?;
        match Cover::new(tree) {
            Some(cover) => Ok(cover),
            None => unreachable!(),
        }
    }

    /// One for each of the cases that are from the location.
    fn stop_covers(
        &self,
        cursor: &mut Cursor,
        left: u32,
        known: u128,
        location: u32,
    ) -> Result<Vec<Cover>, Failure>
        requires shallow { left ≤ 128 }
        requires room { known < 2 ^ 125 }
        ensures { let system = cases_of self.now.about.now in
            ReadsStops system.variables known left (leaving location system.cases) cursor.old cursor.new result }
    {
        let mut covers = Vec::new(self.alloc);
        let mut k = 0;
        'cases: while let Some(case) = self.about.leaving(location, k) {
            let cover = self.stop_cover(cursor, left, known, case)?;
            covers.push(cover)?;
            k += 1;
        }
        covers.shrink_to_fit();
        Ok(covers)
    }

    /// A choice whose first line says that there is no step.
    fn no_step(
        &self,
        cursor: &mut Cursor,
        left: u32,
        piece: &Marked,
        stop: bool,
        known: u128,
    ) -> Result<ChoiceTree, Failure>
        requires shallow { left ≤ 128 }
        requires room { known < 2 ^ 125 }
        ensures { let system = cases_of self.now.about.now in
            (destination : Destination) (old : Cursor) → IsBehind Head.NoStep [] old cursor.old →
            ReadsChoice system piece.now stop destination known left old cursor.new result }
    {
        if !stop {
            return Err(Failure::Fault(LineKind::Shape, cursor.taken));
        }
        let covers = self.stop_covers(cursor, left, known, piece.location())?;
        Ok(ChoiceTree::NoStep(covers))
    }

    /// A choice with at most `left` splits on a path, counting into its covers, at a place with `known` rows.
    pub fn choice_tree(
        &self,
        cursor: &mut Cursor,
        left: u32,
        choosing: &ChoiceRead,
        known: u128,
    ) -> Result<ChoiceTree, Failure>
        requires bounded { AreFewAt choosing.now.piece.now choosing.now.destination.now }
        requires shallow { left ≤ 128 }
        requires room { known + left < 2 ^ 125 }
        ensures { let reads = ReadsChoice (cases_of self.now.about.now) choosing.now.piece.now choosing.now.stop choosing.now.destination.now in
            reads known left cursor.old cursor.new result }
    {
        let (head, numbers) = take(self.alloc, cursor)?;
        match head {
            Head::Split => {
                if left == 0 {
                    return Err(Failure::Fault(LineKind::Deep, cursor.taken));
                }
                let Some(row) = row_of(numbers, self.about.variables()) else {
                    return Err(Failure::Fault(LineKind::Shape, cursor.taken));
                };
                let (below, rows) = (left - 1, known + 1);
                let holds = self.choice_tree(cursor, below, choosing, rows)?;
                let fails = self.choice_tree(cursor, below, choosing, rows)?;
                let split = split_of(self.alloc, row, holds, fails)?;
                Ok(split)
            }
            Head::Empty => empty_of(numbers, known, cursor.taken),
            Head::NoStep => self.no_step(cursor, left, choosing.piece, choosing.stop, known),
            Head::Take => self.takes(cursor, &numbers, choosing, known),
            _ => Err(Failure::Fault(LineKind::Shape, cursor.taken)),
        }
    }
}
