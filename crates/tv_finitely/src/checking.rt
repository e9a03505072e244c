// The check of visits: it names the first obligation that is not met, and takes no memory.

ghost use Rattle.std.specs.Prelude.{◌≡◌, ◌↔◌, ◌+◌, ◌<◌, ◌≤◌, ◌^◌, IsTrue, OnOk, Some, length};
ghost use Rattle.tv_program.specs.Systems.{System};
ghost use Rattle.tv_formula.specs.Properties.{Property};
ghost use Rattle.tv_cert.specs.FirstFailing.{Checks};
ghost use Rattle.tv_cert.specs.Obligations.{OwedMet};
ghost use Rattle.tv_finitely.specs.Finite.{HoldsFinitely};
ghost use Rattle.tv_finitely.specs.Obligations.{visits_of, visit_entries, step_owed, case_owes, piece_owes, steps_owed};
ghost use Rattle.tv_finitely.specs.Shapes.{VisitShape};
ghost use Rattle.tv_finitely.specs.Splits.{split_of, IsSplitOf};
ghost use Rattle.tv_finitely.specs.Walks.{marked_at, IsSettledFrom, SettlesRoot};

use crate::entering::{
    all_are_covered, entrance_at_start, entrance_over, starts_at, step_is_covered,
};
use crate::split_program::Split;
use crate::visits::Visits;
use tv_cert::{Failing, Kind, Marked, Pieces, Proof};

/// Whether the proof covers what the piece owes over the case.
fn step_is_met(about: &Split, pieces: &Pieces, piece: &Marked, number: u32, proof: &Proof) -> bool
    requires { number < length (split_of about.now).system.cases }
    ensures { let s = split_of about.now in
        IsTrue result ↔ OwedMet (step_owed s.system pieces.now piece.now (marked_at s number)).owed (Some proof.now) }
{
    let case = about.case(number);
    let entrance = entrance_over(about, pieces, piece, number);
    match proof {
        Proof::Covered(cover) => step_is_covered(
            about.cases().variables(),
            piece,
            case,
            &entrance,
            cover.tree(),
        ),
        Proof::Chosen(_) => false,
    }
}

/// The obligation of a step that is not met, after `met` others.
fn step_failing(met: usize) -> Failing
    requires { met < 2 ^ 63 }
    ensures { result ≡ record { number = met + 1; node = 0; kind = Kind.Step } }
{
    Failing {
        number: met as u64 + 1,
        node: 0,
        kind: Kind::Step,
    }
}

/// Settles what the piece owes over a case, where the case is from it, after `met` other obligations; how many are met then.
fn settle_case(
    about: &Split,
    pieces: &Pieces,
    piece: &Marked,
    number: u32,
    proofs: &[Proof],
    met: usize,
) -> Result<usize, Failing>
    requires number { number < length (split_of about.now).system.cases }
    requires met { met ≤ length proofs.now }
    ensures { let s = split_of about.now in
        IsSettledFrom (case_owes s.system pieces.now piece.now (marked_at s number)) proofs.now met result }
{
    if !starts_at(about, piece, number) {
        return Ok(met);
    }
    let failing = step_failing(met);
    if met >= proofs.len() {
        return Err(failing);
    }
    if step_is_met(about, pieces, piece, number, &proofs[met]) {
        Ok(met + 1)
    } else {
        Err(failing)
    }
}

/// Settles the obligations of a piece after `met` others; how many are met then.
fn settle_piece(
    about: &Split,
    pieces: &Pieces,
    piece: &Marked,
    proofs: &[Proof],
    met: usize,
) -> Result<usize, Failing>
    requires { met ≤ length proofs.now }
    ensures { IsSettledFrom (piece_owes (split_of about.now) pieces.now piece.now) proofs.now met result }
{
    let count = about.count();
    let mut next = met;
    'cases: for number in 0..count {
        match settle_case(about, pieces, piece, number, proofs, next) {
            Err(failing) => return Err(failing),
            Ok(after) => next = after,
        }
    }
    Ok(next)
}

/// Settles the obligations of all steps; how many are met.
fn settle_steps(about: &Split, pieces: &Pieces, proofs: &[Proof]) -> Result<usize, Failing>
    ensures { IsSettledFrom (steps_owed (split_of about.now) pieces.now) proofs.now 0 result }
{
    let list = pieces.list();
    let mut next = 0;
    'pieces: for number in 0..list.len() {
        match settle_piece(about, pieces, &list[number], proofs, next) {
            Err(failing) => return Err(failing),
            Ok(after) => next = after,
        }
    }
    Ok(next)
}

/// Settles the last obligation, after `met` others: that the start is covered by the pieces there.
fn settle_root(about: &Split, visits: &Visits, met: usize) -> Result<(), Failing>
    requires { met < 2 ^ 63 }
    ensures { let v = visits_of visits.now in
        SettlesRoot (split_of about.now).system v.pieces v.root met result }
{
    let entrance = entrance_at_start(about, &visits.pieces);
    if all_are_covered(about.cases().variables(), &entrance, visits.root.tree()) {
        Ok(())
    } else {
        Err(Failing {
            number: met as u64 + 1,
            node: 0,
            kind: Kind::Root,
        })
    }
}

/// Checks visits of a split program: `Ok` where all their obligations are met, and else the first that is not.
///
/// Then on every run of the program by which this is split the property holds only finitely often. It takes no memory.
pub fn check_finitely(about: &Split, visits: &Visits) -> Result<(), Failing>
    requires { VisitShape (split_of about.now) (visits_of visits.now) }
    ensures exact { Checks (visit_entries (split_of about.now) (visits_of visits.now)) result }
    ensures finite { (p : System) → (f : Property) → IsSplitOf p f (split_of about.now) → OnOk result (HoldsFinitely p f) }
{
    match settle_steps(about, &visits.pieces, &visits.proofs) {
        Err(failing) => Err(failing),
        Ok(met) => settle_root(about, visits, met),
    }
}
