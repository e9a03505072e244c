ghost use Rattle.std.specs.Prelude.{None};

use crate::endings::NESTED;
use crate::proving::{BOTH_WAYS, ONE_ROW, Placed, SETTLED, TWICE, USELESS, push_offering};
use crate::texts::{Asked, add_proposers, begins_under, joined, says_under};
use std::alloc::{AllocError, Global};
use std::test::Fail;
use tv_candidates::Candidate;
use tv_cases::Cases;
use tv_linear::Row;
use tv_propose::Proposer;
use tv_top::Status;

/// Offers the row that no point meets, at the start, and then has half a million less left.
#[derive(Drop)]
struct Spending {
    left: u64,
}

impl Proposer for Spending {
    ghost left = { λ s. s.left };

    ghost rest = { λ _ _. None };

    fn left(&self) -> u64 {
        self.left
    }

    fn next(&mut self, alloc: Global, about: &Cases) -> Result<Option<Candidate>, AllocError> {
        if self.left == 0 {
            return Ok(None);
        }
        let location = about.start();
        let row = Row::zero(alloc, about.variables())?.with_constant(alloc, 1)?;
        self.left = self.left.saturating_sub(500_000);
        Ok(Some(Candidate { location, row }))
    }
}

/// A proposer of that kind, and those that offer rows of each kind.
fn with_spending(alloc: Global) -> Result<Vec<Box<dyn Proposer>>, AllocError> {
    let mut proposers: Vec<Box<dyn Proposer>> = Vec::new(alloc);
    proposers.push(Box::new(alloc, Spending { left: 1_000_000 })?)?;
    add_proposers(alloc, &mut proposers)?;
    Ok(proposers)
}

fn is_said_beside_spending(alloc: Global, asked: &Asked) -> Result<bool, AllocError> {
    let (words, texts, lines, status) = asked;
    let proposers = with_spending(alloc)?;
    let text = joined(alloc, texts)?;
    says_under(alloc, words, text, proposers, lines, *status)
}

#[test]
fn a_proposer_that_spends_fast_changes_no_answer(rt: HostRuntime) {
    for asked in SETTLED {
        assert!(rt;
            is_said_beside_spending(rt.alloc(), asked) == Ok(true),
            "{asked:?}"
        );
    }
}

/// These rows, and then three hostile proposers: of one row again and again, of rows without a place, and one that spends fast.
fn beside_hostile(alloc: Global, list: &[Placed]) -> Result<Vec<Box<dyn Proposer>>, Fail> {
    let mut proposers: Vec<Box<dyn Proposer>> = Vec::new(alloc);
    push_offering(alloc, &mut proposers, list, 1)?;
    push_offering(alloc, &mut proposers, ONE_ROW, 1000)?;
    push_offering(alloc, &mut proposers, USELESS, 1)?;
    proposers.push(Box::new(alloc, Spending { left: 1_000_000 })?)?;
    Ok(proposers)
}

/// Whether the safety of location 2 of the program begins with this line under the rows and the hostile proposers.
fn begins_beside_hostile(
    alloc: Global,
    list: &[Placed],
    line: &str,
    status: Status,
) -> Result<bool, Fail> {
    let proposers = beside_hostile(alloc, list)?;
    let text = Vec::from_slice(alloc, TWICE.as_bytes())?;
    let words = ["--safety", "2"];
    Ok(begins_under(alloc, &words, text, proposers, line, status)?)
}

#[test]
fn rows_are_found_beside_hostile_proposers(rt: HostRuntime) -> Result<(), Fail> {
    assert!(rt; begins_beside_hostile(rt.alloc(), BOTH_WAYS, "Proved\n", Status::Proved)?);
    Ok(())
}

#[test]
fn hostile_proposers_alone_leave_it_open(rt: HostRuntime) -> Result<(), Fail> {
    let line = "Unknown invariant\n";
    assert!(rt; begins_beside_hostile(rt.alloc(), &[], line, Status::Unknown)?);
    Ok(())
}

/// Whether it is proved with no proposer at all that every run of nested counters ends.
fn ends_unaided(alloc: Global) -> Result<bool, AllocError> {
    let text = Vec::from_slice(alloc, NESTED.as_bytes())?;
    let none = Vec::new(alloc);
    says_under(
        alloc,
        &["--termination"],
        text,
        none,
        "Proved\n",
        Status::Proved,
    )
}

#[test]
fn ranks_ask_no_proposer(rt: HostRuntime) {
    assert!(rt; ends_unaided(rt.alloc()) == Ok(true));
}
