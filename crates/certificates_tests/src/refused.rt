ghost use Rattle.std.specs.Prelude.{◌≡◌};
ghost use Rattle.tv_cases.specs.Systems.{cases_of};
ghost use Rattle.tv_cert.specs.Claims.{claim_variables};

use crate::tasks::{Task, claimed, text_of};
use crate::texts::{CLIMBER, COUNTDOWN, DOWN, ENDED, ENDLESS, LOOP, NEVER_BELOW};
use std::alloc::Global;
use std::test::Fail;
use tv_cert::{Failing, Kind};
use tv_cert_reader::{LineKind, read_certificate};
use tv_check_text::{TextFailing, check_text};

/// A certificate in two parts of a property over a program, and why it is not accepted. A line comes before an obligation.
#[derive(Clone, Copy)]
struct Unmet<'a> {
    program: &'a str,
    property: &'a str,
    front: &'a str,
    end: &'a str,
    wanted: TextFailing,
}

const COUNTDOWNS: [Unmet; 4] = [
    Unmet {
        program: COUNTDOWN,
        property: "term",
        front: ENDED,
        end: "by 2 1\ninto 0 0\nend\n",
        wanted: TextFailing::Obligation(Failing {
            number: 2,
            node: 0,
            kind: Kind::Step,
        }),
    },
    Unmet {
        program: COUNTDOWN,
        property: "term",
        front: ENDED,
        end: "by 2 1\ninto 0 0\n",
        wanted: TextFailing::Line(LineKind::Syntax, 18),
    },
    Unmet {
        program: COUNTDOWN,
        property: "term",
        front: ENDED,
        end: "by 2 1\ninto 1 0\nend\n",
        wanted: TextFailing::Line(LineKind::Shape, 17),
    },
    Unmet {
        program: COUNTDOWN,
        property: "term",
        front: ENDED,
        end: "by 2 1\ninto 0 4611686018427387904\nend\n",
        wanted: TextFailing::Line(LineKind::Wide, 17),
    },
];

const OTHERS: [Unmet; 5] = [
    Unmet {
        program: CLIMBER,
        property: "term",
        front: ENDLESS,
        end: "at 0 0\nend\n",
        wanted: TextFailing::Obligation(Failing {
            number: 3,
            node: 0,
            kind: Kind::Root,
        }),
    },
    Unmet {
        program: CLIMBER,
        property: "term",
        front: ENDLESS,
        end: "at 1 1\nend\n",
        wanted: TextFailing::Line(LineKind::Shape, 13),
    },
    // The case that is taken last leaves another location.
    Unmet {
        program: CLIMBER,
        property: "term",
        front: "T2CERT 1\ndisproved\nnode noterm 2 0\npiece 0 go 1\nrow -1 1\npiece 1 go 1\nrow -1 1\ntake 0 0 0\nby 1 1\ntake 0 0 0\nby 1 1\n",
        end: "at 0 1\nend\n",
        wanted: TextFailing::Line(LineKind::Shape, 10),
    },
    Unmet {
        program: LOOP,
        property: "[AF](x < 0)",
        front: NEVER_BELOW,
        end: "by 0 0 1\nby 0 0 1\nat 0 -1\nend\n",
        wanted: TextFailing::Obligation(Failing {
            number: 3,
            node: 0,
            kind: Kind::Choice,
        }),
    },
    Unmet {
        program: LOOP,
        property: "[AF](x <= 0)",
        front: DOWN,
        end: "by 0 1\nend\n",
        wanted: TextFailing::Obligation(Failing {
            number: 7,
            node: 0,
            kind: Kind::Root,
        }),
    },
];

fn is_refused(alloc: Global, task: &Task, unmet: &Unmet) -> Result<bool, Fail>
    requires variables { claim_variables task.now.claim ≡ (cases_of task.now.about).variables }
{
    let text = text_of(alloc, unmet.front, unmet.end)?;
    match check_text(alloc, &text, &task.about, &task.claim) {
        Ok(_) => Err(Fail::from("it is not met")),
        Err(failing) => Ok(failing == unmet.wanted),
    }
}

/// Whether it is read exactly where an obligation is at fault and no line is.
fn is_read_where_it_may_be(alloc: Global, task: &Task, unmet: &Unmet) -> Result<bool, Fail>
    requires variables { claim_variables task.now.claim ≡ (cases_of task.now.about).variables }
{
    let text = text_of(alloc, unmet.front, unmet.end)?;
    let is_read = read_certificate(alloc, &text, &task.about, &task.claim).is_ok();
    Ok(is_read == matches!(unmet.wanted, TextFailing::Obligation(_)))
}

/// Whether each is refused as is wanted, and read where it may be.
fn are_refused(alloc: Global, list: &[Unmet]) -> Result<bool, Fail> {
    for unmet in list {
        let task = claimed(alloc, unmet.program, unmet.property)?;
        if !is_refused(alloc, &task, unmet)? || !is_read_where_it_may_be(alloc, &task, unmet)? {
            return Ok(false);
        }
    }
    Ok(true)
}

#[test]
fn other_countdowns_are_refused(rt: HostRuntime) -> Result<(), Fail> {
    assert!(rt; are_refused(rt.alloc(), &COUNTDOWNS)?);
    Ok(())
}

#[test]
fn what_is_not_met_is_refused(rt: HostRuntime) -> Result<(), Fail> {
    assert!(rt; are_refused(rt.alloc(), &OTHERS)?);
    Ok(())
}
