ghost use Rattle.std.specs.Prelude.{◌≡◌};
ghost use Rattle.tv_cases.specs.Systems.{cases_of};
ghost use Rattle.tv_cert.specs.Claims.{claim_variables};

use crate::tasks::{Task, claimed, text_of};
use crate::texts::{CLIMBER, COUNTDOWN, DOWN, ENDED, ENDLESS, LOOP, NEVER_BELOW};
use std::alloc::Global;
use std::test::Fail;
use tv_cert_reader::read_certificate;
use tv_check_text::{Accepted, check_text};

/// A certificate in two parts of a property over a program, the values at which it is disproved if it is, and how many obligations it
/// has.
#[derive(Clone, Copy)]
struct Met<'a> {
    program: &'a str,
    property: &'a str,
    front: &'a str,
    end: &'a str,
    proved: bool,
    values: &'a [i128],
    obligations: u64,
}

const ALL_MET: [Met; 4] = [
    Met {
        program: COUNTDOWN,
        property: "term",
        front: ENDED,
        end: "by 1 1\ninto 0 0\nend\n",
        proved: true,
        values: &[],
        obligations: 3,
    },
    Met {
        program: CLIMBER,
        property: "term",
        front: ENDLESS,
        end: "at 0 1\nend\n",
        proved: false,
        values: &[1],
        obligations: 3,
    },
    Met {
        program: LOOP,
        property: "[AF](x <= 0)",
        front: DOWN,
        end: "by 1 1\nend\n",
        proved: true,
        values: &[],
        obligations: 7,
    },
    Met {
        program: LOOP,
        property: "[AF](x < 0)",
        front: NEVER_BELOW,
        end: "by 0 1 1\nby 0 1 1\nat 0 0\nend\n",
        proved: false,
        values: &[0],
        obligations: 4,
    },
];

fn says(accepted: &Accepted, wanted: &Met) -> bool {
    accepted.proved == wanted.proved
        && accepted.values.as_slice() == wanted.values
        && accepted.obligations == wanted.obligations
}

fn is_accepted(alloc: Global, task: &Task, wanted: &Met) -> Result<bool, Fail>
    requires variables { claim_variables task.now.claim ≡ (cases_of task.now.about).variables }
{
    let text = text_of(alloc, wanted.front, wanted.end)?;
    match check_text(alloc, &text, &task.about, &task.claim) {
        Ok(accepted) => Ok(says(&accepted, wanted)),
        Err(_) => Err(Fail::from("it is met")),
    }
}

fn is_read(alloc: Global, task: &Task, wanted: &Met) -> Result<bool, Fail>
    requires variables { claim_variables task.now.claim ≡ (cases_of task.now.about).variables }
{
    let text = text_of(alloc, wanted.front, wanted.end)?;
    match read_certificate(alloc, &text, &task.about, &task.claim) {
        Ok(certificate) => Ok(certificate.obligations() == wanted.obligations),
        Err(_) => Err(Fail::from("it is a certificate")),
    }
}

fn holds(alloc: Global, met: &Met) -> Result<bool, Fail> {
    let task = claimed(alloc, met.program, met.property)?;
    Ok(is_accepted(alloc, &task, met)? && is_read(alloc, &task, met)?)
}

#[test]
fn what_is_met_is_accepted(rt: HostRuntime) -> Result<(), Fail> {
    for met in ALL_MET {
        assert!(rt; holds(rt.alloc(), &met)?);
    }
    Ok(())
}
