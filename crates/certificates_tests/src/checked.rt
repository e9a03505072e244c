ghost use Rattle.std.specs.Prelude.{◌≡◌};
ghost use Rattle.tv_cases.specs.Systems.{cases_of};
ghost use Rattle.tv_cert.specs.Claims.{claim_variables};

use crate::tasks::{Task, claimed, text_of};
use crate::texts::{STANDING, STAYING};
use std::alloc::Global;
use std::test::Fail;
use tv_cert::{Failing, Kind};
use tv_cert_reader::LineKind;
use tv_check_text::{TextFailing, check_text};

// What stands last in a certificate that x stays at most 5: that the piece of the root lies in that of its child, the step that is
// chosen, and the start. Then why it is not accepted, if it is not.
const COVERS: [(&str, Option<TextFailing>); 6] = [
    ("into 0 0\nby 1 1\ntake 0 0 0\nby 1 1\nat 0 0\nend\n", None),
    (
        "into 0 0\nby 1 0\ntake 0 0 0\nby 1 1\nat 0 0\nend\n",
        Some(TextFailing::Obligation(Failing {
            number: 2,
            node: 0,
            kind: Kind::Hold,
        })),
    ),
    (
        "split 1 0\ninto 0 0\nby 1 0 1\ninto 0 0\nby 1 0 1\ntake 0 0 0\nby 1 1\nat 0 0\nend\n",
        None,
    ),
    (
        "split 1 0\nempty 0 0\ninto 0 0\nby 1 0 1\ntake 0 0 0\nby 1 1\nat 0 0\nend\n",
        Some(TextFailing::Obligation(Failing {
            number: 2,
            node: 0,
            kind: Kind::Hold,
        })),
    ),
    (
        "into 0 0\nby 1 1 1\n",
        Some(TextFailing::Line(LineKind::Shape, 13)),
    ),
    ("into 0 1\n", Some(TextFailing::Line(LineKind::Shape, 12))),
];

const CHOICES: [(&str, Option<TextFailing>); 4] = [
    (
        "into 0 0\nby 1 1\nsplit 1 0\ntake 0 0 0\nby 1 0 1\ntake 0 0 0\nby 1 0 1\nat 0 5\nend\n",
        None,
    ),
    (
        "into 0 0\nby 1 1\ntake 0 0 0\nby 0 1\nat 0 0\nend\n",
        Some(TextFailing::Obligation(Failing {
            number: 3,
            node: 0,
            kind: Kind::Choice,
        })),
    ),
    (
        "into 0 0\nby 1 1\nnostep\nempty 1\nat 0 0\nend\n",
        Some(TextFailing::Obligation(Failing {
            number: 3,
            node: 0,
            kind: Kind::Choice,
        })),
    ),
    (
        "into 0 0\nby 1 1\ntake 1 0 0\nby 1 1\n",
        Some(TextFailing::Line(LineKind::Shape, 14)),
    ),
];

fn is_told(alloc: Global, task: &Task, end: &str, wanted: Option<TextFailing>) -> Result<bool, Fail>
    requires variables { claim_variables task.now.claim ≡ (cases_of task.now.about).variables }
{
    let text = text_of(alloc, STAYING, end)?;
    let failing = check_text(alloc, &text, &task.about, &task.claim).err();
    Ok(failing == wanted)
}

#[test]
fn a_cover_is_checked(rt: HostRuntime) -> Result<(), Fail> {
    let task = claimed(rt.alloc(), STANDING, "[AF](x > 5)")?;
    for (end, wanted) in COVERS {
        assert!(rt; is_told(rt.alloc(), &task, end, wanted)?, "{end}");
    }
    Ok(())
}

#[test]
fn a_choice_is_checked(rt: HostRuntime) -> Result<(), Fail> {
    let task = claimed(rt.alloc(), STANDING, "[AF](x > 5)")?;
    for (end, wanted) in CHOICES {
        assert!(rt; is_told(rt.alloc(), &task, end, wanted)?, "{end}");
    }
    Ok(())
}
