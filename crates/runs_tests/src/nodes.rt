ghost use Rattle.std.specs.Prelude.{◌≡◌, ◌<◌, ◌≤◌, ◌-◌, ◌^◌, length};
ghost use Rattle.tv_program.specs.Programs.{system_of};
ghost use Rattle.tv_cases.specs.Answers.{IsOfProgram, HaveSameSteps};
ghost use Rattle.tv_cases.specs.Systems.{cases_of};
ghost use Rattle.tv_cert.specs.Claims.{claim_variables};

use crate::words::COUNTDOWN;
use std::alloc::Global;
use std::test::Fail;
use tv_cases::{Cases, cases};
use tv_cert::{Claim, Failing, Kind};
use tv_cert_reader::read_certificate;
use tv_cert_spelling::write_certificate;
use tv_formula_reader::read_formula;
use tv_program::Program;
use tv_reader::read_program;
use tv_sound::check_claim;

/// Counts x up for ever, once it is above 0.
const CLIMBER: &str = "START: 0; FROM: 0; TO: 1; FROM: 1; assume(x > 0); x := x + 1; TO: 1;";

/// Counts x down at its one location.
const LOOP: &str = "START: 0; FROM: 0; assume(x > 0); x := x - 1; TO: 0;";

/// Draws a number, while the last one was above 0.
const DRAWING: &str = "START: 0; FROM: 0; assume(x > 0); x := nondet(); TO: 0;";

/// A program, a property of it, the text of a certificate of that, and what the check of the certificate answers.
const ROWS: &[(&str, &str, &str, Result<(), Failing>)] = &[
    (
        COUNTDOWN,
        "term",
        "T2CERT 1\nproved\nnode term 2 2\npiece 0 go 0\nrank 0 1\nrank 0 0\npiece 1 go 0\nrank 0 0\nrank 1 0\ninto 0 1\nby 1\nby 1\ninto 0 2\nby 0 1\nby 0 1\nby 1 1\ninto 0 0\nend\n",
        Ok(()),
    ),
    (
        COUNTDOWN,
        "term",
        "T2CERT 1\nproved\nnode term 2 2\npiece 0 go 0\nrank 0 1\nrank 0 0\npiece 1 go 0\nrank 0 0\nrank 1 0\ninto 0 1\nby 1\nby 1\ninto 0 2\nby 0 1\nby 0 1\nby 2 1\ninto 0 0\nend\n",
        Err(Failing {
            number: 2,
            node: 0,
            kind: Kind::Step,
        }),
    ),
    (
        COUNTDOWN,
        "term",
        "T2CERT 1\nproved\nnode term 2 2\npiece 0 go 0\nrank 0 1\nrank 0 0\npiece 1 go 0\nrank 0 0\nrank 1 0\ninto 0 1\nby 1\nby 1\ninto 0 2\nby 0 1\nby 0 1\nby 1 -1\ninto 0 0\nend\n",
        Err(Failing {
            number: 2,
            node: 0,
            kind: Kind::Step,
        }),
    ),
    (
        CLIMBER,
        "term",
        "T2CERT 1\ndisproved\nnode noterm 2 0\npiece 0 go 1\nrow -1 1\npiece 1 go 1\nrow -1 1\ntake 0 0 0\nby 1 1\ntake 1 0 0\nby 1 1\nby 1 1\nat 0 1\nend\n",
        Ok(()),
    ),
    (
        CLIMBER,
        "term",
        "T2CERT 1\ndisproved\nnode noterm 2 0\npiece 0 go 1\nrow -1 1\npiece 1 go 1\nrow -1 1\ntake 0 0 0\nby 1 1\ntake 1 0 0\nby 1 1\nby 0 1\nat 0 1\nend\n",
        Err(Failing {
            number: 2,
            node: 0,
            kind: Kind::Choice,
        }),
    ),
    (
        CLIMBER,
        "term",
        "T2CERT 1\ndisproved\nnode noterm 2 0\npiece 0 go 1\nrow -1 1\npiece 1 go 1\nrow -1 1\ntake 0 0 0\nby 1 1\ntake 1 0 0\nby 1 1\nby 1 1\nat 0 0\nend\n",
        Err(Failing {
            number: 3,
            node: 0,
            kind: Kind::Root,
        }),
    ),
    (
        LOOP,
        "[AF](x <= 0)",
        "T2CERT 1\nproved\nnode fix 2 1\npiece 0 done 1\nrow 1 0\npiece 0 go 1\nrow -1 1\nrank 1 0\nnode atom 1 0\npiece 0 go 0\ninto 0 0\nnode atom 1 0\npiece 0 go 1\nrow 1 0\ninto 0 0\nby 1 1\ninto 0 0\nby 1 1\ninto 0 0\ntake 0 0 0\nby 1 1\nsplit 1 -1\ninto 0 0\nby 0 0 1 1\ninto 1 1\nby 0 0 1 1\nby 0 0 0 1\nby 1 0 0 1\nsplit 1 0\ninto 0 0\nby 1 1\ninto 1 0\nby 1 1\nend\n",
        Ok(()),
    ),
    (
        LOOP,
        "[AF](x <= 0)",
        "T2CERT 1\nproved\nnode fix 2 1\npiece 0 done 1\nrow 1 0\npiece 0 go 1\nrow -1 1\nrank 1 0\nnode atom 1 0\npiece 0 go 0\ninto 0 0\nnode atom 1 0\npiece 0 go 1\nrow 1 0\ninto 0 0\nby 1 1\ninto 0 0\nby 1 1\ninto 0 0\ntake 0 0 0\nby 0 1\nsplit 1 -1\ninto 0 0\nby 0 0 1 1\ninto 1 1\nby 0 0 1 1\nby 0 0 0 1\nby 1 0 0 1\nsplit 1 0\ninto 0 0\nby 1 1\ninto 1 0\nby 1 1\nend\n",
        Err(Failing {
            number: 5,
            node: 0,
            kind: Kind::Successor,
        }),
    ),
    (
        LOOP,
        "at(0) && (x > 0 || x <= 0)",
        "T2CERT 1\nproved\nnode and 1 0\npiece 0 go 0\nnode atom 1 0\npiece 0 go 0\ninto 0 0\nnode or 1 0\npiece 0 go 0\nnode atom 1 0\npiece 0 go 1\nrow -1 1\ninto 0 0\nby 1 1\nnode atom 1 0\npiece 0 go 1\nrow 1 0\ninto 0 0\nby 1 1\nsplit -1 1\ninto 0 0\nby 1 1\ninto 1 0\nby 1 1\ninto 0 0\ninto 0 0\ninto 0 0\nend\n",
        Ok(()),
    ),
    (
        LOOP,
        "at(0) && (x > 0 || x <= 0)",
        "T2CERT 1\nproved\nnode and 1 0\npiece 0 go 0\nnode atom 1 0\npiece 0 go 0\ninto 0 0\nnode or 1 0\npiece 0 go 0\nnode atom 1 0\npiece 0 go 1\nrow -1 1\ninto 0 0\nby 1 1\nnode atom 1 0\npiece 0 go 1\nrow 1 0\ninto 0 0\nby 1 1\nsplit -1 1\ninto 0 0\nby 1 0\ninto 1 0\nby 1 0\ninto 0 0\ninto 0 0\ninto 0 0\nend\n",
        Err(Failing {
            number: 4,
            node: 2,
            kind: Kind::Child,
        }),
    ),
    (
        COUNTDOWN,
        "[EX](at(1)) && [AX](at(1))",
        "T2CERT 1\nproved\nnode and 1 0\npiece 0 go 0\nnode next 1 0\npiece 0 go 0\nnode atom 1 0\npiece 1 go 0\ninto 0 0\ntake 0 0 0\nnode next 1 0\npiece 0 go 0\nnode atom 1 0\npiece 1 go 0\ninto 0 0\ninto 0 0\ninto 0 0\ninto 0 0\ninto 0 0\nend\n",
        Ok(()),
    ),
    (
        COUNTDOWN,
        "[EF](at(1))",
        "T2CERT 1\nproved\nnode fix 2 1\npiece 0 go 0\nrank 0 0\npiece 1 done 0\nnode atom 1 0\npiece 0 go 0\ninto 0 0\nnode atom 1 0\npiece 1 go 0\ninto 0 0\ninto 0 0\ntake 0 0 0\ninto 0 0\ninto 0 0\nend\n",
        Ok(()),
    ),
    (
        COUNTDOWN,
        "[EF](at(1))",
        "T2CERT 1\nproved\nnode fix 2 1\npiece 0 go 0\nrank 0 0\npiece 1 done 0\nnode atom 1 0\npiece 0 go 0\ninto 0 0\nnode atom 1 0\npiece 1 go 1\nrow 1 0\ninto 0 0\ninto 0 0\ntake 0 0 0\ninto 0 0\nby 1\ninto 0 0\nend\n",
        Err(Failing {
            number: 5,
            node: 0,
            kind: Kind::Done,
        }),
    ),
    (
        LOOP,
        "[EG](at(0))",
        "T2CERT 1\nproved\nnode fix 1 0\npiece 0 go 0\nnode atom 1 0\npiece 0 go 0\ninto 0 0\nnode atom 0 0\ninto 0 0\nsplit -1 1\ntake 0 0 0\nby 1 1\nnostep\nempty 1 1\ninto 0 0\nend\n",
        Ok(()),
    ),
    (
        LOOP,
        "[EG](at(0))",
        "T2CERT 1\nproved\nnode fix 1 0\npiece 0 go 0\nnode atom 1 0\npiece 0 go 0\ninto 0 0\nnode atom 0 0\ninto 0 0\nsplit -1 1\ntake 0 0 0\nby 1 1\nnostep\nempty 1 0\ninto 0 0\nend\n",
        Err(Failing {
            number: 3,
            node: 0,
            kind: Kind::Choice,
        }),
    ),
    // A state from which a number may be drawn does not stop.
    (
        DRAWING,
        "[EG](at(0))",
        "T2CERT 1\nproved\nnode fix 1 0\npiece 0 go 1\nrow -1 1\nnode atom 1 0\npiece 0 go 0\ninto 0 0\nnode atom 0 0\ninto 0 0\nnostep\nempty 1 1\ninto 0 0\nby 1\nend\n",
        Err(Failing {
            number: 3,
            node: 0,
            kind: Kind::Choice,
        }),
    ),
    (
        LOOP,
        "[AR](false)(at(0))",
        "T2CERT 1\nproved\nnode fix 1 0\npiece 0 go 0\nnode atom 0 0\nnode atom 1 0\npiece 0 go 0\ninto 0 0\ninto 0 0\ninto 0 0\ninto 0 0\nend\n",
        Ok(()),
    ),
    (
        LOOP,
        "[AR](false)(at(0))",
        "T2CERT 1\nproved\nnode fix 1 0\npiece 0 go 0\nnode atom 0 0\nnode atom 1 0\npiece 0 go 1\nrow 1 0\ninto 0 0\ninto 0 0\nby 1\ninto 0 0\ninto 0 0\nend\n",
        Err(Failing {
            number: 2,
            node: 0,
            kind: Kind::Hold,
        }),
    ),
    (
        LOOP,
        "x == 3",
        "T2CERT 1\ndisproved\nnode atom 1 0\npiece 0 go 1\nrow 1 -2\ninto 0 0\nby 1 1\nat 0 0\nend\n",
        Ok(()),
    ),
    (
        LOOP,
        "x == 3",
        "T2CERT 1\ndisproved\nnode atom 1 0\npiece 0 go 1\nrow -1 4\ninto 1 0\nby 1 1\nat 0 4\nend\n",
        Ok(()),
    ),
    (
        LOOP,
        "x == 3",
        "T2CERT 1\ndisproved\nnode atom 1 0\npiece 0 go 1\nrow 1 -2\ninto 1 0\nby 1 1\nat 0 0\nend\n",
        Err(Failing {
            number: 1,
            node: 0,
            kind: Kind::Atom,
        }),
    ),
    (
        LOOP,
        "x == 3",
        "T2CERT 1\ndisproved\nnode atom 1 0\npiece 0 go 1\nrow 1 -2\ninto 0 0\nby 1 1\nat 0 3\nend\n",
        Err(Failing {
            number: 2,
            node: 0,
            kind: Kind::Root,
        }),
    ),
];

/// What the check of the certificate answers, and whether the certificate is written as its text is.
type Checked = (Result<(), Failing>, bool);

fn of_text(
    alloc: Global,
    program: &Program,
    about: &Cases,
    claim: &Claim,
    text: &[u8],
) -> Result<Checked, Fail>
    requires same_program { IsOfProgram (system_of program.now) (cases_of about.now) }
    requires same_steps { HaveSameSteps (system_of program.now) (cases_of about.now) }
    requires variables { claim_variables claim.now ≡ (cases_of about.now).variables }
    requires bounded { length text.now < 2 ^ 32 - 1 }
{
    let certificate = read_certificate(alloc, text, about, claim)?;
    let answer = check_claim(program, about, claim, &certificate);
    let written = write_certificate(alloc, &certificate)?;
    Ok((answer, written.as_slice() == text))
}

fn of_claim(alloc: Global, program: &Program, claim: &Claim, text: &[u8]) -> Result<Checked, Fail>
    requires variables { claim_variables claim.now ≡ length (system_of program.now).variables }
    requires bounded { length text.now < 2 ^ 32 - 1 }
{
    match cases(alloc, program) {
        Ok(about) => of_text(alloc, program, &about, claim, text),
        Err(_) => Err(Fail::from("cases")),
    }
}

fn of_program(
    alloc: Global,
    program: &Program,
    property: &[u8],
    text: &[u8],
) -> Result<Checked, Fail>
    requires short { length property.now ≤ 65536 }
    requires bounded { length text.now < 2 ^ 32 - 1 }
{
    let property = read_formula(alloc, property, program)?;
    let claim = Claim::new(alloc, &property)?;
    of_claim(alloc, program, &claim, text)
}

fn checked(alloc: Global, program: &str, property: &str, text: &str) -> Result<Checked, Fail> {
    if program.len() > 65536 || property.len() > 65536 {
        return Err(Fail::from("too long"));
    }
    if text.len() > 65536 {
        return Err(Fail::from("too long"));
    }
    let program = read_program(alloc, program.as_bytes())?;
    of_program(alloc, &program, property.as_bytes(), text.as_bytes())
}

#[test]
fn nodes_of_each_kind_are_checked(rt: HostRuntime) -> Result<(), Fail> {
    for (program, property, text, wanted) in ROWS {
        let (answer, is_same) = checked(rt.alloc(), program, property, text)?;
        assert!(rt; is_same && answer == *wanted, "{property} {text}");
    }
    Ok(())
}
