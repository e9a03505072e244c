use crate::texts::{Asked, expect_said, says, says_of};
use crate::words::{COUNTDOWN, MISSING, UNKNOWN};
use std::alloc::{AllocError, Global};
use tv_top::Status;

/// Texts of programs, and the line for what is at fault in each.
const TEXTS: &[Asked] = &[
    (
        CHECKED,
        &["START: 0; FROM: 0; assume(x"],
        "Refused text syntax line 1 column 28\n",
        Status::Refused,
    ),
    (CHECKED, &[""], "Refused text no start\n", Status::Refused),
    (
        CHECKED,
        &["START: 0; FROM: 0; TO: 1; FROM: 1; assume(x > 0); x := x * y; TO: 1;"],
        "Refused text not linear line 1 column 60\n",
        Status::Refused,
    ),
    (
        CHECKED,
        &["START: 0; FROM: 0; assume(x > 4611686018427387904); TO: 0;"],
        "Refused text wide line 1 column 31\n",
        Status::Refused,
    ),
    (
        CHECKED,
        &["START: 0; START: 0;"],
        "Refused text two starts line 1 column 11\n",
        Status::Refused,
    ),
    (
        CHECKED,
        &["START: 0; FROM: 0; x := 4611686018427387903 * 2; TO: 0;"],
        "Refused text wide edge 0\n",
        Status::Refused,
    ),
    (
        CHECKED,
        &[
            "START: 0; FROM: 0; assume(x != 0); assume(x != 0); assume(x != 0); assume(x != 0); assume(x != 0); assume(x != 0); assume(x != 0); assume(x != 0); assume(x != 0); assume(x != 0); assume(x != 0); assume(x != 0); assume(x != 0); assume(x != 0); TO: 0;",
        ],
        "Refused text too many edge 0\n",
        Status::Refused,
    ),
    (
        CHECKED,
        &[
            "START: 0; FROM: 0; x := ((((((((((((((((((((((((((((((((((((((((((((((((((((((((((((((((( 1",
        ],
        "Refused text deep line 1 column 89\n",
        Status::Refused,
    ),
    (
        CHECKED,
        &[
            "START: 0; FROM: 0; x := nondet()+nondet()+nondet()+nondet()+nondet()+nondet()+nondet()+nondet()+nondet()+nondet()+nondet()+nondet()+nondet()+nondet()+nondet()+nondet()+nondet()+nondet()+nondet()+nondet()+nondet()+nondet()+nondet()+nondet()+nondet()+nondet()+nondet()+nondet()+nondet()+nondet()+nondet()+nondet()+nondet()+nondet()+nondet()+nondet()+nondet()+nondet()+nondet()+nondet()+nondet()+nondet()+nondet()+nondet()+nondet()+nondet()+nondet()+nondet()+nondet()+nondet()+nondet()+nondet()+nondet()+nondet()+nondet()+nondet()+nondet()+nondet()+nondet()+nondet()+nondet()+nondet()+nondet()+nondet()+nondet()",
        ],
        "Refused text too many draws line 1 column 601\n",
        Status::Refused,
    ),
];

#[test]
fn faults_of_texts_are_told(rt: HostRuntime) {
    expect_said(&rt, rt.alloc(), TEXTS);
}

/// Formulas over the countdown, and the line for what is at fault in each.
const FORMULAS: &[Asked] = &[
    (
        &["--check", "--ctl", ""],
        &[COUNTDOWN],
        "Refused property syntax column 1\n",
        Status::Refused,
    ),
    (
        &["--check", "--ctl", "x > "],
        &[COUNTDOWN],
        "Refused property syntax column 5\n",
        Status::Refused,
    ),
    (
        &["--check", "--ctl", "[AF]x > 0"],
        &[COUNTDOWN],
        "Refused property syntax column 5\n",
        Status::Refused,
    ),
    (
        &["--check", "--ctl", "[AX](x == nondet())"],
        &[COUNTDOWN],
        "Refused property syntax column 11\n",
        Status::Refused,
    ),
    (
        &["--check", "--ctl", "true ?"],
        &[COUNTDOWN],
        "Refused property syntax column 6\n",
        Status::Refused,
    ),
    (
        &["--check", "--ctl", "z > 0"],
        &[COUNTDOWN],
        "Refused property unknown name column 1\n",
        Status::Refused,
    ),
    (
        &["--check", "--ctl", "at(2)"],
        &[COUNTDOWN],
        "Refused property unknown name column 4\n",
        Status::Refused,
    ),
    (
        &["--check", "--ctl", "at(0) && [AG](!at(00))"],
        &[COUNTDOWN],
        "Refused property unknown name column 19\n",
        Status::Refused,
    ),
    (
        &["--check", "--ctl", "x * x > 0"],
        &[COUNTDOWN],
        "Refused property not linear column 5\n",
        Status::Refused,
    ),
    (
        &["--check", "--ctl", "x > 4611686018427387904"],
        &[COUNTDOWN],
        "Refused property wide column 5\n",
        Status::Refused,
    ),
    (
        &[
            "--check",
            "--ctl",
            "(((((((((((((((((((((((((((((((((((((((((((((((((((((((((((((((((",
        ],
        &[COUNTDOWN],
        "Refused property deep column 65\n",
        Status::Refused,
    ),
];

#[test]
fn faults_of_formulas_are_told(rt: HostRuntime) {
    expect_said(&rt, rt.alloc(), FORMULAS);
}

/// A word of `count` blanks.
fn blanks(alloc: Global, count: u32) -> Result<String, AllocError> {
    let mut word = String::new(alloc);
    for _ in 0..count {
        word.push(' ')?;
    }
    Ok(word)
}

/// A formula of `count` blanks over the countdown: whether this line is written.
fn says_of_blanks(alloc: Global, count: u32, line: &str) -> Result<bool, AllocError> {
    let formula = blanks(alloc, count)?;
    let words = ["--check", "--ctl", formula.as_str()];
    says_of(alloc, &words, &[COUNTDOWN], line, Status::Refused)
}

// As many bytes as a formula may have, and one more.
#[test]
fn formulas_keep_their_length(rt: HostRuntime) {
    let syntax = "Refused property syntax column 65537\n";
    let most = says_of_blanks(rt.alloc(), 65536, syntax);
    let more = says_of_blanks(rt.alloc(), 65537, "Refused property too long\n");
    assert!(rt; most == Ok(true) && more == Ok(true));
}

const WIDE_EDGE: &str = "START: 0; FROM: 0; x := 4611686018427387903 * 2; TO: 0;";

const WORDS: &str = "Refused words\n";

/// Words and a text with two faults, the line for the first, and the status: words, text, property, cases, certificate.
const TWO_FAULTS: &[Asked] = &[
    (&["--check"], &[""], WORDS, Status::Refused),
    (
        &["--check", "--ctl", "x >"],
        &[""],
        NO_START,
        Status::Refused,
    ),
    (
        &["--check", "--safety", "9"],
        &[WIDE_EDGE],
        UNKNOWN,
        Status::Refused,
    ),
    (
        &["--check", "--ctl", "x >"],
        &[WIDE_EDGE],
        "Refused property syntax column 4\n",
        Status::Refused,
    ),
    (
        &["--check", "--ctl", "x > 0"],
        &[WIDE_EDGE],
        "Refused text wide edge 0\n",
        Status::Refused,
    ),
    (
        &["--check", "--termination"],
        &[WIDE_EDGE],
        "Refused text wide edge 0\n",
        Status::Refused,
    ),
    (
        &["--check", "--ctl", "x > 0"],
        &[COUNTDOWN],
        MISSING,
        Status::CertificateRefused,
    ),
];

#[test]
fn the_first_fault_in_the_order_of_work_is_told(rt: HostRuntime) {
    expect_said(&rt, rt.alloc(), TWO_FAULTS);
}

const CHECKED: &[&str] = &["--check", "--safety", "0"];

const NO_START: &str = "Refused text no start\n";

const TOO_LONG: &str = "Refused text too long\n";

/// Whether `length` blanks are answered with this line.
fn says_of_text(
    alloc: Global,
    words: &[&str],
    length: usize,
    line: &str,
) -> Result<bool, AllocError> {
    let blanks = vec![in alloc; b' '; length]?;
    says(alloc, words, blanks, line, Status::Refused)
}

#[test]
fn as_many_bytes_as_may_be_are_read(rt: HostRuntime) {
    assert!(rt; says_of_text(rt.alloc(), CHECKED, 16777216, NO_START) == Ok(true));
}

#[test]
fn one_byte_more_is_too_long(rt: HostRuntime) {
    assert!(rt; says_of_text(rt.alloc(), CHECKED, 16777217, TOO_LONG) == Ok(true));
}

#[test]
fn a_program_alone_is_shorter(rt: HostRuntime) {
    let words = ["--termination"];
    let most = says_of_text(rt.alloc(), &words, 1048576, NO_START);
    let more = says_of_text(rt.alloc(), &words, 1048577, TOO_LONG);
    assert!(rt; most == Ok(true) && more == Ok(true));
}
