use std::alloc::{AllocError, Global};
use tv_text::{MemSink, MemSource};
use tv_top::{Status, generated, run};

/// Whether a run with the words ends so and writes this, though each call of the source fails.
fn says_unread(
    alloc: Global,
    words: &[&str],
    written: &str,
    status: Status,
) -> Result<bool, AllocError> {
    let fails = vec![in alloc; 1]?;
    let mut source = MemSource::new(Vec::new(alloc), 1, fails);
    let mut sink = MemSink::new(alloc, 100, 4096, Vec::new(alloc))?;
    let found = run(alloc, words, &mut source, &mut sink, Vec::new(alloc));
    Ok(found == status && sink.written() == written.as_bytes())
}

/// Words that ask about a program that is made, what is written, and the status.
const MADE: &[(&[&str], &str, Status)] = &[
    (
        &["--generate", "1"],
        "Proved\nloops 1\ncases 2\nobligations 3\n",
        Status::Proved,
    ),
    (
        &["--generate", "3"],
        "Proved\nloops 3\ncases 6\nobligations 7\n",
        Status::Proved,
    ),
    (
        &["--generate=1000"],
        "Proved\nloops 1000\ncases 2000\nobligations 2001\n",
        Status::Proved,
    ),
    (
        &["--generate", "3", "--pivots", "1"],
        "Unknown pivots\nsystem rank 1 0 4 bases 1\n",
        Status::Unknown,
    ),
];

#[test]
fn a_program_that_is_made_needs_no_source(rt: HostRuntime) {
    for (words, written, status) in MADE {
        let is_said = says_unread(rt.alloc(), words, written, *status);
        assert!(rt; is_said == Ok(true), "{words:?}");
    }
}

const TWO_LOOPS: &str = "START: 0;
FROM: 0;
assume(a > 0);
a := a - 1;
TO: 0;
FROM: 0;
assume(a <= 0);
a := nondet();
TO: 1;
FROM: 1;
assume(a > 0);
a := a - 1;
TO: 1;
FROM: 1;
assume(a <= 0);
a := nondet();
TO: 2;
";

fn has_two_loops(alloc: Global) -> Result<bool, AllocError> {
    let text = generated(alloc, 2)?;
    Ok(text.as_slice() == TWO_LOOPS.as_bytes())
}

#[test]
fn a_program_of_two_loops_is_made(rt: HostRuntime) {
    assert!(rt; has_two_loops(rt.alloc()) == Ok(true));
}
