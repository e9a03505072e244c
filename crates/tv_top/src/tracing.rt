// What is written of a run that never ends.

ghost use Rattle.std.specs.Prelude.{◌≡◌, ◌+◌, ◌<◌, ◌++◌, IfOk, OnOk, drop, get_or, length, string_bytes, codes, decimal, [], ◌∷◌};
ghost use Rattle.tv_program.specs.Programs.{system_of};
ghost use Rattle.tv_cases.specs.Systems.{cases_of};
ghost use Rattle.tv_shape.specs.Certificates.{IsSettling};
ghost use Rattle.tv_top.specs.Searching.{IsOfOne};
ghost use Rattle.tv_top.specs.Traces.{state_line, state_lines, wide_line, IsTraceText, IsRunText};

use crate::cause_lines::{append, append_values};
use crate::finding::is_termination;
use crate::search::Search;
use itoa::Buffer;
use std::alloc::{AllocError, Global};
use tv_cert::Verdict;
use tv_program::Program;
use tv_shape::Certificate;
use tv_trace::{Shown, TraceFault, trace};

/// The label of the location with the number, if there is one.
fn label_at(program: &Program, location: u32) -> &[u8]
    ensures { result.now ≡ get_or (system_of program.now).locations location [] }
{
    let labels = program.locations();
    if location < labels.len() {
        labels.text(location)
    } else {
        &[]
    }
}

/// The line of a state is added.
fn append_line(
    out: &mut Vec<u8>,
    program: &Program,
    number: usize,
    state: &Shown,
) -> Result<(), AllocError>
    ensures { OnOk result (out.new.items ≡ out.old.items ++ state_line (system_of program.now).locations number state.now) }
{
    let mut digits = Buffer::new();
    append(out, "trace ")?;
    append(out, digits.format(number))?;
    append(out, " ")?;
    out.extend_from_slice(label_at(program, state.location))?;
    append_values(out, &state.values)
}

/// The line of the state at this place is added.
fn append_state(
    out: &mut Vec<u8>,
    program: &Program,
    number: usize,
    shown: &[Shown],
) -> Result<(), AllocError>
    requires { number < length shown.now }
    ensures { let labels = (system_of program.now).locations in
        let lines = state_lines labels number (drop number shown.now) in
        let later = state_lines labels (number + 1) (drop (number + 1) shown.now) in
        OnOk result (out.new.items ++ later ≡ out.old.items ++ lines) }
{
    append_line(out, program, number, &shown[number])
}

/// A line for each state is added.
fn append_states(out: &mut Vec<u8>, program: &Program, shown: &[Shown]) -> Result<(), AllocError>
    ensures { OnOk result (out.new.items ≡ out.old.items ++ state_lines (system_of program.now).locations 0 shown.now) }
{
    for number in 0..shown.len() {
        append_state(out, program, number, shown)?;
    }
    Ok(())
}

/// The line after the last state is added: a number of the next step is too wide.
fn append_wide(out: &mut Vec<u8>, number: usize) -> Result<(), AllocError>
    ensures { OnOk result (out.new.items ≡ out.old.items ++ wide_line number) }
{
    let mut digits = Buffer::new();
    append(out, "trace ")?;
    append(out, digits.format(number))?;
    append(out, " wide\n")
}

/// What is written of the states that are shown.
fn trace_text(
    alloc: Global,
    program: &Program,
    traced: Result<Vec<Shown>, TraceFault>,
) -> Result<Vec<u8>, AllocError>
    ensures { IfOk result (λ text. IsTraceText (system_of program.now).locations traced text.items) }
{
    let mut out = Vec::new(alloc);
    match traced {
        Ok(shown) => append_states(&mut out, program, &shown)?,
        Err(TraceFault::Wide { shown }) => {
            append_states(&mut out, program, &shown)?;
            append_wide(&mut out, shown.len())?;
        }
        Err(TraceFault::Memory) => return Err(AllocError),
    }
    Ok(out)
}

/// The first states of the endless run that the certificate leads along, at most `count`, where it says that not all runs end.
pub(crate) fn run_text(
    alloc: Global,
    search: &Search,
    certificate: &Certificate,
    count: u32,
) -> Result<Vec<u8>, AllocError>
    requires one { IsOfOne search.now }
    requires settling { IsSettling (cases_of search.now.about.now) search.now.claim.now certificate.now }
    ensures { let p = system_of search.now.program.now in
        IfOk result (λ text. IsRunText p (cases_of search.now.about.now) search.now.claim.now certificate.now count text.items) }
{
    if !is_termination(search.claim.proved()) {
        return Ok(Vec::new(alloc));
    }
    match certificate.verdict() {
        Verdict::Proved(_) => Ok(Vec::new(alloc)),
        Verdict::Disproved { .. } => trace_text(
            alloc,
            search.program,
            trace(
                alloc,
                search.program,
                search.about,
                search.claim,
                certificate,
                count,
            ),
        ),
    }
}
