ghost use Rattle.std.specs.Prelude.{◌≡◌, ℕ, ◌-◌, ◌<◌, ◌≤◌, ◌^◌, List, map, length, None, Some};
ghost use Rattle.tv_text.specs.Stream.{Rose};
ghost use Rattle.tv_top.specs.Answers.{without_cases, without_property};
ghost use Rattle.tv_top.specs.Generated.{generated_text};
ghost use Rattle.tv_top.specs.Tasks.{made_loops, task_of};
ghost use Rattle.tv_top.specs.Views.{task_view};
ghost use Rattle.tv_top.specs.Finding.{offers_of};
ghost use Rattle.tv_top.specs.Headline.{most_bytes, AreTexts, Means, IsAnswer, Concludes};

use crate::answer::Answer;
use crate::certificate_check::check_certificate;
use crate::finding::find;
use crate::making::generated;
use crate::property::property;
use crate::status::Status;
use crate::task::{Task, has_certificates};
use crate::visiting::visited;
use crate::wanted::{Loops, Wanted};
use std::alloc::Global;
use tv_cases::{CaseFault, cases};
use tv_formula_reader::FormulaFault;
use tv_interleave::{TextFault, read_text};
use tv_propose::Proposer;
use tv_text::{ReadError, Sink, Source, read_all, split_texts, write_all};

/// How many bytes are read at most, of a program and a certificate.
const LIMIT: usize = 16_777_216;

/// How many bytes are read at most, of a program alone.
const PROGRAM_LIMIT: usize = 1_048_576;

/// The answer for a program that has no linear cases.
fn without_cases(fault: CaseFault) -> Answer
    ensures { result ≡ without_cases fault }
{
    match fault {
        CaseFault::Wide { edge } => Answer::WideEdge(edge),
        CaseFault::TooMany { edge } => Answer::TooManyInEdge(edge),
        CaseFault::Memory => Answer::Memory,
    }
}

/// The answer where the words name no property of the program.
fn without_property(fault: FormulaFault) -> Answer
    ensures { result ≡ without_property fault }
{
    match fault {
        FormulaFault::Memory => Answer::Memory,
        fault => Answer::Property(fault),
    }
}

/// The text of the program and, where one is to be checked, that of the certificate after it.
fn texts_in(bytes: &[u8], checks: bool) -> (&[u8], &[u8])
    ensures texts { AreTexts checks bytes.now result.0.now result.1.now }
    ensures program { length result.0.now ≤ length bytes.now }
    ensures certificate { length result.1.now ≤ length bytes.now }
{
    if checks {
        split_texts(bytes)
    } else {
        (bytes, &[])
    }
}

/// The answer to what is asked about the program in the bytes.
fn decide(
    alloc: Global,
    bytes: &[u8],
    task: &Task,
    proposers: &mut Vec<Box<dyn Proposer>>,
) -> Answer
    requires { length bytes.now ≤ most_bytes task.now.checks }
    ensures { Means (offers_of (λ p. rest p) proposers.old.items) (task_view task.now) bytes.now result }
{
    let (text, certificate) = texts_in(bytes, task.checks);
    let program = match read_text(alloc, text) {
        Ok(program) => program,
        Err(TextFault::Memory) => return Answer::Memory,
        Err(fault) => return Answer::Text(fault),
    };
    let property = match property(alloc, task.question, &program) {
        Ok(property) => property,
        Err(fault) => return without_property(fault),
    };
    if !has_certificates(task.question) {
        return visited(alloc, task, &program, &property, proposers);
    }
    let about = match cases(alloc, &program) {
        Ok(about) => about,
        Err(fault) => return without_cases(fault),
    };
    if task.checks {
        check_certificate(alloc, &program, &property, &about, certificate)
    } else {
        find(alloc, task, &program, &property, &about, proposers)
    }
}

/// How many bytes are read at most.
fn most_bytes(checks: bool) -> usize
    ensures { result ≡ most_bytes checks }
{
    if checks { LIMIT } else { PROGRAM_LIMIT }
}

/// The answer to what the words ask about the text that the source holds.
fn answered<S: Source>(
    alloc: Global,
    task: &Task,
    source: &mut S,
    proposers: &mut Vec<Box<dyn Proposer>>,
) -> Answer
    requires { made_loops (task_view task.now).wanted ≡ None }
    ensures answer { (words : List (List ℕ)) → task_of words ≡ Some (task_view task.now) →
        IsAnswer (offers_of (λ p. rest p) proposers.old.items) words (S.seen source.old) (S.seen source.new) result }
    ensures read { result ≡ Answer.ReadFault → Rose (S.faults source.old) (S.faults source.new) }
    ensures later { S.faults source.old ≤ S.faults source.new }
{
    match read_all(alloc, source, most_bytes(task.checks)) {
        Ok(bytes) => decide(alloc, &bytes, task, proposers),
        Err(ReadError::Fault) => Answer::ReadFault,
        Err(ReadError::TooLong) => Answer::TooLong,
        Err(ReadError::Memory) => Answer::Memory,
    }
}

/// The answer to whether every run of a program that is made ends.
fn answered_of_made(
    alloc: Global,
    task: &Task,
    loops: Loops,
    proposers: &mut Vec<Box<dyn Proposer>>,
) -> Answer
    ensures { Means (offers_of (λ p. rest p) proposers.old.items) (task_view task.now) (generated_text loops.count) result }
{
    match generated(alloc, loops.count) {
        Ok(text) => decide(alloc, &text, task, proposers),
        Err(_) => Answer::Memory,
    }
}

/// The answer to what the words ask.
fn answer_to_task<S: Source>(
    alloc: Global,
    task: &Task,
    source: &mut S,
    proposers: &mut Vec<Box<dyn Proposer>>,
) -> Answer
    ensures answer { (words : List (List ℕ)) → task_of words ≡ Some (task_view task.now) →
        IsAnswer (offers_of (λ p. rest p) proposers.old.items) words (S.seen source.old) (S.seen source.new) result }
    ensures read { result ≡ Answer.ReadFault → Rose (S.faults source.old) (S.faults source.new) }
    ensures later { S.faults source.old ≤ S.faults source.new }
{
    match task.wanted {
        Wanted::Counts(loops) => answered_of_made(alloc, task, loops, proposers),
        Wanted::Nothing => answered(alloc, task, source, proposers),
        Wanted::Certificate => answered(alloc, task, source, proposers),
        Wanted::Trace { count: _ } => answered(alloc, task, source, proposers),
    }
}

/// The answer to the words about the text that the source holds, or about a program that is made.
fn answer_to<S: Source>(
    alloc: Global,
    words: &[&str],
    source: &mut S,
    proposers: &mut Vec<Box<dyn Proposer>>,
) -> Answer
    ensures answer { let asked = map (λ word. word.now) words.now in
        IsAnswer (offers_of (λ p. rest p) proposers.old.items) asked (S.seen source.old) (S.seen source.new) result }
    ensures read { result ≡ Answer.ReadFault → Rose (S.faults source.old) (S.faults source.new) }
    ensures later { S.faults source.old ≤ S.faults source.new }
{
    match Task::read(alloc, words) {
        Ok(Some(task)) => answer_to_task(alloc, &task, source, proposers),
        Ok(None) => Answer::Words,
        Err(_) => Answer::Memory,
    }
}

/// Answers the question of the words about the text that the source holds, or about a program that is made of loops, with lines that are
/// written at the end.
///
/// Where rows that hold on every run are looked for, the proposers are asked for candidates.
pub fn run<S: Source, K: Sink>(
    alloc: Global,
    words: &[&str],
    source: &mut S,
    sink: &mut K,
    mut proposers: Vec<Box<dyn Proposer>>,
) -> Status
    ensures headline { let asked = map (λ word. word.now) words.now in
        let offers = offers_of (λ p. rest p) proposers.items in
        Concludes offers asked (S.seen source.old) (S.seen source.new) (K.seen sink.old) (K.seen sink.new) result }
    ensures read { result ≡ Status.ReadFault → Rose (S.faults source.old) (S.faults source.new) }
    ensures write { result ≡ Status.WriteFault → Rose (K.faults sink.old) (K.faults sink.new) }
    ensures later_source { S.faults source.old ≤ S.faults source.new }
    ensures later_sink { K.faults sink.old ≤ K.faults sink.new }
{
    let answer = answer_to(alloc, words, source, &mut proposers);
    let lines = match answer.lines(alloc) {
        Ok(lines) => lines,
        Err(_) => return Status::Memory,
    };
    match write_all(sink, &lines) {
        Ok(()) => answer.status(),
        Err(_) => Status::WriteFault,
    }
}
