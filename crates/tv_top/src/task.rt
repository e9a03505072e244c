ghost use Rattle.std.specs.Prelude.{◌≡◌, ◌↔◌, IfOk, IsTrue, map, option_map};
ghost use Rattle.clap.specs.Walk.{first_of, rows_of};
ghost use Rattle.clap.specs.Matches.{found_of};
ghost use Rattle.tv_top.specs.Tasks.{is_given, query_named, query_read, query_made, query_in, limits_in, nothing_more, wanted_in, has_certificates, is_answerable, task_in, task_of};
ghost use Rattle.tv_top.specs.Views.{query_of, limits_of, wanted_view, task_view};

use crate::command::command;
use crate::limits::{Limits, USUAL_PIECES, USUAL_PIVOTS, USUAL_SPLITS};
use crate::numbers::{limit_of, number_within};
use crate::wanted::{Loops, Wanted};
use clap::ArgMatches;
use clap::error::ErrorKind;
use std::alloc::{AllocError, Global};

/// A property; the question is whether it holds.
#[derive(Clone, Copy)]
pub enum Question<'a> {
    /// No run reaches the location with this label.
    Safety(&'a str),
    /// Every run ends.
    Termination,
    /// The formula with this text.
    Ctl(&'a str),
    /// On every run the formula with this text, which is one of states, holds only finitely often.
    Finitely(&'a str),
}

/// What the words ask for.
#[derive(Clone, Copy)]
pub struct Task<'a> {
    pub question: Question<'a>,
    /// A certificate follows the program, and is to be checked.
    pub checks: bool,
    pub wanted: Wanted,
    pub limits: Limits,
}

/// The value of an option or a flag, if it has one.
fn value_of<'a>(matches: &ArgMatches<'a>, name: &str) -> Option<&'a str>
    ensures { option_map (λ value. value.now) result ≡ first_of name.now (rows_of (found_of matches.now)) }
{
    matches.get_str(name)
}

/// Whether a flag is given.
fn is_given(matches: &ArgMatches, name: &str) -> bool
    ensures { result ≡ is_given name.now (rows_of (found_of matches.now)) }
{
    match value_of(matches, name) {
        None => false,
        Some(value) => value == "true",
    }
}

/// The one property that is named by termination, safety or a formula over runs.
fn question_named<'a>(
    termination: bool,
    safety: Option<&'a str>,
    formula: Option<&'a str>,
) -> Option<Question<'a>>
    ensures { let label = option_map (λ value. value.now) safety.entry in
        let text = option_map (λ value. value.now) formula.entry in
        option_map query_of result ≡ query_named termination label text }
{
    match (safety, formula) {
        (None, None) => {
            if termination {
                Some(Question::Termination)
            } else {
                None
            }
        }
        (Some(label), None) => {
            if termination {
                None
            } else {
                Some(Question::Safety(label))
            }
        }
        (None, Some(text)) => {
            if termination {
                None
            } else {
                Some(Question::Ctl(text))
            }
        }
        (Some(_), Some(_)) => None,
    }
}

/// The one property that is named, where the program is read.
fn question_read<'a>(
    termination: bool,
    safety: Option<&'a str>,
    formula: Option<&'a str>,
    visited: Option<&'a str>,
) -> Option<Question<'a>>
    ensures { let label = option_map (λ value. value.now) safety.entry in
        let text = option_map (λ value. value.now) formula.entry in
        option_map query_of result ≡ query_read termination label text (option_map (λ value. value.now) visited.entry) }
{
    match visited {
        None => question_named(termination, safety, formula),
        Some(visited) => match (termination, safety, formula) {
            (false, None, None) => Some(Question::Finitely(visited)),
            _ => None,
        },
    }
}

/// That every run ends, where no property is named.
fn question_made<'a>(
    termination: bool,
    safety: Option<&'a str>,
    formula: Option<&'a str>,
    visited: Option<&'a str>,
) -> Option<Question<'a>>
    ensures { let label = option_map (λ value. value.now) safety.entry in
        let text = option_map (λ value. value.now) formula.entry in
        option_map query_of result ≡ query_made termination label text (option_map (λ value. value.now) visited.entry) }
{
    match visited {
        None => match (termination, safety, formula) {
            (false, None, None) => Some(Question::Termination),
            _ => None,
        },
        Some(_) => None,
    }
}

/// The one property that is named: of a program that is made it is asked whether every run ends.
fn question_in<'a>(matches: &ArgMatches<'a>) -> Option<Question<'a>>
    ensures { option_map query_of result ≡ query_in (rows_of (found_of matches.now)) }
{
    let termination = is_given(matches, "termination");
    let safety = value_of(matches, "safety");
    let formula = value_of(matches, "ctl");
    let visited = value_of(matches, "finitely");
    match value_of(matches, "generate") {
        None => question_read(termination, safety, formula, visited),
        Some(_) => question_made(termination, safety, formula, visited),
    }
}

/// What is written after the verdict.
fn wanted_in(matches: &ArgMatches) -> Option<Wanted>
    ensures { option_map wanted_view result ≡ wanted_in (rows_of (found_of matches.now)) }
{
    let writes = is_given(matches, "certificate");
    match (value_of(matches, "trace"), value_of(matches, "generate")) {
        (None, None) => {
            if writes {
                Some(Wanted::Certificate)
            } else {
                Some(Wanted::Nothing)
            }
        }
        (Some(word), None) => {
            if writes {
                return None;
            }
            let count = number_within(word, 1000)?;
            Some(Wanted::Trace { count })
        }
        (None, Some(word)) => {
            if writes {
                return None;
            }
            let loops = number_within(word, 1000)?;
            Some(Wanted::Counts(Loops { count: loops }))
        }
        (Some(_), Some(_)) => None,
    }
}

/// The limits, each in its range.
fn limits_in(matches: &ArgMatches) -> Option<Limits>
    ensures { option_map limits_of result ≡ limits_in (rows_of (found_of matches.now)) }
{
    let pivots = limit_of(value_of(matches, "pivots"), 1_000_000, USUAL_PIVOTS)?;
    let splits = limit_of(value_of(matches, "splits"), 128, USUAL_SPLITS)?;
    let disjuncts = limit_of(value_of(matches, "disjuncts"), 4096, USUAL_PIECES)?;
    Some(Limits {
        pivots,
        splits,
        disjuncts,
    })
}

/// Whether the verdict alone is written.
fn is_nothing(wanted: Wanted) -> bool
    ensures { IsTrue result ↔ (wanted_view wanted ≡ nothing_more) }
{
    match wanted {
        Wanted::Nothing => true,
        _ => false,
    }
}

/// Whether certificates are of what is asked: they are of formulas, and so not of what holds only finitely often.
pub(crate) fn has_certificates(question: Question) -> bool
    ensures { result ≡ has_certificates (query_of question.entry) }
{
    match question {
        Question::Safety(_) | Question::Termination | Question::Ctl(_) => true,
        Question::Finitely(_) => false,
    }
}

/// Whether this can be written after the answer to the question: states only where it is asked whether every run ends, and certificates only
/// where there are any.
fn is_answerable(wanted: Wanted, question: Question) -> bool
    ensures { result ≡ is_answerable (wanted_view wanted) (query_of question.entry) }
{
    match wanted {
        Wanted::Nothing => true,
        Wanted::Certificate | Wanted::Counts(_) => has_certificates(question),
        Wanted::Trace { count: _ } => match question {
            Question::Termination => true,
            _ => false,
        },
    }
}

/// What is asked for where the command took the words.
fn task_in<'a>(matches: &ArgMatches<'a>) -> Option<Task<'a>>
    ensures { option_map task_view result ≡ task_in (rows_of (found_of matches.now)) }
{
    let question = question_in(matches)?;
    let limits = limits_in(matches)?;
    let wanted = wanted_in(matches)?;
    let checks = is_given(matches, "check");
    if checks && !(is_nothing(wanted) && has_certificates(question)) {
        return None;
    }
    if !is_answerable(wanted, question) {
        return None;
    }
    Some(Task {
        question,
        checks,
        wanted,
        limits,
    })
}

impl<'a> Task<'a> {
    /// What the words ask for, if anything.
    pub fn read(alloc: Global, words: &'a [&'a str]) -> Result<Option<Task<'a>>, AllocError>
        ensures { IfOk result (λ task. option_map task_view task ≡ task_of (map (λ word. word.now) words.now)) }
    {
        let command = command(alloc)?;
        match command.try_get_matches_from(words) {
            Ok(matches) => Ok(task_in(&matches)),
            Err(error) => match error.kind() {
                ErrorKind::OutOfMemory => Err(AllocError),
                _ => Ok(None),
            },
        }
    }
}
