//! Proves temporal properties of integer programs, and checks certificates of them.
#![tactic(auto)]

use std::alloc::{AllocError, Global};
use std::env;
use std::io::ErrorKind;
use std::process::ExitCode;
use tv_propose::{Bounds, Differences, GuardRows, Proposer};
use tv_text::{ReaderSource, WriterSink};
use tv_top::{Status, run};

/// How many rows each kind of proposer offers at most.
const MOST_ROWS: u64 = 2000;

/// The words after the program's name, or none where one of them is no text: no question has such a word.
fn given_words(rt: &HostRuntime) -> Result<Vec<String>, AllocError> {
    let mut words = Vec::new(rt.alloc());
    match env::args(rt) {
        Ok(args) => {
            for word in args.skip(1) {
                words.push(word)?;
            }
        }
        Err(error) => {
            if error.kind() == ErrorKind::OutOfMemory {
                return Err(AllocError);
            }
        }
    }
    Ok(words)
}

fn views<'a>(alloc: Global, words: &'a [String]) -> Result<Vec<&'a str>, AllocError> {
    let mut views = Vec::new(alloc);
    for word in words {
        views.push(word.as_str())?;
    }
    Ok(views)
}

/// Answers the words of the command line about standard input. Rows that may hold on every run are offered from the guards, from bounds of
/// the variables and from their differences.
fn answer(rt: &HostRuntime) -> Result<Status, AllocError> {
    let alloc = rt.alloc();
    let words = given_words(rt)?;
    let words = views(alloc, &words)?;
    let mut proposers: Vec<Box<dyn Proposer>> = Vec::new(alloc);
    proposers.push(Box::new(alloc, GuardRows::new(MOST_ROWS))?)?;
    proposers.push(Box::new(alloc, Bounds::new(MOST_ROWS))?)?;
    proposers.push(Box::new(alloc, Differences::new(MOST_ROWS))?)?;
    let mut source = ReaderSource::new(rt.stdin());
    let mut sink = WriterSink::new(rt.stdout());
    Ok(run(alloc, &words, &mut source, &mut sink, proposers))
}

fn main(rt: HostRuntime) -> ExitCode {
    match answer(&rt) {
        Ok(status) => status.exit_code(),
        Err(_) => Status::Memory.exit_code(),
    }
}
