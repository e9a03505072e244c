//! Does the one thing that its first word names, on the text of standard input, and prints what came of it, so that it can be timed.
//!
//! A second word says how many times, or how many bases are tried. Where no word names a task, each is done on a small text of its own.
#![tactic(auto)]

mod components;
mod covering;
mod linear_cases;
mod numbers;
mod reading;
mod refuting;
mod regions;
mod searching;
mod showing;
mod solving;
mod task;
mod words;

use crate::task::{LIMIT, TASKS, answer, named};
use std::{env, io};
use tv_text::{ReaderSource, read_all};

/// How often each task is done on its small text.
const FEW: u64 = 99;

fn main(rt: HostRuntime) -> io::Result<()> {
    let alloc = rt.alloc();
    let mut asked = None;
    let mut count = 0;
    for word in env::args(&rt)?.skip(1) {
        match word.parse::<u64>() {
            Ok(number) => count = number,
            Err(_) => asked = named(&word),
        }
    }
    let Some(task) = asked else {
        for (name, task, text) in TASKS {
            println!(rt; "{name}: {}", answer(alloc, task, text.as_bytes(), FEW)?)?;
        }
        return Ok(());
    };
    let mut source = ReaderSource::new(rt.stdin());
    let told = match read_all(alloc, &mut source, LIMIT) {
        Ok(text) => answer(alloc, task, &text, count)?,
        Err(_) => format!(in alloc; "no text")?,
    };
    println!(rt; "{told}")?;
    Ok(())
}
