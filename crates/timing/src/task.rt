use crate::regions::Asked;
use crate::showing::Way;
use crate::words::{Fault, or_no_form};
use crate::{
    components, covering, linear_cases, numbers, reading, refuting, regions, searching, showing,
    solving,
};
use std::alloc::{AllocError, Global};
use std::str;

/// What is read at most.
pub(crate) const LIMIT: usize = 67_108_864;

/// What is timed.
#[derive(Clone, Copy)]
pub(crate) enum Task {
    Components,
    Sum,
    Condition,
    Program,
    Cases,
    Numbers,
    Solving,
    Refuting,
    Covering,
    Some,
    Every,
    Always,
    Once,
    Twice,
    Scan,
    Further,
}

/// Each task by its name, with a small text for it.
pub(crate) const TASKS: [(&str, Task, &str); 16] = [
    ("components", Task::Components, ""),
    ("sum", Task::Sum, "x + 2 * (y - 1) - -z"),
    ("condition", Task::Condition, "x > 0 && y <= 12"),
    (
        "program",
        Task::Program,
        "START: 0; FROM: 0; x := x + 1; TO: 0;",
    ),
    (
        "cases",
        Task::Cases,
        "START: 0; FROM: 0; assume(x != 0); TO: 0;",
    ),
    (
        "numbers",
        Task::Numbers,
        "START: 0;\nCERTIFICATE:\nrow 1 -5\nby 1 2\n",
    ),
    ("solving", Task::Solving, "2 2 2 0 1 1 -1 0 1 1 1 1"),
    ("refuting", Task::Refuting, "2 1 1 -5 -1 6"),
    ("covering", Task::Covering, "1 2 0 1 1 0 1 -1 1"),
    (
        "some",
        Task::Some,
        "0 1 -1 3\nSTART: 0; FROM: 0; assume(x < 9); x := x + 1; TO: 0;",
    ),
    (
        "every",
        Task::Every,
        "0 1 1 0\nSTART: 0; FROM: 0; assume(x > 0 && x < 9); x := x - 1; TO: 0;",
    ),
    (
        "always",
        Task::Always,
        "0 1 -1 3\nSTART: 0; FROM: 0; assume(x < 9); x := x + 1; TO: 0;",
    ),
    ("once", Task::Once, "2 1 1 1 3 1 1 0 1 0 1 0 3 1 1"),
    ("twice", Task::Twice, "2 1 1 1 6 1 1 0 1 0 1 0 3 1 1"),
    ("scan", Task::Scan, "2 1 1 1 3 1 1 0 1 0 1 0 3 1 1"),
    (
        "further",
        Task::Further,
        "term\nSTART: 0; FROM: 0; assume(x > 0); x := x + y; TO: 0;",
    ),
];

/// The task of this name.
pub(crate) fn named(word: &str) -> Option<Task> {
    for (name, task, _) in TASKS {
        if name == word {
            return Some(task);
        }
    }
    None
}

/// What comes of the task on the text. It is done `count` times, or tries `count` bases; what is read is read once.
pub(crate) fn answer(
    alloc: Global,
    task: Task,
    text: &[u8],
    count: u64,
) -> Result<String, AllocError> {
    if text.len() > LIMIT {
        return format!(in alloc; "too long");
    }
    match task {
        Task::Components => components::found(alloc, count),
        Task::Sum => reading::sum(alloc, text)?.to_string(alloc),
        Task::Condition => reading::condition(alloc, text)?.to_string(alloc),
        Task::Program => reading::program(alloc, text).to_string(alloc),
        Task::Cases => linear_cases::counted(alloc, text),
        Task::Numbers => numbers::scanned(alloc, text),
        _ => match str::from_utf8(text) {
            Ok(text) => or_no_form(alloc, answer_in_words(alloc, task, text, count)),
            Err(_) => format!(in alloc; "not of this form"),
        },
    }
}

/// The same, of a task whose text is numbers.
fn answer_in_words(alloc: Global, task: Task, text: &str, count: u64) -> Result<String, Fault> {
    match task {
        Task::Solving => solving::solved(alloc, text, count),
        Task::Refuting => refuting::refuted(alloc, text, count),
        Task::Covering => covering::covered(alloc, text, count),
        Task::Some => regions::answered(alloc, text, Asked::Some, count),
        Task::Every => regions::answered(alloc, text, Asked::Every, count),
        Task::Always => regions::answered(alloc, text, Asked::Always, count),
        Task::Once => showing::shown(alloc, text, Way::Once, count),
        Task::Twice => showing::shown(alloc, text, Way::Twice, count),
        Task::Scan => showing::shown(alloc, text, Way::Scan, count),
        Task::Further => searching::searched(alloc, text),
        _ => Err(Fault::Form),
    }
}
