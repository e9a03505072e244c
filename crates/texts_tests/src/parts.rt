ghost use Rattle.tv_reading.specs.Readings.{IsKept};

use crate::texts::repeated;
use std::alloc::{AllocError, Global};
use tv_language::{TokenKind, scan};
use tv_program::{Expr, Names};
use tv_reading::PartFault::{Deep, Memory, NotLinear, Syntax, TooMany, UnknownName, Wide};
use tv_reading::{PartFault, Reading};

/// How many tokens a condition has at the front of a short text where names are added.
fn condition_taken(alloc: Global, text: &[u8]) -> Result<u32, PartFault> {
    if text.len() >= 2000 {
        return Err(Memory);
    }
    let Ok(list) = scan(alloc, text) else {
        return Err(Memory);
    };
    let mut reading = Reading::new(alloc, text, &list, Names::new(alloc), true);
    match reading.condition() {
        Ok(_) => Ok(reading.place()),
        Err(fault) => Err(fault),
    }
}

/// How many tokens a sum has at the front of a short text where no name is known and none is added.
fn sum_taken(alloc: Global, text: &[u8]) -> Result<u32, PartFault> {
    if text.len() >= 2000 {
        return Err(Memory);
    }
    let Ok(list) = scan(alloc, text) else {
        return Err(Memory);
    };
    let mut reading = Reading::new(alloc, text, &list, Names::new(alloc), false);
    match reading.sum() {
        Ok(_) => Ok(reading.place()),
        Err(fault) => Err(fault),
    }
}

// A condition of each form, and the first fault of others.
const CONDITIONS: &[(&str, Result<u32, PartFault>)] = &[
    ("x > 0", Ok(3)),
    ("x > 0 )", Ok(3)),
    ("(x > 0) + 1", Ok(5)),
    ("true && false || !(x == nondet())", Ok(12)),
    ("((x)) * 2 != -(3 - y) && z <= 4611686018427387903", Ok(18)),
    ("x > 0 @", Ok(3)),
    ("x", Err(Syntax { at: 1 })),
    ("(x) + 1", Err(Syntax { at: 7 })),
    ("x > 0 && )", Err(Syntax { at: 9 })),
    ("x + ) > 0", Err(Syntax { at: 4 })),
    ("x < y < z", Ok(3)),
    ("(x && y)", Err(Syntax { at: 3 })),
    ("x > @", Err(Syntax { at: 4 })),
    ("x > 4611686018427387904", Err(Wide { at: 4 })),
    (
        "4611686018427387904 4611686018427387904",
        Err(Wide { at: 0 }),
    ),
    ("x 4611686018427387904", Err(Syntax { at: 2 })),
    ("x * y > 0", Err(NotLinear { at: 4 })),
    ("0 * x * (2 + y) > 0", Err(NotLinear { at: 13 })),
    ("2 * nondet() * nondet() < 1", Err(NotLinear { at: 15 })),
    ("nondet() > nondet", Err(Syntax { at: 17 })),
];

#[test]
fn reads_conditions(rt: HostRuntime) {
    for (text, want) in CONDITIONS {
        assert!(rt;
            condition_taken(rt.alloc(), text.as_bytes()) == *want,
            "{text}"
        );
    }
}

// Where no name is added, draws and two words of formulas stand in no sum.
const SUMS: &[(&str, Result<u32, PartFault>)] = &[
    ("1 - 2 * 3", Ok(5)),
    ("y", Err(UnknownName { at: 0 })),
    ("2 + nondet()", Err(Syntax { at: 4 })),
    ("at", Err(Syntax { at: 0 })),
    ("2 * term", Err(Syntax { at: 4 })),
];

#[test]
fn adds_no_name(rt: HostRuntime) {
    for (text, want) in SUMS {
        assert!(rt; sum_taken(rt.alloc(), text.as_bytes()) == *want, "{text}");
    }
}

// What is repeated and how often, an end, and what is taken: the level and the draw that are one too many.
const LIMITS: &[(&str, u32, &str, Result<u32, PartFault>)] = &[
    ("!", 63, "true", Ok(64)),
    ("!", 64, "true", Err(Deep { at: 63 })),
    ("(", 64, "x > 0", Err(Deep { at: 63 })),
    ("-", 64, "x > 0", Err(Deep { at: 63 })),
    ("nondet()+", 63, "nondet() > 0", Ok(257)),
    ("nondet()+", 64, "nondet() > 0", Err(TooMany { at: 576 })),
];

/// How many tokens the condition of a text with the part `times` times has.
fn repeated_taken(alloc: Global, part: &str, times: u32, end: &str) -> Result<u32, PartFault> {
    match repeated(alloc, part.as_bytes(), times, end.as_bytes()) {
        Ok(text) => condition_taken(alloc, &text),
        Err(_) => Err(Memory),
    }
}

#[test]
fn conditions_keep_the_limits(rt: HostRuntime) {
    for (part, times, end, want) in LIMITS {
        let taken = repeated_taken(rt.alloc(), part, *times, end);
        assert!(rt; taken == *want, "{part} {times}");
    }
}

/// How many tokens the sum of 1 after `times` signs has.
fn signs_taken(alloc: Global, times: u32) -> Result<u32, PartFault> {
    match repeated(alloc, b"-", times, b"1") {
        Ok(text) => sum_taken(alloc, &text),
        Err(_) => Err(Memory),
    }
}

#[test]
fn sums_keep_the_limits(rt: HostRuntime) {
    let most = signs_taken(rt.alloc(), 64);
    let more = signs_taken(rt.alloc(), 65);
    assert!(rt; most == Ok(65) && more == Err(Deep { at: 64 }));
}

/// How many parts a sum has.
fn parts_of(expr: &Expr) -> usize {
    match expr {
        Expr::Sum(parts) => parts.len(),
        _ => 1,
    }
}

/// How many parts the sum at the front of what is left has.
fn next_sum(reading: &mut Reading) -> Result<usize, PartFault>
    ensures { IsKept reading.old reading.new }
{
    match reading.sum() {
        Ok(expr) => Ok(parts_of(&expr)),
        Err(fault) => Err(fault),
    }
}

/// Whether a condition is at the front of what is left.
fn next_condition(reading: &mut Reading) -> Result<(), PartFault>
    ensures { IsKept reading.old reading.new }
{
    match reading.condition() {
        Ok(_) => Ok(()),
        Err(fault) => Err(fault),
    }
}

/// What comes of `x :=`, and of the sums around a `;`.
fn assigned(reading: &mut Reading) -> bool {
    reading.edge();
    let is_named = reading.variable() == Ok(0) && reading.peek().kind == TokenKind::Assign;
    reading.take();
    let is_summed = next_sum(reading) == Ok(2) && reading.place() == 5;
    reading.take();
    is_named && is_summed && next_sum(reading) == Err(NotLinear { at: 16 })
}

/// Whether two names are known once an assignment is read.
fn keeps_names(mut reading: Reading) -> bool {
    let is_read = assigned(&mut reading);
    let stays = reading.place() == 8 && reading.draws() == 0;
    let is_known = reading.names().find(b"y") == Some(1);
    let count = reading.finish().len();
    is_read && stays && is_known && count == 2
}

fn is_gone_over(alloc: Global) -> Result<bool, AllocError> {
    let text = b"x := y - 2; x * y".as_slice();
    let list = scan(alloc, text)?;
    Ok(keeps_names(Reading::new(alloc, text, &list, Names::new(alloc), true)))
}

// Each call once: the parts of an assignment, and names that stay after a refusal.
#[test]
fn goes_over_a_text(rt: HostRuntime) {
    assert!(rt; is_gone_over(rt.alloc()) == Ok(true));
}

fn is_gone_to(alloc: Global) -> Result<bool, AllocError> {
    let text = b"1 + (2) == 3".as_slice();
    let list = scan(alloc, text)?;
    if list.len() != 8 {
        return Ok(false);
    }
    let mut reading = Reading::new(alloc, text, &list, Names::new(alloc), false);
    reading.go(2, 64);
    let is_deep = next_condition(&mut reading) == Err(Deep { at: 4 });
    reading.go(0, 63);
    let is_read = next_condition(&mut reading) == Ok(());
    reading.take();
    Ok(is_deep && is_read && reading.place() == 7)
}

// Places and levels are set where no name is added.
#[test]
fn goes_to_a_place(rt: HostRuntime) {
    assert!(rt; is_gone_to(rt.alloc()) == Ok(true));
}
