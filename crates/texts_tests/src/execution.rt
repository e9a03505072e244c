ghost use Rattle.std.specs.Prelude.{◌≡◌, ◌<◌, IsTrue, length};
ghost use Rattle.tv_exec.specs.Execution.{draws_of};
ghost use Rattle.tv_program.specs.Programs.{system_of};

use crate::texts::{joined, read};
use std::alloc::Global;
use tv_exec::ExecFault::{Blocked, Memory, Wide};
use tv_exec::{ExecFault, exec_values};
use tv_program::Program;
use tv_reader::ReadFault;

fn has_edge(program: &Program, edge: u32) -> bool
    ensures { IsTrue result → edge < length (system_of program.now).edges }
{
    (edge as usize) < program.edges().len()
}

fn draws_of(program: &Program, edge: u32) -> u32
    requires { edge < length (system_of program.now).edges }
    ensures { result ≡ draws_of (system_of program.now) edge }
{
    program.edges()[edge as usize].draws
}

/// The value of the one variable after an edge of at most one draw, which is 5.
fn after(alloc: Global, program: &Program, edge: u32, value: i128) -> Result<i128, ExecFault> {
    if !has_edge(program, edge) {
        return Err(Memory);
    }
    let draws: &[i128] = if draws_of(program, edge) == 1 {
        &[5]
    } else {
        &[]
    };
    if draws.len() != draws_of(program, edge) as usize {
        return Err(Memory);
    }
    if program.variables().len() != 1 {
        return Err(Memory);
    }
    let values = exec_values(alloc, program, edge, &[value], draws)?;
    Ok(values.first().copied().unwrap_or(0))
}

/// An edge that assumes x == x and then goes on with these commands.
fn program_with(alloc: Global, commands: &str) -> Result<Program, ReadFault> {
    let front = "START: 0; FROM: 0; assume(x == x); ";
    let text = joined(alloc, front, commands, " TO: 0;")?;
    read(alloc, &text)
}

/// What an edge does that assumes x == x and then goes on with these commands.
fn outcome(alloc: Global, commands: &str, value: i128) -> Result<i128, ExecFault> {
    match program_with(alloc, commands) {
        Ok(program) => after(alloc, &program, 0, value),
        Err(_) => Err(Memory),
    }
}

/// What the edges of a countdown do.
fn counted(alloc: Global, edge: u32, value: i128) -> Result<i128, ExecFault> {
    let text = b"START: 0; FROM: 0; TO: 1; FROM: 1; assume(x > 0); x := x - 1; TO: 1;".as_slice();
    match read(alloc, text) {
        Ok(program) => after(alloc, &program, edge, value),
        Err(_) => Err(Memory),
    }
}

// An edge, a value of x, and the value after the edge or why there is none.
const COUNTED: [(u32, i128, Result<i128, ExecFault>); 4] = [
    (0, 3, Ok(3)),
    (1, 3, Ok(2)),
    (1, 1, Ok(0)),
    (1, 0, Err(Blocked)),
];

#[test]
fn counts_down_while_positive(rt: HostRuntime) {
    for (edge, value, want) in COUNTED {
        assert!(rt; counted(rt.alloc(), edge, value) == want, "{edge} {value}");
    }
}

const LEAST: i128 = i128::MIN;

// Commands, a value of x, and the value after them or why there is none.
const OUTCOMES: [(&str, i128, Result<i128, ExecFault>); 14] = [
    // a partial product leaves before a factor 0 comes
    ("x := 4 * x * 0;", LEAST, Err(Wide)),
    ("x := 0 * x * 4;", LEAST, Ok(0)),
    // the least number is reached, and not its opposite
    ("x := x - 1;", LEAST + 1, Ok(LEAST)),
    ("x := x - 2;", LEAST + 1, Err(Wide)),
    ("x := -x;", LEAST, Err(Wide)),
    ("x := -x;", LEAST + 1, Ok(i128::MAX)),
    // the parts after one that settles a condition are evaluated too
    ("assume(false && 4 * x * 0 < 0);", LEAST, Err(Wide)),
    ("assume(true || 4 * x * 0 < 0);", LEAST, Err(Wide)),
    ("assume(false && x < 0);", LEAST, Err(Blocked)),
    ("assume(true || x < 0);", LEAST, Ok(LEAST)),
    // commands go in order
    ("x := x + 1; x := 2 * x;", 3, Ok(8)),
    ("assume(x > 3); x := -x;", 3, Err(Blocked)),
    ("x := nondet(); x := x + x;", 3, Ok(10)),
    ("x := 4 * x; assume(false);", LEAST, Err(Wide)),
];

#[test]
fn stops_where_a_value_leaves_128_bits(rt: HostRuntime) {
    for (commands, value, want) in OUTCOMES {
        assert!(rt; outcome(rt.alloc(), commands, value) == want, "{commands}");
    }
}

// Two opposite assumptions on x and a draw, which is 5, and whether the first one holds where x is -5, 5 and 6.
const RELATIONS: [(&str, &str, bool, bool, bool); 6] = [
    (
        "assume(x < nondet());",
        "assume(!(x < nondet()));",
        true,
        false,
        false,
    ),
    (
        "assume(x <= nondet());",
        "assume(!(x <= nondet()));",
        true,
        true,
        false,
    ),
    (
        "assume(x > nondet());",
        "assume(!(x > nondet()));",
        false,
        false,
        true,
    ),
    (
        "assume(x >= nondet());",
        "assume(!(x >= nondet()));",
        false,
        true,
        true,
    ),
    (
        "assume(x == nondet());",
        "assume(!(x == nondet()));",
        false,
        true,
        false,
    ),
    (
        "assume(x != nondet());",
        "assume(!(x != nondet()));",
        true,
        false,
        true,
    ),
];

/// What comes of a command that passes or is blocked.
fn passed(holds: bool, value: i128) -> Result<i128, ExecFault> {
    if holds { Ok(value) } else { Err(Blocked) }
}

/// Whether a relation of x and the draw holds or not at this value, and its opposite not or does.
fn is_passed(alloc: Global, relation: &str, opposite: &str, value: i128, holds: bool) -> bool {
    outcome(alloc, relation, value) == passed(holds, value)
        && outcome(alloc, opposite, value) == passed(!holds, value)
}

#[test]
fn each_relation_compares(rt: HostRuntime) {
    for (relation, opposite, at_less, at_equal, at_greater) in RELATIONS {
        let is_less = is_passed(rt.alloc(), relation, opposite, -5, at_less);
        let is_equal = is_passed(rt.alloc(), relation, opposite, 5, at_equal);
        let is_greater = is_passed(rt.alloc(), relation, opposite, 6, at_greater);
        assert!(rt; is_less && is_equal && is_greater, "{relation}");
    }
}
