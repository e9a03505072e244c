ghost use Rattle.std.specs.Prelude.{◌≡◌, ◌+◌, ◌^◌, ◌<◌, length, IfOk};
ghost use Rattle.tv_program.specs.Programs.{system_of};
ghost use Rattle.tv_formula.specs.Formulas.{property_of};

use crate::texts::program_of;
use std::alloc::Global;
use std::test::Fail;
use tv_formula::Formula;
use tv_formula_reader::{FormulaFault, read_formula};
use tv_formula_spelling::write_formula;
use tv_program::Program;
use tv_reader::{ReadFault, read_program};
use tv_spelling::write_program;

/// The program of a text, and that of the text that is written of it: the same one.
fn program_again(alloc: Global, text: &[u8]) -> Result<(Program, Program), Fail>
    requires { length text.now + 1 < 2 ^ 32 }
    ensures { IfOk result (λ both. system_of both.1 ≡ system_of both.0) }
{
    let Ok(program) = read_program(alloc, text) else {
        return Err(Fail::from("no program"));
    };
    let written = write_program(alloc, &program)?;
    if written.len() >= u32::MAX as usize {
        return Err(Fail::from("a long text"));
    }
    match read_program(alloc, &written) {
        Ok(again) => Ok((program, again)),
        Err(ReadFault::Memory) => Err(Fail::from("no memory")),
        Err(_) => unreachable!(),
    }
}

/// The formula of a text, and that of the text that is written of it: the same one.
fn formula_again(alloc: Global, text: &[u8], program: &Program) -> Result<(Formula, Formula), Fail>
    ensures { IfOk result (λ both. property_of both.1 ≡ property_of both.0) }
{
    let Ok(formula) = read_formula(alloc, text, program) else {
        return Err(Fail::from("no formula"));
    };
    let written = write_formula(alloc, &formula, program)?;
    if written.len() > 65536 {
        return Err(Fail::from("a long text"));
    }
    match read_formula(alloc, &written, program) {
        Ok(again) => Ok((formula, again)),
        Err(FormulaFault::Memory) => Err(Fail::from("no memory")),
        Err(_) => unreachable!(),
    }
}

fn are_alike(alloc: Global, first: &Program, second: &Program) -> Result<bool, Fail> {
    let one = write_program(alloc, first)?;
    let other = write_program(alloc, second)?;
    Ok(one.as_slice() == other.as_slice())
}

fn is_program_again(alloc: Global, text: &str) -> Result<bool, Fail> {
    if text.len() >= 200 {
        return Err(Fail::from("a long text"));
    }
    let (first, second) = program_again(alloc, text.as_bytes())?;
    are_alike(alloc, &first, &second)
}

const PROGRAMS: &[&str] = &[
    "START: 0; FROM: 0; TO: 1; FROM: 1; assume(x > 0); x := x - 1; TO: 1;",
    "START: a; FROM: b; AT(1, x) y := ((2)) * -(x - -at); assume(!(y < nondet() && true)); TO: a;",
    "START: 1; CUTPOINT: 4; FROM: 2; term := nondet() - nondet(); TO: 3;",
    "START: 0; FROM: 0; assume(!(!!(x > 0)) && (true || y-1 != x)); TO: 0;",
    "START: 0; FROM: 0; assume((a < b && (false && -a == 3)) || ((c >= (0)))); TO: 0;",
];

// What is written of a program is read again.
#[test]
fn programs_are_read_again(rt: HostRuntime) -> Result<(), Fail> {
    for text in PROGRAMS {
        assert!(rt; is_program_again(rt.alloc(), text)?, "{text}");
    }
    Ok(())
}

fn are_same(
    alloc: Global,
    first: &Formula,
    second: &Formula,
    program: &Program,
) -> Result<bool, Fail> {
    let one = write_formula(alloc, first, program)?;
    let other = write_formula(alloc, second, program)?;
    Ok(one.as_slice() == other.as_slice())
}

fn is_formula_again(alloc: Global, text: &str) -> Result<bool, Fail> {
    let program = program_of(alloc, b"START: at; FROM: at; x := term; TO: 17;")?;
    let (first, second) = formula_again(alloc, text.as_bytes(), &program)?;
    are_same(alloc, &first, &second, &program)
}

const FORMULAS: &[&str] = &[
    "!(!!term || (x) * 2 - -1 < 3 && at(17))",
    "[AU](true)([EW](x == 0)(false))",
    "[EM]([AG](true))([AF](((at(17)))))",
    "(true && x >= -x) && ([AX](false) || [ER](x != 1)(term))",
];

// What is written of a formula is read again.
#[test]
fn formulas_are_read_again(rt: HostRuntime) -> Result<(), Fail> {
    for text in FORMULAS {
        assert!(rt; is_formula_again(rt.alloc(), text)?, "{text}");
    }
    Ok(())
}
