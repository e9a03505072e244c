use crate::texts::{read, repeated};
use std::alloc::{AllocError, Global};
use std::test::Fail;
use tv_formula::{Formula, negate, normal, termination, unreachable};
use tv_formula_reader::FormulaFault::{Deep, Long, NotLinear, Syntax, UnknownName, Wide};
use tv_formula_reader::{FormulaFault, read_formula};
use tv_formula_spelling::write_formula;
use tv_program::Program;
use tv_reader::ReadFault;

/// A program that counts a number down.
fn countdown(alloc: Global) -> Result<Program, ReadFault> {
    let text = "START: 0; FROM: 0; TO: 1; FROM: 1; assume(x > 0); x := x - 1; TO: 1;";
    read(alloc, text.as_bytes())
}

/// The fault of a text over a program, if it has one.
fn fault_over(alloc: Global, program: &Program, text: &[u8]) -> Option<FormulaFault> {
    match read_formula(alloc, text, program) {
        Ok(_) => None,
        Err(fault) => Some(fault),
    }
}

/// The fault of a text over the countdown, if it has one.
fn fault_of(alloc: Global, text: &[u8]) -> Result<Option<FormulaFault>, ReadFault> {
    let program = countdown(alloc)?;
    Ok(fault_over(alloc, &program, text))
}

// Texts that are none, each with its first fault.
const FAULTS: &[(&str, FormulaFault)] = &[
    ("z > 0", UnknownName { at: 0 }),
    ("x > ", Syntax { at: 4 }),
    ("", Syntax { at: 0 }),
    ("nondet() > 0", Syntax { at: 0 }),
    ("(x) && true", Syntax { at: 4 }),
    ("(x) + 1", Syntax { at: 7 }),
    ("((x) + 1 && true)", Syntax { at: 9 }),
    ("x > 0 true", Syntax { at: 6 }),
    ("x * z > 0", NotLinear { at: 4 }),
    ("(0 * x * x) > 0", NotLinear { at: 9 }),
    ("x > 4611686018427387904", Wide { at: 4 }),
    ("at(at)", Syntax { at: 3 }),
    ("at(7)", UnknownName { at: 3 }),
    ("at(4611686018427387904)", Wide { at: 3 }),
    ("at(0", Syntax { at: 4 }),
    ("term > 0", Syntax { at: 5 }),
    ("[AX](x)", Syntax { at: 6 }),
    ("[AY](true)", Syntax { at: 1 }),
    ("[AU](true)", Syntax { at: 10 }),
    ("[AF](true)(true)", Syntax { at: 10 }),
];

#[test]
fn tells_the_first_fault(rt: HostRuntime) {
    for (text, want) in FAULTS {
        let fault = fault_of(rt.alloc(), text.as_bytes());
        assert!(rt; fault == Ok(Some(*want)), "{text}");
    }
}

/// Whether a formula has this text.
fn is_spelled(
    alloc: Global,
    formula: &Formula,
    program: &Program,
    wanted: &str,
) -> Result<bool, Fail> {
    let written = write_formula(alloc, formula, program)?;
    Ok(written.as_slice() == wanted.as_bytes())
}

/// Whether the normal form of a formula has this text.
fn is_normal(
    alloc: Global,
    formula: &Formula,
    program: &Program,
    wanted: &str,
) -> Result<bool, Fail> {
    let plain = normal(alloc, formula)?;
    is_spelled(alloc, &plain, program, wanted)
}

/// Whether the negation of a formula has this text.
fn is_negation(
    alloc: Global,
    formula: &Formula,
    program: &Program,
    wanted: &str,
) -> Result<bool, Fail> {
    let denied = negate(alloc, formula)?;
    is_spelled(alloc, &denied, program, wanted)
}

/// What is written of the formula in a text.
#[derive(Clone, Copy)]
enum Way {
    Itself,
    Normal,
    Negation,
}

/// Whether what is made of the formula in a text over a program is written so.
fn is_written_over(
    alloc: Global,
    program: &Program,
    text: &str,
    way: Way,
    wanted: &str,
) -> Result<bool, Fail> {
    let formula = read_formula(alloc, text.as_bytes(), program)?;
    match way {
        Way::Itself => is_spelled(alloc, &formula, program, wanted),
        Way::Normal => is_normal(alloc, &formula, program, wanted),
        Way::Negation => is_negation(alloc, &formula, program, wanted),
    }
}

/// Whether what is made of the formula in a text over the countdown is written so.
fn is_written(alloc: Global, text: &str, way: Way, wanted: &str) -> Result<bool, Fail> {
    let program = countdown(alloc)?;
    is_written_over(alloc, &program, text, way, wanted)
}

// A text, and its formula as it is written, in normal form and negated.
const FORMULAS: [(&str, &str, &str, &str); 10] = [
    (
        "[AG](x >= 0)",
        "[AG](x >= 0)",
        "[AG](x >= 0)",
        "[EM](x < 0)(true)",
    ),
    (
        "[AF](x<=0)",
        "[AF](x <= 0)",
        "[AF](x <= 0)",
        "[ER](false)(x > 0)",
    ),
    (
        "!(x > 0 && at(0))",
        "!(x > 0 && at(0))",
        "x <= 0 || !at(0)",
        "x > 0 && at(0)",
    ),
    ("term", "term", "term", "!term"),
    ("!!term", "!!term", "term", "!term"),
    (
        "[AU](true)(x == 1)",
        "[AF](x == 1)",
        "[AF](x == 1)",
        "[ER](false)(x != 1)",
    ),
    (
        "[EW](at(1))(false)",
        "[EG](at(1))",
        "[EG](at(1))",
        "[AM](!at(1))(true)",
    ),
    (
        "[EX](![AX](x < 2))",
        "[EX](![AX](x < 2))",
        "[EX]([EX](x >= 2))",
        "[AX]([AX](x < 2))",
    ),
    (
        "[AR](at(0))(x + 1 > 2 || term)",
        "[AR](at(0))(x + 1 > 2 || term)",
        "[AR](at(0))(x + 1 > 2 || term)",
        "[EU](!at(0))(x + 1 <= 2 && !term)",
    ),
    (
        "(true || false) && ((x)) * 2 > -3",
        "(true || false) && x * 2 > -3",
        "(true || false) && x * 2 > -3",
        "false && true || x * 2 <= -3",
    ),
];

#[test]
fn formulas_in_their_one_spelling(rt: HostRuntime) -> Result<(), Fail> {
    for (text, same, _, _) in FORMULAS {
        assert!(rt; is_written(rt.alloc(), text, Way::Itself, same)?, "{text}");
    }
    Ok(())
}

#[test]
fn normal_forms(rt: HostRuntime) -> Result<(), Fail> {
    for (text, _, plain, _) in FORMULAS {
        assert!(rt; is_written(rt.alloc(), text, Way::Normal, plain)?, "{text}");
    }
    Ok(())
}

#[test]
fn negations(rt: HostRuntime) -> Result<(), Fail> {
    for (text, _, _, denied) in FORMULAS {
        assert!(rt;
            is_written(rt.alloc(), text, Way::Negation, denied)?,
            "{text}"
        );
    }
    Ok(())
}

/// Whether the formula of termination of a program is written so.
fn is_termination(alloc: Global, program: &Program, wanted: &str) -> Result<bool, Fail> {
    let formula = termination(alloc, program)?;
    is_spelled(alloc, &formula, program, wanted)
}

fn is_termination_of_countdown(alloc: Global, wanted: &str) -> Result<bool, Fail> {
    let program = countdown(alloc)?;
    is_termination(alloc, &program, wanted)
}

// The formulas that have names of their own.
#[test]
fn termination_in_its_spelling(rt: HostRuntime) -> Result<(), Fail> {
    assert!(rt; is_termination_of_countdown(rt.alloc(), "term")?);
    Ok(())
}

/// Whether the formula of safety of the second of two locations is written so.
fn is_unreachability(alloc: Global, program: &Program, wanted: &str) -> Result<bool, Fail> {
    if program.locations().len() != 2 {
        return Err(Fail::from("two locations"));
    }
    let formula = unreachable(alloc, program, 1)?;
    is_spelled(alloc, &formula, program, wanted)
}

fn is_unreachability_in_countdown(alloc: Global, wanted: &str) -> Result<bool, Fail> {
    let program = countdown(alloc)?;
    is_unreachability(alloc, &program, wanted)
}

#[test]
fn unreachability_in_its_spelling(rt: HostRuntime) -> Result<(), Fail> {
    assert!(rt; is_unreachability_in_countdown(rt.alloc(), "[AG](!at(1))")?);
    Ok(())
}

/// A text that nests so often.
fn nested(
    alloc: Global,
    opening: &str,
    middle: &str,
    closing: &str,
    times: u32,
) -> Result<Vec<u8>, AllocError> {
    let mut text = repeated(alloc, opening.as_bytes(), times, middle.as_bytes())?;
    for _ in 0..times {
        text.extend_from_slice(closing.as_bytes())?;
    }
    Ok(text)
}

// Each way to nest: what opens and closes a level, what stands inside, and how many bytes open a level.
const NESTINGS: [(&str, &str, &str, u32); 6] = [
    ("!", "true", "", 1),
    ("(", "true", ")", 1),
    ("[AX](", "x > 0", ")", 5),
    ("[EG](", "at(0)", ")", 5),
    ("[AU](true)(", "term", ")", 11),
    ("[EM](", "x > 0", ")(true)", 5),
];

/// The fault of a text that nests so often, if it has one.
fn fault_of_nested(
    alloc: Global,
    nesting: &(&str, &str, &str, u32),
    times: u32,
) -> Result<Option<FormulaFault>, ReadFault> {
    let (opening, middle, closing, _) = nesting;
    let text = nested(alloc, opening, middle, closing, times)?;
    fault_of(alloc, &text)
}

#[test]
fn formulas_nest_64_levels(rt: HostRuntime) {
    for nesting in NESTINGS {
        let fault = fault_of_nested(rt.alloc(), &nesting, 64);
        assert!(rt; fault == Ok(None), "{nesting:?}");
    }
}

#[test]
fn the_token_that_opens_level_65_is_at_fault(rt: HostRuntime) {
    for nesting in NESTINGS {
        let wanted = Deep { at: 64 * nesting.3 };
        let fault = fault_of_nested(rt.alloc(), &nesting, 65);
        assert!(rt; fault == Ok(Some(wanted)), "{nesting:?}");
    }
}

/// The fault of a text of `blanks` blanks and an end, if it has one.
fn fault_behind(alloc: Global, blanks: u32, end: &str) -> Result<Option<FormulaFault>, ReadFault> {
    let text = repeated(alloc, b" ", blanks, end.as_bytes())?;
    fault_of(alloc, &text)
}

// A text is long from 65,537 bytes on, whatever it holds.
const BLANKS: &[(u32, &str, Option<FormulaFault>)] = &[
    (65532, "true", None),
    (65533, "true", Some(Long)),
    (65537, "", Some(Long)),
];

#[test]
fn long_texts(rt: HostRuntime) {
    for (blanks, end, want) in BLANKS {
        assert!(rt;
            fault_behind(rt.alloc(), *blanks, end) == Ok(*want),
            "{blanks}"
        );
    }
}
