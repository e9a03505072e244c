// Programs that are made, and what is written of them.

ghost use Rattle.std.specs.Prelude.{◌≡◌, ◌+◌, ◌*◌, ◌<◌, ◌≤◌, ◌^◌, ◌++◌, length, string_bytes, IfOk};
ghost use Rattle.tv_top.specs.Generated.{step_lines, way_lines, loop_lines, generated_text, number_line, count_lines};

use itoa::Buffer;
use std::alloc::{AllocError, Global};

/// The step of the loop at a location.
fn step_lines(alloc: Global, number: u32) -> Result<String, AllocError>
    ensures { IfOk result (λ text. string_bytes text ≡ step_lines number) }
{
    let mut digits = Buffer::new();
    let number = digits.format(number);
    format!(in alloc; "FROM: {number};\nassume(a > 0);\na := a - 1;\nTO: {number};\n")
}

/// The way from a loop to the next one.
fn way_lines(alloc: Global, number: u32) -> Result<String, AllocError>
    requires { number < 1000 }
    ensures { IfOk result (λ text. string_bytes text ≡ way_lines number) }
{
    let mut this_digits = Buffer::new();
    let mut next_digits = Buffer::new();
    let this = this_digits.format(number);
    let next = next_digits.format(number + 1);
    format!(in alloc; "FROM: {this};\nassume(a <= 0);\na := nondet();\nTO: {next};\n")
}

/// Puts the loop at a location at the end of the text.
fn push_loop(alloc: Global, number: u32, text: &mut Vec<u8>) -> Result<(), AllocError>
    requires { number < 1000 }
    ensures { IfOk result (λ _. text.new.items ≡ text.old.items ++ loop_lines number) }
{
    let step = step_lines(alloc, number)?;
    let way = way_lines(alloc, number)?;
    text.extend_from_slice(step.as_bytes())?;
    text.extend_from_slice(way.as_bytes())?;
    Ok(())
}

/// The text of a program of `loops` loops. Each of them counts down and then draws a number for the next.
pub fn generated(alloc: Global, loops: u32) -> Result<Vec<u8>, AllocError>
    requires { loops ≤ 1000 }
    ensures exact { IfOk result (λ text. text.items ≡ generated_text loops) }
    ensures short { IfOk result (λ text. length text.items ≤ 1048576) }
{
    let mut text = Vec::from_slice(alloc, "START: 0;\n".as_bytes())?;
    'loops: for number in 0..loops {
        push_loop(alloc, number, &mut text)?;
    }
    Ok(text)
}

/// A line of a word and a number.
fn number_line(alloc: Global, word: &str, number: u64) -> Result<String, AllocError>
    ensures { IfOk result (λ text. string_bytes text ≡ number_line word.now number) }
{
    let mut digits = Buffer::new();
    let number = digits.format(number);
    format!(in alloc; "{word}{number}\n")
}

/// The lines that say how many loops, cases and obligations there are.
pub(crate) fn count_lines(
    alloc: Global,
    loops: u32,
    cases: u64,
    obligations: u64,
) -> Result<Vec<u8>, AllocError>
    ensures { IfOk result (λ text. text.items ≡ count_lines loops cases obligations) }
{
    let loops = number_line(alloc, "loops ", u64::from(loops))?;
    let cases = number_line(alloc, "cases ", cases)?;
    let obligations = number_line(alloc, "obligations ", obligations)?;
    let mut lines = Vec::from_slice(alloc, loops.as_bytes())?;
    lines.extend_from_slice(cases.as_bytes())?;
    lines.extend_from_slice(obligations.as_bytes())?;
    Ok(lines)
}
