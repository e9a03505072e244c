ghost use Rattle.std.specs.Prelude.{◌≡◌, ◌+◌, ◌^◌, ◌<◌, length, IfOk};
ghost use Rattle.tv_program.specs.Views.{condition, expression};

use std::alloc::Global;
use std::test::Fail;
use tv_language::scan;
use tv_program::{Cond, Expr, Names};
use tv_reading::{PartFault, Reading};
use tv_spelling::{append_sum, write_condition, write_sum};

/// The failure of a call that fails for want of memory alone.
fn no_memory(fault: PartFault) -> Fail
    requires { fault ≡ PartFault.Memory }
{
    let _fault = fault;
    Fail::from("no memory")
}

/// The sum in front of a text, and that of the text that is written of it: the same one; and the names.
fn sum_again(alloc: Global, text: &[u8]) -> Result<(Expr, Expr, Names), Fail>
    requires { length text.now + 1 < 2 ^ 32 }
    ensures { IfOk result (λ both. expression both.1 ≡ expression both.0) }
{
    let list = scan(alloc, text)?;
    let mut reading = Reading::new(alloc, text, &list, Names::new(alloc), true);
    let Ok(expr) = reading.sum() else {
        return Err(Fail::from("no sum"));
    };
    if reading.draws() > 0 {
        return Err(Fail::from("a draw"));
    }
    let names = reading.finish();
    let written = write_sum(alloc, &expr, &names)?;
    if written.len() >= u32::MAX as usize {
        return Err(Fail::from("a long text"));
    }
    let tokens = scan(alloc, &written)?;
    let mut second = Reading::new(alloc, &written, &tokens, names, true);
    match second.sum() {
        Ok(again) => Ok((expr, again, second.finish())),
        Err(fault) => Err(no_memory(fault)),
    }
}

/// The condition in front of a text, likewise.
fn condition_again(alloc: Global, text: &[u8]) -> Result<(Cond, Cond, Names), Fail>
    requires { length text.now + 1 < 2 ^ 32 }
    ensures { IfOk result (λ both. condition both.1 ≡ condition both.0) }
{
    let list = scan(alloc, text)?;
    let mut reading = Reading::new(alloc, text, &list, Names::new(alloc), true);
    let Ok(tested) = reading.condition() else {
        return Err(Fail::from("no condition"));
    };
    if reading.draws() > 0 {
        return Err(Fail::from("a draw"));
    }
    let names = reading.finish();
    let written = write_condition(alloc, &tested, &names)?;
    if written.len() >= u32::MAX as usize {
        return Err(Fail::from("a long text"));
    }
    let tokens = scan(alloc, &written)?;
    let mut second = Reading::new(alloc, &written, &tokens, names, true);
    match second.condition() {
        Ok(again) => Ok((tested, again, second.finish())),
        Err(fault) => Err(no_memory(fault)),
    }
}

/// Whether two sums have one text.
fn are_alike(alloc: Global, first: &Expr, second: &Expr, names: &Names) -> Result<bool, Fail> {
    let mut one = Vec::new(alloc);
    append_sum(alloc, &mut one, first, names)?;
    let mut other = Vec::new(alloc);
    append_sum(alloc, &mut other, second, names)?;
    Ok(one.as_slice() == other.as_slice())
}

fn is_sum_again(alloc: Global, text: &str) -> Result<bool, Fail> {
    if text.len() >= 200 {
        return Err(Fail::from("a long text"));
    }
    let (first, second, names) = sum_again(alloc, text.as_bytes())?;
    are_alike(alloc, &first, &second, &names)
}

const SUMS: &[&str] = &[
    "((x)) + - -(y-1)",
    "2*(3*x)-(x*4)*5 )",
    "-(-at) - (term - (c)) * 1",
    "4611686018427387903 - /* most */ 00",
];

// What is written of a sum is read again.
#[test]
fn sums_are_read_again(rt: HostRuntime) -> Result<(), Fail> {
    for text in SUMS {
        assert!(rt; is_sum_again(rt.alloc(), text)?, "{text}");
    }
    Ok(())
}

/// How many names the condition of a text has that is read again.
fn names_again(alloc: Global, text: &str) -> Result<u32, Fail> {
    if text.len() >= 200 {
        return Err(Fail::from("a long text"));
    }
    let (_, _, names) = condition_again(alloc, text.as_bytes())?;
    Ok(names.len())
}

const CONDITIONS: &[(&str, u32)] = &[
    ("!(!!(x > 0)) && (true || y-1 != x)", 2),
    ("(a < b && (false && -a == 3)) || ((c >= (0)))", 3),
];

// What is written of a condition is read again. That the two are the same is proved; programs have their texts compared.
#[test]
fn conditions_are_read_again(rt: HostRuntime) -> Result<(), Fail> {
    for (text, count) in CONDITIONS {
        assert!(rt; names_again(rt.alloc(), text)? == *count, "{text}");
    }
    Ok(())
}
