ghost use Rattle.std.specs.Prelude.{◌≡◌, IfOk, length, pos};
ghost use Rattle.tv_program.specs.Trees as trees;
ghost use Rattle.tv_program.specs.Trees.{compare, no_part, part};
ghost use Rattle.tv_program.specs.Views.{condition, expression};
ghost use Rattle.tv_program.specs.declared.tree.Relation.TheVariants.{Greater};

use crate::texts::{joined, read};
use std::alloc::{AllocError, Global};
use std::test::Fail;
use tv_program::{Cond, Expr, Names, Relation};
use tv_reader::ReadFault;
use tv_spelling::{append_sum, write_condition, write_program, write_sum};

/// `x - 1`
fn one_less(alloc: Global) -> Result<Expr, AllocError>
    ensures { IfOk result (λ e. expression e ≡ trees.sum (part (trees.variable 0) (part (trees.minus (trees.number (pos 1))) no_part))) }
{
    let mut parts = Vec::new(alloc);
    parts.push(Expr::Variable(0))?;
    parts.push(Expr::Minus(Box::new(alloc, Expr::Number(1))?))?;
    Ok(Expr::Sum(parts))
}

/// `x > 0`
fn is_positive() -> Cond
    ensures { condition result ≡ compare Greater (trees.variable 0) (trees.number (pos 0)) }
{
    Cond::Compare(Relation::Greater, Expr::Variable(0), Expr::Number(0))
}

/// The name x.
fn names(alloc: Global) -> Result<Names, Fail>
    ensures { IfOk result (λ names. length names ≡ 1) }
{
    let mut names = Names::new(alloc);
    names.put(b"x")?;
    if names.len() != 1 {
        return Err(Fail::from("one name"));
    }
    Ok(names)
}

fn is_sum_written(alloc: Global) -> Result<bool, Fail> {
    let names = names(alloc)?;
    let sum = one_less(alloc)?;
    let text = write_sum(alloc, &sum, &names)?;
    Ok(text.as_slice() == b"x - 1".as_slice())
}

fn is_condition_written(alloc: Global) -> Result<bool, Fail> {
    let names = names(alloc)?;
    let text = write_condition(alloc, &is_positive(), &names)?;
    Ok(text.as_slice() == b"x > 0".as_slice())
}

#[test]
fn a_sum_and_a_condition(rt: HostRuntime) -> Result<(), Fail> {
    assert!(rt; is_sum_written(rt.alloc())? && is_condition_written(rt.alloc())?);
    Ok(())
}

fn pair(alloc: Global, first: Expr, second: Expr) -> Result<Vec<Expr>, AllocError> {
    let mut parts = Vec::new(alloc);
    parts.push(first)?;
    parts.push(second)?;
    Ok(parts)
}

/// `(x + -1) * 3`, where the number is below 0 and not the opposite of one.
fn with_negative_number(alloc: Global) -> Result<Expr, AllocError> {
    let sum = Expr::Sum(pair(alloc, Expr::Variable(0), Expr::Number(-1))?);
    Ok(Expr::Product(pair(alloc, sum, Expr::Number(3))?))
}

fn is_number_written(alloc: Global) -> Result<bool, Fail> {
    let product = with_negative_number(alloc)?;
    let names = names(alloc)?;
    let mut text = Vec::new(alloc);
    append_sum(alloc, &mut text, &product, &names)?;
    Ok(text.as_slice() == b"(x + -1) * 3".as_slice())
}

#[test]
fn a_number_below_0(rt: HostRuntime) -> Result<(), Fail> {
    assert!(rt; is_number_written(rt.alloc())?);
    Ok(())
}

/// Whether the program of one text is written as the other.
fn is_written(alloc: Global, text: &[u8], wanted: &[u8]) -> Result<bool, ReadFault> {
    let program = read(alloc, text)?;
    let written = write_program(alloc, &program)?;
    Ok(written.as_slice() == wanted)
}

/// Whether an edge with one part is written as that with the other.
fn is_part_written(
    alloc: Global,
    front: &str,
    part: &str,
    wanted: &str,
    end: &str,
) -> Result<bool, ReadFault> {
    let text = joined(alloc, front, part, end)?;
    let written = joined(alloc, front, wanted, end)?;
    is_written(alloc, &text, &written)
}

// A sum, and how it is written.
const SUMS: [(&str, &str); 14] = [
    // the signs of parts
    ("x-(y+1)", "x - (y + 1)"),
    ("x - - y", "x - -y"),
    ("-x + y", "-x + y"),
    ("( x + y ) + nondet( )", "(x + y) + nondet()"),
    // signs before products
    ("x-2*y", "x - 2 * y"),
    ("x - (2 * y)", "x - 2 * y"),
    ("-(2 * x) + y", "-(2 * x) + y"),
    ("-2 * x + y", "-2 * x + y"),
    ("x + -y * 2", "x + -y * 2"),
    // factors in brackets
    ("(x + -1)*3", "(x - 1) * 3"),
    ("2 * (3 * y)", "2 * (3 * y)"),
    ("-(x+y)", "-(x + y)"),
    ("--x", "--x"),
    ("((x))", "x"),
];

fn is_sum_of_edge(alloc: Global, sum: &str, written: &str) -> bool {
    let front = "START: a;\nFROM: a;\nassume(x == y);\nx := ";
    is_part_written(alloc, front, sum, written, ";\nTO: a;\n") == Ok(true)
}

#[test]
fn sums_in_their_one_spelling(rt: HostRuntime) {
    for (sum, written) in SUMS {
        assert!(rt; is_sum_of_edge(rt.alloc(), sum, written), "{sum}");
    }
}

// A condition, and how it is written.
const CONDITIONS: [(&str, &str); 15] = [
    ("x<y", "x < y"),
    ("x<=y", "x <= y"),
    ("x>y", "x > y"),
    ("x>=y", "x >= y"),
    ("x==y", "x == y"),
    ("x!=y", "x != y"),
    // parts in brackets
    ("((x < y) && true) || true", "x < y && true || true"),
    ("(x < y || true) && true", "(x < y || true) && true"),
    ("(false && true) && true", "(false && true) && true"),
    ("(false || true) || true", "(false || true) || true"),
    // denied
    ("!((x == y))", "!(x == y)"),
    ("! !true", "!!true"),
    ("!(false && true)", "!(false && true)"),
    ("(!false) && true", "!false && true"),
    ("(((x > 0)))", "x > 0"),
];

fn is_condition_of_edge(alloc: Global, tested: &str, written: &str) -> bool {
    let front = "START: a;\nFROM: a;\nassume(";
    is_part_written(alloc, front, tested, written, ");\nTO: a;\n") == Ok(true)
}

#[test]
fn conditions_in_their_one_spelling(rt: HostRuntime) {
    for (tested, written) in CONDITIONS {
        assert!(rt;
            is_condition_of_edge(rt.alloc(), tested, written),
            "{tested}"
        );
    }
}

// A program, and how it is written.
const PROGRAMS: [(&str, &str); 3] = [
    (
        "START: a; FROM: a; TO: b; FROM: b; AT(1) assume(x > 0); x := x - 1; TO: b; ERROR: c;",
        "START: a;\nFROM: a;\nTO: b;\nFROM: b;\nassume(x > 0);\nx := x - 1;\nTO: b;\n",
    ),
    (
        "FROM: b; assume(nondet()>x||!(x>0)); y := 2*(x+y); x := nondet(); TO: a; START: a;",
        "START: a;\nFROM: b;\nassume(nondet() > x || !(x > 0));\ny := 2 * (x + y);\nx := nondet();\nTO: a;\n",
    ),
    ("START: 0;", "START: 0;\n"),
];

#[test]
fn programs_in_their_one_spelling(rt: HostRuntime) {
    for (text, written) in PROGRAMS {
        let is_written = is_written(rt.alloc(), text.as_bytes(), written.as_bytes());
        assert!(rt; is_written == Ok(true), "{text}");
    }
}
