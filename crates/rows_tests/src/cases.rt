ghost use Rattle.std.specs.Prelude.{◌≡◌, All, IfOk};
ghost use Rattle.tv_linear.specs.Linear.{columns};

use crate::given::{is, one_row, row};
use std::alloc::{AllocError, Global};
use std::test::Fail;
use tv_cases::{Case, Cases, all_before, before, cases, comparison_lists};
use tv_linear::{Poly, Row, RowFault, Update};
use tv_program::{Edge, Expr, Names, Program, Relation};

/// A case that changes the one variable alone.
fn assignment(alloc: Global, term: Row) -> Result<Case, AllocError>
    requires { columns term ≡ 1 }
    ensures drawless { IfOk result (λ c. c.draws ≡ 0) }
    ensures even { IfOk result (λ c. All (λ u. columns u.term ≡ 1) c.updates.items) }
{
    let mut updates = Vec::new(alloc);
    updates.push(Update { variable: 0, term })?;
    Ok(Case {
        from: 0,
        to: 0,
        draws: 0,
        guards: Poly {
            columns: 1,
            rows: Vec::new(alloc),
        },
        updates,
    })
}

/// The row before such a case.
fn before_assignment(alloc: Global, row: &Row, term: Row) -> Result<Row, RowFault>
    requires row { columns row.now ≡ 1 }
    requires term { columns term ≡ 1 }
{
    before(alloc, row, &assignment(alloc, term)?)
}

/// Whether the one row before such a case has these numbers.
fn is_one_before(
    alloc: Global,
    rows: &[Row],
    term: Row,
    numbers: &[i64],
    constant: i128,
) -> Result<bool, RowFault>
    requires rows { All (λ r. columns r ≡ 1) rows.now }
    requires term { columns term ≡ 1 }
{
    let before = all_before(alloc, rows, &assignment(alloc, term)?, 1)?;
    match before.as_slice() {
        [only] => Ok(is(only, numbers, constant)),
        _ => Ok(false),
    }
}

#[test]
fn rows_are_read_before_a_case(rt: HostRuntime) -> Result<(), Fail> {
    let five = row(rt.alloc(), &[1], -5)?;
    let next = row(rt.alloc(), &[1], 1)?;
    assert!(rt; is(&before_assignment(rt.alloc(), &five, next)?, &[1], -4));
    Ok(())
}

#[test]
fn lists_of_rows_are_read_before_a_case(rt: HostRuntime) -> Result<(), Fail> {
    let fives = one_row(rt.alloc(), 1, -5)?;
    let next = row(rt.alloc(), &[1], 1)?;
    assert!(rt; is_one_before(rt.alloc(), &fives, next, &[1], -4)?);
    Ok(())
}

/// A program of one edge, which draws two numbers and has no command.
fn one_edge(alloc: Global) -> Result<Program, Fail> {
    let mut locations = Names::new(alloc);
    locations.put(b"0")?;
    if locations.len() != 1 {
        return Err(Fail::from("the name was not put"));
    }
    let mut edges = Vec::new(alloc);
    edges.push(Edge {
        from: 0,
        to: 0,
        draws: 2,
        commands: Vec::new(alloc),
    })?;
    Ok(Program::new(Names::new(alloc), locations, 0, edges))
}

fn is_one_case(cases: &Cases) -> bool {
    match cases.list() {
        [case] => case.draws == 2 && case.guards.columns == 2,
        _ => false,
    }
}

fn leaves_from_0_alone(cases: &Cases) -> bool {
    let is_found = match cases.leaving(0, 0) {
        Some(case) => case.draws == 2,
        None => false,
    };
    is_found && cases.leaving(0, 1).is_none() && cases.leaving(1, 0).is_none()
}

fn has_one_case(alloc: Global, program: &Program) -> bool {
    match cases(alloc, program) {
        Ok(cases) => is_one_case(&cases) && leaves_from_0_alone(&cases),
        Err(_) => false,
    }
}

#[test]
fn an_edge_without_commands_is_one_case(rt: HostRuntime) -> Result<(), Fail> {
    let program = one_edge(rt.alloc())?;
    assert!(rt; has_one_case(rt.alloc(), &program));
    Ok(())
}

/// Whether the first of the lists is one row over one variable.
fn begins_with(lists: &[Vec<Row>], coefficient: i64, constant: i128) -> bool {
    match lists {
        [] => false,
        [list, ..] => match list.as_slice() {
            [row] => is(row, &[coefficient], constant),
            _ => false,
        },
    }
}

/// Whether the comparison of `x` with 5 has `count` lists, and the first of them is this row alone.
fn has_lists(
    alloc: Global,
    relation: Relation,
    count: usize,
    coefficient: i64,
    constant: i128,
) -> Result<bool, Fail> {
    let lists = comparison_lists(alloc, relation, &Expr::Variable(0), &Expr::Number(5), 1)?;
    Ok(lists.len() == count && begins_with(&lists, coefficient, constant))
}

#[test]
fn comparisons_have_the_rows_of_assumptions(rt: HostRuntime) -> Result<(), Fail> {
    for (relation, count, coefficient, constant) in [
        (Relation::Less, 1, 1, -4),
        (Relation::LessEqual, 1, 1, -5),
        (Relation::Greater, 1, -1, 6),
        (Relation::GreaterEqual, 1, -1, 5),
        (Relation::NotEqual, 2, 1, -4),
    ] {
        assert!(rt; has_lists(rt.alloc(), relation, count, coefficient, constant)?);
    }
    Ok(())
}

#[test]
fn a_wide_comparison_has_no_rows(rt: HostRuntime) -> Result<(), Fail> {
    let wide = Expr::Number(1 << 62);
    let lists = comparison_lists(rt.alloc(), Relation::Less, &Expr::Variable(0), &wide, 1)?;
    assert!(rt; lists.is_empty());
    Ok(())
}
