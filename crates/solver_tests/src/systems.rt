ghost use Rattle.std.specs.Prelude.{IfOk};
ghost use Rattle.tv_simplex.specs.Systems.{IsWhole};
ghost use Rattle.tv_simplex.specs.Views.{equations};

use std::alloc::{AllocError, Global};
use std::process::Abort;
use std::test::Fail;
use tv_simplex::{Answer, Entries, SolveFault, System, solve};

/// What a system is to be answered.
#[derive(Drop)]
enum Wanted {
    Solution(&'static [i128], i128),
    Barrier(&'static [i128]),
    Width(&'static [u32], u32, u32),
    Scale(&'static [u32]),
    Pivots(u64),
}

/// A system, a budget and the answer that is wanted.
#[derive(Drop)]
struct Question {
    rows: u32,
    columns: u32,
    entries: &'static [i128],
    right: &'static [i128],
    pivots: u64,
    wanted: Wanted,
}

fn case(
    rows: u32,
    columns: u32,
    entries: &'static [i128],
    right: &'static [i128],
    pivots: u64,
    wanted: Wanted,
) -> Question {
    Question {
        rows,
        columns,
        entries,
        right,
        pivots,
        wanted,
    }
}

fn put(rt: &impl Abort, entries: &mut Entries, number: i128) -> Result<(), AllocError> {
    assert!(rt; entries.len() < 10_000);
    entries.push(number)
}

fn put_zeros(rt: &impl Abort, entries: &mut Entries, count: u32) {
    assert!(rt; entries.len() < 10_000);
    entries.push_zeros(count);
}

/// The numbers as entries of a system.
fn entries_of(rt: &impl Abort, alloc: Global, numbers: &[i128]) -> Result<Entries, AllocError> {
    let mut entries = Entries::new(alloc);
    for number in numbers {
        put(rt, &mut entries, *number)?;
    }
    Ok(entries)
}

/// The system of a case, whose lengths agree.
fn system_of(rt: &impl Abort, alloc: Global, case: &Question) -> Result<System, AllocError>
    ensures { IfOk result (λ s. IsWhole (equations s)) }
{
    assert!(rt; case.rows <= 2000);
    assert!(rt; case.columns <= 2000);
    assert!(rt; case.right.len() == case.rows as usize);
    let entries = entries_of(rt, alloc, case.entries)?;
    assert!(rt; entries.len() == case.rows as usize * case.columns as usize);
    Ok(System {
        rows: case.rows,
        columns: case.columns,
        entries,
        right: Vec::from_slice(alloc, case.right)?,
    })
}

fn is_answered(wanted: &Wanted, found: &Result<Answer, SolveFault>) -> bool {
    match (wanted, found) {
        (Wanted::Solution(numbers, over), Ok(Answer::Solution { values, scale })) => {
            values.as_slice() == *numbers && scale == over
        }
        (Wanted::Barrier(numbers), Ok(Answer::Barrier { y })) => y.as_slice() == *numbers,
        (Wanted::Width(at, i, j), Err(SolveFault::Width { basis, row, column })) => {
            basis.as_slice() == *at && row == i && column == j
        }
        (Wanted::Scale(at), Err(SolveFault::Scale { basis })) => basis.as_slice() == *at,
        (Wanted::Pivots(count), Err(SolveFault::Pivots { bases })) => bases == count,
        _ => false,
    }
}

const TWO: &[i128] = &[1, -1, 0, 1];

const WIDE: i128 = 1 << 40;

#[test]
fn systems_are_settled(rt: HostRuntime) -> Result<(), Fail> {
    let cases = [
        // Two rows and two columns have six choices of a basis.
        case(2, 2, TWO, &[0, 1], 6, Wanted::Solution(&[1, 1], 1)),
        case(2, 2, TWO, &[0, 1], 3, Wanted::Solution(&[1, 1], 1)),
        case(2, 2, TWO, &[0, 1], 1, Wanted::Pivots(1)),
        case(
            2,
            2,
            &[2, 3, 4, -1],
            &[7, 0],
            9,
            Wanted::Solution(&[1, 4], 2),
        ),
        case(
            2,
            3,
            &[1, 1, 0, 1, 0, 1],
            &[1, 1],
            9,
            Wanted::Solution(&[1, 0, 0], 1),
        ),
        case(1, 1, &[1], &[-1], 9, Wanted::Barrier(&[1])),
        case(2, 2, &[2, 3, 4, 6], &[7, 15], 9, Wanted::Barrier(&[2, -1])),
        case(0, 2, &[], &[], 1, Wanted::Solution(&[0, 0], 1)),
        case(1, 0, &[], &[1], 1, Wanted::Barrier(&[-1])),
    ];
    for case in &cases {
        let system = system_of(&rt, rt.alloc(), case)?;
        let found = solve(rt.alloc(), &system, case.pivots);
        assert!(rt; is_answered(&case.wanted, &found));
    }
    Ok(())
}

/// The rows `0 0 0 0 2` and `3 0 0 0 0`.
fn corners(rt: &impl Abort, alloc: Global) -> Result<Entries, AllocError> {
    let mut entries = Entries::new(alloc);
    put_zeros(rt, &mut entries, 4);
    put(rt, &mut entries, 2)?;
    put(rt, &mut entries, 3)?;
    put_zeros(rt, &mut entries, 4);
    Ok(entries)
}

/// The equations of these rows with the right sides 4 and 9.
fn corner_system(rt: &impl Abort, alloc: Global) -> Result<System, AllocError>
    ensures { IfOk result (λ s. IsWhole (equations s)) }
{
    let right = Vec::from_slice(alloc, &[4, 9])?;
    let entries = corners(rt, alloc)?;
    assert!(rt; right.len() == 2);
    assert!(rt; entries.len() == 10);
    Ok(System {
        rows: 2,
        columns: 5,
        entries,
        right,
    })
}

#[test]
fn runs_of_zeros_are_read(rt: HostRuntime) -> Result<(), Fail> {
    let system = corner_system(&rt, rt.alloc())?;
    let found = solve(rt.alloc(), &system, 9);
    assert!(rt; is_answered(&Wanted::Solution(&[3, 0, 0, 0, 2], 1), &found));
    Ok(())
}

#[test]
fn wide_numbers_are_refused(rt: HostRuntime) -> Result<(), Fail> {
    let cases = [
        case(1, 1, &[WIDE], &[1], 9, Wanted::Width(&[1], 0, 0)),
        case(1, 1, &[1], &[-WIDE], 9, Wanted::Width(&[1], 0, 2)),
        // The two entries add up to a number of the objective row that is not narrow.
        case(
            2,
            1,
            &[WIDE - 1, WIDE - 1],
            &[1, 1],
            9,
            Wanted::Width(&[1, 2], 2, 0),
        ),
        // A difference of products after the first exchange.
        case(
            2,
            2,
            &[1099511627689, 1, 1, 549755813881],
            &[1, 1],
            9,
            Wanted::Width(&[0, 3], 1, 1),
        ),
        // The least common multiple of two coprime numbers of 39 bits.
        case(
            2,
            2,
            &[549755813881, 0, 0, 549755813879],
            &[1, 1],
            9,
            Wanted::Scale(&[0, 1]),
        ),
    ];
    for case in &cases {
        let system = system_of(&rt, rt.alloc(), case)?;
        let found = solve(rt.alloc(), &system, case.pivots);
        assert!(rt; is_answered(&case.wanted, &found));
    }
    Ok(())
}
