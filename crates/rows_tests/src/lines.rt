use std::alloc::Global;
use std::test::Fail;
use tv_lines::Head::{At, By, Draw, Node, Piece, Row, Take};
use tv_lines::NodeKind::{And, Atom, Fix, Next, NoTerm, Or, Term};
use tv_lines::PieceMark::{Done, Go};
use tv_lines::{Head, Line, Lines, write_line};

fn are_same(given: &[i64], numbers: &[i128]) -> bool {
    given.len() == numbers.len()
        && given
            .iter()
            .zip(numbers)
            .all(|(left, right)| i128::from(*left) == *right)
}

fn is_formed(line: &Option<Line>, head: Head, numbers: &[i128]) -> bool {
    match line {
        Some(Line::Formed(found, given)) => *found == head && are_same(given, numbers),
        _ => false,
    }
}

// A text of one line, its head and its numbers.
const FORMS: [(&str, Head, &[i128]); 25] = [
    ("T2CERT 1\n", Head::Header, &[]),
    ("proved\n", Head::Proved, &[]),
    ("disproved\n", Head::Disproved, &[]),
    ("node atom 2 0\n", Node(Atom), &[2, 0]),
    ("node and 1 0\n", Node(And), &[1, 0]),
    ("node or 1 0\n", Node(Or), &[1, 0]),
    ("node next 0 0\n", Node(Next), &[0, 0]),
    ("node fix 2 0\n", Node(Fix), &[2, 0]),
    ("node term 2 2\n", Node(Term), &[2, 2]),
    ("node noterm 2 0\n", Node(NoTerm), &[2, 0]),
    ("piece 0 done 1\n", Piece(Done), &[0, 1]),
    ("piece 13 go 0\n", Piece(Go), &[13, 0]),
    ("row 1 -5\n", Row, &[1, -5]),
    ("rank 0 0\n", Head::Rank, &[0, 0]),
    ("split -1 10\n", Head::Split, &[-1, 10]),
    ("empty 1 1\n", Head::Empty, &[1, 1]),
    ("into 0 1\n", Head::Into, &[0, 1]),
    ("by 1 -2 3\n", By, &[1, -2, 3]),
    ("by\n", By, &[]),
    ("nostep\n", Head::NoStep, &[]),
    ("take 1 0 0\n", Take, &[1, 0, 0]),
    ("draw 2 7\n", Draw, &[2, 7]),
    ("at 0 1\n", At, &[0, 1]),
    ("end\n", Head::End, &[]),
    (
        "by 4611686018427387903 -4611686018427387903\n",
        By,
        &[4611686018427387903, -4611686018427387903],
    ),
];

#[test]
fn each_form_is_read(rt: HostRuntime) -> Result<(), Fail> {
    for (text, head, numbers) in FORMS {
        let line = Lines::new(text.as_bytes()).next(rt.alloc())?;
        assert!(rt; is_formed(&line, head, numbers), "{text:?}");
    }
    Ok(())
}

#[test]
fn each_form_is_written(rt: HostRuntime) -> Result<(), Fail> {
    for (text, head, numbers) in FORMS {
        let mut out = Vec::new(rt.alloc());
        write_line(rt.alloc(), &mut out, head, numbers)?;
        assert!(rt; out.as_slice() == text.as_bytes(), "{text:?}");
    }
    Ok(())
}

// A letter for a line that is formed, formless or wide, or for none.
fn letter(line: Option<Line>) -> u8 {
    match line {
        Some(Line::Formed(..)) => b'f',
        Some(Line::Formless) => b'x',
        Some(Line::Wide) => b'w',
        None => b'-',
    }
}

/// Whether the lines of the text have these letters, and there are no more.
fn have_letters(alloc: Global, text: &str, letters: &str) -> Result<bool, Fail> {
    let mut lines = Lines::new(text.as_bytes());
    for want in letters.as_bytes() {
        if letter(lines.next(alloc)?) != *want {
            return Ok(false);
        }
    }
    Ok(lines.next(alloc)?.is_none())
}

// A text and the letters of its lines.
const LETTERS: [(&str, &str); 32] = [
    ("", ""),
    ("\n", "x"),
    ("end", "f"),
    ("by 1\r\nend\r\n", "ff"),
    ("end\n\n", "fx"),
    ("end\r", "x"),
    ("end\r\r\n", "x"),
    ("by\r1\n", "x"),
    ("by 01", "x"),
    ("by -0", "x"),
    ("by -01", "x"),
    ("by +1", "x"),
    ("by -", "x"),
    ("by 1 ", "x"),
    (" by 1", "x"),
    ("by 1  2", "x"),
    ("by\t1", "x"),
    ("by x", "x"),
    ("By 1", "x"),
    ("into 0", "x"),
    ("into 0 0 0", "x"),
    ("end 0", "x"),
    ("node foo 1 0", "x"),
    ("piece 0 gone 0", "x"),
    ("piece 0 go 0 0", "x"),
    ("T2CERT 2", "x"),
    ("T2CERT 1 1", "x"),
    ("by 4611686018427387904", "w"),
    ("by -4611686018427387904 0", "w"),
    (
        "piece 0 go 99999999999999999999999999999999999999999999",
        "w",
    ),
    ("by 4611686018427387904 x", "x"),
    ("into 4611686018427387904", "x"),
];

#[test]
fn lines_are_taken_off(rt: HostRuntime) -> Result<(), Fail> {
    for (text, letters) in LETTERS {
        assert!(rt; have_letters(rt.alloc(), text, letters)?, "{text:?}");
    }
    Ok(())
}
