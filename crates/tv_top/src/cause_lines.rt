// The lines of an unknown answer.

ghost use Rattle.std.specs.Prelude.{◌≡◌, ◌++◌, ◌∷◌, [], IfOk, OnOk, map, decimal, string_bytes};
ghost use Rattle.std.specs.Fmt.{signed_decimal};
ghost use Rattle.tv_top.specs.CauseLines.{searched_words, system_words, unsolved_line, numbered_detail, two_numbers_detail, system_line, spaced, point_line, count_line, cause_line, detail_line};

use crate::cause::Cause;
use crate::named_system::NamedSystem;
use crate::system_fault::SystemFault;
use itoa::Buffer;
use std::alloc::{AllocError, Global};
use tv_rank::Name;

/// The words that name a system of the search for ranks, or of a question of integer points.
fn searched_words(alloc: Global, system: &Name) -> Result<String, AllocError>
    ensures { IfOk result (λ text. string_bytes text ≡ searched_words system.now) }
{
    let mut first = Buffer::new();
    let mut second = Buffer::new();
    let mut third = Buffer::new();
    match system {
        Name::Empty(case) => {
            let case = first.format(*case);
            format!(in alloc; "empty {case}")
        }
        Name::Rank {
            component,
            round,
            falling,
        } => {
            let component = first.format(*component);
            let round = second.format(*round);
            let falling = third.format(*falling);
            format!(in alloc; "rank {component} {round} {falling}")
        }
        Name::Rows(rows) => {
            let count = first.format(rows.len());
            format!(in alloc; "rows {count}")
        }
        Name::Later { set, .. } => {
            let count = first.format(set.len());
            format!(in alloc; "later {count}")
        }
    }
}

/// The words that name a system.
fn system_words(alloc: Global, system: &NamedSystem) -> Result<String, AllocError>
    ensures { IfOk result (λ text. string_bytes text ≡ system_words system.now) }
{
    let mut first = Buffer::new();
    let mut second = Buffer::new();
    match system {
        NamedSystem::Searched(system) => searched_words(alloc, system),
        NamedSystem::Nested { component, depth } => {
            let component = first.format(*component);
            let depth = second.format(*depth);
            format!(in alloc; "nest {component} {depth}")
        }
        NamedSystem::Visited(system) => {
            let words = searched_words(alloc, system)?;
            format!(in alloc; "visits {words}")
        }
    }
}

/// The line of a system with one number.
fn numbered_detail(
    alloc: Global,
    system: &str,
    what: &str,
    number: u64,
) -> Result<String, AllocError>
    ensures { IfOk result (λ text. string_bytes text ≡ numbered_detail system.now what.now number) }
{
    let mut digits = Buffer::new();
    let number = digits.format(number);
    format!(in alloc; "system {system} {what} {number}\n")
}

/// The line of a system with a row, or rows, and a column, or columns.
fn two_numbers_detail(
    alloc: Global,
    system: &str,
    plural: &str,
    rows: u64,
    columns: u64,
) -> Result<String, AllocError>
    ensures { IfOk result (λ text. string_bytes text ≡ two_numbers_detail system.now plural.now rows columns) }
{
    let mut row_digits = Buffer::new();
    let mut column_digits = Buffer::new();
    let rows = row_digits.format(rows);
    let columns = column_digits.format(columns);
    format!(in alloc; "system {system} row{plural} {rows} column{plural} {columns}\n")
}

/// The line of the cause for which a system was not settled.
fn unsolved_line(alloc: Global, fault: &SystemFault) -> Result<String, AllocError>
    ensures { IfOk result (λ text. string_bytes text ≡ unsolved_line fault.now) }
{
    match fault {
        SystemFault::Width { .. } => format!(in alloc; "Unknown width\n"),
        SystemFault::Scale { .. } => format!(in alloc; "Unknown width\n"),
        SystemFault::Pivots { .. } => format!(in alloc; "Unknown pivots\n"),
        SystemFault::Size { .. } => format!(in alloc; "Unknown size\n"),
    }
}

/// The line that says which system it is, and where or how it was not settled.
fn system_line(
    alloc: Global,
    system: &NamedSystem,
    fault: &SystemFault,
) -> Result<String, AllocError>
    ensures { IfOk result (λ text. string_bytes text ≡ system_line system.now fault.now) }
{
    let words = system_words(alloc, system)?;
    match fault {
        SystemFault::Width { row, column, .. } => {
            two_numbers_detail(alloc, &words, "", u64::from(*row), u64::from(*column))
        }
        SystemFault::Scale { .. } => format!(in alloc; "system {words} scale\n"),
        SystemFault::Pivots { bases } => numbered_detail(alloc, &words, "bases", *bases),
        SystemFault::Size { rows, columns } => {
            two_numbers_detail(alloc, &words, "s", *rows, *columns)
        }
    }
}

/// The text is added.
pub(crate) fn append(out: &mut Vec<u8>, text: &str) -> Result<(), AllocError>
    ensures { OnOk result (out.new.items ≡ out.old.items ++ text.now) }
{
    out.extend_from_slice(text.as_bytes())
}

/// The word is added, with a space before it.
fn append_word(out: &mut Vec<u8>, word: &str) -> Result<(), AllocError>
    ensures { OnOk result (out.new.items ≡ out.old.items ++ 32 ∷ word.now) }
{
    append(out, " ")?;
    append(out, word)
}

/// The numbers are added, each with a space before it, up to the end of the line.
fn append_numbers(out: &mut Vec<u8>, numbers: &[u32]) -> Result<(), AllocError>
    ensures { OnOk result (out.new.items ≡ out.old.items ++ spaced (map decimal numbers.now)) }
{
    match numbers {
        [] => append(out, "\n"),
        [first, rest @ ..] => {
            let mut digits = Buffer::new();
            append_word(out, digits.format(*first))?;
            append_numbers(out, rest)
        }
    }
}

/// The values are added, each with a space before it, up to the end of the line.
pub(crate) fn append_values(out: &mut Vec<u8>, values: &[i128]) -> Result<(), AllocError>
    ensures { OnOk result (out.new.items ≡ out.old.items ++ spaced (map signed_decimal values.now)) }
{
    match values {
        [] => append(out, "\n"),
        [first, rest @ ..] => {
            let mut digits = Buffer::new();
            append_word(out, digits.format(*first))?;
            append_values(out, rest)
        }
    }
}

/// The line of a point at a location is added.
fn append_point(out: &mut Vec<u8>, label: &[u8], point: &[i128]) -> Result<(), AllocError>
    ensures { OnOk result (out.new.items ≡ out.old.items ++ point_line label.now point.now) }
{
    append(out, "location ")?;
    out.extend_from_slice(label)?;
    append(out, " at")?;
    append_values(out, point)
}

/// The line of a count at a location is added.
fn append_count(out: &mut Vec<u8>, label: &[u8], count: u64) -> Result<(), AllocError>
    ensures { OnOk result (out.new.items ≡ out.old.items ++ count_line label.now count) }
{
    let mut digits = Buffer::new();
    append(out, "location ")?;
    out.extend_from_slice(label)?;
    append(out, " count ")?;
    append(out, digits.format(count))?;
    append(out, "\n")
}

/// The words and the number are added, up to the end of the line.
fn append_number(out: &mut Vec<u8>, words: &str, number: usize) -> Result<(), AllocError>
    ensures { OnOk result (out.new.items ≡ out.old.items ++ (words.now ++ (decimal number ++ 10 ∷ []))) }
{
    let mut digits = Buffer::new();
    append(out, words)?;
    append(out, digits.format(number))?;
    append(out, "\n")
}

impl Cause {
    /// The first line of the answer.
    pub fn line(&self, alloc: Global) -> Result<String, AllocError>
        ensures { IfOk result (λ text. string_bytes text ≡ cause_line self.now) }
    {
        match self {
            Cause::Unsolved { fault, .. } => unsolved_line(alloc, fault),
            Cause::Spent { .. } => format!(in alloc; "Unknown splits\n"),
            Cause::Composed { .. } => format!(in alloc; "Unknown width\n"),
            Cause::Unranked { .. } => format!(in alloc; "Unknown rank\n"),
            Cause::Weak { .. } => format!(in alloc; "Unknown invariant\n"),
            Cause::TooManyPaths { .. } => format!(in alloc; "Unknown disjuncts\n"),
            Cause::TooManyPieces { .. } => format!(in alloc; "Unknown disjuncts\n"),
            Cause::Drawn { .. } => format!(in alloc; "Unknown template\n"),
            Cause::Unsettled { .. } => format!(in alloc; "Unknown template\n"),
            Cause::WideComparison { .. } => format!(in alloc; "Unknown width\n"),
        }
    }

    /// The second line is added, if there is one.
    pub fn append_detail(&self, alloc: Global, out: &mut Vec<u8>) -> Result<(), AllocError>
        ensures { OnOk result (out.new.items ≡ out.old.items ++ detail_line self.now) }
    {
        match self {
            Cause::Unsolved { system, fault } => append(out, &system_line(alloc, system, fault)?),
            Cause::Spent { path } => append_number(out, "splits ", path.len()),
            Cause::Composed { column } => append_number(out, "composed column ", *column as usize),
            Cause::Unranked { set, .. } => {
                append(out, "cases")?;
                append_numbers(out, set)
            }
            Cause::Weak { label, point } => append_point(out, label, point),
            Cause::TooManyPaths { label, count } => append_count(out, label, *count),
            Cause::TooManyPieces { label, count } => append_count(out, label, *count),
            Cause::Drawn { case } => append_number(out, "draw case ", *case as usize),
            Cause::Unsettled { subformula } => {
                append_number(out, "subformula ", *subformula as usize)
            }
            Cause::WideComparison { column } => {
                append_number(out, "composed column ", *column as usize)
            }
        }
    }
}
