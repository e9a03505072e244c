ghost use Rattle.std.specs.Prelude.{◌≡◌, ◌++◌, ◌∷◌, [], IfOk, decimal, string_bytes};
ghost use Rattle.tv_top.specs.Answers.{kind_word, obligation_line, what_word, placed_line, too_many_line, program_line, counted_line, processes_line, text_line, column_line, property_line, doubled_line, condition_line, plain_line, lines_of, status_of};

use crate::assignment::Assignment;
use crate::cause::Cause;
use crate::status::Status;
use itoa::Buffer;
use std::alloc::{AllocError, Global};
use tv_cases::CaseFault;
use tv_cert::{Failing, Kind};
use tv_finitely::SplitFault;
use tv_formula_reader::FormulaFault;
use tv_interleave::{InterFault, TextFault};
use tv_reader::{ReadFault, What};

/// What is written, and how the run ends.
#[derive(Drop)]
pub enum Answer {
    /// The property holds at every initial state. With the text of the certificate, where it is to be written.
    Proved(Vec<u8>),
    /// The property fails at the initial state with these values. With the text of the certificate, where it is to be written.
    Disproved {
        at: Assignment,
        certificate: Vec<u8>,
    },
    Obligation(Failing),
    /// The text of the certificate is refused at this line.
    CertificateLine(u32),
    Words,
    TooLong,
    /// The program's text is refused.
    Text(TextFault),
    /// The words name no property of the program.
    Property(FormulaFault),
    /// The program is not split by the property of states that the words name.
    Condition(SplitFault),
    /// A number of the linear form of an edge is too wide.
    WideEdge(u32),
    /// With an edge there are too many linear cases.
    TooManyInEdge(u32),
    /// It is not known whether the property holds.
    Unknown(Cause),
    ReadFault,
    Memory,
}

fn kind_word(kind: Kind) -> &'static str
    ensures { result.now ≡ kind_word kind }
{
    match kind {
        Kind::Atom => "atom",
        Kind::Child => "child",
        Kind::Done => "done",
        Kind::Hold => "hold",
        Kind::Successor => "successor",
        Kind::Step => "step",
        Kind::Choice => "choice",
        Kind::Root => "root",
    }
}

/// A refusal of the certificate for an obligation that is not met.
fn refusal(alloc: Global, number: u64, node: u32, kind: Kind) -> Result<String, AllocError>
    ensures { IfOk result (λ line. string_bytes line ≡ obligation_line number node kind) }
{
    let word = kind_word(kind);
    let mut number_digits = Buffer::new();
    let mut node_digits = Buffer::new();
    let number = number_digits.format(number);
    let node = node_digits.format(node);
    format!(in alloc; "Certificate refused obligation {number} node {node} {word}\n")
}

fn what_word(what: What) -> &'static str
    ensures { result.now ≡ what_word what }
{
    match what {
        What::Variables => "variables",
        What::Locations => "locations",
        What::Edges => "edges",
        What::Draws => "draws",
    }
}

/// The line with a number at its end.
fn numbered(alloc: Global, front: &str, number: u32) -> Result<String, AllocError>
    ensures { IfOk result (λ text. string_bytes text ≡ front.now ++ (decimal number ++ 10 ∷ [])) }
{
    let mut digits = Buffer::new();
    let number = digits.format(number);
    format!(in alloc; "{front}{number}\n")
}

/// A refusal of the text for a fault at a place.
fn placed(alloc: Global, cause: &str, line: u32, column: u32) -> Result<String, AllocError>
    ensures { IfOk result (λ text. string_bytes text ≡ placed_line cause.now line column) }
{
    let mut line_digits = Buffer::new();
    let mut column_digits = Buffer::new();
    let line = line_digits.format(line);
    let column = column_digits.format(column);
    format!(in alloc; "Refused text {cause} line {line} column {column}\n")
}

fn too_many(alloc: Global, what: What, line: u32, column: u32) -> Result<String, AllocError>
    ensures { IfOk result (λ text. string_bytes text ≡ too_many_line what line column) }
{
    let word = what_word(what);
    let mut line_digits = Buffer::new();
    let mut column_digits = Buffer::new();
    let line = line_digits.format(line);
    let column = column_digits.format(column);
    format!(in alloc; "Refused text too many {word} line {line} column {column}\n")
}

/// A refusal of the text of a program.
fn program_refusal(alloc: Global, fault: ReadFault) -> Result<String, AllocError>
    ensures { IfOk result (λ line. string_bytes line ≡ program_line fault) }
{
    match fault {
        ReadFault::Syntax { line, column } => placed(alloc, "syntax", line, column),
        ReadFault::NoStart => format!(in alloc; "Refused text no start\n"),
        ReadFault::TwoStarts { line, column } => placed(alloc, "two starts", line, column),
        ReadFault::NotLinear { line, column } => placed(alloc, "not linear", line, column),
        ReadFault::Wide { line, column } => placed(alloc, "wide", line, column),
        ReadFault::TooMany { what, line, column } => too_many(alloc, what, line, column),
        ReadFault::Deep { line, column } => placed(alloc, "deep", line, column),
        ReadFault::Memory => Ok(String::new(alloc)),
    }
}

/// A refusal of the text with a number at its end.
fn counted(alloc: Global, what: &str, count: u128) -> Result<String, AllocError>
    ensures { IfOk result (λ text. string_bytes text ≡ counted_line what.now count) }
{
    let mut digits = Buffer::new();
    let count = digits.format(count);
    format!(in alloc; "Refused text {what} {count}\n")
}

/// A refusal of the text of several processes.
fn processes_refusal(alloc: Global, fault: InterFault) -> Result<String, AllocError>
    ensures { IfOk result (λ line. string_bytes line ≡ processes_line fault) }
{
    match fault {
        InterFault::Syntax { line, column } => placed(alloc, "syntax", line, column),
        InterFault::Processes { count } => counted(alloc, "processes", u128::from(count)),
        InterFault::Part { part: _, fault } => program_refusal(alloc, fault),
        InterFault::Label { line, column } => placed(alloc, "label", line, column),
        InterFault::Variables { count } => counted(alloc, "variables", u128::from(count)),
        InterFault::Locations { count } => counted(alloc, "product locations", count),
        InterFault::Edges { count } => counted(alloc, "product edges", count),
        InterFault::Memory => Ok(String::new(alloc)),
    }
}

/// A refusal of the program's text.
fn text_refusal(alloc: Global, fault: TextFault) -> Result<String, AllocError>
    ensures { IfOk result (λ line. string_bytes line ≡ text_line fault) }
{
    match fault {
        TextFault::Program(fault) => program_refusal(alloc, fault),
        TextFault::Processes(fault) => processes_refusal(alloc, fault),
        TextFault::Memory => Ok(String::new(alloc)),
    }
}

/// A refusal of the property for a fault at a byte, counted from 0. Its column counts from 1.
fn at_column(alloc: Global, cause: &str, at: u32) -> Result<String, AllocError>
    ensures { IfOk result (λ text. string_bytes text ≡ column_line cause.now at) }
{
    let mut digits = Buffer::new();
    let column = digits.format(at as u64 + 1);
    format!(in alloc; "Refused property {cause} column {column}\n")
}

fn property_refusal(alloc: Global, fault: FormulaFault) -> Result<String, AllocError>
    ensures { IfOk result (λ line. string_bytes line ≡ property_line fault) }
{
    match fault {
        FormulaFault::Syntax { at } => at_column(alloc, "syntax", at),
        FormulaFault::UnknownName { at } => at_column(alloc, "unknown name", at),
        FormulaFault::NotLinear { at } => at_column(alloc, "not linear", at),
        FormulaFault::Wide { at } => at_column(alloc, "wide", at),
        FormulaFault::Deep { at } => at_column(alloc, "deep", at),
        FormulaFault::Long => format!(in alloc; "Refused property too long\n"),
        FormulaFault::Memory => Ok(String::new(alloc)),
    }
}

/// A refusal of the property of states for an edge of the program with two copies of each edge.
fn doubled_refusal(alloc: Global, fault: CaseFault) -> Result<String, AllocError>
    ensures { IfOk result (λ line. string_bytes line ≡ doubled_line fault) }
{
    match fault {
        CaseFault::Wide { edge } => numbered(alloc, "Refused property cases edge ", edge / 2),
        CaseFault::TooMany { edge } => numbered(alloc, "Refused property cases edge ", edge / 2),
        CaseFault::Memory => Ok(String::new(alloc)),
    }
}

/// A refusal of the property of states by which the program was to be split.
fn condition_refusal(alloc: Global, fault: SplitFault) -> Result<String, AllocError>
    ensures { IfOk result (λ line. string_bytes line ≡ condition_line fault) }
{
    match fault {
        SplitFault::Temporal => format!(in alloc; "Refused property temporal\n"),
        SplitFault::Edges { count } => numbered(alloc, "Refused property edges ", count),
        SplitFault::Deep => format!(in alloc; "Refused property deep\n"),
        SplitFault::Case { fault } => doubled_refusal(alloc, fault),
        SplitFault::Memory => Ok(String::new(alloc)),
    }
}

impl Answer {
    /// The first line that is written, if any.
    fn plain_line(&self, alloc: Global) -> Result<String, AllocError>
        ensures { IfOk result (λ line. string_bytes line ≡ plain_line self.now) }
    {
        match self {
            Answer::Proved(_) => format!(in alloc; "Proved\n"),
            Answer::Disproved { .. } => format!(in alloc; "Disproved\n"),
            Answer::Obligation(failing) => refusal(
                alloc,
                failing.number,
                failing.node,
                failing.kind,
            ),
            Answer::CertificateLine(line) => numbered(alloc, "Certificate refused line ", *line),
            Answer::Words => format!(in alloc; "Refused words\n"),
            Answer::TooLong => format!(in alloc; "Refused text too long\n"),
            Answer::Text(fault) => text_refusal(alloc, *fault),
            Answer::Property(fault) => property_refusal(alloc, *fault),
            Answer::Condition(fault) => condition_refusal(alloc, *fault),
            Answer::WideEdge(edge) => numbered(alloc, "Refused text wide edge ", *edge),
            Answer::TooManyInEdge(edge) => numbered(alloc, "Refused text too many edge ", *edge),
            Answer::Unknown(cause) => cause.line(alloc),
            Answer::ReadFault | Answer::Memory => Ok(String::new(alloc)),
        }
    }

    /// The lines that are written, if any.
    pub fn lines(&self, alloc: Global) -> Result<Vec<u8>, AllocError>
        ensures { IfOk result (λ lines. lines.items ≡ lines_of self.now) }
    {
        let line = self.plain_line(alloc)?;
        let mut lines = Vec::from_slice(alloc, line.as_bytes())?;
        match self {
            Answer::Proved(certificate) => lines.extend_from_slice(certificate)?,
            Answer::Disproved { at, certificate } => {
                at.append_lines(alloc, &mut lines)?;
                lines.extend_from_slice(certificate)?;
            }
            Answer::Unknown(cause) => cause.append_detail(alloc, &mut lines)?,
            _ => {}
        }
        Ok(lines)
    }

    /// How a run with this answer ends, where it was written.
    pub fn status(&self) -> Status
        ensures { result ≡ status_of self.now }
    {
        match self {
            Answer::Proved(_) => Status::Proved,
            Answer::Disproved { .. } => Status::Disproved,
            Answer::Obligation(_) | Answer::CertificateLine(_) => Status::CertificateRefused,
            Answer::ReadFault => Status::ReadFault,
            Answer::Memory => Status::Memory,
            Answer::Unknown(_) => Status::Unknown,
            _ => Status::Refused,
        }
    }
}
