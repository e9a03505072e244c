//! Programs.

ghost use Rattle.std.specs.Prelude.{◌≡◌, ◌++◌, IfOk, OnOk, map};
ghost use Rattle.tv_program.specs.Programs.{system_of};
ghost use Rattle.tv_program.specs.Views.{instruction, transition, transitions};
ghost use Rattle.tv_spelling.specs.Programs.{command_text, commands_text, location_text, edge_text, edges_text, program_text, IsProgramAgain};

use crate::conditions::append_condition;
use crate::sums::append_sum;
use crate::writing::{append_name, append_text};
use std::alloc::{AllocError, Global};
use tv_program::{Command, Edge, Names, Program};

/// The line of a command is added.
fn append_command(
    alloc: Global,
    out: &mut Vec<u8>,
    command: &Command,
    names: &Names,
) -> Result<(), AllocError>
    ensures { OnOk result (out.new.items ≡ out.old.items ++ command_text names.now (instruction command.now)) }
{
    match command {
        Command::Assume(tested) => {
            append_text(out, b"assume(")?;
            append_condition(alloc, out, tested, names)?;
            append_text(out, b");\n")
        }
        Command::Assign(variable, expr) => {
            append_name(out, names, *variable)?;
            append_text(out, b" := ")?;
            append_sum(alloc, out, expr, names)?;
            append_text(out, b";\n")
        }
    }
}

fn append_commands(
    alloc: Global,
    out: &mut Vec<u8>,
    commands: &[Command],
    names: &Names,
) -> Result<(), AllocError>
    ensures { OnOk result (out.new.items ≡ out.old.items ++ commands_text names.now (map instruction commands.now)) }
{
    for command in commands {
        append_command(alloc, out, command, names)?;
    }
    Ok(())
}

/// The line that names a location is added.
fn append_location(
    out: &mut Vec<u8>,
    word: &[u8],
    labels: &Names,
    location: u32,
) -> Result<(), AllocError>
    ensures { OnOk result (out.new.items ≡ out.old.items ++ location_text word.now labels.now location) }
{
    append_text(out, word)?;
    append_text(out, b": ")?;
    append_name(out, labels, location)?;
    append_text(out, b";\n")
}

fn append_edge(
    alloc: Global,
    out: &mut Vec<u8>,
    edge: &Edge,
    names: &Names,
    labels: &Names,
) -> Result<(), AllocError>
    ensures { OnOk result (out.new.items ≡ out.old.items ++ edge_text names.now labels.now (transition edge.now)) }
{
    append_location(out, b"FROM", labels, edge.from)?;
    append_commands(alloc, out, &edge.commands, names)?;
    append_location(out, b"TO", labels, edge.to)
}

fn append_edges(
    alloc: Global,
    out: &mut Vec<u8>,
    edges: &[Edge],
    names: &Names,
    labels: &Names,
) -> Result<(), AllocError>
    ensures { OnOk result (out.new.items ≡ out.old.items ++ edges_text names.now labels.now (transitions edges.now)) }
{
    for edge in edges {
        append_edge(alloc, out, edge, names, labels)?;
    }
    Ok(())
}

/// The text of a program: its start, and then its edges in order, with a line for each part.
///
/// Marks, passed sections and comments are no part of a program, and none is written. Each line ends with a line feed.
pub fn write_program(alloc: Global, program: &Program) -> Result<Vec<u8>, AllocError>
    ensures spelled { IfOk result (λ text. text.items ≡ program_text (system_of program.now)) }
    ensures again { IfOk result (λ text. IsProgramAgain (system_of program.now) text.items) }
{
    let names = program.variables();
    let labels = program.locations();
    let mut text = Vec::new(alloc);
    append_location(&mut text, b"START", labels, program.start())?;
    append_edges(alloc, &mut text, program.edges(), names, labels)?;
    Ok(text)
}
