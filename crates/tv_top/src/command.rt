// The command line, as a command of `clap`.

ghost use Rattle.std.specs.Prelude.{◌≡◌, IfOk};
ghost use Rattle.clap.specs.Words.{app_of, with_rule};
ghost use Rattle.tv_top.specs.CommandLine.{bare_command, flag, option, with_tasks, with_certificates, with_limits, command};

use clap::{Arg, ArgAction, Command};
use std::alloc::{AllocError, Global};

/// The command with one more option, which takes a word.
fn with_option<'a>(
    alloc: Global,
    command: Command<'a>,
    name: &'a str,
) -> Result<Command<'a>, AllocError>
    ensures { IfOk result (λ c. app_of c ≡ with_rule (app_of command.entry) (option name.entry.now)) }
{
    let option = Arg::new(alloc, name).long(name).action(ArgAction::Set);
    command.arg(option)
}

/// The command with one more flag.
fn with_flag<'a>(
    alloc: Global,
    command: Command<'a>,
    name: &'a str,
) -> Result<Command<'a>, AllocError>
    ensures { IfOk result (λ c. app_of c ≡ with_rule (app_of command.entry) (flag name.entry.now)) }
{
    let flag = Arg::new(alloc, name).long(name).action(ArgAction::SetTrue);
    command.arg(flag)
}

fn bare_command<'a>(alloc: Global) -> Command<'a>
    ensures { app_of result ≡ bare_command }
{
    Command::new(alloc, "t2verdict")
        .no_binary_name(true)
        .disable_help_flag(true)
}

/// What names the property, and perhaps the program.
fn with_tasks<'a>(alloc: Global, command: Command<'a>) -> Result<Command<'a>, AllocError>
    ensures { IfOk result (λ c. app_of c ≡ with_tasks (app_of command.entry)) }
{
    let command = with_flag(alloc, command, "termination")?;
    let command = with_option(alloc, command, "safety")?;
    let command = with_option(alloc, command, "ctl")?;
    let command = with_option(alloc, command, "finitely")?;
    with_option(alloc, command, "generate")
}

/// What is done with certificates, and with runs.
fn with_certificates<'a>(alloc: Global, command: Command<'a>) -> Result<Command<'a>, AllocError>
    ensures { IfOk result (λ c. app_of c ≡ with_certificates (app_of command.entry)) }
{
    let command = with_flag(alloc, command, "check")?;
    let command = with_flag(alloc, command, "certificate")?;
    with_option(alloc, command, "trace")
}

/// The limits of a search.
fn with_limits<'a>(alloc: Global, command: Command<'a>) -> Result<Command<'a>, AllocError>
    ensures { IfOk result (λ c. app_of c ≡ with_limits (app_of command.entry)) }
{
    let command = with_option(alloc, command, "pivots")?;
    let command = with_option(alloc, command, "splits")?;
    with_option(alloc, command, "disjuncts")
}

/// The command that the words are given to.
pub fn command<'a>(alloc: Global) -> Result<Command<'a>, AllocError>
    ensures { IfOk result (λ c. app_of c ≡ command) }
{
    let command = with_tasks(alloc, bare_command(alloc))?;
    let command = with_certificates(alloc, command)?;
    with_limits(alloc, command)
}
