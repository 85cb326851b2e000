//! Makes the command line for `clap`: a command for the program, and one for each subcommand.

ghost use Rattle.std.specs.Prelude.{◌≡◌, false, IfOk, List, map, true};
ghost use Rattle.std.specs.List.{All};
ghost use Rattle.clap.specs.Words.{Text, app_of, fault_of, is_simple, is_simple_and_free, new_app, rule_of, shape_of, subcommand_of};
ghost use Rattle.clap.specs.declared.builder.command.Command.TheViews.{out-Command as fields_of};
ghost use Rattle.rv_command_line.specs.CommandLine.{faults_of, rvbench};
ghost use Rattle.rv_command_line.specs.CommandRows.{IsLocal, app_in, rule_in, shape_in};

use crate::subcommands::{CommandRow, OptionRow, PROGRAM, SUBCOMMANDS};
use clap::{Arg, ArgAction, Command};
use std::alloc::{AllocError, Global};

/// A value, or the error of exhausted memory.
type Made<T> = Result<T, AllocError>;

/// Makes the option of a row.
fn option_of<'a>(alloc: Global, row: &OptionRow<'a>) -> Arg<'a>
    ensures rule { rule_of result ≡ rule_in row.now }
    ensures local { result.global ≡ false }
{
    let option = Arg::new(alloc, row.name).long(row.name).help(row.help);
    match row.value {
        Some((value, parser)) => option.value_name(value).value_parser(parser),
        None => option.action(ArgAction::SetTrue),
    }
}

/// Makes the command of a row, without its options.
fn named_command<'a>(alloc: Global, row: &CommandRow<'a>) -> Command<'a>
    ensures app { app_of result ≡ new_app row.now.name.now }
    ensures local { (fields_of result).has_globals ≡ false }
{
    Command::new(alloc, row.name)
        .about(row.about)
        .after_help(row.after_help)
}

/// Makes the command of a row, with its options.
fn command_of<'a>(alloc: Global, row: &CommandRow<'a>) -> Made<Command<'a>>
    ensures app { IfOk result (λ command. app_of command ≡ app_in row.now) }
    ensures local { IfOk result (λ command. (fields_of command).has_globals ≡ false) }
{
    let mut command = named_command(alloc, row);
    for option in row.options {
        command = command.arg(option_of(alloc, option))?;
    }
    Ok(command)
}

/// Makes the commands of these rows.
fn commands_of<'a>(alloc: Global, rows: &[CommandRow<'a>]) -> Made<Vec<Command<'a>>>
    ensures shapes { IfOk result (λ commands. map shape_of commands.items ≡ map shape_in rows.now) }
    ensures local { IfOk result (λ commands. All IsLocal commands.items) }
{
    let mut commands = Vec::new(alloc);
    for row in rows {
        commands.push(command_of(alloc, row)?)?;
    }
    Ok(commands)
}

/// Makes the command line of the program.
pub(crate) fn rvbench_command<'a>(alloc: Global) -> Made<Command<'a>>
    ensures simple { IfOk result (λ command. is_simple (app_of command) ≡ true) }
    ensures free { IfOk result (λ command. is_simple_and_free (app_of command) ≡ true) }
    ensures faults { IfOk result (λ command. (words : List Text)
        → fault_of (app_of command) words ≡ faults_of words) }
    ensures subcommand { IfOk result (λ command. (words : List Text)
        → subcommand_of (app_of command) words ≡ subcommand_of rvbench words) }
{
    let subcommands = commands_of(alloc, SUBCOMMANDS)?;
    named_command(alloc, PROGRAM).subcommands(subcommands)
}
