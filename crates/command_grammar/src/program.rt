//! The command line of the program, and what words match of it.

ghost use Rattle.std.specs.Prelude.{◌≡◌, codes, fold, IfOk, map};
ghost use Rattle.clap.specs.Words.{app_of, fault_of, new_app, subcommand_of, subcommand_rows_of, FailsBy};
ghost use Rattle.command_grammar.specs.CommandLine.{needs_subcommand, program_app, tells_version};
ghost use Rattle.command_grammar.specs.Grammars.{with_grammar};
ghost use Rattle.command_grammar.specs.Made.{IsProgram};

use crate::commands::COMMANDS;
use crate::grammar::Grammar;
use crate::texts::{ABOUT, MORE, VERSION};
use clap::{ArgMatches, Command, Error};
use std::alloc::Global;

// The program without a command.
fn bare<'a>(alloc: Global) -> Command<'a>
    ensures { app_of result ≡ needs_subcommand (tells_version (new_app (codes "tp"))) }
{
    Command::new(alloc, "tp")
        .version(VERSION)
        .about(ABOUT)
        .after_help(MORE)
        .subcommand_required(true)
}

// The program with these commands too.
fn with_commands<'a>(
    alloc: Global,
    program: Command<'a>,
    commands: &[Grammar<'a>],
) -> Result<Command<'a>, Error>
    ensures { IsProgram (fold with_grammar (app_of program.entry) commands.now) result }
{
    let mut program = program;
    for grammar in commands {
        program = program.subcommand(grammar.command(alloc)?)?;
    }
    Ok(program)
}

// The program's command line.
fn program<'a>(alloc: Global) -> Result<Command<'a>, Error>
    ensures { IsProgram program_app result }
{
    with_commands(alloc, bare(alloc), &COMMANDS)
}

/// What the words match of the program's command line.
pub fn matches_of<'a>(alloc: Global, words: &'a [&'a str]) -> Result<ArgMatches<'a>, Error>
    ensures rows { IfOk result (λ m. subcommand_rows_of m ≡ subcommand_of program_app (map (λ w. w.now) words.entry.now)) }
    ensures faults { FailsBy (fault_of program_app (map (λ w. w.now) words.entry.now)) result }
{
    program(alloc)?.try_get_matches_from(words)
}
