// Words read by clap.
ghost use Rattle.std.specs.Prelude.{◌≡◌, List, IfErr, IfOk, false};
ghost use Rattle.clap.specs.Words.{app_of, found_of, kind_of, rows_of};
ghost use Rattle.clap.specs.Words as clap;
ghost use Rattle.command_line.specs.Clap.{app_for, clap_rule, IsRead, ReadsAll, spelled, Value};
ghost use Rattle.command_line.specs.Table.{rules_of};
ghost use Rattle.command_line.specs.Words.{texts};

use crate::table::{Command, Form, Rule};
use clap::error::ErrorKind;
use clap::{Arg, ArgAction, ArgMatches, Error};
use std::alloc::{AllocError, Global};

fn argument<'a>(alloc: Global, rule: &Rule) -> Arg<'a>
    ensures rule { clap.rule_of result
        ≡ clap_rule rule.now.name.now rule.now.required rule.now.form }
    ensures local { result.global ≡ false }
{
    let arg = Arg::new(alloc, rule.name).long(rule.name);
    match rule.form {
        Form::Flag => arg.action(ArgAction::SetTrue),
        Form::Text | Form::Number { .. } => arg.required(rule.required).action(ArgAction::Set),
    }
}

fn simple_command<'a>(alloc: Global, command: Command) -> Result<clap::Command<'a>, AllocError>
    ensures { IfOk result (λ made. app_of made ≡ app_for command) }
{
    let word: &'a str = command.word();
    let mut made = clap::Command::new(alloc, word).disable_help_flag(true);
    for rule in command.rules() {
        made = made.arg(argument(alloc, rule))?;
    }
    Ok(made)
}

/// What clap reads in the words. Words that a command's values spell are always read, unless memory
/// runs out.
pub fn read<'a>(
    alloc: Global,
    command: Command,
    words: &'a [String],
) -> Result<ArgMatches<'a>, Error>
    ensures values { IfOk result (λ m. (values : List Value)
        → texts words.entry.now ≡ spelled command values → IsRead command values
        → ReadsAll (rules_of command) values (rows_of (found_of m))) }
    ensures refused { IfErr result (λ e. (values : List Value)
        → texts words.entry.now ≡ spelled command values → IsRead command values
        → kind_of e ≡ ErrorKind.OutOfMemory) }
{
    simple_command(alloc, command)?.try_get_matches_from(words)
}
