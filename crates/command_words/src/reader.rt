//! The options of a verb, described to the library for command lines.
ghost use Rattle.std.specs.Prelude.{◌≡◌, false, IfOk};
ghost use Rattle.clap.specs.Words.{app_of, rule_of, with_rule};
ghost use Rattle.command_words.specs.Options.{option_rule, reader_of, with_options};

use crate::command::{Verb, allows};
use crate::flag::Flag;
use crate::table::FLAGS;
use clap::{Arg, ArgAction, Command};
use std::alloc::{AllocError, Global};

/// An option of the library, which takes one value.
fn option<'a>(alloc: Global, name: &'a str) -> Arg<'a>
    ensures rule { rule_of result ≡ option_rule name.entry.now }
    ensures local { result.global ≡ false }
{
    Arg::new(alloc, name).long(name).action(ArgAction::Set)
}

/// The library's command with one more option.
fn with_option<'a>(
    alloc: Global,
    command: Command<'a>,
    name: &'a str,
) -> Result<Command<'a>, AllocError>
    ensures { IfOk result (λ made. app_of made ≡ with_rule (app_of command.entry) (option_rule name.entry.now)) }
{
    command.arg(option(alloc, name))
}

/// The library's command with those of some options that go with a verb.
#[tactic(auto, unfolding(crate::specs::Options::with_options))]
fn with_options<'a>(
    alloc: Global,
    mut command: Command<'a>,
    verb: Verb,
    flags: &[Flag],
) -> Result<Command<'a>, AllocError>
    ensures { IfOk result (λ made. app_of made ≡ with_options verb (app_of command.entry) flags.now) }
{
    for flag in flags {
        if allows(verb, *flag) {
            command = with_option(alloc, command, flag.row().name)?;
        }
    }
    Ok(command)
}

/// The library's command with the options of a verb, and no others.
pub(crate) fn reader<'a>(alloc: Global, verb: Verb) -> Result<Command<'a>, AllocError>
    ensures { IfOk result (λ made. app_of made ≡ reader_of verb) }
{
    let command = Command::new(alloc, "tidzgheba")
        .no_binary_name(true)
        .disable_help_flag(true);
    with_options(alloc, command, verb, FLAGS.as_slice())
}
