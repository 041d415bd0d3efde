//! The words of a command in plain form, and the command that the library for command lines finds in them.
ghost use Rattle.std.specs.Prelude.{◌≡◌, true, Some, is_some, map, string_bytes, IfOk, IfErr, IfNone, IfSome, List};
ghost use Rattle.std.specs.Option.{option_map};
ghost use Rattle.clap.specs.Words.{first_value, found_of, kind_of};
ghost use Rattle.clap.specs.declared.error.kind.ErrorKind.TheVariants.{OutOfMemory};
ghost use Rattle.command_words.specs.declared.flag.Flag.{Flag};
ghost use Rattle.command_words.specs.Table.{flag_text};
ghost use Rattle.command_words.specs.Words.{ArePlain, ArePlain-prop, Given, plain_word, settings_of, value_with};
ghost use Rattle.command_words.specs.Commands.{command_by, command_of};
ghost use Rattle.command_words.specs.Ranges.{AsksInRange};
ghost use Rattle.command_words.specs.Views.{asked, given, all_given};

use crate::command::{Command, Verb, asked_with, is_command, verb_named};
use crate::reader::reader;
use crate::settings::{Setting, settings};
use clap::{ArgMatches, Error};
use std::alloc::{AllocError, Global};

/// The words of a command in plain form: the verb, and each option with its value in one word, `--name=value`.
#[derive(Drop)]
pub struct PlainWords {
    verb: Verb,
    options: Vec<String>,
    // Each option is the plain form of what it says.
    ghost plain: { ArePlain (map string_bytes options.items) } by { ArePlain-prop (map string_bytes options.items) },
    // They are a command.
    ghost is_command: { is_some (command_by verb (map string_bytes options.items)) ≡ true },
}

/// An option with its value in one word.
fn plain_word(alloc: Global, setting: &Setting<'_>) -> Result<String, AllocError>
    ensures { IfOk result (λ word. string_bytes word ≡ plain_word (given setting.now)) }
{
    let mut word = String::from_str(alloc, "--")?;
    word.push_str(setting.flag.row().name)?;
    word.push_str("=")?;
    word.push_str(setting.value)?;
    Ok(word)
}

/// Options with their values, each in one word.
fn plain_options(alloc: Global, settings: &[Setting<'_>]) -> Result<Vec<String>, AllocError>
    ensures { IfOk result (λ options. map string_bytes options.items ≡ map plain_word (all_given settings.now)) }
{
    let mut options = Vec::new(alloc);
    for setting in settings {
        options.push(plain_word(alloc, setting)?)?;
    }
    Ok(options)
}

/// How many workers this option asks for, where it is about them.
fn workers_in(option: &String) -> Option<u32> {
    match option.as_str().strip_prefix("--workers=") {
        Some(number) => number.parse().ok(),
        None => None,
    }
}

impl PlainWords {
    ghost use Rattle.command_words.specs.Plain.{plain_view};

    /// The plain form of a verb with the words of its options; none where they are no command.
    fn of_verb(
        alloc: Global,
        verb: Verb,
        words: &[String],
    ) -> Result<Option<PlainWords>, AllocError>
        ensures none { IfOk result (λ found. IfNone found (command_by verb (map string_bytes words.now) ≡ None)) }
        ensures some { IfOk result (λ found. IfSome found (λ plain. plain_view plain ≡ command_by verb (map string_bytes words.now))) }
    {
        let Some(settings) = settings(alloc, words)? else {
            return Ok(None);
        };
        if !is_command(verb, &settings) {
            return Ok(None);
        }
        let options = plain_options(alloc, &settings)?;
        Ok(Some(PlainWords { verb, options }))
    }

    /// The plain form of the words, without the program's own name. None where they are no command: the first word is the
    /// command, and options follow in any order, each at most once, as `--name value` or `--name=value`. A value isn't empty
    /// and doesn't begin with a minus; a number has 1 to 10 decimal digits.
    pub fn read(alloc: Global, words: &[String]) -> Result<Option<PlainWords>, AllocError>
        ensures none { IfOk result (λ found. IfNone found (command_of (map string_bytes words.now) ≡ None)) }
        ensures some { IfOk result (λ found. IfSome found (λ plain. plain_view plain ≡ command_of (map string_bytes words.now))) }
    {
        let [word, rest @ ..] = words else {
            return Ok(None);
        };
        match verb_named(word.as_str()) {
            Some(verb) => PlainWords::of_verb(alloc, verb, rest),
            None => Ok(None),
        }
    }

    /// Whether the words ask that nothing is said of how a run goes on.
    pub fn is_quiet(&self) -> bool {
        self.options
            .iter()
            .any(|option| option.as_str() == "--quiet=yes")
    }

    /// How many workers are asked for; 1 where the words don't say.
    pub fn workers(&self) -> u32 {
        self.options.iter().find_map(workers_in).unwrap_or(1)
    }

    /// What the library finds in the words. It takes them, so that it fails only for want of memory.
    fn matches(&self, alloc: Global) -> Result<ArgMatches<'_>, Error>
        ensures values { IfOk result (λ matches. (settings : List Given)
            → settings_of (map string_bytes self.now.options.items) ≡ Some settings
            → (flag : Flag) → first_value (found_of matches) (flag_text flag) ≡ value_with flag settings) }
        ensures memory { IfErr result (λ error. kind_of error ≡ OutOfMemory) }
    {
        let reader = reader(alloc, self.verb)?;
        reader.try_get_matches_from(self.options.as_slice())
    }

    /// The command that the words are, of what the library finds in them.
    pub fn command(&self, alloc: Global) -> Result<Command<'_>, AllocError>
        ensures asks { IfOk result (λ command. Some (asked command) ≡ plain_view self.now) }
        ensures range { IfOk result (λ command. AsksInRange (asked command)) }
    {
        match self.matches(alloc) {
            Ok(matches) => match asked_with(self.verb, &matches) {
                Some(command) => Ok(command),
                None => unreachable!(),
            },
            Err(_) => Err(AllocError),
        }
    }
}
