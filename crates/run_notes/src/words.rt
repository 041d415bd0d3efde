//! What is said of words that aren't those of a command. Which words are a command's, `command_words` decides; the library for command
//! lines is told of the commands by the same table, and says what is wrong with other words, and how a command is called.
use crate::help::ABOUT;
use crate::levels::level_fault;
use clap::builder::ValueParser;
use clap::error::ErrorKind;
use clap::{Arg, Command, Error};
use command_words::{CommandRow, FORMS, Flag, PAGES, VERBS, ValueKind, Verb, YES};
use std::alloc::{AllocError, Global};
use visible_text::push_line;

/// Said of words that the library takes and `command_words` doesn't, as `--solves +3`.
const TOO_LOOSE: &str =
    "each word is an option or its value, a file name isn't empty and doesn't begin with '-', and a number has digits alone, at most ten; \
A of --tail is a number from 0 and below 1, W of --weight one from 0 to 1\n";

/// The values that the library takes: more than those of an option whose value is a file's name or a fraction.
fn values<'a>(kind: ValueKind) -> ValueParser<'a> {
    match kind {
        ValueKind::Number(least, most) => ValueParser::signed(i64::from(least), i64::from(most)),
        ValueKind::Page => ValueParser::Names(PAGES.as_slice()),
        ValueKind::Form => ValueParser::Names(FORMS.as_slice()),
        ValueKind::Yes => ValueParser::Names([YES].as_slice()),
        ValueKind::File | ValueKind::Level | ValueKind::Weight => ValueParser::string(),
    }
}

/// An option with its value, which need not be there where it is `YES`, and stands in the same word.
fn with_value<'a>(option: Arg<'a>, kind: ValueKind) -> Arg<'a> {
    let option = option.value_parser(values(kind));
    match kind {
        ValueKind::Yes => option
            .value_name(YES)
            .num_args(0..=1)
            .require_equals(true)
            .default_missing_value(YES),
        _ => option.value_name(kind.word()),
    }
}

/// An option that isn't taken without another one, if there is one.
fn with_other<'a>(option: Arg<'a>, other: Option<Flag>) -> Result<Arg<'a>, AllocError> {
    match other {
        Some(other) => option.requires_arg(other.row().name),
        None => Ok(option),
    }
}

/// An option as the table has it.
fn option<'a>(alloc: Global, flag: Flag, is_needed: bool) -> Result<Arg<'a>, AllocError> {
    let row = flag.row();
    let option = Arg::new(alloc, row.name)
        .long(row.name)
        .help(row.help)
        .required(is_needed);
    let mut option = with_other(with_value(option, row.kind), row.with)?;
    for other in row.without {
        option = option.conflicts_with(other.row().name)?;
    }
    Ok(option)
}

/// A command with some more options.
fn with_options<'a>(
    alloc: Global,
    mut command: Command<'a>,
    flags: &[Flag],
    are_needed: bool,
) -> Result<Command<'a>, AllocError> {
    for flag in flags {
        let option = option(alloc, *flag, are_needed)?;
        command = command.arg(option)?;
    }
    Ok(command)
}

/// A command without options.
fn bare<'a>(alloc: Global, row: CommandRow) -> Command<'a> {
    Command::new(alloc, row.name).about(row.about)
}

/// A command as the table has it.
fn command<'a>(alloc: Global, verb: Verb) -> Result<Command<'a>, AllocError> {
    let row = verb.row();
    let command = with_options(alloc, bare(alloc, row), row.needs, true)?;
    with_options(alloc, command, row.takes, false)
}

/// The program with its commands.
fn program<'a>(alloc: Global) -> Result<Command<'a>, AllocError> {
    let program = Command::new(alloc, "tidzgheba").bin_name("tidzgheba")?;
    let mut program = program
        .about(ABOUT)
        .no_binary_name(true)
        .disable_help_subcommand(true)
        .subcommand_required(true);
    for verb in VERBS.as_slice() {
        let command = command(alloc, *verb)?;
        program = program.subcommand(command)?;
    }
    Ok(program)
}

/// Fails where the library doesn't take the words.
fn taken(alloc: Global, words: &[String]) -> Result<(), Error> {
    let matches = program(alloc)?.try_get_matches_from(words)?;
    drop(matches);
    Ok(())
}

/// Appends what is wrong with words that aren't those of a command, and how the command is called.
pub fn put_word_fault(
    alloc: Global,
    text: &mut String,
    words: &[String],
) -> Result<(), AllocError> {
    match taken(alloc, words) {
        Ok(()) => text.push_str(level_fault(words).unwrap_or(TOO_LOOSE)),
        Err(error) => put_error(alloc, text, &error),
    }
}

/// Appends what the library says of words.
fn put_error(alloc: Global, text: &mut String, error: &Error) -> Result<(), AllocError> {
    if error.kind() == ErrorKind::OutOfMemory {
        return Err(AllocError);
    }
    let said = format!(in alloc; "{error}")?;
    put_lines(text, said.strip_prefix("error: ").unwrap_or(said.as_str()))
}

/// Appends the beginnings of lines, as a terminal may show them: words may be long.
fn put_lines(text: &mut String, said: &str) -> Result<(), AllocError> {
    for line in said.lines() {
        push_line(text, line.as_bytes())?;
        text.push_str("\n")?;
    }
    Ok(())
}
