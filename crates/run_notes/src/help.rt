//! Help: the commands with their options, as the table has them.
use command_words::{CommandRow, FORMS, Flag, PAGES, VERBS, ValueKind, Verb};
use std::alloc::AllocError;
use std::fmt::Write;

/// What the program does.
pub const ABOUT: &str =
    "Tidzgheba solves multistage stochastic linear programs exactly and proves each report that it prints.";

const FORM: &str = "
An option is --name VALUE or --name=VALUE, in any order, each at most once; N is a whole number.
docs/FORMATS.md says what the files and the numbers are, docs/CAUSES.md how to mend a file that
is refused.
";

/// Names and values of options have so many letters at most.
const WIDTH: usize = 10;

/// Whether words ask for help.
pub fn ask_help(words: &[String]) -> bool {
    words
        .iter()
        .any(|word| matches!(word.as_str(), "--help" | "-h"))
}

/// The command that the words begin with.
fn first_verb(words: &[String]) -> Option<Verb> {
    let [word, ..] = words else {
        return None;
    };
    for verb in VERBS.as_slice() {
        if verb.row().name == word.as_str() {
            return Some(*verb);
        }
    }
    None
}

/// Appends help: of the command that the words begin with, or else of all.
pub fn put_help(text: &mut String, words: &[String]) -> Result<(), AllocError> {
    match first_verb(words) {
        Some(verb) => {
            let row = verb.row();
            let name = row.name;
            writeln!(text, "usage: tidzgheba {name} OPTIONS\n")?;
            put_command(text, row)?;
        }
        None => {
            text.push_str(ABOUT)?;
            text.push_str("\n\nusage: tidzgheba COMMAND OPTIONS\n")?;
            for verb in VERBS.as_slice() {
                text.push_str("\n")?;
                put_command(text, verb.row())?;
            }
        }
    }
    text.push_str(FORM)
}

/// Appends what a command does, and its options.
fn put_command(text: &mut String, row: CommandRow) -> Result<(), AllocError> {
    let name = row.name;
    let about = row.about;
    writeln!(text, "{name}: {about}")?;
    for flag in row.needs {
        put_option(text, *flag, "needed: ")?;
    }
    for flag in row.takes {
        put_option(text, *flag, "")?;
    }
    Ok(())
}

/// Appends an option: its name, its value, and what it says.
fn put_option(text: &mut String, flag: Flag, needed: &str) -> Result<(), AllocError> {
    let row = flag.row();
    let name = row.name;
    let value = row.kind.word();
    let help = row.help;
    write!(text, "  --{name} {value}")?;
    put_blanks(text, name.len().saturating_add(value.len()))?;
    text.push_str(needed)?;
    if let Some(other) = row.with {
        let other = other.row().name;
        write!(text, "only with --{other}: ")?;
    }
    for other in row.without {
        let other = other.row().name;
        write!(text, "not with --{other}: ")?;
    }
    put_values(text, row.kind)?;
    writeln!(text, "{help}")
}

/// Appends which values an option may have; a file's name may be any.
fn put_values(text: &mut String, kind: ValueKind) -> Result<(), AllocError> {
    match kind {
        ValueKind::File => Ok(()),
        ValueKind::Number(least, most) => put_range(text, least, most),
        ValueKind::Page => put_names(text, PAGES.as_slice()),
        ValueKind::Form => put_names(text, FORMS.as_slice()),
        ValueKind::Yes => Ok(()),
        ValueKind::Level => text.push_str("from 0 and below 1, "),
        ValueKind::Weight => text.push_str("from 0 to 1, "),
    }
}

/// Appends the words that a value may be.
fn put_names(text: &mut String, names: &[&'static str]) -> Result<(), AllocError> {
    for name in names {
        write!(text, "{name}, ")?;
    }
    Ok(())
}

/// Appends which numbers a value may be.
fn put_range(text: &mut String, least: u32, most: u32) -> Result<(), AllocError> {
    if least == most {
        write!(text, "{least}, ")
    } else {
        write!(text, "{least} to {most}, ")
    }
}

/// Appends blanks behind an option of so many letters, so that what it says begins in one column.
fn put_blanks(text: &mut String, letters: usize) -> Result<(), AllocError> {
    for _ in letters..WIDTH {
        text.push_str(" ")?;
    }
    text.push_str("  ")
}
