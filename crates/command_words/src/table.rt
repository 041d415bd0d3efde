//! The commands and their options, as a table. The exact reader reads by it; the library for command lines is told by it, and so is help.
ghost use Rattle.std.specs.Prelude.{◌≡◌, []};
ghost use Rattle.command_words.specs.Table.{excludes, flag_text, further_flags, goes_with, value_kind, needed_flags, verb_text};

use crate::command::Verb;
use crate::flag::Flag;

/// The most workers that the words may ask for.
pub const MOST_WORKERS: u32 = 64;

/// The words that an option for a text of a workload may have as its value.
pub const PAGES: [&'static str; 3] = ["core", "time", "stoch"];

/// The words that an option for the form of a report may have as its value.
pub const FORMS: [&'static str; 4] = ["text", "csv", "json", "html"];

/// The value of an option that stands alone.
pub const YES: &'static str = "yes";

/// What the value of an option is.
#[derive(Clone, Copy, Debug)]
pub enum ValueKind {
    /// The name of a file.
    File,
    /// A whole number from the one to the other.
    Number(u32, u32),
    /// A text of a workload, one of `PAGES`.
    Page,
    /// A form of a report, one of `FORMS`.
    Form,
    /// `YES`, which need not be written: the option stands alone.
    Yes,
    /// A number from 0 and below 1, written as numbers in files are.
    Level,
    /// A number from 0 to 1, written so.
    Weight,
}

impl ValueKind {
    /// What stands for a value in help.
    pub fn word(self) -> &'static str {
        match self {
            ValueKind::File => "FILE",
            ValueKind::Number(_, _) => "N",
            ValueKind::Page => "TEXT",
            ValueKind::Form => "FORM",
            ValueKind::Yes => "",
            ValueKind::Level => "A",
            ValueKind::Weight => "W",
        }
    }
}

/// What is known of an option.
#[derive(Clone, Copy, Debug)]
pub struct OptionRow {
    /// Its name, without the two minuses.
    pub name: &'static str,
    pub kind: ValueKind,
    /// The option without which it isn't taken, if there is one.
    pub with: Option<Flag>,
    /// The options beside which it isn't taken.
    pub without: &'static [Flag],
    /// What its value says.
    pub help: &'static str,
}

/// What is known of a command.
#[derive(Clone, Copy, Debug)]
pub struct CommandRow {
    pub name: &'static str,
    /// What it does.
    pub about: &'static str,
    /// The options that it needs.
    pub needs: &'static [Flag],
    /// The options that it takes beside these.
    pub takes: &'static [Flag],
}

/// All commands.
pub const VERBS: [Verb; 7] = [
    Verb::Solve,
    Verb::Check,
    Verb::Table,
    Verb::Show,
    Verb::Flat,
    Verb::Value,
    Verb::Make,
];

/// All options.
pub const FLAGS: [Flag; 21] = [
    Flag::Core,
    Flag::Time,
    Flag::Stoch,
    Flag::Edits,
    Flag::Report,
    Flag::Whole,
    Flag::Number,
    Flag::Form,
    Flag::Solves,
    Flag::Pivots,
    Flag::Workers,
    Flag::Quiet,
    Flag::Start,
    Flag::Stages,
    Flag::Branches,
    Flag::Size,
    Flag::Text,
    Flag::Tail,
    Flag::Weight,
    Flag::Basis,
    Flag::Measures,
];

/// An option whose value is the name of a file.
fn file(name: &'static str, help: &'static str) -> OptionRow
    ensures { (result.name ≡ name.entry) × (result.kind ≡ ValueKind.File) × (result.with ≡ None) × (result.without.now ≡ []) }
{
    OptionRow {
        name,
        kind: ValueKind::File,
        with: None,
        without: &[],
        help,
    }
}

/// An option whose value is a whole number.
fn number(name: &'static str, least: u32, most: u32, help: &'static str) -> OptionRow
    ensures { (result.name ≡ name.entry) × (result.kind ≡ ValueKind.Number least most) × (result.with ≡ None)
        × (result.without.now ≡ []) }
{
    OptionRow {
        name,
        kind: ValueKind::Number(least, most),
        with: None,
        without: &[],
        help,
    }
}

impl Flag {
    /// What is known of the option.
    pub fn row(self) -> OptionRow
        ensures name { result.name.now ≡ flag_text self }
        ensures kind { result.kind ≡ value_kind self }
        ensures with { result.with ≡ goes_with self }
        ensures without { result.without.now ≡ excludes self }
    {
        match self {
            Flag::Core => file("core", "the program, as of one period and one scenario"),
            Flag::Time => file("time", "its periods, of which a core file alone has one"),
            Flag::Stoch => OptionRow {
                name: "stoch",
                kind: ValueKind::File,
                with: Some(Flag::Time),
                without: &[],
                help: "what is random; without one nothing is",
            },
            Flag::Edits => file("edits", "edits of the data, and where a report is wanted"),
            Flag::Report => file("report", "the reports that are tested"),
            Flag::Whole => OptionRow {
                name: "whole",
                kind: ValueKind::Yes,
                with: None,
                without: &[],
                help: "also beyond the limits of a core file, up to 10000000 entries",
            },
            Flag::Number => number(
                "number",
                1,
                10_001,
                "which report of the file; without one the last",
            ),
            Flag::Form => OptionRow {
                name: "form",
                kind: ValueKind::Form,
                with: None,
                without: &[],
                help: "what is printed; else text",
            },
            Flag::Solves => number(
                "solves",
                1,
                1_000_000_000,
                "how many programs of nodes are solved for a report, at most; else 100000",
            ),
            Flag::Pivots => number(
                "pivots",
                1,
                1_000_000_000,
                "how many pivots a solve takes, at most; else 100000",
            ),
            Flag::Workers => number(
                "workers",
                1,
                MOST_WORKERS,
                "how many workers solve side by side; else 1",
            ),
            Flag::Quiet => OptionRow {
                name: "quiet",
                kind: ValueKind::Yes,
                with: None,
                without: &[],
                help: "say nothing on standard error while it is solved",
            },
            Flag::Start => number("start", 0, 65_536, "what the program is drawn from"),
            Flag::Stages => number("stages", 2, 6, "its periods"),
            Flag::Branches => number(
                "branches",
                2,
                4,
                "its cases in each period behind the first",
            ),
            Flag::Size => number("size", 1, 20, "its items"),
            Flag::Text => OptionRow {
                name: "text",
                kind: ValueKind::Page,
                with: None,
                without: &[],
                help: "the one of its three texts that is printed, in place of a summary",
            },
            Flag::Tail => OptionRow {
                name: "tail",
                kind: ValueKind::Level,
                with: Some(Flag::Weight),
                without: &[Flag::Edits],
                help: "the level of a conditional value at risk that counts beside the mean",
            },
            Flag::Weight => OptionRow {
                name: "weight",
                kind: ValueKind::Weight,
                with: Some(Flag::Tail),
                without: &[],
                help: "how much it counts; the mean counts for the rest",
            },
            Flag::Basis => OptionRow {
                name: "basis",
                kind: ValueKind::File,
                with: None,
                without: &[Flag::Edits, Flag::Tail],
                help: "a basis of the program that flat prints, which is tried first",
            },
            Flag::Measures => file(
                "value",
                "what value printed for the program, shown beside the report",
            ),
        }
    }
}

impl Verb {
    /// What is known of the command.
    pub fn row(self) -> CommandRow
        ensures name { result.name.now ≡ verb_text self }
        ensures needs { result.needs.now ≡ needed_flags self }
        ensures takes { result.takes.now ≡ further_flags self }
    {
        match self {
            Verb::Solve => CommandRow {
                name: "solve",
                about: "solve the program that the files mean, and print a report for each SOLVE of the edit list, or one",
                needs: &[Flag::Core],
                takes: &[
                    Flag::Time,
                    Flag::Stoch,
                    Flag::Edits,
                    Flag::Basis,
                    Flag::Tail,
                    Flag::Weight,
                    Flag::Solves,
                    Flag::Pivots,
                    Flag::Workers,
                    Flag::Quiet,
                ],
            },
            Verb::Check => CommandRow {
                name: "check",
                about: "test the reports of a file, whoever made them, and print for each whether it holds",
                needs: &[Flag::Core, Flag::Report],
                takes: &[
                    Flag::Time,
                    Flag::Stoch,
                    Flag::Edits,
                    Flag::Tail,
                    Flag::Weight,
                ],
            },
            Verb::Table => CommandRow {
                name: "table",
                about: "test a report of a file, and print it as a table, with names, probabilities and costs",
                needs: &[Flag::Core, Flag::Report],
                takes: &[
                    Flag::Time,
                    Flag::Stoch,
                    Flag::Edits,
                    Flag::Number,
                    Flag::Form,
                    Flag::Measures,
                ],
            },
            Verb::Show => CommandRow {
                name: "show",
                about: "print the tree that the files mean, after all edits",
                needs: &[Flag::Core],
                takes: &[Flag::Time, Flag::Stoch, Flag::Edits],
            },
            Verb::Flat => CommandRow {
                name: "flat",
                about: "print the program of all nodes as one core file, after all edits, for any solver",
                needs: &[Flag::Core],
                takes: &[Flag::Time, Flag::Stoch, Flag::Edits, Flag::Whole],
            },
            Verb::Value => CommandRow {
                name: "value",
                about: "print what it is worth to know what comes, and to plan for all that may come and not for the mean",
                needs: &[Flag::Core, Flag::Time],
                takes: &[
                    Flag::Stoch,
                    Flag::Solves,
                    Flag::Pivots,
                    Flag::Workers,
                    Flag::Quiet,
                ],
            },
            Verb::Make => CommandRow {
                name: "make",
                about: "make a program from four numbers, and print a summary of its report, or one of its three texts",
                needs: &[Flag::Start, Flag::Stages, Flag::Branches, Flag::Size],
                takes: &[Flag::Text, Flag::Quiet],
            },
        }
    }
}
