//! The names of options.
ghost use Rattle.std.specs.Prelude.{◌≡◌, ◌∷◌};
ghost use Rattle.command_words.specs.Words.{flag_among, flag_named, has_flag, same_flag, same_text};

use crate::table::FLAGS;

/// An option of a command. What is known of each stands in the table.
#[derive(Clone, Copy, Debug, PartialEq, Eq)]
pub enum Flag {
    /// The name of the core file.
    Core,
    /// The name of the time file.
    Time,
    /// The name of the stoch file.
    Stoch,
    /// The name of the edit list.
    Edits,
    /// The name of the file of reports.
    Report,
    /// Whether one core file may have more than other core files.
    Whole,
    /// Which report of a file is shown.
    Number,
    /// The form in which it is shown.
    Form,
    /// How many node programs are solved for a report.
    Solves,
    /// How many pivots a solve may take.
    Pivots,
    /// How many workers solve side by side.
    Workers,
    /// Whether nothing is said of how a run goes on.
    Quiet,
    /// The number that a workload is drawn from.
    Start,
    /// How many periods a workload has.
    Stages,
    /// How many cases each period of a workload has behind the first.
    Branches,
    /// How many items a workload has.
    Size,
    /// Which text of a workload is printed.
    Text,
    /// The level of a conditional value at risk.
    Tail,
    /// How much that counts beside the mean.
    Weight,
    /// The name of a file with a basis.
    Basis,
    /// The name of a file that `value` printed.
    Measures,
}

/// Whether a word is two minuses and this name.
fn is_option(word: &[u8], name: &[u8]) -> bool
    ensures { result ≡ same_text word.now (45 ∷ 45 ∷ name.now) }
{
    match word {
        [b'-', b'-', rest @ ..] => rest == name,
        _ => false,
    }
}

/// The one of some options that has this name, with its two minuses.
fn flag_among(word: &str, flags: &[Flag]) -> Option<Flag>
    ensures { result ≡ flag_among word.now flags.now }
{
    for flag in flags {
        if is_option(word.as_bytes(), flag.row().name.as_bytes()) {
            return Some(*flag);
        }
    }
    None
}

/// The option of that name, with its two minuses.
pub(crate) fn flag_named(word: &str) -> Option<Flag>
    ensures { result ≡ flag_named word.now }
{
    flag_among(word, FLAGS.as_slice())
}

/// Whether two options are the same.
pub(crate) fn is_same(one: Flag, other: Flag) -> bool
    ensures { result ≡ same_flag one other }
{
    one.row().name == other.row().name
}

/// Whether an option is among some.
pub(crate) fn has_flag(flags: &[Flag], flag: Flag) -> bool
    ensures { result ≡ has_flag flag flags.now }
{
    for other in flags {
        if is_same(*other, flag) {
            return true;
        }
    }
    false
}
