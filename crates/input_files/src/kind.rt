//! The kinds of files.

/// Which of the files something is said of.
#[derive(Clone, Copy, Debug, PartialEq, Eq)]
pub enum FileKind {
    Core,
    Time,
    Stoch,
    Edits,
    Report,
    Basis,
    /// What the command `value` printed.
    Measures,
}
