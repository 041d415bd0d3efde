//! Lines of RHS, RANGES and BOUNDS that a core file states and nothing uses. In each of these sections the set of the
//! first line is used, and lines of another set are skipped; so a misspelt set name drops lines.
use file_lines::{Line, field, field_count, kind_of};

/// A section whose lines belong to sets.
#[derive(Clone, Copy, Drop)]
pub enum Section {
    Rhs,
    Ranges,
    Bounds,
}

impl Section {
    /// The word that begins its header.
    pub fn word(self) -> &'static str {
        match self {
            Section::Rhs => "RHS",
            Section::Ranges => "RANGES",
            Section::Bounds => "BOUNDS",
        }
    }
}

/// The set of a line. Lines without a name of a set are a set of their own.
#[derive(Clone, Copy, Drop)]
pub struct Set<'a> {
    pub name: Option<&'a [u8]>,
}

/// The lines of a section that aren't used.
#[derive(Clone, Copy, Drop)]
pub struct Unused<'a> {
    /// How many there are.
    pub count: u64,
    /// The number of the first, counted from 1.
    pub line: u64,
    /// Its set.
    pub set: Set<'a>,
    /// The set that is used.
    pub used: Set<'a>,
}

/// What was seen of a section so far.
#[derive(Clone, Copy, Drop)]
struct Tally<'a> {
    used: Option<Set<'a>>,
    unused: Option<Unused<'a>>,
}

/// The lines of a section of a core file that aren't used; none where all are. The file has been read without a fault.
pub fn unused_lines<'a>(text: &'a [u8], section: Section) -> Option<Unused<'a>> {
    let mut tally = Tally {
        used: None,
        unused: None,
    };
    let mut is_here = false;
    for (before, line) in text.split(|byte| *byte == b'\n').enumerate() {
        match kind_of(line) {
            Line::Header(b"ENDATA") => break,
            Line::Header(word) => is_here = word == section.word().as_bytes(),
            Line::Data if is_here => {
                tally = tally.with((before as u64).saturating_add(1), set_of(line, section));
            }
            Line::Data | Line::Skipped => {}
        }
    }
    tally.unused
}

/// The set of a section of a core file that is used: that of its first line; none where it has no line.
pub fn used_set<'a>(text: &'a [u8], section: Section) -> Option<Set<'a>> {
    let mut is_here = false;
    for line in text.split(|byte| *byte == b'\n') {
        match kind_of(line) {
            Line::Header(b"ENDATA") => break,
            Line::Header(word) => is_here = word == section.word().as_bytes(),
            Line::Data if is_here => return Some(set_of(line, section)),
            Line::Data | Line::Skipped => {}
        }
    }
    None
}

impl<'a> Tally<'a> {
    /// With a further line.
    fn with(self, line: u64, set: Set<'a>) -> Tally<'a> {
        let Some(used) = self.used else {
            return Tally {
                used: Some(set),
                unused: None,
            };
        };
        if is_same(used, set) {
            return self;
        }
        let unused = match self.unused {
            Some(unused) => Unused {
                count: unused.count.saturating_add(1),
                ..unused
            },
            None => Unused {
                count: 1,
                line,
                set,
                used,
            },
        };
        Tally {
            used: self.used,
            unused: Some(unused),
        }
    }
}

/// Whether two lines of these sets are of the same one.
pub fn is_same(left: Set<'_>, right: Set<'_>) -> bool {
    match (left.name, right.name) {
        (Some(left), Some(right)) => left == right,
        (None, None) => true,
        _ => false,
    }
}

/// The set of a data line. A line of RHS or RANGES has pairs of row and value, and a name before them where the number
/// of fields is odd; one of BOUNDS has the name behind the kind.
pub fn set_of(line: &[u8], section: Section) -> Set<'_> {
    let count = field_count(line);
    let name = match section {
        Section::Rhs | Section::Ranges if count % 2 == 1 => field(line, 0),
        Section::Bounds if count > nameless_count(line) => field(line, 1),
        _ => None,
    };
    Set { name }
}

/// How many fields a line of BOUNDS has without a name: its kind and its column, and a value behind LO, UP and FX.
fn nameless_count(line: &[u8]) -> usize {
    match field(line, 0) {
        Some(b"LO" | b"UP" | b"FX") => 3,
        _ => 2,
    }
}
