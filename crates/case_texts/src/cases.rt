//! A case: a run, and what is wanted of it.
use std::alloc::{AllocError, Global};

/// A name, and the bytes of a text or of a file.
pub type Named = (String, Vec<u8>);

/// What a run leaves that can be looked at.
#[derive(Clone, Copy, PartialEq, Eq)]
pub enum Part {
    /// The number of the status.
    Status,
    /// Standard output.
    Output,
    /// Standard error.
    Error,
    /// What the files state, but for the nodes.
    Stated,
    /// The nodes that the files mean.
    Nodes,
}

impl Part {
    /// The word by which a case names it.
    pub fn word(self) -> &'static str {
        match self {
            Part::Status => "status",
            Part::Output => "output",
            Part::Error => "error",
            Part::Stated => "stated",
            Part::Nodes => "nodes",
        }
    }
}

/// What is wanted of a part: these bytes, or lines that are among its lines in this order.
#[derive(Clone, Drop)]
pub struct Want {
    pub part: Part,
    pub is_whole: bool,
    pub bytes: Vec<u8>,
}

/// A run and what is wanted of it, or what all cases of a section begin with.
#[derive(Clone, Drop)]
pub struct Case {
    pub section: String,
    pub title: String,
    /// The words, with a blank between two of them.
    pub words: String,
    /// Of two files with a name the first one counts.
    pub files: Vec<Named>,
    /// Whether the shelf gives an empty file for a name that it doesn't hold.
    pub gives_all: bool,
    /// The fetches of the shelf that fail, and the puts of the sink, each counted from 1.
    pub failing_fetches: Vec<u64>,
    pub failing_puts: Vec<u64>,
    /// How many bytes the sink takes at once.
    pub chunk: u64,
    pub wants: Vec<Want>,
}

impl Case {
    /// A section of which nothing is said.
    pub fn of_section(alloc: Global, title: &str) -> Result<Case, AllocError> {
        Ok(Case {
            section: String::from_str(alloc, title)?,
            title: String::new(alloc),
            words: String::new(alloc),
            files: Vec::new(alloc),
            gives_all: false,
            failing_fetches: Vec::new(alloc),
            failing_puts: Vec::new(alloc),
            chunk: 1_000_000,
            wants: Vec::new(alloc),
        })
    }

    /// A case with this title that begins as its section does.
    pub fn titled(&self, alloc: Global, title: &str) -> Result<Case, AllocError> {
        let mut case = self.clone()?;
        case.title = String::from_str(alloc, title)?;
        Ok(case)
    }

    /// States a file, in place of one of that name.
    pub fn put_file(
        &mut self,
        alloc: Global,
        name: &str,
        bytes: Vec<u8>,
    ) -> Result<(), AllocError> {
        put_named(alloc, &mut self.files, name, bytes)
    }

    /// States what is wanted of a part.
    pub fn want(&mut self, part: Part, is_whole: bool, bytes: Vec<u8>) -> Result<(), AllocError> {
        self.wants.push(Want {
            part,
            is_whole,
            bytes,
        })?;
        Ok(())
    }
}

/// Puts bytes with a name in front of others.
pub fn put_named(
    alloc: Global,
    texts: &mut Vec<Named>,
    name: &str,
    bytes: Vec<u8>,
) -> Result<(), AllocError> {
    let name = String::from_str(alloc, name)?;
    texts.insert(0, (name, bytes))?;
    Ok(())
}

/// The first bytes with this name.
pub fn found<'a>(texts: &'a [Named], name: &str) -> Option<&'a [u8]> {
    for text in texts {
        if text.0.as_str() == name {
            return Some(text.1.as_slice());
        }
    }
    None
}
