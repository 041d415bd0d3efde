//! The files that a command fetched, as a run hands them on.
use command_words::Sources;
use input_files::{FileKind, Texts};
use std::alloc::{AllocError, Global};

/// The files of a command: their names, and their bytes where all were given.
#[derive(Drop)]
pub struct Fetched {
    pub(crate) names: FileNames,
    pub(crate) texts: Option<Texts>,
}

/// The names of the files of a command.
#[derive(Drop)]
pub(crate) struct FileNames {
    core: String,
    time: Option<String>,
    stoch: Option<String>,
    edits: Option<String>,
    report: Option<String>,
    basis: Option<String>,
    measures: Option<String>,
}

/// A name that need not be there.
fn name_if(alloc: Global, name: Option<&str>) -> Result<Option<String>, AllocError> {
    match name {
        Some(name) => Ok(Some(String::from_str(alloc, name)?)),
        None => Ok(None),
    }
}

impl FileNames {
    /// The names that the words have.
    pub(crate) fn of(alloc: Global, sources: &Sources<'_>) -> Result<FileNames, AllocError> {
        Ok(FileNames {
            core: String::from_str(alloc, sources.core)?,
            time: name_if(alloc, sources.time)?,
            stoch: name_if(alloc, sources.stoch)?,
            edits: name_if(alloc, sources.edits)?,
            report: name_if(alloc, sources.report)?,
            basis: name_if(alloc, sources.basis)?,
            measures: name_if(alloc, sources.measures)?,
        })
    }
}

impl Fetched {
    /// The name of a file, where the words have one.
    pub fn name(&self, file: FileKind) -> Option<&str> {
        let name = match file {
            FileKind::Core => return Some(self.names.core.as_str()),
            FileKind::Time => &self.names.time,
            FileKind::Stoch => &self.names.stoch,
            FileKind::Edits => &self.names.edits,
            FileKind::Report => &self.names.report,
            FileKind::Basis => &self.names.basis,
            FileKind::Measures => &self.names.measures,
        };
        match name {
            Some(name) => Some(name.as_str()),
            None => None,
        }
    }

    /// The bytes of a file, where all were given.
    pub fn text(&self, file: FileKind) -> Option<&[u8]> {
        let Some(texts) = &self.texts else {
            return None;
        };
        let text = match file {
            FileKind::Core => return Some(texts.core.as_slice()),
            FileKind::Time => &texts.time,
            FileKind::Stoch => &texts.stoch,
            FileKind::Edits => &texts.edits,
            FileKind::Report => &texts.report,
            FileKind::Basis => &texts.basis,
            FileKind::Measures => &texts.measures,
        };
        match text {
            Some(text) => Some(text.as_slice()),
            None => None,
        }
    }
}
