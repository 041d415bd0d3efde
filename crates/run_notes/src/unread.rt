//! Why a file can't be read.
use std::fs;
use std::fs::Files;
use std::io::ErrorKind;

/// Why a file can't be read, as far as the system says.
pub fn why_unread<R: Files>(rt: &R, name: &str) -> &'static str {
    match fs::metadata(rt, name) {
        Ok(found) if found.is_dir() => "that is a folder",
        Ok(found) if found.is_file() => match fs::open(rt, name) {
            Ok(_) => reason(ErrorKind::Other),
            Err(error) => reason(error.kind()),
        },
        Ok(_) => reason(ErrorKind::Other),
        Err(error) => reason(error.kind()),
    }
}

fn reason(kind: ErrorKind) -> &'static str {
    match kind {
        ErrorKind::NotFound => "there is no such file",
        ErrorKind::NotADirectory => "a part of that path isn't a folder",
        ErrorKind::IsADirectory => "that is a folder",
        ErrorKind::PermissionDenied => "there is no permission to read it",
        _ => "reading it failed",
    }
}
