//! The texts of the files that a file goes with.

/// The core file and the time file of the words. Empty where there is none, or where it wasn't read.
#[derive(Clone, Copy, Drop)]
pub struct Bases<'a> {
    pub core: &'a [u8],
    pub time: &'a [u8],
}
