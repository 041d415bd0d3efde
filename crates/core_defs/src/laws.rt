//! What the definitions of core files say together.
ghost use Rattle.core_defs.specs.Laws.{CoreFileLaws};

/// A text that is filed line by line is filed exactly where it is a core file, and its core is the one that its lines mean, taken
/// together; else the first line that is at fault is named with its cause. There is one fault at most.
pub fn core_file_laws()
    ensures { CoreFileLaws }
{}
