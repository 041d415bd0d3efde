//! What is meant by the texts of files, taken together.
ghost use Rattle.program_files.specs.Laws.{TextsMeanOneProgram};

/// Texts mean one program at most; texts that mean a program have no fault, nor have an edit list and a report file that mean a
/// script and reports for it. A core file alone that is read is refused only for an operation that passes.
pub fn texts_mean_one_program()
    ensures { TextsMeanOneProgram }
{}
