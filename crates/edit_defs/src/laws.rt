// What edits promise.
ghost use Rattle.edit_defs.specs.Worked.{Worked};
ghost use Rattle.edit_defs.specs.Laws.{EditsWithoutCauseApply, EditsKeepPrograms, UntouchedStays, GoneAreDropped};
ghost use Rattle.edit_defs.specs.Laws.{ScriptsMakeBooks, WidthsStay, RightSidesShift};

/// An edit that applies to a program makes a program.
pub fn edits_keep_programs()
    ensures { EditsKeepPrograms }
{}

/// At each node that is live before and after an edit, the rows, and the costs with the children's shares, that it doesn't touch stay.
pub fn untouched_stays()
    ensures { UntouchedStays }
{}

/// The data of a script by version are a book, in the form of each kind of run.
pub fn scripts_make_books()
    ensures { ScriptsMakeBooks }
{}

/// Where two ends of a row are finite, they stay apart by the size of the row's range.
pub fn widths_stay()
    ensures { WidthsStay }
{}

/// A SET of a right-hand side moves one row of the book, from one version of the node's rows to the next.
pub fn right_sides_shift()
    ensures { RightSidesShift }
{}

/// An edit without a cause applies, where there are at most a million places of nodes.
pub fn edits_without_cause_apply()
    ensures { EditsWithoutCauseApply }
{}

/// A small script on a small program, worked out: its book, its shift, its versions and the nodes that it leaves.
pub fn worked_script()
    ensures { Worked }
{}

/// Of the live nodes those are dropped that the edit says are gone, and no others.
pub fn gone_are_dropped()
    ensures { GoneAreDropped }
{}
