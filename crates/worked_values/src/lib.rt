//! Worked values of the definitions that the reader, the refusals and the meaning of a file share: what each gives on concrete texts and
//! numbers, as docs/FORMATS.md states it. The functions do nothing; their contracts are the tables.
#![tactic(auto)]

ghost use Rattle.worked_values.specs.NumberValues.{NumbersAreRead, WideNumbersAreTold};
ghost use Rattle.worked_values.specs.LineValues.{LinesAreAsDocumented};
ghost use Rattle.worked_values.specs.SectionValues.{SectionsAreAsDocumented};
ghost use Rattle.worked_values.specs.RowValues.{RowsAreAsDocumented};
ghost use Rattle.worked_values.specs.ColumnValues.{ColumnsAreAsDocumented};
ghost use Rattle.worked_values.specs.SetValues.{RightSidesAreAsDocumented, RangesAreAsDocumented};
ghost use Rattle.worked_values.specs.IntervalValues.{IntervalsAreAsDocumented};
ghost use Rattle.worked_values.specs.BoundValues.{BoundsAreAsDocumented};
ghost use Rattle.worked_values.specs.BoundPairs.{BoundPairsAreAsDocumented};
ghost use Rattle.worked_values.specs.FaultOrder.{FaultsAreInOrder};
ghost use Rattle.worked_values.specs.FileValues.{TheFileSays, MissingSectionsAreTold};
ghost use Rattle.worked_values.specs.TimeValues.{TimeFilesAreAsDocumented};
ghost use Rattle.worked_values.specs.StochValues.{StochSectionsAreAsDocumented, EntriesAreAsDocumented};
ghost use Rattle.worked_values.specs.EditValues.{CommandsAreAsDocumented};

/// Each form of a number is read as its value, and nothing else is a number.
pub fn numbers_are_read()
    ensures { NumbersAreRead }
{}

/// A number is wide exactly by its parts as they are written.
pub fn wide_numbers_are_told()
    ensures { WideNumbersAreTold }
{}

/// Lines, fields, comments and headers, and how lines are counted.
pub fn lines_are_as_documented()
    ensures { LinesAreAsDocumented }
{}

/// The sections, their order, and which of them may be absent.
pub fn sections_are_as_documented()
    ensures { SectionsAreAsDocumented }
{}

/// What the kinds of rows say.
pub fn rows_are_as_documented()
    ensures { RowsAreAsDocumented }
{}

/// Costs and entries of columns.
pub fn columns_are_as_documented()
    ensures { ColumnsAreAsDocumented }
{}

/// Right-hand sides, and the set of them that is used.
pub fn right_sides_are_as_documented()
    ensures { RightSidesAreAsDocumented }
{}

/// Ranges, and the set of them that is used.
pub fn ranges_are_as_documented()
    ensures { RangesAreAsDocumented }
{}

/// The interval of a constraint, by its kind and the sign of its range.
pub fn intervals_are_as_documented()
    ensures { IntervalsAreAsDocumented }
{}

/// What each line of BOUNDS sets by itself, and the set of them that is used.
pub fn bounds_are_as_documented()
    ensures { BoundsAreAsDocumented }
{}

/// What each kind of line of BOUNDS sets behind each.
pub fn bound_pairs_are_as_documented()
    ensures { BoundPairsAreAsDocumented }
{}

/// Which of two faults of a line is named.
pub fn faults_are_in_order()
    ensures { FaultsAreInOrder }
{}

/// What the first whole file of the document says.
pub fn the_file_says()
    ensures { TheFileSays }
{}

/// Which line is at fault where a section is missing.
pub fn missing_sections_are_told()
    ensures { MissingSectionsAreTold }
{}

/// The sections of a time file in both forms, and the periods of rows and columns.
pub fn time_files_are_as_documented()
    ensures { TimeFilesAreAsDocumented }
{}

/// The sections of a stoch file, and what a stated value does by the third word of its header.
pub fn stoch_sections_are_as_documented()
    ensures { StochSectionsAreAsDocumented }
{}

/// The entries that a column and a row name, with their values in the core and their periods.
pub fn entries_are_as_documented()
    ensures { EntriesAreAsDocumented }
{}

/// The commands of edit lists.
pub fn commands_are_as_documented()
    ensures { CommandsAreAsDocumented }
{}
