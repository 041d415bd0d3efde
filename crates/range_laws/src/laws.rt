//! The widths of rows.
ghost use Rattle.range_laws.specs.Laws.{BuiltHaveWidths, MeantHaveWidths};

/// In the program that is built each row with two finite ends has the width of its range.
pub fn built_have_widths()
    ensures { BuiltHaveWidths }
{}

/// So it is in the program that the texts of three files mean.
pub fn meant_have_widths()
    ensures { MeantHaveWidths }
{}
