//! Which lists fit.
ghost use Rattle.joined_laws.specs.Fits.{PoliciesFit, MadeAreOnRows, CurrentAreOnRows, FormsAssemble, MultipliersFit};

/// The points of all nodes together are of live nodes and of columns of their stages, where no node that was dropped has a point.
pub fn policies_fit()
    ensures { PoliciesFit }
{}

/// The multipliers of a cut that is made of the data of a program are of rows of the program.
pub fn made_are_on_rows()
    ensures { MadeAreOnRows }
{}

/// So are those of a cut that is made of the data of a script, wherever they are those of the present program.
pub fn current_are_on_rows()
    ensures { CurrentAreOnRows }
{}

/// The multipliers by node of a cut are forms, where those of its records are.
pub fn forms_assemble()
    ensures { FormsAssemble }
{}

/// Multipliers of rows of a program, by node, are of live nodes and of rows of their stages, and their list says the same as their forms.
pub fn multipliers_fit()
    ensures { MultipliersFit }
{}
