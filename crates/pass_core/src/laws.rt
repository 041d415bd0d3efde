//! What the multipliers of cuts show.
ghost use Rattle.pass_core.specs.Assembled.{RootsAssembleWell, MadeEndsAssembleWell};

/// The assembly of a root's cut that is made of the data of a program without edits is good, and worth at least the cut's constant.
pub fn roots_assemble_well()
    ensures { RootsAssembleWell }
{}

/// So are the assemblies of the cuts that ends rest on, where all cuts of a state are made so.
pub fn made_ends_assemble_well()
    ensures { MadeEndsAssembleWell }
{}
