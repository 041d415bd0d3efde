// An edit in place.
ghost use Rattle.std.specs.Prelude.{◌≡◌, None, OnOk, OnErr, MatchResult};
ghost use Rattle.scen_defs.specs.Program.{content};
ghost use Rattle.smps_words.specs.Field.{IsField};
ghost use Rattle.edit_defs.specs.declared.edit.Edit.TheVariants.{Prob, Drop, Add};
ghost use Rattle.edit_defs.specs.After.{after};
ghost use Rattle.edit_defs.specs.Causes.{Asks, refused};
ghost use Rattle.edit_defs.specs.Limits.{counts};
ghost use Rattle.edit_apply.specs.Faults.{ApplyFaultOf};

use crate::apply_add::apply_add;
use crate::apply_drop::apply_drop;
use crate::apply_prob::apply_prob;
use crate::apply_set::apply_set;
use crate::fault::ApplyFault;
use edit_defs::{Counts, Edit};
use scen_defs::Program;
use std::alloc::Global;

/// Applies an edit in place, as `apply_counted` does. The scenario of a SET is looked for at the guess first, as by `place_near`.
pub fn apply_near(
    alloc: Global,
    program: &mut Program,
    counted: &mut Counts,
    edit: &Edit,
    guess: usize,
) -> Result<(), ApplyFault>
    requires asks { Asks (content program.old) edit.now }
    requires counted { counted.old ≡ counts (content program.old).nodes }
    ensures ok { OnOk result (content program.new ≡ after (content program.old) edit.now) }
    ensures cause { MatchResult result (λ _. refused (content program.old) edit.now ≡ None)
        (ApplyFaultOf (refused (content program.old) edit.now)) }
    ensures same { OnErr result (content program.new ≡ content program.old) }
    ensures counted { counted.new ≡ counts (content program.new).nodes }
{
    match edit {
        Edit::Set {
            scenario,
            entry,
            value,
        } => apply_set(alloc, program, counted, scenario, *entry, *value, guess),
        Edit::Prob {
            scenario,
            probability,
        } => apply_prob(alloc, program, scenario, *probability),
        Edit::Drop { scenario } => apply_drop(alloc, program, counted, scenario),
        Edit::Add {
            name,
            parent,
            probability,
            stage,
        } => apply_add(alloc, program, counted, name, parent, *probability, *stage),
    }
}

/// Applies an edit in place. The counts are those of the program, and become those of the program after it.
///
/// `Refused` says why it doesn't apply: the first test that it fails. Where it applies, memory alone can be wanting. After an
/// error the program is as it was. An ADD that finds no 16 numbers of 32 bits for new nodes is answered by `Memory`.
pub fn apply_counted(
    alloc: Global,
    program: &mut Program,
    counted: &mut Counts,
    edit: &Edit,
) -> Result<(), ApplyFault>
    requires asks { Asks (content program.old) edit.now }
    requires counted { counted.old ≡ counts (content program.old).nodes }
    ensures ok { OnOk result (content program.new ≡ after (content program.old) edit.now) }
    ensures cause { MatchResult result (λ _. refused (content program.old) edit.now ≡ None)
        (ApplyFaultOf (refused (content program.old) edit.now)) }
    ensures same { OnErr result (content program.new ≡ content program.old) }
    ensures counted { counted.new ≡ counts (content program.new).nodes }
{
    apply_near(alloc, program, counted, edit, 0)
}
