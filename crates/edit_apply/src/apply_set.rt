// A SET in place, with the counts of the program.
ghost use Rattle.std.specs.Prelude.{◌≡◌, IfOk, None, OnOk, OnErr, MatchResult, length};
ghost use Rattle.smps_words.specs.declared.entry.Entry.TheVariants.{Cost, Matrix, Rhs};
ghost use Rattle.scen_defs.specs.Program.{content};
ghost use Rattle.edit_defs.specs.declared.edit.Edit.TheVariants.{Set};
ghost use Rattle.edit_defs.specs.After.{after, home_of};
ghost use Rattle.edit_defs.specs.Applies.{IsSet};
ghost use Rattle.edit_defs.specs.Causes.{HasNumbers, refused};
ghost use Rattle.edit_defs.specs.Limits.{counts};
ghost use Rattle.edit_apply.specs.Faults.{ApplyFaultOf};
ghost use Rattle.edit_apply.specs.Rest.{set_rest};

use crate::counts::{are_many, moved};
use crate::facts::is_late;
use crate::fault::ApplyFault;
use crate::lengths::{cost_lengths, entry_lengths};
use crate::sets::{set_column_cost, set_matrix_entry, set_right_side};
use core_defs::Cause;
use edit_defs::{Counts, home_near, place_near};
use frac128::Frac;
use scen_defs::Program;
use smps_words::{Entry, Name};
use std::alloc::Global;

fn apply_cost(
    alloc: Global,
    program: &mut Program,
    counted: &mut Counts,
    scenario: &Name,
    place: u32,
    column: u32,
    value: Frac,
) -> Result<(), ApplyFault>
    requires applies { IsSet (content program.old) scenario.now (Cost column) }
    requires place { place ≡ home_of (content program.old) scenario.now (Cost column) }
    requires counted { counted.old ≡ counts (content program.old).nodes }
    ensures ok { OnOk result (content program.new ≡ after (content program.old) (Set scenario.now (Cost column) value)) }
    ensures cause { MatchResult result (λ _. set_rest (content program.old) scenario.now (Cost column) value ≡ None)
        (ApplyFaultOf (set_rest (content program.old) scenario.now (Cost column) value)) }
    ensures same { OnErr result (content program.new ≡ content program.old) }
    ensures counted { counted.new ≡ counts (content program.new).nodes }
{
    let (less, more) = cost_lengths(alloc, &program.nodes, place, column, value);
    let mut all = *counted;
    all.costs = moved(all.costs, less, more)?;
    if are_many(all) {
        return Err(ApplyFault::Refused(Cause::ScenarioLimit));
    }
    set_column_cost(alloc, program, scenario, place, column, value)?;
    *counted = all;
    Ok(())
}

fn apply_matrix(
    alloc: Global,
    program: &mut Program,
    counted: &mut Counts,
    scenario: &Name,
    place: u32,
    row: u32,
    column: u32,
    value: Frac,
) -> Result<(), ApplyFault>
    requires applies { IsSet (content program.old) scenario.now (Matrix row column) }
    requires place { place ≡ home_of (content program.old) scenario.now (Matrix row column) }
    requires counted { counted.old ≡ counts (content program.old).nodes }
    ensures ok { OnOk result (content program.new ≡ after (content program.old) (Set scenario.now (Matrix row column) value)) }
    ensures cause { MatchResult result (λ _. set_rest (content program.old) scenario.now (Matrix row column) value ≡ None)
        (ApplyFaultOf (set_rest (content program.old) scenario.now (Matrix row column) value)) }
    ensures same { OnErr result (content program.new ≡ content program.old) }
    ensures counted { counted.new ≡ counts (content program.new).nodes }
{
    let (less, more) = entry_lengths(alloc, &program.nodes, place, row, column, value);
    let mut all = *counted;
    all.entries = moved(all.entries, less, more)?;
    if are_many(all) {
        return Err(ApplyFault::Refused(Cause::ScenarioLimit));
    }
    set_matrix_entry(alloc, program, scenario, place, row, column, value)?;
    *counted = all;
    Ok(())
}

fn apply_right_side(
    program: &mut Program,
    counted: &Counts,
    scenario: &Name,
    place: u32,
    row: u32,
    value: Frac,
) -> Result<(), ApplyFault>
    requires applies { IsSet (content program.old) scenario.now (Rhs row) }
    requires place { place ≡ home_of (content program.old) scenario.now (Rhs row) }
    requires counted { counted.now ≡ counts (content program.old).nodes }
    ensures ok { OnOk result (content program.new ≡ after (content program.old) (Set scenario.now (Rhs row) value)) }
    ensures cause { MatchResult result (λ _. set_rest (content program.old) scenario.now (Rhs row) value ≡ None)
        (ApplyFaultOf (set_rest (content program.old) scenario.now (Rhs row) value)) }
    ensures same { OnErr result (content program.new ≡ content program.old) }
    ensures counted { counted.now ≡ counts (content program.new).nodes }
{
    set_right_side(program, scenario, place, row, value)?;
    Ok(())
}

/// Sets an entry of a scenario that there is, where its column isn't late.
fn apply_entry(
    alloc: Global,
    program: &mut Program,
    counted: &mut Counts,
    scenario: &Name,
    place: u32,
    entry: Entry,
    value: Frac,
) -> Result<(), ApplyFault>
    requires applies { IsSet (content program.old) scenario.now entry }
    requires place { place ≡ home_of (content program.old) scenario.now entry }
    requires counted { counted.old ≡ counts (content program.old).nodes }
    ensures ok { OnOk result (content program.new ≡ after (content program.old) (Set scenario.now entry value)) }
    ensures cause { MatchResult result (λ _. set_rest (content program.old) scenario.now entry value ≡ None)
        (ApplyFaultOf (set_rest (content program.old) scenario.now entry value)) }
    ensures same { OnErr result (content program.new ≡ content program.old) }
    ensures counted { counted.new ≡ counts (content program.new).nodes }
{
    match entry {
        Entry::Cost { column } => apply_cost(
            alloc, program, counted, scenario, place, column, value,
        ),
        Entry::Matrix { row, column } => {
            apply_matrix(alloc, program, counted, scenario, place, row, column, value)
        }
        Entry::Rhs { row } => apply_right_side(program, counted, scenario, place, row, value),
    }
}

/// Sets an entry in place, or says why not. The scenario is looked for as by `place_near`.
pub(crate) fn apply_set(
    alloc: Global,
    program: &mut Program,
    counted: &mut Counts,
    scenario: &Name,
    entry: Entry,
    value: Frac,
    guess: usize,
) -> Result<(), ApplyFault>
    requires numbers { HasNumbers (content program.old) entry }
    requires counted { counted.old ≡ counts (content program.old).nodes }
    ensures ok { OnOk result (content program.new ≡ after (content program.old) (Set scenario.now entry value)) }
    ensures cause { MatchResult result (λ _. refused (content program.old) (Set scenario.now entry value) ≡ None)
        (ApplyFaultOf (refused (content program.old) (Set scenario.now entry value))) }
    ensures same { OnErr result (content program.new ≡ content program.old) }
    ensures counted { counted.new ≡ counts (content program.new).nodes }
{
    let Some(found) = place_near(&program.scenarios, guess, scenario.as_bytes()) else {
        return Err(ApplyFault::Refused(Cause::ScenarioUnknown));
    };
    if is_late(program, entry) {
        return Err(ApplyFault::Refused(Cause::EntryStage));
    }
    let place = home_near(program, found, scenario, entry);
    apply_entry(alloc, program, counted, scenario, place, entry, value)
}
