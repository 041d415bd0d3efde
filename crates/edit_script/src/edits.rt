// The lines of the commands that are edits.
ghost use Rattle.std.specs.Prelude.{◌≡◌, IfOk};
ghost use Rattle.smps_words.specs.Seen.{seen};
ghost use Rattle.scen_defs.specs.Program.{content};
ghost use Rattle.smps_words.specs.Field.{IsField};
ghost use Rattle.edit_defs.specs.Causes.{Asks};
ghost use Rattle.edit_script.specs.Commands.{HasName, set_edit, prob_edit, drop_edit, add_edit};
ghost use Rattle.edit_script.specs.Commands.{set_line, prob_line, drop_line, add_line};
ghost use Rattle.reader_defs.specs.Stops.{Gives};
ghost use Rattle.edit_script.specs.Tables.{HasTables};

use crate::entries::{known_entry, later_period};
use crate::numbers::inner_number;
use crate::tables::Tables;
use core_defs::{Cause, number_of};
use edit_apply::is_known;
use edit_defs::{Edit, place_near};
use reader_defs::Stop;
use scen_defs::Program;
use smps_words::{Line, Name};
use std::alloc::Global;

/// A SET of its fields.
#[tactic(auto, unfolding(crate::specs::Commands::set_edit))]
fn set_edit(
    alloc: Global,
    program: &Program,
    tables: &Tables,
    place: usize,
    name: &[u8],
    column: &[u8],
    row: &[u8],
    word: &[u8],
) -> Result<Edit, Stop>
    requires tables { HasTables (content program.now) tables.now }
    ensures gives { Gives (λ x. x) result (set_edit (content program.now) name.now column.now row.now word.now) }
    ensures asks { IfOk result (Asks (content program.now)) }
{
    let Some(_) = place_near(&program.scenarios, place, name) else {
        return Err(Stop::Fault(Cause::ScenarioUnknown));
    };
    let scenario = Name::new(alloc, name)?;
    let entry = known_entry(program, tables, column, row)?;
    let value = number_of(word)?;
    Ok(Edit::Set {
        scenario,
        entry,
        value,
    })
}

/// A PROB of its fields.
#[tactic(auto, unfolding(crate::specs::Commands::prob_edit))]
fn prob_edit(
    alloc: Global,
    program: &Program,
    place: usize,
    name: &[u8],
    word: &[u8],
) -> Result<Edit, Stop>
    ensures gives { Gives (λ x. x) result (prob_edit (content program.now) name.now word.now) }
    ensures asks { IfOk result (Asks (content program.now)) }
{
    let Some(_) = place_near(&program.scenarios, place, name) else {
        return Err(Stop::Fault(Cause::ScenarioUnknown));
    };
    let scenario = Name::new(alloc, name)?;
    let probability = inner_number(word)?;
    Ok(Edit::Prob {
        scenario,
        probability,
    })
}

/// A DROP of its field.
#[tactic(auto, unfolding(crate::specs::Commands::drop_edit))]
fn drop_edit(alloc: Global, program: &Program, place: usize, name: &[u8]) -> Result<Edit, Stop>
    ensures gives { Gives (λ x. x) result (drop_edit (content program.now) name.now) }
    ensures asks { IfOk result (Asks (content program.now)) }
{
    let Some(_) = place_near(&program.scenarios, place, name) else {
        return Err(Stop::Fault(Cause::ScenarioUnknown));
    };
    let scenario = Name::new(alloc, name)?;
    Ok(Edit::Drop { scenario })
}

/// An ADD of its fields.
#[tactic(auto, unfolding(crate::specs::Commands::add_edit))]
fn add_edit(
    alloc: Global,
    program: &Program,
    name: &[u8],
    parent: &[u8],
    word: &[u8],
    period: &[u8],
) -> Result<Edit, Stop>
    requires field { IsField name.now }
    ensures gives { Gives (λ x. x) result (add_edit (content program.now) name.now parent.now word.now period.now) }
    ensures asks { IfOk result (Asks (content program.now)) }
{
    let name = Name::new(alloc, name)?;
    if is_known(&program.scenarios, &name) {
        return Err(Stop::Fault(Cause::NameTaken));
    }
    let parent = Name::new(alloc, parent)?;
    if !is_known(&program.scenarios, &parent) {
        return Err(Stop::Fault(Cause::ScenarioUnknown));
    }
    let probability = inner_number(word)?;
    let Some(stage) = later_period(&program.periods, period) else {
        return Err(Stop::Fault(Cause::BranchPeriod));
    };
    Ok(Edit::Add {
        name,
        parent,
        probability,
        stage,
    })
}

/// A line of SET.
#[tactic(auto, using(crate::proofs::Long::long_set), unfolding(crate::specs::Commands::set_line))]
pub(crate) fn set_line(
    alloc: Global,
    program: &Program,
    tables: &Tables,
    place: usize,
    line: &Line,
) -> Result<Edit, Stop>
    requires tables { HasTables (content program.now) tables.now }
    ensures gives { Gives (λ x. x) result (set_line (content program.now) (seen line.now).fields) }
    ensures asks { IfOk result (Asks (content program.now)) }
{
    let Some([_, name, column, row, word]) = line.fields() else {
        return Err(Stop::Fault(Cause::FieldCount));
    };
    set_edit(alloc, program, tables, place, name, column, row, word)
}

/// A line of PROB.
#[tactic(auto, using(crate::proofs::Long::long_prob), unfolding(crate::specs::Commands::prob_line))]
pub(crate) fn prob_line(
    alloc: Global,
    program: &Program,
    place: usize,
    line: &Line,
) -> Result<Edit, Stop>
    ensures gives { Gives (λ x. x) result (prob_line (content program.now) (seen line.now).fields) }
    ensures asks { IfOk result (Asks (content program.now)) }
{
    let Some([_, name, word]) = line.fields() else {
        return Err(Stop::Fault(Cause::FieldCount));
    };
    prob_edit(alloc, program, place, name, word)
}

/// A line of DROP.
#[tactic(auto, using(crate::proofs::Long::long_drop), unfolding(crate::specs::Commands::drop_line))]
pub(crate) fn drop_line(
    alloc: Global,
    program: &Program,
    place: usize,
    line: &Line,
) -> Result<Edit, Stop>
    ensures gives { Gives (λ x. x) result (drop_line (content program.now) (seen line.now).fields) }
    ensures asks { IfOk result (Asks (content program.now)) }
{
    let Some([_, name]) = line.fields() else {
        return Err(Stop::Fault(Cause::FieldCount));
    };
    drop_edit(alloc, program, place, name)
}

/// A line of ADD.
#[tactic(auto, using(crate::proofs::Long::long_add), unfolding(crate::specs::Commands::add_line))]
pub(crate) fn add_line(alloc: Global, program: &Program, line: &Line) -> Result<Edit, Stop>
    requires named { HasName (seen line.now).fields }
    ensures gives { Gives (λ x. x) result (add_line (content program.now) (seen line.now).fields) }
    ensures asks { IfOk result (Asks (content program.now)) }
{
    let Some([_, name, parent, word, period]) = line.fields() else {
        return Err(Stop::Fault(Cause::FieldCount));
    };
    add_edit(alloc, program, name, parent, word, period)
}
