// What is tested of an edit before its operations.
ghost use Rattle.std.specs.Prelude.{◌≡◌, leb, length};
ghost use Rattle.scen_defs.specs.Program.{content, scenarios_content, column_at};
ghost use Rattle.scen_defs.specs.Valid.{row_at};
ghost use Rattle.smps_words.specs.declared.entry.Entry.TheVariants.{Cost, Rhs};
ghost use Rattle.edit_defs.specs.After.{is_known, stage_of_entry};
ghost use Rattle.edit_defs.specs.Causes.{is_inner, is_late};
ghost use Rattle.rationals.specs.Rational.{at_most};

use edit_defs::{find, stage_of};
use frac128::Frac;
use scen_defs::{Program, Scenario};
use smps_words::{Entry, Name};

/// Whether a scenario has the name.
pub fn is_known(scenarios: &[Scenario], name: &Name) -> bool
    ensures { result ≡ is_known name.now (scenarios_content scenarios.now) }
{
    find(scenarios, name).is_some()
}

fn at_most(one: Frac, other: Frac) -> bool
    ensures { result ≡ at_most one other }
{
    one <= other
}

/// Whether a number is above 0 and below 1.
pub fn is_inner(number: Frac) -> bool
    ensures { result ≡ is_inner number }
{
    !at_most(number, Frac::zero()) && !at_most(Frac::one(), number)
}

/// Whether an entry's column is of a later stage than its row.
pub fn is_late(program: &Program, entry: Entry) -> bool
    ensures { result ≡ is_late (content program.now) entry }
{
    match entry {
        Entry::Cost { column: _ } => false,
        Entry::Matrix { row, column } => {
            stage_of(program, Entry::Rhs { row }) < stage_of(program, Entry::Cost { column })
        }
        Entry::Rhs { row: _ } => false,
    }
}

/// Whether there is no second scenario.
pub(crate) fn is_last(scenarios: &[Scenario]) -> bool
    ensures { result ≡ leb (length (scenarios_content scenarios.now)) 1 }
{
    scenarios.len() <= 1
}
