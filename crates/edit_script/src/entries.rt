// The entries and the periods that fields name.
ghost use Rattle.std.specs.Prelude.{◌≡◌, ◌<◌, ◌≤◌, ◌^◌, IfSome, IfOk, length};
ghost use Rattle.smps_words.specs.Names.{place_of, if_later};
ghost use Rattle.scen_defs.specs.Program.{content};
ghost use Rattle.edit_defs.specs.Causes.{HasNumbers};
ghost use Rattle.edit_script.specs.Commands.{is_rhs_name, entry_of, known_entry};
ghost use Rattle.edit_script.specs.Tables.{HasTables};

use crate::tables::Tables;
use core_defs::Cause;
use edit_apply::is_late;
use scen_defs::Program;
use smps_words::{Entry, Name};

/// The number of a period.
fn period_place(periods: &[Name], word: &[u8]) -> Option<usize>
    ensures place { result ≡ place_of periods.now word.now }
    ensures within { IfSome result (λ t. t < length periods.now) }
{
    for (place, name) in periods.iter().enumerate() {
        if word == name.as_bytes() {
            return Some(place);
        }
    }
    None
}

/// A right-hand side is named by the name of the program's set, or by RHS.
fn is_rhs_name(program: &Program, name: &[u8]) -> bool
    ensures { result ≡ is_rhs_name (content program.now) name.now }
{
    name == program.rhs.as_bytes() || name == b"RHS".as_slice()
}

/// The entry that a column and a row name.
fn entry_of(program: &Program, tables: &Tables, column: &[u8], row: &[u8]) -> Option<Entry>
    requires tables { HasTables (content program.now) tables.now }
    ensures entry { result ≡ entry_of (content program.now) column.now row.now }
    ensures numbers { IfSome result (HasNumbers (content program.now)) }
{
    if let Some(number) = tables.columns.place(column) {
        if row == program.objective.as_bytes() {
            return Some(Entry::Cost {
                column: number as u32,
            });
        }
        let Some(place) = tables.rows.place(row) else {
            return None;
        };
        return Some(Entry::Matrix {
            row: place as u32,
            column: number as u32,
        });
    }
    if !is_rhs_name(program, column) {
        return None;
    }
    let Some(place) = tables.rows.place(row) else {
        return None;
    };
    Some(Entry::Rhs { row: place as u32 })
}

/// The entry that two fields name, whose column isn't of a later period than its row.
#[tactic(auto, unfolding(crate::specs::Commands::known_entry))]
pub(crate) fn known_entry(
    program: &Program,
    tables: &Tables,
    column: &[u8],
    row: &[u8],
) -> Result<Entry, Cause>
    requires tables { HasTables (content program.now) tables.now }
    ensures entry { result ≡ known_entry (content program.now) column.now row.now }
    ensures numbers { IfOk result (HasNumbers (content program.now)) }
{
    let Some(entry) = entry_of(program, tables, column, row) else {
        return Err(Cause::EditEntryUnknown);
    };
    if is_late(program, entry) {
        return Err(Cause::EntryStage);
    }
    Ok(entry)
}

/// A period behind the first.
pub(crate) fn later_period(periods: &[Name], word: &[u8]) -> Option<u32>
    requires { length periods.now ≤ 16 }
    ensures { result ≡ if_later (place_of periods.now word.now) }
{
    let Some(period) = period_place(periods, word) else {
        return None;
    };
    if period > 0 {
        return Some(period as u32);
    }
    None
}
