//! Sets in falling order of their columns: each new entry would move all those behind it, so such sets are made from the last one on.
ghost use Rattle.std.specs.Prelude.{◌≡◌, ◌<◌, ◌≤◌, true, length, take, OnOk};
ghost use Rattle.time_defs.specs.Periods.{stages};
ghost use Rattle.tree_build.specs.Values.{values_content, with_sets};
ghost use Rattle.tree_build.specs.Turns.{place_key, IsInColumn, AreFalling, AllFall};

use crate::parts::Values;
use crate::values::set;
use core_defs::Core;
use frac128::{Frac, Memory};
use smps_words::Entry;
use std::alloc::Global;
use time_defs::Periods;

/// So many columns have a place in a key, and so many places the key of each has for rows.
const MOST_COLUMN: u128 = 4_294_967_295;

const ROWS: u128 = 8_589_934_592;

/// A number that rises where columns fall, and in a column with the rows, behind the cost.
fn place_key(entry: Entry) -> u128
    ensures { result ≡ place_key entry }
{
    match entry {
        Entry::Cost { column } => (MOST_COLUMN - column as u128) * ROWS,
        Entry::Matrix { row, column } => (MOST_COLUMN - column as u128) * ROWS + (row as u128 + 1),
        Entry::Rhs { row: _ } => 0,
    }
}

/// Whether it is a value other than 0 in a column.
fn is_in_column(entry: Entry, value: Frac) -> bool
    ensures { result ≡ true → IsInColumn entry value }
{
    match entry {
        Entry::Cost { column: _ } => !value.is_zero(),
        Entry::Matrix { row: _, column: _ } => !value.is_zero(),
        Entry::Rhs { row: _ } => false,
    }
}

/// Whether the second set is behind the first one where columns fall.
fn are_falling(one: (Entry, Frac), other: (Entry, Frac)) -> bool
    ensures { result ≡ true → AreFalling one other }
{
    is_in_column(one.0, one.1)
        && is_in_column(other.0, other.1)
        && place_key(one.0) < place_key(other.0)
}

/// How many sets at the front are in falling order: one at least.
pub(crate) fn falling(sets: &[(Entry, Frac)]) -> usize
    requires { 0 < length sets.now }
    ensures some { 0 < result }
    ensures within { result ≤ length sets.now }
    ensures falls { AllFall (take result sets.now) }
{
    let mut count = 1;
    'run: while count < sets.len() && are_falling(sets[count - 1], sets[count]) {
        count += 1;
    }
    count
}

/// Sets entries of a node of that stage, which are in falling order, from the last one on.
pub(crate) fn set_backwards(
    alloc: Global,
    core: &Core,
    periods: &Periods,
    stage: usize,
    values: &mut Values,
    sets: &[(Entry, Frac)],
) -> Result<(), Memory>
    requires { AllFall sets.now }
    ensures { OnOk result (values_content values.new
        ≡ with_sets core.now (stages periods.now) stage (values_content values.old) sets.now) }
{
    let mut left = sets.len();
    'back: while left > 0 {
        left -= 1;
        let pair = sets[left];
        set(alloc, core, periods, stage, values, pair.0, pair.1)?;
    }
    Ok(())
}
