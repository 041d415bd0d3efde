// How far an edit shifts a row.
ghost use Rattle.std.specs.Prelude.{◌≡◌, ◌<◌, length, IfSome, IfNone, None};
ghost use Rattle.smps_words.specs.declared.entry.Entry.TheVariants.{Rhs};
ghost use Rattle.scen_defs.specs.Program.{content, nodes_content, node_at};
ghost use Rattle.scen_defs.specs.Ends.{number};
ghost use Rattle.edit_defs.specs.Applies.{Applies};
ghost use Rattle.edit_defs.specs.Operations.{first_passed, set_passed};
ghost use Rattle.edit_defs.specs.Shifts.{find_row, side, old_side, new_side};
ghost use Rattle.edit_retire.specs.Shifted.{entry_shift, shift_of};

use cut_defs::Shift;
use edit_defs::{Edit, home, right_ends, row_of};
use frac128::Frac;
use scen_defs::{NodeRow, Program};
use scen_nodes::find;
use smps_words::{Entry, Name};

/// The number of an end, 0 where it is absent.
fn number_of(end: Option<Frac>) -> Frac
    ensures { result ≡ number end }
{
    match end {
        Some(number) => number,
        None => Frac::zero(),
    }
}

/// The end by which a move is measured: the low one where it is finite, else the high one.
fn side_of(low: Option<Frac>, high: Option<Frac>) -> Frac
    ensures { result ≡ side low high }
{
    match low {
        Some(number) => number,
        None => number_of(high),
    }
}

/// The side of a row among a node's rows.
fn row_side(rows: &[NodeRow], row: u32) -> Frac
    ensures { result ≡ side (find_row row rows.now).low (find_row row rows.now).high }
{
    match row_of(rows, row) {
        Some(found) => side_of(found.low, found.high),
        None => side_of(None, None),
    }
}

/// The side of the row in the scenario's node.
fn side_before(program: &Program, name: &Name, row: u32) -> Frac
    ensures { result ≡ old_side (content program.now) name.now row }
{
    let place = home(program, name, Entry::Rhs { row });
    match find(&program.nodes, place as u64) {
        Some(node) => row_side(&node.rows, row),
        None => row_side(&[], row),
    }
}

/// The shift of a row whose right-hand side is set.
fn row_shift(program: &Program, name: &Name, row: u32, value: Frac, version: u32) -> Option<Shift>
    requires row { row < length program.now.rows.items }
    requires passes { set_passed (content program.now) (Rhs row) value ≡ None }
    ensures { result ≡ entry_shift (content program.now) name.now (Rhs row) value version }
{
    let old = side_before(program, name, row);
    let new = match right_ends(&program.rows, row, value) {
        Ok((low, high)) => side_of(low, high),
        Err(_) => unreachable!(),
    };
    match new.sub(old) {
        Ok(by) => Some(Shift {
            node: home(program, name, Entry::Rhs { row }),
            row,
            by,
            version,
        }),
        Err(_) => None,
    }
}

/// The shift that an edit is for the plain pools, by the program before it and the version of the node's rows after
/// it: there where the edit sets a right-hand side and the difference of the ends doesn't pass.
pub fn shift(program: &Program, edit: &Edit, version: u32) -> Option<Shift>
    requires applies { Applies (content program.now) edit.now }
    requires passes { first_passed (content program.now) edit.now ≡ None }
    ensures { result ≡ shift_of (content program.now) edit.now version }
{
    match edit {
        Edit::Set {
            scenario,
            entry,
            value,
        } => match *entry {
            Entry::Cost { column: _ } => None,
            Entry::Matrix { row: _, column: _ } => None,
            Entry::Rhs { row } => row_shift(program, scenario, row, *value, version),
        },
        Edit::Prob {
            scenario: _,
            probability: _,
        } => None,
        Edit::Drop { scenario: _ } => None,
        Edit::Add {
            name: _,
            parent: _,
            probability: _,
            stage: _,
        } => None,
    }
}
