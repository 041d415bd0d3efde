// Whether a program has a name already that is added.
ghost use Rattle.std.specs.Prelude.{◌≡◌};
ghost use Rattle.scen_defs.specs.Names.{column_names, row_names};
ghost use Rattle.scen_defs.specs.Program.{content};
ghost use Rattle.smps_words.specs.Names.{same_name};
ghost use Rattle.tail_risk.specs.TailNames.{has_name, has_tail_names};

use scen_defs::{Column, Program, Row};
use smps_words::Name;

/// The name of the first column that is added.
pub(crate) const H_NAME: &[u8] = b"TAIL_H";

/// Of the second.
pub(crate) const U_NAME: &[u8] = b"TAIL_U";

/// And of the row.
pub(crate) const R_NAME: &[u8] = b"TAIL_R";

fn is_named(name: &Name, text: &[u8]) -> bool
    ensures { result ≡ same_name name.now text.now }
{
    name.as_bytes() == text
}

fn has_column(columns: &[Column], name: &[u8]) -> bool
    ensures { result ≡ has_name name.now (column_names columns.now) }
{
    for column in columns {
        if is_named(&column.name, name) {
            return true;
        }
    }
    false
}

fn has_row(rows: &[Row], name: &[u8]) -> bool
    ensures { result ≡ has_name name.now (row_names rows.now) }
{
    for row in rows {
        if is_named(&row.name, name) {
            return true;
        }
    }
    false
}

/// Whether a column is named TAIL_H or TAIL_U, or a row TAIL_R.
pub(crate) fn has_tail_names(program: &Program) -> bool
    ensures { result ≡ has_tail_names (content program.now) }
{
    has_column(&program.columns, H_NAME)
        || has_column(&program.columns, U_NAME)
        || has_row(&program.rows, R_NAME)
}
