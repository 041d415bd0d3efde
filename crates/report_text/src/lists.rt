//! The lists of a report.
ghost use Rattle.std.specs.Prelude.{◌≡◌, ◌<◌, ◌++◌, ℕ, List, IfSome, IfOk, OnOk, length, map, slice_index_or, option_map};
ghost use Rattle.std.specs.List.{flat_map};
ghost use Rattle.report_text.specs.Text.{value_text, list_text, lists_text};
ghost use Rattle.scen_defs.specs.Fits.{HaveNames, ListsHaveNames};
ghost use Rattle.scen_defs.specs.Names.{column_names, row_names};

use crate::pieces::{put, put_count};
use frac128::{Memory, print};
use scen_defs::{Program, Report, Value, Values};
use smps_words::Name;
use std::alloc::Global;

/// Appends the lists that are there.
pub(crate) fn put_lists(
    alloc: Global,
    out: &mut Vec<u8>,
    program: &Program,
    report: &Report,
) -> Result<(), Memory>
    requires { ListsHaveNames program.now report.now }
    ensures { OnOk result (out.new.items ≡ out.old.items ++ lists_text program.now report.now) }
{
    let columns = column_names(alloc, program)?;
    let rows = row_names(alloc, program)?;
    put_list(alloc, out, b"POLICY ", &columns, &report.policy)?;
    put_list(alloc, out, b"DIRECTION ", &columns, &report.direction)?;
    put_list(alloc, out, b"DUAL ", &rows, &report.dual)?;
    put_list(alloc, out, b"RAY ", &rows, &report.ray)
}

/// The names of the columns in their order.
fn column_names<'a>(alloc: Global, program: &'a Program) -> Result<Vec<&'a Name>, Memory>
    ensures { IfOk result (λ names. map (λ name. name.now) names.items ≡ column_names program.now.columns.items) }
{
    let mut names = Vec::new(alloc);
    for column in &program.columns {
        names.push(&column.name)?;
    }
    Ok(names)
}

/// The names of the rows in their order.
fn row_names<'a>(alloc: Global, program: &'a Program) -> Result<Vec<&'a Name>, Memory>
    ensures { IfOk result (λ names. map (λ name. name.now) names.items ≡ row_names program.now.rows.items) }
{
    let mut names = Vec::new(alloc);
    for row in &program.rows {
        names.push(&row.name)?;
    }
    Ok(names)
}

/// Appends a list with its word and its count, where it is there.
fn put_list(
    alloc: Global,
    out: &mut Vec<u8>,
    word: &[u8],
    names: &[&Name],
    values: &Option<Values>,
) -> Result<(), Memory>
    requires { IfSome values.now (HaveNames (length names.now)) }
    ensures { OnOk result (out.new.items ≡ out.old.items ++ list_text word.now (map (λ name. name.now) names.now) values.now) }
{
    let Some(values) = values else {
        return Ok(());
    };
    let items = values.items();
    put(out, word)?;
    put_count(alloc, out, items.len() as u64)?;
    put(out, b"\n")?;
    put_values(alloc, out, names, items)
}

/// Appends a line for each number.
fn put_values(
    alloc: Global,
    out: &mut Vec<u8>,
    names: &[&Name],
    values: &[Value],
) -> Result<(), Memory>
    requires { HaveNames (length names.now) values.now }
    ensures { OnOk result (out.new.items ≡ out.old.items ++ flat_map (value_text (map (λ name. name.now) names.now)) values.now) }
{
    for value in values {
        put_value(alloc, out, names, value)?;
    }
    Ok(())
}

/// Appends the line of a number: its node, the name of its column or row, and itself.
fn put_value(alloc: Global, out: &mut Vec<u8>, names: &[&Name], value: &Value) -> Result<(), Memory>
    requires { value.now.index < length names.now }
    ensures { OnOk result (out.new.items ≡ out.old.items ++ value_text (map (λ name. name.now) names.now) value.now) }
{
    put_count(alloc, out, u64::from(value.node))?;
    put(out, b" ")?;
    put(out, names[value.index as usize].as_bytes())?;
    put(out, b" ")?;
    print(alloc, value.value, out)?;
    put(out, b"\n")
}
