// Copies of what programs have.
ghost use Rattle.std.specs.Prelude.{◌≡◌, IfOk};

use frac128::Memory;
use scen_defs::{Column, NodeRow, Row};
use smps_words::Name;
use std::alloc::Global;

/// A copy of a name.
pub fn copied_name(alloc: Global, name: &Name) -> Result<Name, Memory>
    ensures { IfOk result (λ copy. copy ≡ name.now) }
{
    let copy = Name::new(alloc, name.as_bytes())?;
    Ok(copy)
}

/// Copies of names.
pub fn copied_names(alloc: Global, names: &[Name]) -> Result<Vec<Name>, Memory>
    ensures { IfOk result (λ all. all.items ≡ names.now) }
{
    let mut all = Vec::new(alloc);
    for name in names {
        all.push(copied_name(alloc, name)?)?;
    }
    Ok(all)
}

/// Copies of columns.
pub fn copied_columns(alloc: Global, columns: &[Column]) -> Result<Vec<Column>, Memory>
    ensures { IfOk result (λ all. all.items ≡ columns.now) }
{
    let mut all = Vec::new(alloc);
    for column in columns {
        let name = copied_name(alloc, &column.name)?;
        all.push(Column {
            name,
            stage: column.stage,
            lower: column.lower,
            upper: column.upper,
        })?;
    }
    Ok(all)
}

/// Copies of rows.
pub fn copied_rows(alloc: Global, rows: &[Row]) -> Result<Vec<Row>, Memory>
    ensures { IfOk result (λ all. all.items ≡ rows.now) }
{
    let mut all = Vec::new(alloc);
    for row in rows {
        let name = copied_name(alloc, &row.name)?;
        all.push(Row {
            name,
            stage: row.stage,
            kind: row.kind,
            range: row.range,
        })?;
    }
    Ok(all)
}

/// Copies of the rows of a node.
pub fn copied_node_rows(alloc: Global, rows: &[NodeRow]) -> Result<Vec<NodeRow>, Memory>
    ensures { IfOk result (λ all. all.items ≡ rows.now) }
{
    let mut all = Vec::new(alloc);
    for row in rows {
        let entries = row.entries.copy(alloc)?;
        all.push(NodeRow {
            row: row.row,
            entries,
            low: row.low,
            high: row.high,
        })?;
    }
    Ok(all)
}
