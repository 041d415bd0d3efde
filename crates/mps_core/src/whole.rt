//! The core of what is filed.
ghost use Rattle.std.specs.Prelude.{◌≡◌, ◌<◌, ◌≤◌, [], ◌∷◌, Some, None, IfOk, OnOk, length, vec_len, slice_index_or, drop};
ghost use Rattle.std.specs.Option.{unwrap_or};
ghost use Rattle.rationals.specs.Rational.{zero_ℚ};
ghost use Rattle.core_defs.specs.Filed.{Filed, nothing_filed, closed};
ghost use Rattle.core_defs.specs.Finished.{row_def, row_defs, column_def, column_defs, IsCoreOf};
ghost use Rattle.core_defs.specs.Stated.{name_of_set};
ghost use Rattle.mps_core.specs.View.{filed};
ghost use Rattle.mps_core.specs.Whole.{IsWhole};

use crate::draft::Draft;
use crate::values::{bounds_at, stated};
use core_defs::{ColumnBounds, ColumnDef, ColumnPart, Core, RowDef};
use frac128::Frac;
use smps_words::{Name, Names, RowKind};
use std::alloc::{AllocError, Global};
use std::mem;

/// The constraint with this number.
fn row_def(alloc: Global, draft: &Draft, row: usize) -> Result<RowDef, AllocError>
    requires { row < length draft.now.rows }
    ensures { IfOk result (λ def. def ≡ row_def (filed draft.now) row (slice_index_or draft.now.rows row [])) }
{
    let name = Name::new(alloc, draft.rows.name(row))?;
    Ok(RowDef {
        name,
        kind: kind_at(&draft.kinds, row),
        rhs: stated(&draft.rhs, row).unwrap_or(Frac::zero()),
        range: stated(&draft.ranges, row),
    })
}

/// The kind of the constraint with this number.
fn kind_at(kinds: &Vec<RowKind>, row: usize) -> RowKind
    ensures { result ≡ slice_index_or kinds.now.items row RowKind.Less }
{
    match kinds.get(row) {
        Some(kind) => *kind,
        None => RowKind::Less,
    }
}

/// The constraints.
fn row_defs(alloc: Global, draft: &Draft) -> Result<Vec<RowDef>, AllocError>
    ensures { IfOk result (λ rows. rows.items ≡ row_defs (filed draft.now) 0 draft.now.rows) }
{
    let mut rows = Vec::new(alloc);
    for row in 0..draft.rows.len() {
        rows.push(row_def(alloc, draft, row)?)?;
    }
    Ok(rows)
}

/// The columns with these names, bounds and parts.
fn column_defs(
    alloc: Global,
    names: &Names,
    bounds: &Vec<ColumnBounds>,
    parts: Vec<ColumnPart>,
) -> Result<Vec<ColumnDef>, AllocError>
    requires { vec_len parts ≤ length names.now }
    ensures { IfOk result (λ columns. columns.items ≡ column_defs
        (record nothing_filed { names = names.now; bounds = bounds.now.items }) 0 parts.items) }
{
    let mut columns = Vec::new(alloc);
    for part in parts {
        let column = columns.len();
        let name = Name::new(alloc, names.name(column))?;
        let limits = bounds_at(bounds, column);
        columns.push(ColumnDef {
            name,
            cost: part.cost,
            entries: part.entries,
            lower: limits.lower,
            upper: limits.upper,
        })?;
    }
    Ok(columns)
}

/// The N rows after the first.
fn skipped_rows(alloc: Global, free: &Names) -> Result<Vec<Name>, AllocError>
    ensures { IfOk result (λ skipped. skipped.items ≡ drop 1 free.now) }
{
    let mut skipped = Vec::new(alloc);
    for row in 1..free.len() {
        skipped.push(Name::new(alloc, free.name(row))?)?;
    }
    Ok(skipped)
}

/// The name of the set of right-hand sides; where it has none it is RHS.
fn name_of_set(alloc: Global, set: Option<Option<Name>>) -> Result<Name, AllocError>
    ensures { IfOk result (λ name. name ≡ name_of_set set) }
{
    match set {
        Some(Some(name)) => Ok(name),
        _ => Name::new(alloc, b"RHS"),
    }
}

/// The last column is closed, and the columns are those of all parts; afterwards the draft holds the parts no more.
fn columns_of(alloc: Global, draft: &mut Draft) -> Result<Vec<ColumnDef>, AllocError>
    requires { IsWhole (filed draft.old) }
    ensures columns { IfOk result (λ columns. columns.items ≡ column_defs (filed draft.old) 0 (closed (filed draft.old)).parts) }
    ensures rest { OnOk result (filed draft.new ≡ record (filed draft.old)
        { parts = draft.new.parts.items; costs = draft.new.costs; terms = draft.new.terms; free_rhs = draft.new.free_rhs.items }) }
    ensures names { OnOk result (draft.new.names ≡ draft.old.names) }
{
    draft.close_column()?;
    let parts = mem::replace(&mut draft.parts, Vec::new(alloc));
    // Of N rows nothing is kept, and there may be many.
    draft.free_rhs = Vec::new(alloc);
    let columns = column_defs(alloc, &draft.names, &draft.bounds, parts)?;
    Ok(columns)
}

/// The core of the lines that are filed; afterwards the draft holds them no more.
#[tactic(auto, using(crate::proofs::WholeLemmas::core_lemmas))]
pub(crate) fn core_of(alloc: Global, draft: &mut Draft) -> Result<Core, AllocError>
    requires { IsWhole (filed draft.old) }
    ensures { IfOk result (IsCoreOf (filed draft.old)) }
{
    let columns = columns_of(alloc, draft)?;
    let rows = row_defs(alloc, draft)?;
    let skipped = skipped_rows(alloc, &draft.free)?;
    let objective = Name::new(alloc, draft.free.name(0))?;
    let rhs_set = name_of_set(alloc, mem::replace(&mut draft.rhs_set, None))?;
    let row_names = mem::replace(&mut draft.rows, Names::empty(alloc));
    let column_names = mem::replace(&mut draft.names, Names::empty(alloc));
    Ok(Core::of_parts(
        objective,
        skipped,
        rhs_set,
        (row_names, rows),
        (column_names, columns),
    ))
}
