// Rows as forms over the columns.
ghost use Rattle.std.specs.Prelude.{◌≡◌, ◌++◌, [], suc, IfOk, OnOk, map};
ghost use Rattle.rationals.specs.Sparse.{Ascending};
ghost use Rattle.rationals.specs.Forms.{EndsBelow, put};
ghost use Rattle.scen_defs.specs.Lists.{Each};
ghost use Rattle.smps_build.specs.Gathered.{with_column, forms_from};

use core_defs::{ColumnDef, RowDef};
use frac128::{Form, Frac, Memory, Term};
use std::alloc::{AllocError, Global};

/// Adds a value in a column above all others, unless it is 0.
pub fn put(form: &mut Form, column: u64, value: Frac) -> Result<(), Memory>
    requires { EndsBelow column form.old }
    ensures ok { OnOk result (form.new ≡ form.old ++ put column value []) }
    ensures below { OnOk result (EndsBelow (suc column) form.new) }
{
    if !value.is_zero() {
        form.push(column, value)?;
    }
    Ok(())
}

/// A form without entries for each row.
fn empty_forms(alloc: Global, rows: &[RowDef]) -> Result<Vec<Form>, AllocError>
    ensures { IfOk result (λ forms. forms.items ≡ map (λ row. []) rows.now) }
{
    let mut forms = Vec::new(alloc);
    for _row in rows {
        forms.push(Form::empty(alloc))?;
    }
    Ok(forms)
}

/// Adds the entries of a column above all others to the forms of their rows.
fn add_column(forms: &mut Vec<Form>, column: u64, entries: &[Term]) -> Result<(), Memory>
    requires rises { Ascending 0 entries.now }
    requires below { Each (EndsBelow column) forms.old.items }
    ensures { OnOk result (forms.new.items ≡ with_column column entries.now 0 forms.old.items) }
{
    for term in entries {
        let row = term.column as usize;
        if row < forms.len() {
            put(&mut forms[row], column, term.value)?;
        }
    }
    Ok(())
}

/// The entries of each row by column. Each entry of a column is looked at once.
pub fn row_forms(alloc: Global, columns: &[ColumnDef], rows: &[RowDef]) -> Result<Vec<Form>, Memory>
    ensures { IfOk result (λ forms. forms.items ≡ forms_from columns.now 0 rows.now) }
{
    let mut forms = empty_forms(alloc, rows)?;
    for (place, column) in columns.iter().enumerate() {
        // what is taken out of a form is known to rise
        let entries = column.entries.copy(alloc)?.into_terms();
        add_column(&mut forms, place as u64, &entries)?;
    }
    Ok(forms)
}
