//! Values by the numbers of rows and columns.
ghost use Rattle.std.specs.Prelude.{◌≡◌, Some, None, slice_index_or, slice_set};
ghost use Rattle.core_defs.specs.Bounds.{first_bounds};

use core_defs::ColumnBounds;
use frac128::Frac;

/// The value of the row, where it has one.
pub(crate) fn stated(values: &Vec<Option<Frac>>, row: usize) -> Option<Frac>
    ensures { result ≡ slice_index_or values.now.items row None }
{
    match values.get(row) {
        Some(value) => *value,
        None => None,
    }
}

/// Gives the row a value.
pub(crate) fn state(values: &mut Vec<Option<Frac>>, row: usize, value: Frac)
    ensures { values.new.items ≡ slice_set values.old.items row (Some value) }
{
    if row < values.len() {
        values[row] = Some(value);
    }
}

/// At first a column is at least 0 and has no upper bound.
pub(crate) fn first_bounds() -> ColumnBounds
    ensures { result ≡ first_bounds }
{
    ColumnBounds {
        lower: Some(Frac::zero()),
        upper: None,
        stated: false,
    }
}

/// The bounds of the column with this number.
pub(crate) fn bounds_at(bounds: &Vec<ColumnBounds>, column: usize) -> ColumnBounds
    ensures { result ≡ slice_index_or bounds.now.items column first_bounds }
{
    match bounds.get(column) {
        Some(bounds) => *bounds,
        None => first_bounds(),
    }
}

/// Gives the column its bounds.
pub(crate) fn set_bounds(bounds: &mut Vec<ColumnBounds>, column: usize, new: ColumnBounds)
    ensures { bounds.new.items ≡ slice_set bounds.old.items column new }
{
    if column < bounds.len() {
        bounds[column] = new;
    }
}
