// Whether a column is one of the node's stage.
ghost use Rattle.std.specs.Prelude.{◌≡◌};
ghost use Rattle.cut_defs.specs.Data.{BoundsRise, is_own};

use cut_defs::ColumnBounds;

/// Whether a column is one of the node's stage, by halving.
pub fn is_own(bounds: &[ColumnBounds], column: u64) -> bool
    requires { BoundsRise 0 bounds.now }
    ensures { result ≡ is_own bounds.now column }
{
    let mut low = 0;
    let mut high = bounds.len();
    'search: while low < high {
        let middle = low + (high - low) / 2;
        let found = bounds[middle].column as u64;
        if found < column {
            low = middle + 1;
        } else if found == column {
            return true;
        } else {
            high = middle;
        }
    }
    false
}

/// Whether a column is one of the node's stage: at once where the columns from the first one on have no gap, else by
/// halving.
pub fn is_own_near(bounds: &[ColumnBounds], column: u64) -> bool
    requires { BoundsRise 0 bounds.now }
    ensures { result ≡ is_own bounds.now column }
{
    if bounds.is_empty() {
        return is_own(bounds, column);
    }
    let first = bounds[0].column as u64;
    if column < first {
        return false;
    }
    let place = column - first;
    if place < bounds.len() as u64 {
        let found = bounds[place as usize].column as u64;
        if found == column {
            return true;
        }
    }
    is_own(bounds, column)
}
