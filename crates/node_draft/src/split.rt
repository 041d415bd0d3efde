//! A row or a cut in two: its entries over the own columns, and what its other columns come to at the trial.

use basis_factors::Entry;
use cut_defs::ColumnBounds;
use frac128::{ArithmeticFault, Form, Frac, Term};
use std::alloc::Global;

/// The place of a column among those that rise, by halving.
fn halving(bounds: &[ColumnBounds], column: u64) -> usize {
    let mut low = 0;
    let mut high = bounds.len();
    for _turn in 0..64 {
        if low >= high {
            break;
        }
        let middle = low + (high - low) / 2;
        if middle >= bounds.len() {
            break;
        }
        if (bounds[middle].column as u64) < column {
            low = middle + 1;
        } else {
            high = middle;
        }
    }
    low
}

/// Whether a column stands at this place.
fn stands_at(bounds: &[ColumnBounds], place: usize, column: u64) -> bool {
    place < bounds.len() && bounds[place].column as u64 == column
}

/// The place of an own column: at once where the columns have no gap, else by halving.
pub fn place_of(bounds: &[ColumnBounds], column: u64) -> Option<u32> {
    if bounds.is_empty() || column < bounds[0].column as u64 {
        return None;
    }
    let near = (column - bounds[0].column as u64) as usize;
    if stands_at(bounds, near, column) {
        return u32::try_from(near).ok();
    }
    let place = halving(bounds, column);
    if stands_at(bounds, place, column) {
        u32::try_from(place).ok()
    } else {
        None
    }
}

/// A row or a cut in two.
#[derive(Drop)]
pub(crate) struct Split {
    /// By the place of the own column.
    pub(crate) entries: Vec<Entry<Frac>>,
    /// What the other columns come to.
    pub(crate) outer: Frac,
}

/// Splits a form.
pub(crate) fn split_form(
    alloc: Global,
    bounds: &[ColumnBounds],
    trial: &Form,
    terms: &[Term],
) -> Result<Split, ArithmeticFault> {
    let mut entries = Vec::with_capacity(alloc, terms.len())?;
    let mut outer = Frac::zero();
    for term in terms {
        match place_of(bounds, term.column) {
            Some(at) => entries.push(Entry {
                at,
                value: term.value,
            })?,
            None => {
                outer = outer.add_product(term.value, trial.get(term.column))?;
            }
        }
    }
    Ok(Split { entries, outer })
}
