//! The choice of a pivot: a column with one entry, a row with one entry, or an entry with the least product of the
//! other entries in its row and in its column, of those that a few lists show.

use crate::active::Active;
use crate::entries::NONE;
use crate::numbers::Number;

/// So many rows and columns are looked through.
const LOOKS: u32 = 4;

/// A pivot is at least this part of the largest number of its row.
const THRESHOLD: f64 = 0.1;

/// Where a pivot stands.
#[derive(Clone, Copy)]
pub struct Pick {
    pub row: u32,
    pub column: u32,
}

/// The best entry so far, and how many rows and columns were looked through.
#[derive(Drop)]
struct Search {
    merit: usize,
    pick: Option<Pick>,
    looks: u32,
}

impl Search {
    fn offer(&mut self, merit: usize, row: u32, column: u32) {
        self.merit = merit;
        self.pick = Some(Pick { row, column });
    }

    fn is_enough(&self) -> bool {
        self.looks >= LOOKS && self.pick.is_some()
    }
}

/// The next pivot; none where nothing is left that is large enough.
pub fn choose<T: Number>(active: &mut Active<T>) -> Option<Pick> {
    if let Some(pick) = single_column(active) {
        return Some(pick);
    }
    if let Some(pick) = single_row(active) {
        return Some(pick);
    }
    least(active)
}

/// A column with one entry. Columns whose entry is too small are given up.
fn single_column<T: Number>(active: &mut Active<T>) -> Option<Pick> {
    for _turn in 0..active.by_column.items() {
        let column = active.by_column.first(1);
        if column == NONE {
            return None;
        }
        let row = open_row(active, column);
        if !active.value(row, column).is_weak() {
            return Some(Pick { row, column });
        }
        active.by_column.remove(column);
    }
    None
}

/// The first row of a column that isn't done.
fn open_row<T: Number>(active: &Active<T>, column: u32) -> u32 {
    for row in active.column(column) {
        if !active.is_done(*row) {
            return *row;
        }
    }
    NONE
}

/// A row with one entry. Rows whose entry is too small are given up.
fn single_row<T: Number>(active: &mut Active<T>) -> Option<Pick> {
    for _turn in 0..active.by_row.items() {
        let row = active.by_row.first(1);
        if row == NONE {
            return None;
        }
        if let Some(entry) = active.row(row).first() {
            if !entry.value.is_weak() {
                let column = entry.at;
                return Some(Pick { row, column });
            }
        }
        active.by_row.remove(row);
    }
    None
}

/// The least product of counts, looked for in lists with few entries first.
fn least<T: Number>(active: &Active<T>) -> Option<Pick> {
    let mut search = Search {
        merit: usize::MAX,
        pick: None,
        looks: 0,
    };
    for others in 1..active.by_row.counts().max(active.by_column.counts()) {
        if search.is_enough() || search.merit <= others.saturating_mul(others) {
            break;
        }
        look_at_columns(active, others, &mut search);
        look_at_rows(active, others, &mut search);
    }
    search.pick
}

/// The columns with so many other entries.
fn look_at_columns<T: Number>(active: &Active<T>, others: usize, search: &mut Search) {
    let mut column = active.by_column.first(others.saturating_add(1));
    for _turn in 0..LOOKS {
        if column == NONE || search.looks >= LOOKS {
            return;
        }
        look_at_column(active, column, others, search);
        search.looks = search.looks.saturating_add(1);
        column = active.by_column.next(column);
    }
}

fn look_at_column<T: Number>(active: &Active<T>, column: u32, others: usize, search: &mut Search) {
    for row in active.column(column) {
        let row = *row;
        if !active.is_done(row) {
            let beside = active.row(row).len().saturating_sub(1);
            let merit = beside.saturating_mul(others);
            if merit < search.merit && is_allowed(active, row, column) {
                search.offer(merit, row, column);
            }
        }
    }
}

fn is_allowed<T: Number>(active: &Active<T>, row: u32, column: u32) -> bool {
    let value = active.value(row, column);
    !value.is_weak() && value.size() >= THRESHOLD * active.largest(row)
}

/// The rows with so many other entries.
fn look_at_rows<T: Number>(active: &Active<T>, others: usize, search: &mut Search) {
    let mut row = active.by_row.first(others.saturating_add(1));
    for _turn in 0..active.by_row.items() {
        if row == NONE || search.is_enough() {
            return;
        }
        look_at_row(active, row, others, search);
        search.looks = search.looks.saturating_add(1);
        row = active.by_row.next(row);
    }
}

fn look_at_row<T: Number>(active: &Active<T>, row: u32, others: usize, search: &mut Search) {
    let least = THRESHOLD * active.largest(row);
    for entry in active.row(row) {
        let beside = active.left(entry.at).saturating_sub(1);
        let merit = beside.saturating_mul(others);
        if merit < search.merit && !entry.value.is_weak() && entry.value.size() >= least {
            search.offer(merit, row, entry.at);
        }
    }
}
