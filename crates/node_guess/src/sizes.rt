//! How large a node's program is, which decides whether it is guessed first and how long a guess may take.

use cut_defs::ColumnBounds;
use cut_proof::ChildCuts;
use frac128::Frac;
use node_draft::{is_priced, is_taken};
use node_lp::Task;
use scen_defs::NodeRow;

/// In a tree of few nodes a program of at most so many rows is small: what it comes to can be followed by hand.
const SMALL: u64 = 24;

/// The least work of a guess, and the most.
const LEAST_WORK: u64 = 1000000;

const MOST_WORK: u64 = 4000000000;

/// So much work is done for each row or column and each entry.
const SHARE: u64 = 20;

/// How many rows an own row is in the standard form of the path: one where its ends are equal, else one for each.
fn row_count(low: Option<Frac>, high: Option<Frac>) -> u64 {
    match (low, high) {
        (Some(low), Some(high)) => { if low == high { 1 } else { 2 } }
        (None, None) => 0,
        _ => 1,
    }
}

/// Those of all own rows.
fn row_counts(rows: &[NodeRow]) -> u64 {
    let mut sum: u64 = 0;
    for row in rows {
        sum = sum.saturating_add(row_count(row.low, row.high));
    }
    sum
}

/// How many own columns have two bounds.
fn boxed_columns(bounds: &[ColumnBounds]) -> u64 {
    let mut sum: u64 = 0;
    for bound in bounds {
        if bound.lower.is_some() && bound.upper.is_some() {
            sum = sum.saturating_add(1);
        }
    }
    sum
}

/// How many cuts about a child the program takes, and their entries.
fn child_size(priced: bool, child: &ChildCuts) -> Size {
    let mut size = Size {
        rows: 0,
        entries: 0,
    };
    for cut in &child.cuts {
        let cut = cut.cut();
        if is_taken(priced, cut.kind()) {
            size.rows = size.rows.saturating_add(1);
            size.entries = size.entries.saturating_add(cut.form().len() as u64);
        }
    }
    size
}

/// How many rows, and how many entries they have.
#[derive(Clone, Copy)]
struct Size {
    rows: u64,
    entries: u64,
}

/// The cuts that the program takes.
fn cuts_size(task: &Task) -> Size {
    let priced = is_priced(task);
    let mut size = Size {
        rows: 0,
        entries: 0,
    };
    for child in &task.children {
        let more = child_size(priced, child);
        size.rows = size.rows.saturating_add(more.rows);
        size.entries = size.entries.saturating_add(more.entries);
    }
    size
}

/// How many entries the own rows have.
fn row_entries(rows: &[NodeRow]) -> u64 {
    let mut sum: u64 = 0;
    for row in rows {
        sum = sum.saturating_add(row.entries.len() as u64);
    }
    sum
}

/// Whether few nodes are known of, and the standard form of the path has few rows: those of the own rows, the cuts, and one for each own
/// column with two bounds.
pub(crate) fn is_small(task: &Task, are_few: bool) -> bool {
    if !are_few {
        return false;
    }
    let datum = &task.datum;
    let own = row_counts(datum.rows()).saturating_add(boxed_columns(datum.bounds()));
    own.saturating_add(cuts_size(task).rows) <= SMALL
}

/// About how many entries are looked at where the program is solved once: each row and each column looks at all.
pub fn effort(task: &Task) -> u64 {
    let datum = &task.datum;
    let cuts = cuts_size(task);
    let columns = (datum.bounds().len() as u64).saturating_add(datum.shares().len() as u64);
    let rows = (datum.rows().len() as u64).saturating_add(cuts.rows);
    let lines = rows.saturating_add(columns);
    let entries = row_entries(datum.rows()).saturating_add(cuts.entries);
    lines.saturating_mul(lines.saturating_add(entries))
}

/// The work that a guess may take, in entries that are looked at. The path looks at each entry in each pivot, has some pivots
/// for each row, and an exact operation takes some fifty times as long as one of floats: so a guess that gives up at the end
/// of its work has cost a part of what the path costs.
pub(crate) fn work(task: &Task) -> u64 {
    effort(task)
        .saturating_mul(SHARE)
        .max(LEAST_WORK)
        .min(MOST_WORK)
}
