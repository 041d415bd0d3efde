//! How much a program may have over all its nodes.
ghost use Rattle.std.specs.Prelude.{◌≡◌, ◌≤◌, ◌<◌, ◌+◌, length, sum_by, MatchOption};
ghost use Rattle.build_defs.specs.Built.{most_node_parts};
ghost use Rattle.tree_build.specs.Values.{values_content};
ghost use Rattle.tree_build.specs.Limits.{entry_count, IsSum, IsOverWith, counts_with, AreSmall};

use crate::parts::{RowValues, Values};

/// So many entries, rows and costs a program has at most over all nodes, each by itself.
const MOST_ENTRIES: usize = 10_000_000;

/// The entries, the rows and the costs of nodes.
#[derive(Clone, Copy)]
pub struct Counts {
    pub entries: usize,
    pub rows: usize,
    pub costs: usize,
}

/// A count and more, where that isn't too much.
pub(crate) fn added(count: usize, more: usize) -> Option<usize>
    requires { count ≤ most_node_parts }
    ensures { MatchOption result (most_node_parts < count + more) (IsSum (count + more)) }
{
    if more > MOST_ENTRIES - count {
        None
    } else {
        Some(count + more)
    }
}

/// A count and the entries of rows, where that isn't too much.
fn with_entries(count: usize, rows: &[RowValues]) -> Option<usize>
    requires { count ≤ most_node_parts }
    ensures { MatchOption result (most_node_parts < count + sum_by entry_count rows.now) (IsSum (count + sum_by entry_count rows.now)) }
{
    let mut sum = count;
    for row in rows {
        sum = added(sum, row.entries.len())?;
    }
    Some(sum)
}

/// The counts with those of one more node, where none of them is too much.
pub(crate) fn with_node(counts: Counts, values: &Values) -> Option<Counts>
    requires { AreSmall counts }
    ensures { MatchOption result (IsOverWith counts (values_content values.now))
        (λ sum. (sum ≡ counts_with counts (values_content values.now)) × AreSmall sum) }
{
    let entries = with_entries(counts.entries, &values.rows)?;
    let rows = added(counts.rows, values.rows.len())?;
    let costs = added(counts.costs, values.cost.len())?;
    Some(Counts {
        entries,
        rows,
        costs,
    })
}
