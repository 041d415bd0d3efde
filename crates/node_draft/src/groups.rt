//! Children in groups: the costs of all children of a group are one column, so that a node with many children has few.

use frac128::{Frac, Memory};
use node_lp::Task;
use std::alloc::Global;

/// So many children stand alone.
const FEW: usize = 24;

/// So many groups there are of more.
const GROUPS: usize = 20;

/// Some children, one behind the other.
#[derive(Clone, Copy)]
pub struct Group {
    /// The place of the first child.
    pub first: usize,
    /// How many children it has.
    pub count: usize,
    /// What its column counts.
    pub price: Frac,
    /// Whether its column is the sum of the children's costs, and not the sum by their shares.
    pub is_plain: bool,
    /// Whether it has a row.
    pub has_row: bool,
}

/// How many children a group has.
pub fn size_of(children: usize) -> usize {
    if children <= FEW {
        1
    } else {
        children.div_ceil(GROUPS)
    }
}

/// The share of the child at a place.
pub(crate) fn share_at(task: &Task, place: usize) -> Frac {
    let shares = task.datum.shares();
    if place < shares.len() {
        shares[place].share
    } else {
        Frac::zero()
    }
}

/// A group that begins at a child.
fn group_from(task: &Task, first: usize, count: usize) -> Group {
    let share = share_at(task, first);
    let mut is_plain = true;
    for other in task.datum.shares().iter().skip(first).take(count) {
        if other.share != share {
            is_plain = false;
        }
    }
    Group {
        first,
        count,
        price: if is_plain { share } else { Frac::one() },
        is_plain,
        has_row: false,
    }
}

/// The children in groups of a size.
pub(crate) fn groups_of(alloc: Global, task: &Task, size: usize) -> Result<Vec<Group>, Memory> {
    let mut all = Vec::new(alloc);
    let children = task.datum.shares().len();
    let mut first: usize = 0;
    for _group in 0..children {
        if first >= children {
            break;
        }
        let count = size.max(1).min(children - first);
        all.push(group_from(task, first, count))?;
        first += count;
    }
    Ok(all)
}

/// By what the cut about the child at a place counts in its group's row.
pub fn group_factor(task: &Task, group: &Group, place: usize) -> Frac {
    if group.is_plain {
        Frac::one()
    } else {
        share_at(task, place)
    }
}

/// The number of the group that begins at a child and has so many; all groups but the last one have as many children.
pub fn group_at(groups: &[Group], first: usize, count: usize) -> Option<usize> {
    if groups.is_empty() {
        return None;
    }
    let number = first / groups[0].count.max(1);
    if number < groups.len() && groups[number].first == first && groups[number].count == count {
        Some(number)
    } else {
        None
    }
}
