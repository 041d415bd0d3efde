//! Where nodes stand in the drawing of a tree.
use frac128::Memory;
use report_table::Table;
use std::alloc::Global;

/// The height that a node has in the drawing: its first line, and how many it has. A line stands for a scenario.
#[derive(Clone, Copy, Debug)]
pub(crate) struct Band {
    pub(crate) first: u64,
    pub(crate) lines: u64,
}

/// The first line that is free below a node, which moves on.
fn take_line(free: &mut [u64], node: usize, lines: u64) -> u64 {
    if node >= free.len() {
        return 0;
    }
    let first = free[node];
    free[node] = first.saturating_add(lines);
    first
}

/// Sets the number at a place.
fn set(numbers: &mut [u64], place: usize, number: u64) {
    if place < numbers.len() {
        numbers[place] = number;
    }
}

/// Places the nodes of a stage one after the other, each within the band of its parent.
fn place_stage(table: &Table<'_>, stage: u32, free: &mut [u64], bands: &mut [Band]) {
    let mut number: u32 = 0;
    for (place, slot) in table.program.nodes.iter().enumerate() {
        if let Some(node) = slot {
            if node.stage == stage && place < bands.len() {
                let lines = u64::from(table.values.scenarios(number));
                let first = match node.parent {
                    Some(parent) => take_line(free, parent as usize, lines),
                    None => 0,
                };
                bands[place] = Band { first, lines };
                set(free, place, first);
            }
        }
        number = number.saturating_add(1);
    }
}

/// The bands of all nodes: each within that of its parent, none over another.
pub(crate) fn bands(alloc: Global, table: &Table<'_>) -> Result<Vec<Band>, Memory> {
    let count = table.program.nodes.len();
    let mut free = vec![in alloc; 0u64; count]?;
    let mut bands = vec![in alloc; Band { first: 0, lines: 0 }; count]?;
    let mut stage: u32 = 0;
    for _period in &table.program.periods {
        place_stage(table, stage, free.as_mut_slice(), bands.as_mut_slice());
        stage = stage.saturating_add(1);
    }
    Ok(bands)
}
