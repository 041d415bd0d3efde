// Where a node stands in the tree.
ghost use Rattle.std.specs.Prelude.{◌≡◌, ◌-◌, MatchOption, is_some};
ghost use Rattle.scen_defs.specs.Program.{content, is_live, nodes_content, node_content, node_at, no_node, or_root, column_at, view_of};
ghost use Rattle.scen_defs.specs.Lists.{passes_at};
ghost use Rattle.scen_defs.specs.Flat.{up, home, is_above};

use scen_defs::{Column, Node, Program};

/// The node of that number, where it is live.
pub fn find(nodes: &[Option<Node>], node: u64) -> Option<&Node>
    ensures live { is_some result ≡ passes_at is_live node (nodes_content nodes.now) }
    ensures node { MatchOption result
        (node_at (nodes_content nodes.now) node ≡ no_node) (λ found. node_at (nodes_content nodes.now) node ≡ node_content found.now) }
{
    let place = node as usize;
    if place >= nodes.len() {
        return None;
    }
    match &nodes[place] {
        Some(found) => Some(found),
        None => None,
    }
}

/// The stage of a node, 0 where it is not live.
pub fn stage(program: &Program, node: u64) -> u32
    ensures { result ≡ (view_of (content program.now)).stage node }
{
    match find(&program.nodes, node) {
        Some(found) => found.stage,
        None => 0,
    }
}

/// The parent's number, 0 where there is none.
pub fn parent(program: &Program, node: u64) -> u64
    ensures { result ≡ (view_of (content program.now)).parent node }
{
    match find(&program.nodes, node) {
        Some(found) => or_root(found.parent),
        None => 0,
    }
}

/// The node, or the root where there is none.
fn or_root(node: Option<u32>) -> u64
    ensures { result ≡ or_root node }
{
    match node {
        Some(number) => number as u64,
        None => 0,
    }
}

/// The node so many stages up.
fn up(program: &Program, stages: u32, node: u64) -> u64
    ensures { result ≡ up (view_of (content program.now)) stages node }
{
    let mut at = node;
    for _stage in 0..stages {
        at = parent(program, at);
    }
    at
}

/// Whether the first node is the second, or stands above it.
pub fn is_above(program: &Program, upper: u64, lower: u64) -> bool
    ensures { result ≡ is_above (view_of (content program.now)) upper lower }
{
    let high = stage(program, upper);
    let low = stage(program, lower);
    high <= low && up(program, low - high, lower) == upper
}

/// The stage of a column, 0 where there is none.
fn column_stage(columns: &[Column], column: u64) -> u32
    ensures { result ≡ (column_at columns.now column).stage }
{
    let place = column as usize;
    if place < columns.len() {
        columns[place].stage
    } else {
        0
    }
}

/// The node of a node's path that decides a column.
pub fn home(program: &Program, node: u64, column: u64) -> u64
    ensures { result ≡ home (view_of (content program.now)) node column }
{
    let low = stage(program, node);
    let high = column_stage(&program.columns, column);
    up(program, low.saturating_sub(high), node)
}
