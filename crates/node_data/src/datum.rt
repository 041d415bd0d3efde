//! The data of a node in a run.
ghost use Rattle.std.specs.Prelude.{◌≡◌, ◌↔◌, map, IfOk, IsSome, IfSome};
ghost use Rattle.scen_defs.specs.Program.{content};
ghost use Rattle.scen_defs.specs.Valid.{Lives};
ghost use Rattle.cut_defs.specs.Data.{Book, IsDatum, datum_of as book_datum};
ghost use Rattle.node_data.specs.Frames.{frame_of};
ghost use Rattle.node_data.specs.NodeData.{derived_bounds, share_in, node_datum};
ghost use Rattle.node_data.specs.Laws.{IsIn, DataAreTheBooks};

use crate::frame::Frame;
use crate::versions::Version;
use cut_proof::{ColumnBounds, NodeDatum, Share};
use frac128::{Frac, Memory};
use scen_defs::{Kind, Program};
use scen_nodes::{derived_bound, derived_cost, derived_rows, find};
use scen_tree::Tree;
use std::alloc::Global;

/// The own columns in a run.
fn bounds(alloc: Global, kind: Kind, columns: &[ColumnBounds]) -> Result<Vec<ColumnBounds>, Memory>
    ensures { IfOk result (λ all. all.items ≡ map (derived_bounds kind) columns.now) }
{
    let mut all = Vec::new(alloc);
    for column in columns {
        all.push(ColumnBounds {
            column: column.column,
            lower: derived_bound(kind, Frac::one().neg(), column.lower),
            upper: derived_bound(kind, Frac::one(), column.upper),
        })?;
    }
    Ok(all)
}

/// The shares of the children.
fn shares(alloc: Global, tree: &Tree, children: &[u32]) -> Result<Vec<Share>, Memory>
    ensures { IfOk result (λ all. all.items ≡ map (share_in tree.now) children.now) }
{
    let mut all = Vec::new(alloc);
    for child in children {
        all.push(Share {
            child: *child,
            share: tree.share(*child),
        })?;
    }
    Ok(all)
}

/// The data of a node of this version in a run of this kind: without costs in a Feasible run; in a Recession run with 0 in place of each
/// finite end and bound, -1 of each absent lower and 1 of each absent upper bound. None where there is no such node, and where its data
/// aren't those of a node.
pub fn datum_of(
    alloc: Global,
    program: &Program,
    frame: &Frame,
    tree: &Tree,
    version: Version,
    kind: Kind,
    node: u32,
) -> Result<Option<NodeDatum>, Memory>
    ensures found { let d = node_datum kind (content program.now) frame.now tree.now node version.rows version.costs in
        IfOk result (λ found. IsSome found ↔ (Lives (content program.now) node × IsDatum d)) }
    ensures datum { let d = node_datum kind (content program.now) frame.now tree.now node version.rows version.costs in
        IfOk result (λ found. IfSome found (λ datum. datum ≡ d)) }
    ensures of_book { let p = content program.now in (book : Book) → IsIn kind p tree.now node version.rows version.costs book
        → frame.now ≡ frame_of p → IfOk result (λ found. found ≡ Some (book_datum book node version.rows version.costs)) }
{
    let stated = match find(&program.nodes, node as u64) {
        Some(stated) => stated,
        None => return Ok(None),
    };
    stated.cost.keeps_order();
    let cost = derived_cost(alloc, kind, &stated.cost)?;
    let rows = derived_rows(alloc, kind, &stated.rows)?;
    let bounds = bounds(alloc, kind, frame.columns(node))?;
    let shares = shares(alloc, tree, frame.children(node))?;
    Ok(NodeDatum::try_new(
        node,
        version.rows,
        version.costs,
        cost,
        rows,
        bounds,
        shares,
    ))
}

/// By a program's frame and tree each live node has the datum of every book that is right of it.
pub fn data_are_the_books()
    ensures { DataAreTheBooks }
{}
