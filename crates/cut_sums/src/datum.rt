// What a cut of a node is made from.
ghost use Rattle.std.specs.Prelude.{◌≡◌, ◌↔◌, IsSome, IfSome};
ghost use Rattle.cut_defs.specs.Data.{IsDatum};
ghost use Rattle.cut_sums.specs.DatumView.{datum_with};

use crate::checks::is_datum;
use cut_defs::{ColumnBounds, Share};
use frac128::Form;
use scen_defs::NodeRow;
use std::marker::Model;

/// The data of a node: the part `Rows`, which is the rows, and the part `Costs`, which is the costs and the shares
/// of the children, each with its version; and the bounds of the columns of the node's stage.
#[derive(Drop)]
pub struct NodeDatum {
    node: u32,
    rows_version: u32,
    costs_version: u32,
    cost: Form,
    rows: Vec<NodeRow>,
    bounds: Vec<ColumnBounds>,
    shares: Vec<Share>,
}

impl Model for NodeDatum {
    ghost use Rattle.cut_defs.specs.Data.{Datum, IsDatum};

    ghost Value = { Datum };

    ghost use Rattle.cut_sums.specs.DatumView.{datum_content};

    ghost view = { datum_content };

    ghost invariant = { λ d. IsDatum (datum_content d) };
}

impl NodeDatum {
    /// The data of a node.
    pub fn new(
        node: u32,
        rows_version: u32,
        costs_version: u32,
        cost: Form,
        rows: Vec<NodeRow>,
        bounds: Vec<ColumnBounds>,
        shares: Vec<Share>,
    ) -> NodeDatum
        requires { IsDatum (datum_with node rows_version costs_version cost rows.items bounds.items shares.items) }
        ensures { result ≡ datum_with node rows_version costs_version cost rows.items bounds.items shares.items }
    {
        NodeDatum {
            node,
            rows_version,
            costs_version,
            cost,
            rows,
            bounds,
            shares,
        }
    }

    /// The data of a node, where rows, bounds and shares rise, each cost is of a column of the bounds, each share is
    /// above 0, and no low end is above the high one. Else `None`.
    pub fn try_new(
        node: u32,
        rows_version: u32,
        costs_version: u32,
        cost: Form,
        rows: Vec<NodeRow>,
        bounds: Vec<ColumnBounds>,
        shares: Vec<Share>,
    ) -> Option<NodeDatum>
        ensures exact { IsSome result ↔ IsDatum (datum_with node rows_version costs_version cost rows.items bounds.items shares.items) }
        ensures datum { IfSome result (λ d. d ≡ datum_with node rows_version costs_version cost rows.items bounds.items shares.items) }
    {
        cost.keeps_order();
        if is_datum(&cost, &rows, &bounds, &shares) {
            Some(NodeDatum {
                node,
                rows_version,
                costs_version,
                cost,
                rows,
                bounds,
                shares,
            })
        } else {
            None
        }
    }

    /// The node's number.
    pub fn node(&self) -> u32
        ensures { result ≡ self.now.node }
    {
        self.node
    }

    /// How many edits had touched the rows.
    pub fn rows_version(&self) -> u32
        ensures { result ≡ self.now.rows_version }
    {
        self.rows_version
    }

    /// How many edits had touched the costs and the shares.
    pub fn costs_version(&self) -> u32
        ensures { result ≡ self.now.costs_version }
    {
        self.costs_version
    }

    /// The costs by column of the node's stage.
    pub fn cost(&self) -> &Form
        ensures { result.now ≡ self.now.cost }
    {
        &self.cost
    }

    /// The rows, in rising order.
    pub fn rows(&self) -> &[NodeRow]
        ensures { result.now ≡ self.now.rows }
    {
        &self.rows
    }

    /// The columns of the node's stage, in rising order.
    pub fn bounds(&self) -> &[ColumnBounds]
        ensures bounds { result.now ≡ self.now.bounds }
        ensures datum { IsDatum self.now }
    {
        &self.bounds
    }

    /// The children, in rising order.
    pub fn shares(&self) -> &[Share]
        ensures { result.now ≡ self.now.shares }
    {
        &self.shares
    }
}
