//! How many edits touched the data of each node.
ghost use Rattle.std.specs.Prelude.{◌≡◌, ◌++◌, OnOk, IfOk, replicate, slice_set};
ghost use Rattle.node_data.specs.Counts.{untouched, raised, version_of, grown, with_rows, with_costs};

use frac128::Memory;
use std::alloc::Global;
use std::marker::Model;

/// How many edits touched the two parts of a node's data.
#[derive(Clone, Copy, Debug, PartialEq, Eq)]
pub struct Version {
    /// Edits of its rows.
    pub rows: u32,
    /// Edits of its costs and of the shares of its children.
    pub costs: u32,
}

/// What no edit has touched.
const UNTOUCHED: Version = Version { rows: 0, costs: 0 };

/// How many edits touched the data of each node, by its number.
#[derive(Drop)]
pub struct Versions {
    nodes: Vec<Version>,
}

impl Model for Versions {
    ghost use Rattle.std.specs.Prelude.{List};
    ghost use Rattle.node_data.specs.declared.versions.Version.{Version as VersionOf};

    ghost Value = { List VersionOf };

    ghost view = { λ v. v.nodes.items };
}

/// So many further nodes that no edit has touched.
fn add_untouched(nodes: &mut Vec<Version>, count: usize) -> Result<(), Memory>
    ensures { OnOk result (nodes.new.items ≡ nodes.old.items ++ replicate count untouched) }
{
    for _node in 0..count {
        nodes.push(UNTOUCHED)?;
    }
    Ok(())
}

impl Versions {
    /// No edit has touched any of so many nodes.
    pub fn untouched(alloc: Global, nodes: u32) -> Result<Versions, Memory>
        ensures { IfOk result (λ versions. versions ≡ replicate nodes untouched) }
    {
        let mut versions = Versions {
            nodes: Vec::new(alloc),
        };
        versions.grow(nodes)?;
        Ok(versions)
    }

    /// There are so many nodes from now on, where there were fewer; no edit has touched the new ones.
    pub fn grow(&mut self, nodes: u32) -> Result<(), Memory>
        ensures { OnOk result (self.new ≡ grown nodes self.old) }
    {
        let more = (nodes as usize).saturating_sub(self.nodes.len());
        add_untouched(&mut self.nodes, more)
    }

    /// The version of a node.
    pub fn of(&self, node: u32) -> Version
        ensures { result ≡ version_of self.now node }
    {
        let place = node as usize;
        if place < self.nodes.len() {
            self.nodes[place]
        } else {
            UNTOUCHED
        }
    }

    /// An edit touches the rows of a node: their version rises and is answered.
    pub fn touch_rows(&mut self, node: u32) -> u32
        ensures raised { result ≡ raised (version_of self.old node).rows }
        ensures rows { self.new ≡ with_rows node self.old }
    {
        let version = self.of(node);
        let rows = version.rows.saturating_add(1);
        self.put(node, Version { rows, ..version });
        rows
    }

    /// An edit touches the costs of a node: their version rises and is answered.
    pub fn touch_costs(&mut self, node: u32) -> u32
        ensures raised { result ≡ raised (version_of self.old node).costs }
        ensures costs { self.new ≡ with_costs node self.old }
    {
        let version = self.of(node);
        let costs = version.costs.saturating_add(1);
        self.put(node, Version { costs, ..version });
        costs
    }

    /// The version of a node is now this one.
    fn put(&mut self, node: u32, version: Version)
        ensures { self.new ≡ slice_set self.old node version }
    {
        let place = node as usize;
        if place < self.nodes.len() {
            self.nodes[place] = version;
        }
    }
}
