//! What is kept of each node between its solves: how the columns and rows of its program stood at the end of the last one.

use basis_guess::Standing;
use frac128::Memory;
use node_draft::{HeldCuts, Hint};
use node_lp::Task;
use scen_defs::Kind;
use std::alloc::Global;
use std::marker::Model;

/// From so many nodes on there are many.
const MANY: u32 = 200;

/// The hints of all nodes in runs of one kind, by number.
#[derive(Drop)]
struct KindHints {
    nodes: Vec<Option<Hint>>,
    /// The node whose hint came last.
    last: usize,
}

/// The hints of all nodes, for runs of each kind their own: with other costs another basis is best, and to begin with none is better than
/// with that of another kind. Contracts take all for the same.
#[derive(Drop)]
pub struct Hints {
    /// The greatest number of a node that a hint was lent for.
    most: u32,
    feasible: KindHints,
    recession: KindHints,
    cost: KindHints,
}

impl Model for Hints {
    ghost Value = { Unit {0} };

    ghost view = { λ _. tt };
}

/// The hint of a solve that is under way, where there is one: the hints of all nodes lend it, and get back what the solve leaves. Contracts
/// take all for the same.
#[derive(Drop)]
pub struct LentHint {
    pub(crate) hint: Option<Hint>,
    /// Whether hints were lent for few nodes only.
    pub(crate) are_few: bool,
}

impl Model for LentHint {
    ghost Value = { Unit {0} };

    ghost view = { λ _. tt };
}

impl LentHint {
    /// Nothing is lent.
    pub fn none() -> LentHint {
        LentHint {
            hint: None,
            are_few: true,
        }
    }
}

/// How many own columns and own rows a node has.
#[derive(Clone, Copy)]
struct Counts {
    columns: usize,
    rows: usize,
}

/// The same standings of columns and rows in memory of their own, where there are as many; those of cuts are left out.
fn copied(alloc: Global, hint: &Hint, counts: Counts) -> Result<Option<Hint>, Memory> {
    if hint.columns.len() != counts.columns || hint.rows.len() != counts.rows {
        return Ok(None);
    }
    let columns = Vec::from_slice(alloc, &hint.columns)?;
    let costs = Vec::from_slice(alloc, &hint.costs)?;
    let rows = Vec::from_slice(alloc, &hint.rows)?;
    Ok(Some(Hint {
        columns,
        costs,
        rows,
        cuts: HeldCuts::new(alloc),
    }))
}

impl KindHints {
    /// No hint.
    fn new(alloc: Global) -> KindHints {
        KindHints {
            nodes: Vec::new(alloc),
            last: 0,
        }
    }

    /// Takes a node's own hint.
    fn own(&mut self, node: u32) -> Option<Hint> {
        let place = node as usize;
        if place < self.nodes.len() {
            self.nodes[place].take()
        } else {
            None
        }
    }

    /// Takes a node's hint. One that has none begins as the node before it, if this has as many columns and rows.
    fn take(&mut self, alloc: Global, node: u32, counts: Counts) -> Result<Option<Hint>, Memory> {
        if let Some(hint) = self.own(node) {
            return Ok(Some(hint));
        }
        if self.last >= self.nodes.len() {
            return Ok(None);
        }
        match &self.nodes[self.last] {
            Some(hint) => copied(alloc, hint, counts),
            None => Ok(None),
        }
    }

    /// Keeps a node's hint, also of a node that came later.
    fn put(&mut self, node: u32, hint: Option<Hint>) -> Result<(), Memory> {
        let place = node as usize;
        for _node in self.nodes.len()..=place {
            self.nodes.push(None)?;
        }
        if place < self.nodes.len() {
            self.nodes[place] = hint;
            self.last = place;
        }
        Ok(())
    }
}

impl Hints {
    /// No hint.
    pub fn new(alloc: Global) -> Hints {
        Hints {
            most: 0,
            feasible: KindHints::new(alloc),
            recession: KindHints::new(alloc),
            cost: KindHints::new(alloc),
        }
    }

    /// Lends a task the hint of its node for a run of its kind. One that has none begins as the node before it, if this has as many columns
    /// and rows.
    pub fn lend(&mut self, alloc: Global, task: &Task) -> Result<LentHint, Memory> {
        let counts = Counts {
            columns: task.datum.bounds().len(),
            rows: task.datum.rows().len(),
        };
        let node = task.datum.node();
        let hint = self.take(alloc, task.kind, node, counts)?;
        self.most = self.most.max(node);
        Ok(LentHint {
            hint,
            are_few: self.most < MANY,
        })
    }

    /// Takes back what a task's solve left, for the next solve of its node in a run of its kind.
    pub fn take_back(&mut self, task: &Task, lent: &mut LentHint) -> Result<(), Memory> {
        self.put(task.kind, task.datum.node(), lent.hint.take())
    }

    /// Takes a node's hint for a run of a kind. One that has none begins as the node before it, if this has as many columns and rows.
    fn take(
        &mut self,
        alloc: Global,
        kind: Kind,
        node: u32,
        counts: Counts,
    ) -> Result<Option<Hint>, Memory> {
        match kind {
            Kind::Feasible => self.feasible.take(alloc, node, counts),
            Kind::Recession => self.recession.take(alloc, node, counts),
            Kind::Cost => self.cost.take(alloc, node, counts),
        }
    }

    /// Keeps a node's hint for runs of a kind, also of a node that came later.
    fn put(&mut self, kind: Kind, node: u32, hint: Option<Hint>) -> Result<(), Memory> {
        match kind {
            Kind::Feasible => self.feasible.put(node, hint),
            Kind::Recession => self.recession.put(node, hint),
            Kind::Cost => self.cost.put(node, hint),
        }
    }
}
