//! The last solves of a run.
ghost use Rattle.std.specs.Prelude.{◌≡◌, [], None, Some, IfOk, OnErr, map, option_copied, replicate};
ghost use Rattle.frac128.specs.Faults.{IfNotMemory};
ghost use Rattle.rationals.specs.Forms.{add_scaled_walk};
ghost use Rattle.rationals.specs.Rational.{one_ℚ};
ghost use Rattle.found_ends.specs.Lasts.{last_at, last_point, along_of, trial_of, with_last, kept, KeepsPoint};

use frac128::{ArithmeticFault, Form, Frac, Memory};
use std::alloc::Global;

/// What a node's last solve in the present run gave, where it has a point.
#[derive(Drop)]
pub struct Last {
    /// The values of the node's own columns.
    pub point: Form,
    /// These, and the values of the columns of all nodes above, as the solve had them.
    pub along: Form,
}

/// The last solves of a run, node by node.
#[derive(Drop)]
pub struct Lasts {
    /// By the number of the node; none where it has no point.
    pub nodes: Vec<Option<Last>>,
}

impl Lasts {
    /// No node has a last solve.
    pub fn none(alloc: Global, nodes: u32) -> Result<Lasts, Memory>
        ensures { IfOk result (λ lasts. lasts.nodes.items ≡ replicate nodes None) }
    {
        let mut all = Vec::new(alloc);
        for _ in 0..nodes {
            all.push(None)?;
        }
        Ok(Lasts { nodes: all })
    }

    /// The values of the columns above a node with this parent; the root has none.
    pub fn trial(&self, alloc: Global, parent: Option<u32>) -> Result<Form, Memory>
        ensures { IfOk result (λ trial. trial ≡ trial_of self.now.nodes.items parent) }
    {
        match parent {
            Some(parent) => self.along(alloc, parent),
            None => Ok(Form::empty(alloc)),
        }
    }

    /// The values along a node's last solve.
    fn along(&self, alloc: Global, node: u32) -> Result<Form, Memory>
        ensures { IfOk result (λ along. along ≡ along_of (last_at self.now.nodes.items node)) }
    {
        match self.nodes.get(node as usize) {
            Some(last) => along_of(alloc, last),
            None => Ok(Form::empty(alloc)),
        }
    }

    /// Keeps a point of a node that was solved at this trial.
    pub fn keep(&mut self, node: u32, trial: &Form, point: Form) -> Result<(), ArithmeticFault>
        ensures walk { KeepsPoint (kept self.old.nodes.items node trial.now point) result self.new.nodes.items }
        ensures err { OnErr result (self.new ≡ self.old) }
    {
        match along_with(trial, &point) {
            Ok(along) => {
                self.put(node, Some(Last { point, along }));
                Ok(())
            }
            Err(fault) => Err(fault),
        }
    }

    /// The node has no point.
    pub fn forget(&mut self, node: u32)
        ensures { self.new.nodes.items ≡ with_last self.old.nodes.items node None }
    {
        self.put(node, None);
    }

    fn put(&mut self, node: u32, last: Option<Last>)
        ensures { self.new.nodes.items ≡ with_last self.old.nodes.items node last }
    {
        let place = node as usize;
        if place < self.nodes.len() {
            self.nodes[place] = last;
        }
    }

    /// The own values of a node's last solve.
    pub fn point(&self, node: usize) -> Option<&Form>
        ensures { option_copied result ≡ last_point (last_at self.now.nodes.items node) }
    {
        match self.nodes.get(node) {
            Some(Some(last)) => Some(&last.point),
            Some(None) | None => None,
        }
    }

    /// The points of all nodes, by number.
    pub fn points(&self, alloc: Global) -> Result<Vec<Option<Form>>, Memory>
        ensures { IfOk result (λ all. all.items ≡ map last_point self.now.nodes.items) }
    {
        let mut all = Vec::new(alloc);
        for place in &self.nodes {
            all.push(last_point(alloc, place)?)?;
        }
        Ok(all)
    }
}

/// The own values of a last solve.
fn last_point(alloc: Global, place: &Option<Last>) -> Result<Option<Form>, Memory>
    ensures { IfOk result (λ point. point ≡ last_point place.now) }
{
    match place {
        Some(last) => Ok(Some(last.point.copy(alloc)?)),
        None => Ok(None),
    }
}

/// The values along a last solve.
fn along_of(alloc: Global, place: &Option<Last>) -> Result<Form, Memory>
    ensures { IfOk result (λ along. along ≡ along_of place.now) }
{
    match place {
        Some(last) => last.along.copy(alloc),
        None => Ok(Form::empty(alloc)),
    }
}

/// A point with the values above it; no column stands in both.
fn along_with(trial: &Form, point: &Form) -> Result<Form, ArithmeticFault>
    ensures { IfNotMemory result (add_scaled_walk trial.now one_ℚ point.now) }
{
    trial.add_scaled(Frac::one(), point)
}
