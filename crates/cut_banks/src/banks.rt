//! The pools of all nodes in all runs.
ghost use Rattle.std.specs.Prelude.{◌≡◌, ◌<◌, ◌^◌, ◌∷◌, [], map, length, IfOk, OnOk, OnErr};
ghost use Rattle.std.specs.Option.{option_map};
ghost use Rattle.scen_defs.specs.Lists.{passes_at};
ghost use Rattle.scen_defs.specs.Program.{content};
ghost use Rattle.cut_defs.specs.Stored.{source_of};
ghost use Rattle.cut_pool.specs.Pool.{offer_of, after_offer, with_cut};
ghost use Rattle.cut_banks.specs.Pools.{numbers_of, cuts_of, cuts_read, numbers_read, may_take, may_put, pool_if, with_pool, AreOfNodes};

use crate::bank::Bank;
use crate::pools::Read;
use cut_defs::Due;
use cut_pool::{Offer, SharedCut};
use frac128::{Form, Memory};
use scen_defs::{Kind, Program};
use std::alloc::Global;

/// The pools of all nodes: one bank for the Feasible and Cost runs, one for the Recession run.
#[derive(Drop)]
pub struct Banks {
    plain: Bank,
    cone: Bank,
}

impl Banks {
    ghost use Rattle.cut_banks.specs.Banks.{empty_banks, fit_banks, pools_of, with_pools, has_pool, swept_banks};

    /// Pools without cuts.
    pub fn empty(alloc: Global, nodes: u32) -> Result<Banks, Memory>
        ensures { IfOk result (λ banks. banks ≡ empty_banks nodes) }
    {
        Ok(Banks {
            plain: Bank::empty(alloc, nodes)?,
            cone: Bank::empty(alloc, nodes)?,
        })
    }

    /// There are pools for the nodes of a program from now on; those of nodes that aren't live are empty.
    pub fn fit(&mut self, alloc: Global, program: &Program) -> Result<(), Memory>
        requires { length (content program.now).nodes < 2 ^ 32 }
        ensures { OnOk result (self.new ≡ fit_banks (content program.now).nodes self.old) }
    {
        self.plain.fit(alloc, &program.nodes)?;
        self.cone.fit(alloc, &program.nodes)
    }

    /// Sweeps a touch from a pool of its bank. False where that can't be done, which never comes.
    pub fn sweep(&mut self, alloc: Global, due: &Due) -> Result<bool, Memory>
        ensures done { IfOk result (λ done. done ≡ has_pool due.now self.old) }
        ensures ok { OnOk result (self.new ≡ swept_banks (due.now ∷ []) self.old) }
        ensures err { OnErr result (self.new ≡ self.old) }
    {
        match due.bank {
            cut_defs::Bank::Plain => self.plain.sweep(alloc, due),
            cut_defs::Bank::Cone => self.cone.sweep(alloc, due),
        }
    }

    /// Tells what holds of both banks: the pool at a place is of the node of that number, and so is each of its cuts.
    pub fn keeps_nodes(&self)
        ensures plain { AreOfNodes 0 self.now.plain }
        ensures cone { AreOfNodes 0 self.now.cone }
    {
        self.plain.keeps_nodes();
        self.cone.keeps_nodes();
    }

    /// The bank of a run of this kind.
    fn bank(&self, kind: Kind) -> &Bank
        ensures { result.now ≡ pools_of kind self.now }
    {
        match kind {
            Kind::Feasible | Kind::Cost => &self.plain,
            Kind::Recession => &self.cone,
        }
    }

    /// The numbers of the pools of a run of this kind, by node.
    pub fn numbers(&self, kind: Kind) -> &[u64]
        ensures { result.now ≡ numbers_of (pools_of kind self.now) }
    {
        self.bank(kind).numbers()
    }

    /// The pools of some nodes in a run of this kind, as they are.
    pub fn read(&self, alloc: Global, kind: Kind, nodes: &[u32]) -> Result<Read, Memory>
        ensures cuts { IfOk result (λ read. map cuts_of read.children.items ≡ cuts_read (pools_of kind self.now) nodes.now) }
        ensures numbers { IfOk result (λ read. read.readings.items ≡ numbers_read (pools_of kind self.now) nodes.now) }
    {
        self.bank(kind).read(alloc, nodes)
    }

    /// Offers a cut to the pool of its node in a run of this kind. None where there is none that takes it.
    pub fn offer(
        &mut self,
        kind: Kind,
        cut: SharedCut,
        trial: &Form,
    ) -> Result<Option<Offer>, Memory>
        ensures answer { IfOk result (λ answer. answer ≡ option_map (λ p. offer_of p cut trial.now)
            (pool_if (may_take cut) (source_of cut).node (pools_of kind self.old))) }
        ensures ok { OnOk result (self.new ≡ with_pools kind
            (with_pool (may_take cut) (λ p. after_offer p cut (offer_of p cut trial.now)) (source_of cut).node
            (pools_of kind self.old)) self.old) }
        ensures err { OnErr result (self.new ≡ self.old) }
    {
        match kind {
            Kind::Feasible | Kind::Cost => self.plain.offer(cut, trial),
            Kind::Recession => self.cone.offer(cut, trial),
        }
    }

    /// Puts a cut into the pool of its node in a run of this kind. False where there is none that takes it.
    pub fn ground(&mut self, kind: Kind, cut: SharedCut) -> Result<bool, Memory>
        ensures done { IfOk result (λ done. done ≡ passes_at (may_put cut) (source_of cut).node (pools_of kind self.old)) }
        ensures ok { OnOk result (self.new ≡ with_pools kind
            (with_pool (may_put cut) (λ p. with_cut p cut) (source_of cut).node (pools_of kind self.old)) self.old) }
        ensures err { OnErr result (self.new ≡ self.old) }
    {
        match kind {
            Kind::Feasible | Kind::Cost => self.plain.ground(cut),
            Kind::Recession => self.cone.ground(cut),
        }
    }
}
