//! The pools of all nodes for one kind of runs.
ghost use Rattle.std.specs.Prelude.{◌≡◌, ◌<◌, ◌≤◌, ◌^◌, ◌++◌, ◌∷◌, [], map, length, slice_set, IfOk, OnOk, OnErr};
ghost use Rattle.std.specs.Option.{option_map};
ghost use Rattle.scen_defs.specs.Lists.{passes_at};
ghost use Rattle.scen_defs.specs.Program.{place_content, nodes_content, is_live};
ghost use Rattle.cut_defs.specs.Stored.{source_of};
ghost use Rattle.cut_pool.specs.Pool.{offer_of, after_offer, with_cut};
ghost use Rattle.cut_banks.specs.Pools.{no_cuts, all_empty, numbers_of, fit_pools, fit_pool, cuts_of, cuts_read, numbers_read, AreOfNodes};
ghost use Rattle.cut_banks.specs.Pools.{may_change, may_take, may_put, pool_if, with_pool, swept_for};

use crate::pools::{Read, note, offer_at, put_at, read_at, sweep_at};
use cut_defs::Due;
use cut_pool::{Offer, Pool, SharedCut};
use frac128::{Form, Memory};
use scen_defs::Node;
use std::alloc::Global;
use std::marker::Model;

/// The pools of all nodes for one kind of runs, and their numbers. Contracts see the pools as a list.
#[derive(Drop)]
pub(crate) struct Bank {
    pools: Vec<Pool>,
    numbers: Vec<u64>,
}

impl Model for Bank {
    ghost use Rattle.std.specs.Prelude.{List};
    ghost use Rattle.std.specs.Coded.{coded_list};
    ghost use Rattle.cut_pool.specs.Held.{Held};
    ghost use Rattle.cut_pool.specs.Codes.{held_coded};
    ghost use Rattle.cut_banks.specs.Pools.{IsBank};

    ghost Value = { List Held };

    ghost coded = { coded_list held_coded };

    ghost view = { λ b. b.pools.items };

    ghost invariant = { λ b. IsBank b.numbers.items b.pools.items };
}

/// Whether a node is live.
fn is_live(place: &Option<Node>) -> bool
    ensures { result ≡ is_live (place_content place.now) }
{
    match place {
        Some(_) => true,
        None => false,
    }
}

impl Bank {
    /// Pools without cuts.
    pub(crate) fn empty(alloc: Global, nodes: u32) -> Result<Bank, Memory>
        ensures { IfOk result (λ bank. bank ≡ all_empty 0 nodes) }
    {
        let mut bank = Bank {
            pools: Vec::new(alloc),
            numbers: Vec::new(alloc),
        };
        for node in 0..nodes {
            bank.add(alloc, node)?;
        }
        Ok(bank)
    }

    /// Tells what holds of every bank: the pool at a place is of the node of that number, and so is each of its cuts.
    pub(crate) fn keeps_nodes(&self)
        ensures { AreOfNodes 0 self.now }
    {
        let _pools = &self.pools;
    }

    /// One more pool, without cuts, of the next node.
    fn add(&mut self, alloc: Global, node: u32) -> Result<(), Memory>
        requires { node ≡ length self.old }
        ensures ok { OnOk result (self.new ≡ self.old ++ no_cuts node ∷ []) }
        ensures err { OnErr result (self.new ≡ self.old) }
    {
        self.numbers.push(0)?;
        match self.pools.push(Pool::empty(alloc, node)) {
            Ok(()) => Ok(()),
            Err(_) => {
                self.numbers.pop();
                Err(Memory)
            }
        }
    }

    /// How many pools there are.
    fn len(&self) -> usize
        ensures { result ≡ length self.now }
    {
        self.pools.len()
    }

    /// The pool of a node is empty.
    fn clear(&mut self, alloc: Global, node: u32)
        requires { node < length self.old }
        ensures { self.new ≡ slice_set self.old node (no_cuts node) }
    {
        let place = node as usize;
        self.pools[place] = Pool::empty(alloc, node);
        self.numbers[place] = 0;
    }

    /// There is a pool for a node; where the node isn't live it is empty.
    fn fit_node(&mut self, alloc: Global, node: u32, is_live: bool) -> Result<(), Memory>
        requires { node ≤ length self.old }
        ensures { OnOk result (self.new ≡ fit_pool node is_live self.old) }
    {
        if node as usize >= self.len() {
            return self.add(alloc, node);
        }
        if is_live {
            return Ok(());
        }
        self.clear(alloc, node);
        Ok(())
    }

    /// There are pools for these nodes from now on; those of nodes that aren't live are empty.
    pub(crate) fn fit(&mut self, alloc: Global, nodes: &[Option<Node>]) -> Result<(), Memory>
        requires { length nodes.now < 2 ^ 32 }
        ensures { OnOk result (self.new ≡ fit_pools 0 (nodes_content nodes.now) self.old) }
    {
        for (index, place) in nodes.iter().enumerate() {
            self.fit_node(alloc, index as u32, is_live(place))?;
        }
        Ok(())
    }

    /// Sweeps the pool of a due. False where there is none that may change, which never comes.
    pub(crate) fn sweep(&mut self, alloc: Global, due: &Due) -> Result<bool, Memory>
        ensures done { IfOk result (λ done. done ≡ passes_at may_change due.now.pool self.old) }
        ensures ok { OnOk result (self.new ≡ with_pool may_change (swept_for due.now) due.now.pool self.old) }
        ensures err { OnErr result (self.new ≡ self.old) }
    {
        let is_done = sweep_at(alloc, &mut self.pools, due)?;
        note(&mut self.numbers, &self.pools, due.pool);
        Ok(is_done)
    }

    /// The pools of some nodes, as they are.
    pub(crate) fn read(&self, alloc: Global, nodes: &[u32]) -> Result<Read, Memory>
        ensures cuts { IfOk result (λ read. map cuts_of read.children.items ≡ cuts_read self.now nodes.now) }
        ensures numbers { IfOk result (λ read. read.readings.items ≡ numbers_read self.now nodes.now) }
    {
        let mut read = Read {
            children: Vec::new(alloc),
            readings: Vec::new(alloc),
        };
        for child in nodes {
            read_at(alloc, &self.pools, *child, &mut read)?;
        }
        Ok(read)
    }

    /// Offers a cut to the pool of its node. None where there is none that takes it.
    pub(crate) fn offer(&mut self, cut: SharedCut, trial: &Form) -> Result<Option<Offer>, Memory>
        ensures answer { IfOk result (λ answer. answer
            ≡ option_map (λ p. offer_of p cut trial.now) (pool_if (may_take cut) (source_of cut).node self.old)) }
        ensures ok { OnOk result (self.new
            ≡ with_pool (may_take cut) (λ p. after_offer p cut (offer_of p cut trial.now)) (source_of cut).node self.old) }
        ensures err { OnErr result (self.new ≡ self.old) }
    {
        let node = cut.cut().node();
        let offer = offer_at(&mut self.pools, node, cut, trial)?;
        note(&mut self.numbers, &self.pools, node);
        Ok(offer)
    }

    /// Puts a cut into the pool of its node. False where there is none that takes it.
    pub(crate) fn ground(&mut self, cut: SharedCut) -> Result<bool, Memory>
        ensures done { IfOk result (λ done. done ≡ passes_at (may_put cut) (source_of cut).node self.old) }
        ensures ok { OnOk result (self.new ≡ with_pool (may_put cut) (λ p. with_cut p cut) (source_of cut).node self.old) }
        ensures err { OnErr result (self.new ≡ self.old) }
    {
        let node = cut.cut().node();
        let is_done = put_at(&mut self.pools, node, cut)?;
        note(&mut self.numbers, &self.pools, node);
        Ok(is_done)
    }

    /// The number of each pool.
    pub(crate) fn numbers(&self) -> &[u64]
        ensures { result.now ≡ numbers_of self.now }
    {
        &self.numbers
    }
}
