// The pool of one node.
ghost use Rattle.std.specs.Prelude.{◌≡◌, ◌<◌, ◌^◌, IfOk, OnOk, OnErr, [], IsTrue, ◌↔◌, ◌-◌};
ghost use Rattle.cut_defs.specs.Support.{RestsOnNone};
ghost use Rattle.cut_defs.specs.Stored.{source_of};
ghost use Rattle.cut_pool.specs.Held.{IsPool};
ghost use Rattle.cut_pool.specs.Pool.{offer_of, after_offer, with_cut, swept, ShiftFits, VersionIsAbove};
ghost use Rattle.cut_pool.specs.declared.offer.Offer.TheVariants.{Added};

use crate::judging::judge;
use crate::known::Known;
use crate::offer::Offer;
use crate::sweeping::left;
use cut_proof::{Cut, SharedCut, Shift, Touch};
use frac128::{Form, Memory};
use std::alloc::Global;
use std::marker::Model;

/// The cuts of one node, in the order in which they came, and the touches that were swept from them.
#[derive(Drop)]
pub struct Pool {
    node: u32,
    known: Known,
    cuts: Vec<SharedCut>,
    number: u64,
}

impl Model for Pool {
    ghost use Rattle.cut_pool.specs.Held.{Held, IsPool};

    ghost Value = { Held };

    ghost use Rattle.cut_pool.specs.Codes.{held_coded};

    ghost coded = { held_coded };

    ghost use Rattle.cut_pool.specs.View.{pool_content};

    ghost view = { pool_content };

    ghost invariant = { λ p. IsPool (pool_content p) };
}

/// The cuts and the number of a pool.
#[derive(Drop)]
pub struct Copied {
    /// Each shared, in their order.
    pub cuts: Vec<SharedCut>,
    /// How often the pool had changed.
    pub number: u64,
}

/// The same cuts once more; each is shared.
fn copies(alloc: Global, cuts: &[SharedCut]) -> Result<Vec<SharedCut>, Memory>
    ensures { IfOk result (λ copies. copies.items ≡ cuts.now) }
{
    let mut copies = Vec::new(alloc);
    for cut in cuts {
        copies.push(cut.share()?)?;
    }
    Ok(copies)
}

fn is_added(offer: &Offer) -> bool
    ensures { IsTrue result ↔ (offer.now ≡ Added) }
{
    match offer {
        Offer::Added => true,
        Offer::NotNeeded(_) => false,
        Offer::Stale { .. } => false,
        Offer::Passed(_) => false,
    }
}

impl Pool {
    /// A pool without cuts that knows no touch.
    pub fn empty(alloc: Global, node: u32) -> Pool
        ensures { result ≡ record { node = node; known = []; cuts = []; number = 0 } }
    {
        Pool {
            node,
            known: Known::none(alloc),
            cuts: Vec::new(alloc),
            number: 0,
        }
    }

    /// Tells what holds of every pool: no cut of it rests on a touch that it knows.
    pub fn keeps_fresh(&self)
        ensures { IsPool self.now }
    {
        let _cuts = &self.cuts;
    }

    /// The node that its cuts are about.
    pub fn node(&self) -> u32
        ensures { result ≡ self.now.node }
    {
        self.node
    }

    /// How often the pool changed.
    pub fn number(&self) -> u64
        ensures { result ≡ self.now.number }
    {
        self.number
    }

    /// What the pool would answer to a cut.
    fn answer(&self, cut: &Cut, trial: &Form) -> Offer
        ensures { result ≡ offer_of self.now cut.now trial.now }
    {
        match self.known.first_stale(cut.support()) {
            Some(stamp) => Offer::Stale {
                node: stamp.node,
                part: stamp.part,
                seen: stamp.version,
                known: self.known.newest(&stamp),
            },
            None => judge(&self.cuts, cut, trial),
        }
    }

    /// Whether a cut rests on none of the touches that the pool knows.
    pub fn is_fresh(&self, cut: &Cut) -> bool
        ensures { IsTrue result ↔ RestsOnNone cut.now self.now.known }
    {
        match self.known.first_stale(cut.support()) {
            Some(_) => false,
            None => true,
        }
    }

    /// Puts a cut last without a test. Time: constant, but for the growth of the list.
    pub fn ground(&mut self, cut: SharedCut) -> Result<(), Memory>
        requires node { (source_of cut).node ≡ self.old.node }
        requires number { self.old.number < 2 ^ 64 - 1 }
        requires fresh { RestsOnNone cut self.old.known }
        ensures ok { OnOk result (self.new ≡ with_cut self.old cut) }
        ensures err { OnErr result (self.new ≡ self.old) }
    {
        self.cuts.push(cut)?;
        self.number += 1;
        Ok(())
    }

    /// Offers a cut at a trial. The first of these that applies is answered.
    ///
    /// `Stale` comes exactly where the cut rests on a known touch; `Passed` exactly where the value at the trial of the
    /// offered cut, or of a held cut of its kind, passes 128 bits, and names the first operation that does. `Added`
    /// puts the cut last and comes exactly where its value exceeds that of every held cut of its kind, and for a Ray
    /// cut 0 as well; else the answer is `NotNeeded`. Memory is wanting only where the cut would be added.
    ///
    /// Time: (stamps of the support) times (known touches), and an evaluation of each held cut of the kind.
    pub fn offer(&mut self, cut: SharedCut, trial: &Form) -> Result<Offer, Memory>
        requires node { (source_of cut).node ≡ self.old.node }
        requires number { self.old.number < 2 ^ 64 - 1 }
        ensures answer { IfOk result (λ answer. answer ≡ offer_of self.old cut trial.now) }
        ensures ok { IfOk result (λ answer. self.new ≡ after_offer self.old cut answer) }
        ensures err { OnErr result (self.new ≡ self.old) }
        ensures memory { OnErr result (offer_of self.old cut trial.now ≡ Added) }
    {
        let answer = self.answer(cut.cut(), trial);
        if is_added(&answer) {
            self.ground(cut)?;
        }
        Ok(answer)
    }

    /// Sweeps a touch: each cut that rests on it is replaced in its place by its repair where there is a shift and a
    /// repair, and goes otherwise. The others stay in their order. The touch stands last among the known
    /// ones, and the number rises by 1. Where memory is wanting the pool stays as it was.
    ///
    /// Time: the supports of all cuts, one more owner for each cut that stays, and the repairs.
    pub fn sweep(&mut self, alloc: Global, touch: Touch, shift: Option<Shift>) -> Result<(), Memory>
        requires number { self.old.number < 2 ^ 64 - 1 }
        requires version { VersionIsAbove shift }
        requires shift { ShiftFits touch shift }
        ensures ok { OnOk result (self.new ≡ swept self.old touch shift) }
        ensures err { OnErr result (self.new ≡ self.old) }
    {
        let cuts = left(alloc, &self.cuts, &touch, &shift)?;
        self.known.push(touch)?;
        self.cuts = cuts;
        self.number += 1;
        Ok(())
    }

    /// The cuts in their order, and the number.
    pub fn read(&self, alloc: Global) -> Result<Copied, Memory>
        ensures cuts { IfOk result (λ r. r.cuts.items ≡ self.now.cuts) }
        ensures number { IfOk result (λ r. r.number ≡ self.now.number) }
    {
        let cuts = copies(alloc, &self.cuts)?;
        Ok(Copied {
            cuts,
            number: self.number,
        })
    }
}
