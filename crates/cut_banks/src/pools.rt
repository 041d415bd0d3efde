//! A pool of a list, in which the pool of a node stands at the place of its number.
ghost use Rattle.std.specs.Prelude.{◌≡◌, ◌<◌, ◌-◌, ◌^◌, ◌++◌, map, length, slice_set, slice_index};
ghost use Rattle.std.specs.Prelude.{is_none, IfOk, OnOk, OnErr};
ghost use Rattle.std.specs.Option.{option_map};
ghost use Rattle.scen_defs.specs.Lists.{passes_at};
ghost use Rattle.cut_defs.specs.Support.{support, first_stale};
ghost use Rattle.cut_pool.specs.Pool.{offer_of, after_offer, with_cut, swept, VersionIsAbove, ShiftFits};
ghost use Rattle.cut_banks.specs.Pools.{numbers_of, cuts_of, cuts_at, numbers_at};
ghost use Rattle.cut_banks.specs.Pools.{may_change, may_take, may_put, pool_if, with_pool, fitting, swept_for};

use cut_defs::{Due, Shift, Touch};
use cut_pool::{Offer, Pool, SharedCut, may_sweep};
use cut_proof::ChildCuts;
use frac128::{Form, Memory};
use pass_table::Reading;
use std::alloc::Global;

/// What a solve read of its children's pools.
#[derive(Drop)]
pub struct Read {
    /// Of each child that has a pool its cuts, in the order in which the children were named.
    pub children: Vec<ChildCuts>,
    /// The numbers of these pools.
    pub readings: Vec<Reading>,
}

/// Whether a pool may change: its number can still rise.
fn may_change(pool: &Pool) -> bool
    ensures { result ≡ may_change pool.now }
{
    pool.number() < u64::MAX
}

/// Whether a pool takes cuts of this cut's node.
fn may_take(pool: &Pool, cut: &SharedCut) -> bool
    ensures { result ≡ may_take cut.now pool.now }
{
    pool.node() == cut.cut().node() && may_change(pool)
}

/// Whether a cut rests on no touch that a pool knows.
fn is_fresh(pool: &Pool, cut: &SharedCut) -> bool
    ensures { result ≡ is_none (first_stale pool.now.known (support cut.now)) }
{
    pool.is_fresh(cut.cut())
}

/// Whether a pool takes a cut without a test.
fn may_put(pool: &Pool, cut: &SharedCut) -> bool
    ensures { result ≡ may_put cut.now pool.now }
{
    may_take(pool, cut) && is_fresh(pool, cut)
}

/// The shift by which the cuts that rest on a touch may be repaired.
fn fitting(touch: &Touch, shift: Option<Shift>) -> Option<Shift>
    ensures is { result ≡ fitting touch.now shift }
    ensures version { VersionIsAbove result }
    ensures fits { ShiftFits touch.now result }
{
    if may_sweep(touch, &shift) {
        shift
    } else {
        None
    }
}

/// Sweeps a touch from a pool, with its shift where it has one. The cuts that rest on it go, or are repaired.
fn swept(alloc: Global, pool: &mut Pool, due: &Due) -> Result<(), Memory>
    requires { pool.old.number < 2 ^ 64 - 1 }
    ensures ok { OnOk result (pool.new ≡ swept pool.old due.now.touch (fitting due.now.touch due.now.shift)) }
    ensures err { OnErr result (pool.new ≡ pool.old) }
{
    let shift = fitting(&due.touch, due.shift);
    pool.sweep(alloc, due.touch, shift)
}

/// Sweeps the pool of a due. False where there is none that may change.
pub(crate) fn sweep_at(alloc: Global, pools: &mut [Pool], due: &Due) -> Result<bool, Memory>
    ensures done { IfOk result (λ done. done ≡ passes_at may_change due.now.pool pools.old) }
    ensures ok { OnOk result (pools.new ≡ with_pool may_change (swept_for due.now) due.now.pool pools.old) }
    ensures err { OnErr result (pools.new ≡ pools.old) }
{
    let place = due.pool as usize;
    if place >= pools.len() {
        return Ok(false);
    }
    let pool = &mut pools[place];
    if !may_change(pool) {
        return Ok(false);
    }
    swept(alloc, pool, due)?;
    Ok(true)
}

/// Offers a cut to the pool of a node. None where there is none that takes it.
pub(crate) fn offer_at(
    pools: &mut [Pool],
    node: u32,
    cut: SharedCut,
    trial: &Form,
) -> Result<Option<Offer>, Memory>
    ensures answer { IfOk result (λ answer. answer
        ≡ option_map (λ p. offer_of p cut trial.now) (pool_if (may_take cut) node pools.old)) }
    ensures ok { OnOk result (pools.new
        ≡ with_pool (may_take cut) (λ p. after_offer p cut (offer_of p cut trial.now)) node pools.old) }
    ensures err { OnErr result (pools.new ≡ pools.old) }
{
    let place = node as usize;
    if place >= pools.len() {
        return Ok(None);
    }
    let pool = &mut pools[place];
    if !may_take(pool, &cut) {
        return Ok(None);
    }
    let offer = pool.offer(cut, trial)?;
    Ok(Some(offer))
}

/// Puts a cut into the pool of a node. False where there is none that takes it.
pub(crate) fn put_at(pools: &mut [Pool], node: u32, cut: SharedCut) -> Result<bool, Memory>
    ensures done { IfOk result (λ done. done ≡ passes_at (may_put cut) node pools.old) }
    ensures ok { OnOk result (pools.new ≡ with_pool (may_put cut) (λ p. with_cut p cut) node pools.old) }
    ensures err { OnErr result (pools.new ≡ pools.old) }
{
    let place = node as usize;
    if place >= pools.len() {
        return Ok(false);
    }
    let pool = &mut pools[place];
    if !may_put(pool, &cut) {
        return Ok(false);
    }
    pool.ground(cut)?;
    Ok(true)
}

/// Adds the pool of a child, where there is one.
pub(crate) fn read_at(
    alloc: Global,
    pools: &[Pool],
    child: u32,
    read: &mut Read,
) -> Result<(), Memory>
    ensures cuts { OnOk result (map cuts_of read.new.children.items ≡ map cuts_of read.old.children.items ++ cuts_at pools.now child) }
    ensures numbers { OnOk result (read.new.readings.items ≡ read.old.readings.items ++ numbers_at pools.now child) }
{
    let place = child as usize;
    if place >= pools.len() {
        return Ok(());
    }
    let copied = pools[place].read(alloc)?;
    read.children.push(ChildCuts {
        child,
        cuts: copied.cuts,
    })?;
    read.readings.push(Reading {
        child,
        number: copied.number,
    })?;
    Ok(())
}

/// Notes the number of the pool at a place.
pub(crate) fn note(numbers: &mut [u64], pools: &[Pool], place: u32)
    requires { length numbers.old ≡ length pools.now }
    ensures { numbers.new ≡ slice_set numbers.old place (slice_index (numbers_of pools.now) place) }
{
    let place = place as usize;
    if place < pools.len() {
        numbers[place] = pools[place].number();
    }
}
