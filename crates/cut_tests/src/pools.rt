//! What a pool of node 1 answers.
use crate::fixtures::{is_count, is_number, leaf_cut, single};
use cut_defs::{Part, Shift, Touch};
use cut_pool::{Copied, Offer, Pool, may_sweep};
use cut_proof::{Cut, SharedCut};
use frac128::{Form, Frac, parse};
use std::alloc::Global;
use std::process::Abort;
use std::test::Fail;

fn offered(rt: &impl Abort, pool: &mut Pool, cut: &SharedCut, trial: &Form) -> Result<Offer, Fail> {
    assert!(rt; cut.cut().node() == pool.node() && pool.number() < u64::MAX);
    Ok(pool.offer(cut.share()?, trial)?)
}

/// Sweeps the first edit of the rows of node 1, which raises its end.
fn sweep(rt: &impl Abort, alloc: Global, pool: &mut Pool, by: Frac) -> Result<(), Fail> {
    let touch = Touch {
        node: 1,
        part: Part::Rows,
        version: 1,
    };
    let shift = Some(Shift {
        node: 1,
        row: 0,
        by,
        version: 1,
    });
    assert!(rt; may_sweep(&touch, &shift) && pool.number() < u64::MAX);
    pool.sweep(alloc, touch, shift)?;
    Ok(())
}

/// The cut is added.
fn is_added(rt: &impl Abort, pool: &mut Pool, cut: &SharedCut, trial: &Form) -> Result<(), Fail> {
    let offer = offered(rt, pool, cut, trial)?;
    assert!(rt; matches!(&offer, Offer::Added));
    Ok(())
}

/// The answer that a cut isn't needed, where the pool's best is worth `worth`.
fn is_of_best(rt: &impl Abort, offer: &Offer, worth: i64) -> Result<(), Fail> {
    match offer {
        Offer::NotNeeded(best) => is_number(rt, *best, Frac::from_int(worth), "the best"),
        _ => return Err(Fail::from("it is needed")),
    }
    Ok(())
}

/// The cut isn't needed where the pool's best is worth `worth`.
fn is_not_needed(
    rt: &impl Abort,
    pool: &mut Pool,
    cut: &SharedCut,
    trial: &Form,
    worth: i64,
) -> Result<(), Fail> {
    let offer = offered(rt, pool, cut, trial)?;
    is_of_best(rt, &offer, worth)
}

/// The cut rests on node 1 before its first edit.
fn is_stale(rt: &impl Abort, pool: &mut Pool, cut: &SharedCut, trial: &Form) -> Result<(), Fail> {
    match offered(rt, pool, cut, trial)? {
        Offer::Stale {
            node,
            seen,
            known,
            ..
        } => assert!(rt; node == 1 && seen == 0 && known == 1),
        _ => return Err(Fail::from("it is taken")),
    }
    Ok(())
}

/// One cut, with this constant, of a pool whose number is 2.
fn is_one(rt: &impl Abort, held: &Copied, constant: i64) {
    assert_eq!(rt; held.cuts.len(), 1);
    is_count(rt, held.number, 2, "the number");
    is_number(
        rt,
        held.cuts[0].cut().constant(),
        Frac::from_int(constant),
        "the constant",
    );
}

/// The pool holds one cut, with this constant, and its number is 2.
fn holds_one(rt: &impl Abort, alloc: Global, pool: &Pool, constant: i64) -> Result<(), Fail> {
    let held = pool.read(alloc)?;
    is_one(rt, &held, constant);
    Ok(())
}

/// The pool of node 1 with a cut that an edit repaired, which raises its row's end by 4.
fn is_repaired(rt: &impl Abort, alloc: Global, pool: &mut Pool, old: &Cut) -> Result<(), Fail> {
    sweep(rt, alloc, pool, Frac::from_int(4))?;
    holds_one(rt, alloc, pool, 15)?;
    assert!(rt; !pool.is_fresh(old));
    Ok(())
}

/// What the cut is to an empty pool: offered twice it is added once.
fn grows_old(
    rt: &impl Abort,
    alloc: Global,
    pool: &mut Pool,
    cut: &SharedCut,
    trial: &Form,
) -> Result<(), Fail> {
    is_added(rt, pool, cut, trial)?;
    is_not_needed(rt, pool, cut, trial, 6)?;
    is_repaired(rt, alloc, pool, cut.cut())?;
    is_stale(rt, pool, cut, trial)
}

/// A cut is added once, repaired where an edit raises its row's end by 4, and too old afterwards.
#[test]
fn offers_and_sweeps(rt: HostRuntime) -> Result<(), Fail> {
    let trial = single(&rt, rt.alloc(), 0, Frac::from_int(2))?;
    let cut = leaf_cut(&rt, rt.alloc())?;
    let mut pool = Pool::empty(rt.alloc(), 1);
    grows_old(&rt, rt.alloc(), &mut pool, &cut, &trial)
}

/// Offers the cut of node 1 where every column before it is 0.
fn is_offered(rt: &impl Abort, alloc: Global, pool: &mut Pool) -> Result<(), Fail> {
    let cut = leaf_cut(rt, alloc)?;
    offered(rt, pool, &cut, &Form::empty(alloc))?;
    Ok(())
}

/// An edit that raises the row's end by 15E37 repairs no cut and leaves none.
fn is_emptied(rt: &impl Abort, alloc: Global, pool: &mut Pool) -> Result<(), Fail> {
    sweep(rt, alloc, pool, parse(b"15E37")?)?;
    let held = pool.read(alloc)?;
    is_count(rt, held.cuts.len() as u64, 0, "the cuts that are left");
    Ok(())
}

/// Where the repair's product doesn't fit, the cut goes.
#[test]
fn a_cut_goes(rt: HostRuntime) -> Result<(), Fail> {
    let mut pool = Pool::empty(rt.alloc(), 1);
    is_offered(&rt, rt.alloc(), &mut pool)?;
    is_emptied(&rt, rt.alloc(), &mut pool)
}
