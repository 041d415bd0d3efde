//! A tree of three nodes, by hand.
use pass_table::{Reading, Table, are_within};
use std::alloc::{AllocError, Global};
use std::process::Abort;
use std::test::Fail;

/// What a Begin answers where a worker may begin.
fn begin(table: &mut Table, worker: u32) -> Option<u32> {
    if (worker as usize) < table.workers() && table.flight(worker).is_none() {
        table.begin(worker)
    } else {
        None
    }
}

fn commit(table: &mut Table, worker: u32, numbers: &[u64], readings: &[Reading], point: bool) {
    if table.commits() < 1000
        && table.has_flight(worker)
        && are_within(readings, numbers.len())
        && are_within(readings, table.places())
    {
        table.commit(worker, numbers, readings, point);
    }
}

fn forget(table: &mut Table, worker: u32) {
    if table.commits() < 1000 && table.has_flight(worker) {
        table.forget(worker);
    }
}

fn raise(table: &mut Table, pool: u32) {
    if 0 < pool && (pool as usize) < table.places() {
        table.raise(pool);
    }
}

/// Both pools below the root, with these numbers.
fn read(first: u64, second: u64) -> [Reading; 2] {
    [
        Reading {
            child: 1,
            number: first,
        },
        Reading {
            child: 2,
            number: second,
        },
    ]
}

/// The pool of the one child of a node, with this number.
fn read_one(child: u32, number: u64) -> [Reading; 1] {
    [Reading { child, number }]
}

/// A worker begins this node, or none.
fn begins(rt: &impl Abort, table: &mut Table, worker: u32, node: Option<u32>, step: &str) {
    assert_eq!(rt; begin(table, worker), node, "{step}");
}

/// Whether the run is closed, and whether it is complete.
fn answers(rt: &impl Abort, table: &Table, expected: (bool, bool), step: &str) {
    assert_eq!(rt;
        (table.is_closed(), table.is_complete()),
        expected,
        "{step}"
    );
}

/// Which round of the run it is, and how many nodes wait.
fn stands(rt: &impl Abort, table: &Table, expected: (u64, u64), step: &str) {
    assert_eq!(rt; (table.round(), table.waiting()), expected, "{step}");
}

fn open(table: &mut Table) {
    if table.places() > 0 && table.run() < 1000 {
        table.open();
    }
}

/// The root and its children once each: with an offer of node 1 added, the run is complete and isn't closed.
fn first_round(rt: &impl Abort, table: &mut Table) {
    stands(rt, table, (1, 3), "no node was solved");
    begins(rt, table, 0, Some(0), "the root");
    begins(rt, table, 1, None, "nothing beside the root");
    commit(table, 0, &[0, 0, 0], &read(0, 0), true);
    stands(rt, table, (1, 2), "its children wait");
    begins(rt, table, 0, Some(1), "node 1");
    begins(rt, table, 1, Some(2), "node 2");
    commit(table, 0, &[0, 0, 0], &[], true);
    raise(table, 1);
    answers(rt, table, (false, false), "node 2 is in flight");
    begins(rt, table, 0, None, "no round begins beside node 2");
    commit(table, 1, &[0, 1, 0], &[], true);
    answers(rt, table, (false, true), "each node once");
    stands(rt, table, (1, 1), "the root waits");
}

/// The root again: its children are stale, and solved again they leave the run closed.
fn second_round(rt: &impl Abort, table: &mut Table) {
    begins(rt, table, 1, Some(0), "the root again");
    commit(table, 1, &[0, 1, 0], &read(1, 0), true);
    answers(rt, table, (false, false), "the root twice");
    stands(rt, table, (2, 2), "its children wait again");
    begins(rt, table, 0, Some(1), "node 1 again");
    begins(rt, table, 1, Some(2), "node 2 again");
    commit(table, 1, &[0, 1, 0], &[], true);
    commit(table, 0, &[0, 1, 0], &[], true);
    answers(rt, table, (true, true), "each node twice");
    begins(rt, table, 0, None, "nothing more");
    stands(rt, table, (2, 0), "no node waits");
}

/// The table of a root with two children, for two workers.
fn start(alloc: Global) -> Result<Table, AllocError> {
    let parents = vec![in alloc; 0u32; 3]?;
    Table::start(alloc, parents, 2)
}

#[test]
fn three_nodes(rt: HostRuntime) -> Result<(), Fail> {
    let mut table = start(rt.alloc())?;
    first_round(&rt, &mut table);
    second_round(&rt, &mut table);
    open(&mut table);
    stands(&rt, &table, (1, 3), "another run");
    Ok(())
}

/// The nodes 0, 1 and 2, each below the one before, once each, with an offer of node 2 and one of node 1 added.
fn down_the_path(rt: &impl Abort, table: &mut Table) {
    begins(rt, table, 0, Some(0), "the root");
    commit(table, 0, &[0, 0, 0], &read_one(1, 0), true);
    begins(rt, table, 0, Some(1), "node 1");
    begins(rt, table, 1, None, "nothing below node 1");
    commit(table, 0, &[0, 0, 0], &read_one(2, 0), true);
    raise(table, 1);
    begins(rt, table, 1, Some(2), "node 2");
    begins(rt, table, 0, None, "nothing above node 2");
    commit(table, 1, &[0, 1, 0], &[], true);
    raise(table, 2);
}

/// Nodes 0 and 1 may be begun: the root is, and node 1 has to wait for it. Where the root's solve leaves nothing, node 1 doesn't
/// wait any more.
fn below_a_flight(rt: &impl Abort, table: &mut Table) {
    begins(rt, table, 0, Some(0), "the root again");
    begins(rt, table, 1, None, "node 1 is below it");
    forget(table, 0);
    begins(rt, table, 1, Some(1), "node 1 comes before the root");
    begins(rt, table, 0, None, "the root is above it");
}

#[test]
fn three_on_a_path(rt: HostRuntime) -> Result<(), Fail> {
    let parents = vec![in rt.alloc(); 0u32, 0, 1]?;
    let mut table = Table::start(rt.alloc(), parents, 2)?;
    down_the_path(&rt, &mut table);
    below_a_flight(&rt, &mut table);
    Ok(())
}
