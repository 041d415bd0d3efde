// Reports of programs that several workers solve: some with nodes enough that threads are started, some with fewer nodes than workers.
use frac128::{Frac, Memory, parse};
use run_watch::{Unwatched, Watch};
use scen_defs::{Finding, Program, Report};
use smps_session::{StatedLimits, session};
use std::alloc::Global;
use std::process::Abort;
use std::test::Fail;
use std::thread::Threads;
use test_programs::{COVER, Source, read_source};
use workload_maker::make;

/// A workload, and its least cost, as QSopt_ex finds it of the program of all nodes.
struct Wanted {
    stages: u32,
    branches: u32,
    size: u32,
    cost: &'static str,
}

/// 341 nodes.
const FIVE_PERIODS: Wanted = Wanted {
    stages: 5,
    branches: 4,
    size: 3,
    cost: "6127/16",
};

/// 1,365 nodes.
const SIX_PERIODS: Wanted = Wanted {
    stages: 6,
    branches: 4,
    size: 2,
    cost: "1927/4",
};

fn program_of(alloc: Global, wanted: &Wanted) -> Result<Program, Fail> {
    let made = make(alloc, 3, wanted.stages, wanted.branches, wanted.size)?;
    let source = Source {
        core: str::from_utf8(&made.core)?,
        time: str::from_utf8(&made.time)?,
        stoch: str::from_utf8(&made.stoch)?,
    };
    Ok(read_source(alloc, source)?.ok_or("no program")?)
}

/// The report of so many workers.
fn report_of(
    rt: &(impl Threads + Sync),
    alloc: Global,
    program: &Program,
    workers: u32,
) -> Result<Report, Fail> {
    let stated = StatedLimits {
        solves: true,
        pivots: true,
    };
    let mut watch = Unwatched::new(rt);
    watch.employ(workers);
    let answered = session(alloc, program, 100_000, 100_000, stated, &mut watch)?;
    Ok(answered.report)
}

fn is_end(end: Option<Frac>, cost: Frac) -> bool {
    match end {
        Some(end) => end == cost,
        None => false,
    }
}

fn is_least(report: &Report, cost: Frac) -> bool {
    let is_optimal = match report.finding {
        Finding::Optimal => true,
        _ => false,
    };
    is_optimal && is_end(report.lower, cost) && is_end(report.upper, cost)
}

fn expect_least(
    rt: &(impl Abort + Threads + Sync),
    alloc: Global,
    program: &Program,
    cost: &str,
) -> Result<(), Fail> {
    let cost = parse(cost.as_bytes())?;
    for workers in [1, 2, 4, 64] {
        let report = report_of(rt, alloc, program, workers)?;
        assert!(rt; is_least(&report, cost), "{workers} workers");
    }
    Ok(())
}

fn expect(rt: &(impl Abort + Threads + Sync), alloc: Global, wanted: &Wanted) -> Result<(), Fail> {
    let program = program_of(alloc, wanted)?;
    expect_least(rt, alloc, &program, wanted.cost)
}

/// A first amount X costs 1, and 3/2 where it is bought later; 2 or 6 are needed. With X = 2 that is 2 + 3/2 (6 - 2) / 2.
#[test]
fn fewer_nodes_than_workers(rt: HostRuntime) -> Result<(), Fail> {
    let alloc = rt.alloc();
    let cover = read_source(alloc, COVER)?.ok_or("no program")?;
    assert_eq!(rt; cover.nodes.len(), 3);
    expect_least(&rt, alloc, &cover, "5")
}

/// The first period alone: X costs 1.
#[test]
fn one_node(rt: HostRuntime) -> Result<(), Fail> {
    let alloc = rt.alloc();
    let alone = Source {
        core: COVER.core,
        time: "",
        stoch: "",
    };
    let program = read_source(alloc, alone)?.ok_or("no program")?;
    assert_eq!(rt; program.nodes.len(), 1);
    expect_least(&rt, alloc, &program, "2")
}

#[test]
fn five_periods(rt: HostRuntime) -> Result<(), Fail> {
    expect(&rt, rt.alloc(), &FIVE_PERIODS)
}

#[test]
fn six_periods(rt: HostRuntime) -> Result<(), Fail> {
    expect(&rt, rt.alloc(), &SIX_PERIODS)
}
