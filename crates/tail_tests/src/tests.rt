// The least costs of programs of tail risk, and why some aren't made.
use frac128::{Frac, parse};
use run_watch::Unwatched;
use scen_defs::{Finding, Program, Report};
use smps_session::{StatedLimits, session};
use std::alloc::Global;
use std::process::Abort;
use std::test::Fail;
use std::thread::Threads;
use tail_risk::{TailFault, tail_program};
use test_programs::{COVER, FARMER, Source, read_source};

/// What is wanted of a program at a level and a weight.
struct Wanted {
    source: Source<'static>,
    level: &'static str,
    weight: &'static str,
    /// The least cost.
    cost: &'static str,
    /// The first values of the policy: the node, the column and the value.
    policy: &'static [(u32, u32, &'static str)],
}

/// At level 1/2 with two halves the risk is the larger cost, which is `9 - x / 2` up to 6.
const COVER_LARGER: Wanted = Wanted {
    source: COVER,
    level: "1/2",
    weight: "1",
    cost: "6",
    policy: &[(0, 0, "6"), (0, 2, "6")],
};

/// At 2 the mean is 5 and the larger cost 8: 3/4 of 5 and 1/4 of 8.
const COVER_MIXED: Wanted = Wanted {
    source: COVER,
    level: "1/2",
    weight: "1/4",
    cost: "23/4",
    policy: &[(0, 0, "2")],
};

/// At level 0 the risk is the mean.
const COVER_MEAN: Wanted = Wanted {
    source: COVER,
    level: "0",
    weight: "1",
    cost: "5",
    policy: &[],
};

/// The mean as published: a profit of 108,390.
const FARMER_MEAN: Wanted = Wanted {
    source: FARMER,
    level: "0",
    weight: "1",
    cost: "-108390",
    policy: &[],
};

/// Of three thirds the tail of level 2/3 is the worst, and more yield never does harm: so it is the least cost of the scenario with the
/// lowest yields, by itself, as published: a profit of 59,950.
const FARMER_WORST: Wanted = Wanted {
    source: FARMER,
    level: "2/3",
    weight: "1",
    cost: "-59950",
    policy: &[],
};

fn program_of(alloc: Global, source: Source<'_>) -> Result<Program, Fail> {
    let read = read_source(alloc, source)?;
    Ok(read.ok_or("it isn't read")?)
}

/// Made with fewer columns and rows than 32 bits count, below level 1.
fn made(
    rt: &impl Abort,
    alloc: Global,
    program: &Program,
    level: &str,
    weight: &str,
) -> Result<Result<Program, TailFault>, Fail> {
    let below = parse(level.as_bytes())?;
    let by = parse(weight.as_bytes())?;
    assert!(rt; program.columns.len() < 100);
    assert!(rt; program.rows.len() < 100);
    assert!(rt; below < Frac::one());
    Ok(tail_program(alloc, program, below, by))
}

fn expect_policy(report: &Report, wanted: &[(u32, u32, &str)]) -> Result<(), Fail> {
    let policy = match &report.policy {
        Some(values) => values.items(),
        None => return Err(Fail::from("no policy")),
    };
    for (place, value) in wanted.iter().enumerate() {
        if place >= policy.len() {
            return Err(Fail::from("too few values"));
        }
        let found = &policy[place];
        if found.node != value.0
            || found.index != value.1
            || found.value != parse(value.2.as_bytes())?
        {
            return Err(Fail::from("another policy"));
        }
    }
    Ok(())
}

/// The least cost, where it was found.
fn optimum(report: &Report) -> Option<Frac> {
    match report.finding {
        Finding::Optimal => report.lower,
        _ => None,
    }
}

fn expect_report(report: &Report, wanted: &Wanted) -> Result<(), Fail> {
    let cost = optimum(report).ok_or("no optimum")?;
    if cost == parse(wanted.cost.as_bytes())? {
        expect_policy(report, wanted.policy)
    } else {
        Err(Fail::from("another cost"))
    }
}

fn expect(rt: &(impl Abort + Threads + Sync), alloc: Global, wanted: &Wanted) -> Result<(), Fail> {
    let program = program_of(alloc, wanted.source)?;
    let tail = made(rt, alloc, &program, wanted.level, wanted.weight)??;
    let stated = StatedLimits {
        solves: false,
        pivots: false,
    };
    let answered = session(
        alloc,
        &tail,
        100_000,
        100_000,
        stated,
        &mut Unwatched::new(rt),
    )?;
    expect_report(&answered.report, wanted)
}

#[test]
fn the_larger_cost_of_cover(rt: HostRuntime) -> Result<(), Fail> {
    expect(&rt, rt.alloc(), &COVER_LARGER)
}

#[test]
fn a_mixture_of_cover(rt: HostRuntime) -> Result<(), Fail> {
    expect(&rt, rt.alloc(), &COVER_MIXED)
}

#[test]
fn the_mean_of_cover(rt: HostRuntime) -> Result<(), Fail> {
    expect(&rt, rt.alloc(), &COVER_MEAN)
}

#[test]
fn the_mean_of_the_farm(rt: HostRuntime) -> Result<(), Fail> {
    expect(&rt, rt.alloc(), &FARMER_MEAN)
}

#[test]
fn the_worst_yields_of_the_farm(rt: HostRuntime) -> Result<(), Fail> {
    expect(&rt, rt.alloc(), &FARMER_WORST)
}

/// A core with a column of this name alone.
const NAMED: &str = "\
NAME NAMED
ROWS
 N COST
 G NEED
COLUMNS
 TAIL_U COST 1 NEED 1
RHS
 RHS NEED 1
ENDATA
";

const NAMED_SOURCE: Source<'static> = Source {
    core: NAMED,
    time: "",
    stoch: "",
};

#[test]
fn a_name_is_taken(rt: HostRuntime) -> Result<(), Fail> {
    let alloc = rt.alloc();
    let program = program_of(alloc, NAMED_SOURCE)?;
    match made(&rt, alloc, &program, "0", "1")? {
        Err(TailFault::Name) => Ok(()),
        _ => Err(Fail::from("not refused by its name")),
    }
}

/// A cost of 10^38, of which 2/3 have more than 128 bits.
const WIDE: &str = "\
NAME WIDE
ROWS
 N COST
 G NEED
COLUMNS
 X COST 1E38 NEED 1
RHS
 RHS NEED 1
ENDATA
";

const WIDE_SOURCE: Source<'static> = Source {
    core: WIDE,
    time: "",
    stoch: "",
};

fn passes(fault: &TailFault) -> bool {
    match fault {
        TailFault::Passed(_) => true,
        _ => false,
    }
}

#[test]
fn a_cost_passes(rt: HostRuntime) -> Result<(), Fail> {
    let alloc = rt.alloc();
    let program = program_of(alloc, WIDE_SOURCE)?;
    match &made(&rt, alloc, &program, "0", "1/3")? {
        Err(fault) => {
            assert!(rt; passes(fault));
            Ok(())
        }
        Ok(_) => Err(Fail::from("it doesn't pass")),
    }
}
