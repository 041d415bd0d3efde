// The least costs of programs of scenarios, of means, and with a fixed first period.
use frac128::{Frac, Memory, parse};
use run_watch::Unwatched;
use scen_defs::{Finding, Program, Report, Values};
use scen_tree::Tree;
use smps_session::{StatedLimits, session};
use std::alloc::Global;
use std::process::Abort;
use std::test::Fail;
use std::thread::Threads;
use test_programs::{COVER, FARMER, Source, read_source};
use value_programs::{fixed_program, mean_program, scenario_program};

/// What is wanted of a program.
struct Wanted {
    source: Source<'static>,
    /// The least cost of each scenario by itself.
    scenarios: &'static [&'static str],
    /// That of the means.
    means: &'static str,
    /// The columns of the first period as the means decide them.
    first: &'static [(u32, &'static str)],
    /// The least cost where they are fixed.
    fixed: &'static str,
}

/// A demand of 2 or 6 costs as much where it is known, and 4 in the mean; 4 cost 4, and 2 more cost 3 with probability 1/2.
const COVER_WANTED: Wanted = Wanted {
    source: COVER,
    scenarios: &["2", "6"],
    means: "4",
    first: &[(0, "4")],
    fixed: "11/2",
};

/// As published: a profit of 167,667, 118,600 and 59,950 where the yield is known; 118,600 at the mean yield, by 120, 80 and 300 acres;
/// 107,240 where these are sown.
const FARMER_WANTED: Wanted = Wanted {
    source: FARMER,
    scenarios: &["-503000/3", "-118600", "-59950"],
    means: "-118600",
    first: &[(0, "120"), (1, "80"), (2, "300")],
    fixed: "-107240",
};

/// The lower end of a report that is OPTIMAL.
fn optimum(report: &Report) -> Option<Frac> {
    match report.finding {
        Finding::Optimal => report.lower,
        _ => None,
    }
}

/// The least cost of a program.
fn least_cost(rt: &(impl Threads + Sync), alloc: Global, program: &Program) -> Result<Frac, Fail> {
    let stated = StatedLimits {
        solves: false,
        pivots: false,
    };
    let answered = session(
        alloc,
        program,
        100_000,
        100_000,
        stated,
        &mut Unwatched::new(rt),
    )?;
    Ok(optimum(&answered.report).ok_or("no optimum")?)
}

fn expect_cost(
    rt: &(impl Threads + Sync),
    alloc: Global,
    program: &Program,
    wanted: &str,
) -> Result<(), Fail> {
    let cost = least_cost(rt, alloc, program)?;
    if cost == parse(wanted.as_bytes())? {
        Ok(())
    } else {
        Err(Fail::from("another cost"))
    }
}

/// Puts the value of a column at the first node behind others.
fn put(rt: &impl Abort, values: &mut Values, column: u32, value: Frac) -> Result<(), Memory> {
    assert!(rt; values.ends_before(0, column));
    assert!(rt; !value.is_zero());
    values.push(0, column, value)
}

fn expect(rt: &(impl Abort + Threads + Sync), alloc: Global, wanted: &Wanted) -> Result<(), Fail> {
    let read = read_source(alloc, wanted.source)?;
    let program = read.ok_or("it isn't read")?;
    for (place, cost) in wanted.scenarios.iter().enumerate() {
        if place >= program.scenarios.len() {
            return Err(Fail::from("too few scenarios"));
        }
        let only = scenario_program(alloc, &program, place)?;
        expect_cost(rt, alloc, &only, cost)?;
    }
    if program.nodes.len() > 1_000 {
        return Err(Fail::from("too many nodes"));
    }
    let tree = Tree::of(alloc, &program)?;
    let means = mean_program(alloc, &program, &tree)?;
    expect_cost(rt, alloc, &means, wanted.means)?;
    let mut first = Values::empty(alloc);
    for (column, value) in wanted.first {
        put(rt, &mut first, *column, parse(value.as_bytes())?)?;
    }
    let held = fixed_program(alloc, &program, &first)?;
    expect_cost(rt, alloc, &held, wanted.fixed)
}

#[test]
fn cover_is_valued(rt: HostRuntime) -> Result<(), Fail> {
    expect(&rt, rt.alloc(), &COVER_WANTED)
}

#[test]
fn the_farm_is_valued(rt: HostRuntime) -> Result<(), Fail> {
    expect(&rt, rt.alloc(), &FARMER_WANTED)
}
