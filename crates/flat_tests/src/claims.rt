//! Reports of claims of the program on a tree: what its lists show, by hand.
use crate::rows::expect_row;
use crate::tree::{cover, is_line, values};
use frac128::{Frac, Passed};
use proved_report::{Claim, Open, report};
use rationals::Op;
use scen_model::{Finding, Place, Program, Report, Values};
use std::alloc::Global;
use std::process::Abort;
use std::test::Fail;

/// A policy and a dual, each as node, index and value, `-` for none; then the finding, the lower and the upper end.
///
/// The least cost is 5. At 2^127 - 1 for X and 1 for Y the row's sum passes 128 bits at node 1.
const ENDS: &str = "\
0 0 2,2 1 4|1 0 1/4,2 0 3/4|optimal 5 5
0 0 6|1 0 1/4,2 0 3/4|solves 5 6
0 0 2,2 1 4|-|solves none 5
-|1 0 3/4|solves 3/2 none
-|-|solves none none
0 0 2,2 1 3|1 0 1,2 0 1/4|solves none none
0 1 6|0 0 1|solves none none
3 1 1|1 1 1|solves none none
0 0 170141183460469231731687303715884105727,1 1 1|1 0 1/4,2 0 3/4|passed 5 none
-|1 0 170141183460469231731687303715884105727,2 0 1|passed none none
";

/// Rays, and policies with directions: none shows itself.
const RAYS: &str = "\
1 0 1/4,2 0 3/4|solves none none
|solves none none
0 0 1|solves none none
";

const DIRECTIONS: &str = "\
0 0 2,2 1 4|0 0 1|solves none 5
0 0 2|0 0 -1|solves none none
";

/// What the lists of a table claim.
#[derive(Clone, Copy)]
enum Table {
    Ends,
    Rays,
    Directions,
}

/// The values of a column of a table.
fn listed(alloc: Global, text: &str) -> Result<Option<Values>, Fail> {
    if text == "-" {
        return Ok(None);
    }
    let values = values(alloc, text)?;
    Ok(Some(values))
}

fn word(finding: Finding) -> &'static str {
    match finding {
        Finding::Optimal => "optimal",
        Finding::Infeasible => "infeasible",
        Finding::Unbounded => "unbounded",
        Finding::OpenSolves(_) => "solves",
        Finding::OpenPivots(_) => "pivots",
        Finding::OpenPassed(_, _) => "passed",
    }
}

/// Whether a report has this finding and these ends, with their lists, and the counts of the program.
fn agrees(alloc: Global, report: &Report, expected: &str) -> Result<bool, Fail> {
    let is_said = is_line(
        alloc,
        word(report.finding),
        report.lower,
        report.upper,
        expected,
    )?;
    Ok(
        is_said
            && report.lower.is_some() == report.dual.is_some()
            && report.upper.is_some() == report.policy.is_some()
            && report.nodes == 3
            && report.scenarios == 2,
    )
}

/// Whether the report of a claim is so.
fn is_claimed_so(
    alloc: Global,
    cover: &Program,
    claim: Claim,
    why: Open,
    expected: &str,
) -> Result<bool, Fail> {
    let report = report(alloc, cover, 1, claim, Place::Cost(7), why, 9)?;
    agrees(alloc, &report, expected)
}

/// A policy and a dual, each of which may be wanting.
fn ends(alloc: Global, lists: &str) -> Result<Claim, Fail> {
    let (policy, dual) = lists.split_once('|').ok_or("no dual")?;
    let policy = listed(alloc, policy)?;
    let dual = listed(alloc, dual)?;
    Ok(Claim::Ends { policy, dual })
}

/// A policy and a direction.
fn endless(alloc: Global, lists: &str) -> Result<Claim, Fail> {
    let (policy, direction) = lists.split_once('|').ok_or("no direction")?;
    let policy = values(alloc, policy)?;
    let direction = values(alloc, direction)?;
    Ok(Claim::Endless { policy, direction })
}

/// What the lists of a row claim.
fn claim_of(alloc: Global, table: Table, lists: &str) -> Result<Claim, Fail> {
    match table {
        Table::Ends => ends(alloc, lists),
        Table::Rays => {
            let ray = values(alloc, lists)?;
            Ok(Claim::Nowhere { ray })
        }
        Table::Directions => endless(alloc, lists),
    }
}

/// A row of a table holds.
fn is_row(
    rt: &impl Abort,
    alloc: Global,
    cover: &Program,
    table: Table,
    row: &str,
) -> Result<(), Fail> {
    let (lists, expected) = row.rsplit_once('|').ok_or("no answer")?;
    let claim = claim_of(alloc, table, lists)?;
    let is_so = is_claimed_so(alloc, cover, claim, Open::Solves(3), expected)?;
    expect_row(rt, is_so, row);
    Ok(())
}

/// The rows of a table hold.
fn check_table(
    rt: &impl Abort,
    alloc: Global,
    cover: &Program,
    table: Table,
    rows: &str,
) -> Result<(), Fail> {
    for row in rows.lines() {
        is_row(rt, alloc, cover, table, row)?;
    }
    Ok(())
}

/// The rows of all tables hold.
fn check_tables(rt: &impl Abort, alloc: Global, cover: &Program) -> Result<(), Fail> {
    check_table(rt, alloc, cover, Table::Ends, ENDS)?;
    check_table(rt, alloc, cover, Table::Rays, RAYS)?;
    check_table(rt, alloc, cover, Table::Directions, DIRECTIONS)
}

#[test]
fn claims_on_a_tree(rt: HostRuntime) -> Result<(), Fail> {
    let cover = cover(rt.alloc())?;
    check_tables(&rt, rt.alloc(), &cover)
}

/// Where the sum of a number with itself is told to pass, the report of no lists is so.
fn is_told_so(
    rt: &impl Abort,
    alloc: Global,
    cover: &Program,
    number: Frac,
    expected: &str,
) -> Result<(), Fail> {
    let passed = Passed {
        a: number,
        b: number,
        op: Op::Add,
    };
    let none = Claim::Ends {
        policy: None,
        dual: None,
    };
    let why = Open::Passed(Place::Solve(2), passed);
    expect_row(
        rt,
        is_claimed_so(alloc, cover, none, why, expected)?,
        expected,
    );
    Ok(())
}

/// 1 + 1 doesn't pass, twice 2^127 - 1 does.
fn check_told(rt: &impl Abort, alloc: Global, cover: &Program) -> Result<(), Fail> {
    let large = Frac::new(i128::MAX, 1).ok_or("too wide")?;
    is_told_so(rt, alloc, cover, Frac::one(), "solves none none")?;
    is_told_so(rt, alloc, cover, large, "passed none none")
}

/// An operation that is told passes.
#[test]
fn told_operations_pass(rt: HostRuntime) -> Result<(), Fail> {
    let cover = cover(rt.alloc())?;
    check_told(&rt, rt.alloc(), &cover)
}
