//! Guesses at the nodes of `node`, right ones and wrong ones. No pivot is allowed, so a guess that fails its test leaves no answer.
use crate::fixtures::{leaf, root, single};
use crate::node::{children, is_told};
use cut_proof::NodeDatum;
use frac128::{Form, Frac, parse};
use node_lp::{Guess, Multipliers, Solved, Task, fits, solve_node};
use scen_defs::Kind;
use std::alloc::Global;
use std::process::Abort;
use std::test::Fail;

/// What is told where a guess fails its test: the pivots have ended.
const REFUSED: &str = "another end";

/// What is told of a guess at node 1 at x = 2.
fn child_told(
    rt: &impl Abort,
    alloc: Global,
    kind: Kind,
    datum: NodeDatum,
    guess: Guess,
) -> Result<Solved, Fail> {
    let trial = single(rt, alloc, 0, Frac::from_int(2))?;
    let task = Task {
        kind,
        datum,
        trial,
        children: Vec::new(alloc),
        pivots: 0,
    };
    assert!(rt; fits(&task));
    Ok(solve_node(alloc, &task, Some(guess))?)
}

/// What is told of a guess at node 0 in a Cost run.
fn root_told(rt: &impl Abort, alloc: Global, guess: Guess) -> Result<Solved, Fail> {
    let task = Task {
        kind: Kind::Cost,
        datum: root(rt, alloc, 2, 1, 4)?,
        trial: Form::empty(alloc),
        children: children(rt, alloc)?,
        pivots: 0,
    };
    assert!(rt; fits(&task));
    Ok(solve_node(alloc, &task, Some(guess))?)
}

/// Node 1, whose column Y is at most `upper`.
fn child(rt: &impl Abort, alloc: Global, upper: i64) -> Result<NodeDatum, Fail> {
    let upper = Some(Frac::from_int(upper));
    leaf(rt, alloc, 1, Frac::from_int(5), Frac::one(), upper)
}

/// The multiplier of the row of node 1.
fn of_row(rt: &impl Abort, alloc: Global, multiplier: &str) -> Result<Multipliers, Fail> {
    Ok(Multipliers {
        rows: single(rt, alloc, 1, parse(multiplier.as_bytes())?)?,
        weights: Vec::new(alloc),
    })
}

/// A value of Y, with a multiplier of the row.
fn of_child(rt: &impl Abort, alloc: Global, value: &str, multiplier: &str) -> Result<Guess, Fail> {
    let point = single(rt, alloc, 1, parse(value.as_bytes())?)?;
    let multipliers = of_row(rt, alloc, multiplier)?;
    Ok(Guess::Point {
        point,
        costs: Vec::new(alloc),
        multipliers,
    })
}

/// X = 4, where the child costs 1, with the weights of the child's Bound cut and of its Ray cut.
fn of_root(rt: &impl Abort, alloc: Global, bound: &str, ray: &str) -> Result<Guess, Fail> {
    let point = single(rt, alloc, 0, Frac::from_int(4))?;
    let costs = Vec::from_array(alloc, [Frac::one()])?;
    let weights = Vec::from_array(alloc, [parse(bound.as_bytes())?, parse(ray.as_bytes())?])?;
    Ok(Guess::Point {
        point,
        costs,
        multipliers: Multipliers {
            rows: Form::empty(alloc),
            weights,
        },
    })
}

/// A point of node 1 is told so, where Y is at most `upper`.
fn point_is(
    rt: &impl Abort,
    alloc: Global,
    kind: Kind,
    upper: i64,
    guess: Guess,
    expected: &str,
) -> Result<(), Fail> {
    let datum = child(rt, alloc, upper)?;
    let told = child_told(rt, alloc, kind, datum, guess)?;
    is_told(rt, alloc, &told, expected)
}

/// Weights of the cuts about the child of node 0 are told so.
fn weights_are(
    rt: &impl Abort,
    alloc: Global,
    bound: &str,
    ray: &str,
    expected: &str,
) -> Result<(), Fail> {
    let guess = of_root(rt, alloc, bound, ray)?;
    let told = root_told(rt, alloc, guess)?;
    is_told(rt, alloc, &told, expected)
}

/// The multiplier 1 of the row shows that there is no point, where Y is at most `upper`, or it doesn't.
fn ray_is(rt: &impl Abort, alloc: Global, upper: i64, expected: &str) -> Result<(), Fail> {
    let guess = Guess::NoPoint(of_row(rt, alloc, "1")?);
    point_is(rt, alloc, Kind::Cost, upper, guess, expected)
}

#[test]
fn points(rt: HostRuntime) -> Result<(), Fail> {
    let alloc = rt.alloc();
    let right = of_child(&rt, alloc, "3", "1")?;
    point_is(&rt, alloc, Kind::Cost, 10, right, "point 0 3 3 cut 5 -1 0")?;
    // the row x + y is at least 5, and comes to 10^-30 less
    let below = of_child(&rt, alloc, "2.999999999999999999999999999999", "1")?;
    point_is(&rt, alloc, Kind::Feasible, 10, below, REFUSED)?;
    // y is at most 3, and exceeds it by 10^-30
    let above = of_child(&rt, alloc, "3.000000000000000000000000000001", "1")?;
    point_is(&rt, alloc, Kind::Feasible, 3, above, REFUSED)
}

#[test]
fn multipliers(rt: HostRuntime) -> Result<(), Fail> {
    let alloc = rt.alloc();
    let turned = of_child(&rt, alloc, "3", "-1")?;
    point_is(&rt, alloc, Kind::Cost, 10, turned, REFUSED)?;
    // they are good, and worth less than the point costs
    let less = of_child(&rt, alloc, "3", "0.999999999999999999999999999999")?;
    point_is(&rt, alloc, Kind::Cost, 10, less, REFUSED)?;
    ray_is(&rt, alloc, 1, " cut 4 -1 0")?;
    // worth 0
    ray_is(&rt, alloc, 3, REFUSED)
}

#[test]
fn weights(rt: HostRuntime) -> Result<(), Fail> {
    let alloc = rt.alloc();
    weights_are(&rt, alloc, "1", "1", "point 4 0 9 cut 9 0 0")?;
    // less than the share
    weights_are(&rt, alloc, "1/2", "3/2", REFUSED)?;
    // more than the share, though their cut has the point's cost
    weights_are(&rt, alloc, "3/2", "1/3", REFUSED)
}
