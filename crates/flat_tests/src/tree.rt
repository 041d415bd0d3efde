//! A program on a tree: X costs 1 and is decided first; then a demand of 2 or 6 is seen, each with probability
//! 1/2, and Y, which costs 3/2, is decided. X and Y together are at least the demand.
use crate::rows::expect_row;
use frac128::{Frac, Memory, parse};
use scen_model::{
    Halt, Kind, Program, Values, cost, derive, dual_value, feasible, fits, is_direction, zero_value,
};
use std::alloc::Global;
use std::process::Abort;
use std::test::Fail;
use test_programs::{COVER, read_source};

/// Values of columns, each as node, column and value; whether they fit, are feasible and are a direction, and
/// their cost; and whether they are feasible where finite ends are 0 and absent bounds are -1 and 1.
///
/// X is column 0, of node 0; Y is column 1, of the nodes 1 and 2.
const POINTS: &str = "\
0 0 2,2 1 4|fit feasible 5 no
|fit short 0 yes
0 0 2|fit short 2 no
0 0 6|fit feasible 6 no
0 0 1,1 1 1,2 1 5|fit feasible 11/2 no
0 0 2,2 1 3|fit short 17/4 no
0 0 1/2,1 1 1/2|fit short 7/8 yes
0 0 6,1 1 -1|fit short 21/4 no
1 0 6|stray
0 1 6|stray
3 1 1|stray
";

/// Multipliers of the row at the nodes 1 and 2: whether they fit, their value, and that with all costs 0.
///
/// A multiplier above 0 uses the demand; X's reduced cost is 1 less both, Y's 3/4 less its node's. One below 0
/// uses an upper bound or a high end that isn't there.
const DUALS: &str = "\
1 0 1/4,2 0 3/4|fit 5 none
|fit 0 0
1 0 3/4|fit 3/2 none
1 0 1,2 0 1/4|fit none none
1 0 -1|fit none none
0 0 1|stray
1 1 1|stray
";

/// The program above, read of its three files.
pub(crate) fn cover(alloc: Global) -> Result<Program, Fail> {
    let read = read_source(alloc, COVER)?;
    Ok(read.ok_or("COVER isn't read")?)
}

/// A node and an index.
fn place_of(text: &str) -> Result<(u32, u32), Fail> {
    let (node, index) = text.split_once(' ').ok_or("no index")?;
    let node = node.parse::<u32>()?;
    let index = index.parse::<u32>()?;
    Ok((node, index))
}

/// Appends the value of a place.
fn append(values: &mut Values, place: &str, value: &str) -> Result<(), Fail> {
    let (node, index) = place_of(place)?;
    let value = parse(value.as_bytes())?;
    if !values.ends_before(node, index) || value.is_zero() {
        return Err(Fail::from("values out of order"));
    }
    values.push(node, index, value)?;
    Ok(())
}

/// The values of a row of a table.
pub(crate) fn values(alloc: Global, text: &str) -> Result<Values, Fail> {
    let mut values = Values::empty(alloc);
    for item in text.split(',') {
        if let Some((place, value)) = item.rsplit_once(' ') {
            append(&mut values, place, value)?;
        }
    }
    Ok(values)
}

/// Whether a point is feasible where finite ends are 0 and absent bounds are -1 and 1.
fn stays_feasible(alloc: Global, cover: &Program, point: &Values) -> Result<bool, Halt> {
    let recession = derive(alloc, cover, Kind::Recession)?;
    feasible(alloc, &recession, point)
}

/// What a point costs in the run without costs.
fn cost_without_costs(alloc: Global, cover: &Program, point: &Values) -> Result<Frac, Halt> {
    let free = derive(alloc, cover, Kind::Feasible)?;
    cost(alloc, &free, point)
}

/// What the calls say of a point that fits.
fn point_line(alloc: Global, meets: bool, costs: Frac, stays: bool) -> Result<Vec<u8>, Memory> {
    let mut line = b"fit ".to_vec(alloc)?;
    line.extend_from_slice(if meets { b"feasible " } else { b"short " })?;
    frac128::print(alloc, costs, &mut line)?;
    line.extend_from_slice(if stays { b" yes" } else { b" no" })?;
    Ok(line)
}

/// Whether the calls say so of a point that fits.
fn is_described(
    alloc: Global,
    cover: &Program,
    point: &Values,
    expected: &str,
) -> Result<bool, Halt> {
    let meets = feasible(alloc, cover, point)?;
    let costs = cost(alloc, cover, point)?;
    let stays = stays_feasible(alloc, cover, point)?;
    let line = point_line(alloc, meets, costs, stays)?;
    Ok(line.as_slice() == expected.as_bytes())
}

/// Whether the calls answer so of a point that fits.
fn agrees_at_point(
    alloc: Global,
    cover: &Program,
    point: &Values,
    expected: &str,
) -> Result<bool, Halt> {
    let is_so = is_described(alloc, cover, point, expected)?;
    let free = cost_without_costs(alloc, cover, point)?;
    let falls = is_direction(alloc, cover, point)?;
    Ok(is_so && free.is_zero() && !falls)
}

/// Appends the value of multipliers, behind a blank.
fn put(alloc: Global, value: Option<Frac>, line: &mut Vec<u8>) -> Result<(), Memory> {
    line.extend_from_slice(b" ")?;
    match value {
        Some(value) => frac128::print(alloc, value, line),
        None => {
            line.extend_from_slice(b"none")?;
            Ok(())
        }
    }
}

/// A word and two numbers, each of which may be wanting.
fn line_of(
    alloc: Global,
    word: &str,
    first: Option<Frac>,
    second: Option<Frac>,
) -> Result<Vec<u8>, Memory> {
    let mut line = word.as_bytes().to_vec(alloc)?;
    put(alloc, first, &mut line)?;
    put(alloc, second, &mut line)?;
    Ok(line)
}

/// Whether a word and two numbers, each of which may be wanting, are these.
pub(crate) fn is_line(
    alloc: Global,
    word: &str,
    first: Option<Frac>,
    second: Option<Frac>,
    expected: &str,
) -> Result<bool, Memory> {
    let line = line_of(alloc, word, first, second)?;
    Ok(line.as_slice() == expected.as_bytes())
}

/// Whether the calls answer so of multipliers that fit.
fn agrees_at_dual(
    alloc: Global,
    cover: &Program,
    dual: &Values,
    expected: &str,
) -> Result<bool, Halt> {
    let own = dual_value(alloc, cover, dual)?;
    let zero = zero_value(alloc, cover, dual)?;
    Ok(is_line(alloc, "fit", own, zero, expected)?)
}

/// Whether the calls answer so of a point, or of multipliers.
fn agrees(
    alloc: Global,
    cover: &Program,
    values: &Values,
    is_dual: bool,
    expected: &str,
) -> Result<bool, Halt> {
    if !fits(cover, values, is_dual) {
        return Ok(expected == "stray");
    }
    if is_dual {
        agrees_at_dual(alloc, cover, values, expected)
    } else {
        agrees_at_point(alloc, cover, values, expected)
    }
}

/// A row of `POINTS` or of `DUALS` holds.
fn is_row(
    rt: &impl Abort,
    alloc: Global,
    cover: &Program,
    is_dual: bool,
    row: &str,
) -> Result<(), Fail> {
    let (text, expected) = row.split_once('|').ok_or("no answer")?;
    let values = values(alloc, text)?;
    let is_so = agrees(alloc, cover, &values, is_dual, expected)?;
    expect_row(rt, is_so, row);
    Ok(())
}

/// The rows of a table hold.
fn check_table(
    rt: &impl Abort,
    alloc: Global,
    cover: &Program,
    is_dual: bool,
    rows: &str,
) -> Result<(), Fail> {
    for row in rows.lines() {
        is_row(rt, alloc, cover, is_dual, row)?;
    }
    Ok(())
}

/// The rows of both tables hold.
fn check_tables(rt: &impl Abort, alloc: Global, cover: &Program) -> Result<(), Fail> {
    check_table(rt, alloc, cover, false, POINTS)?;
    check_table(rt, alloc, cover, true, DUALS)
}

#[test]
fn calls_on_a_tree(rt: HostRuntime) -> Result<(), Fail> {
    let cover = cover(rt.alloc())?;
    check_tables(&rt, rt.alloc(), &cover)
}
