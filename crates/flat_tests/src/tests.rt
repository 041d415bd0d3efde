//! Two rows, A and B at most 4, A and three times B at most 6, at costs -3 and -2: each point and each
//! dual of a grid, beside plain sums of whole numbers.
use frac128::Frac;
use scen_model::{Halt, Program, Values, cost, dual_value, feasible, is_direction, zero_value};
use std::alloc::Global;
use std::process::Abort;
use std::test::Fail;
use test_programs::{Source, read_source};

const MIX: &str =
    "NAME MIX\nROWS\n N COST\n L LIM1\n L LIM2\nCOLUMNS\n A COST -3 LIM1 1\n A LIM2 1\n B COST -2 LIM1 1\n B LIM2 3\n\
    RHS\n RHS LIM1 4 LIM2 6\nENDATA\n";

/// The program of a core file.
pub(crate) fn program(alloc: Global, core: &str) -> Result<Program, Fail> {
    let text = Source {
        core,
        time: "",
        stoch: "",
    };
    let read = read_source(alloc, text)?;
    Ok(read.ok_or("a core file that is refused")?)
}

fn put(values: &mut Values, index: u32, number: i64) -> Result<(), Fail> {
    let value = Frac::from_int(number);
    if values.ends_before(0, index) && !value.is_zero() {
        values.push(0, index, value)?;
    }
    Ok(())
}

fn pair(alloc: Global, first: i64, second: i64) -> Result<Values, Fail> {
    let mut values = Values::empty(alloc);
    put(&mut values, 0, first)?;
    put(&mut values, 1, second)?;
    Ok(values)
}

/// Whether the calls find a point feasible or not, at this cost, and no direction.
fn is_point(
    alloc: Global,
    mix: &Program,
    point: &Values,
    meets: bool,
    costs: Frac,
) -> Result<bool, Halt> {
    Ok(
        feasible(alloc, mix, point)? == meets
            && cost(alloc, mix, point)? == costs
            && !is_direction(alloc, mix, point)?,
    )
}

/// Whether the calls answer as the plain sums do at a point.
fn agrees_at_point(alloc: Global, mix: &Program, a: i8, b: i8) -> Result<bool, Fail> {
    let x = i64::from(a);
    let y = i64::from(b);
    let meets = x >= 0 && y >= 0 && x + y <= 4 && x + 3 * y <= 6;
    let costs = Frac::from_int(-3 * x - 2 * y);
    let point = pair(alloc, x, y)?;
    Ok(is_point(alloc, mix, &point, meets, costs)?)
}

/// Whether the calls give a dual this value where it is good, and the same where it is good with all costs 0.
fn is_dual(
    alloc: Global,
    mix: &Program,
    dual: &Values,
    good: bool,
    zero_good: bool,
    value: Frac,
) -> Result<bool, Halt> {
    let want = if good { Some(value) } else { None };
    let zero_want = if zero_good { Some(value) } else { None };
    Ok(dual_value(alloc, mix, dual)? == want && zero_value(alloc, mix, dual)? == zero_want)
}

/// Whether the calls answer as the plain sums do at a dual, where A and B cost no less than its rows are worth to them.
fn agrees_at_dual(alloc: Global, mix: &Program, a: i8, b: i8) -> Result<bool, Fail> {
    let y = i64::from(a);
    let z = i64::from(b);
    let of_a = y + z;
    let of_b = y + 3 * z;
    let signs = y <= 0 && z <= 0;
    let good = signs && of_a <= -3 && of_b <= -2;
    let zero_good = signs && of_a <= 0 && of_b <= 0;
    let value = Frac::from_int(4 * y + 6 * z);
    let dual = pair(alloc, y, z)?;
    Ok(is_dual(alloc, mix, &dual, good, zero_good, value)?)
}

/// Where the calls don't answer so, the test ends, by the numbers of the point or the dual.
fn expect_at(rt: &impl Abort, is_so: bool, kind: &str, a: i8, b: i8) {
    assert!(rt; is_so, "at the {kind} {a} {b}");
}

/// The calls answer as the plain sums do on the whole grid.
fn check_grid(rt: &impl Abort, alloc: Global, mix: &Program) -> Result<(), Fail> {
    for a in -4i8..7 {
        for b in -3i8..4 {
            expect_at(rt, agrees_at_point(alloc, mix, a, b)?, "point", a, b);
            expect_at(rt, agrees_at_dual(alloc, mix, a, b)?, "dual", a, b);
        }
    }
    Ok(())
}

#[test]
fn calls_beside_plain_sums(rt: HostRuntime) -> Result<(), Fail> {
    let mix = program(rt.alloc(), MIX)?;
    check_grid(&rt, rt.alloc(), &mix)
}
