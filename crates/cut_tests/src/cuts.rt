//! Cuts, their repairs and their assemblies.
use crate::fixtures::{
    dear_leaf, is_count, is_number, is_text, leaf_cut, made, root_cut, single, write,
};
use cut_proof::{Cut, CutFault, NodeDatum, SharedCut, Shift, shifted};
use dual_assemble::{assemble, ground_cut, join_policy};
use frac128::{ArithmeticFault, Form, Frac, Memory, parse, print};
use scen_defs::Values;
use std::alloc::Global;
use std::process::Abort;
use std::test::Fail;

/// The row's end and its multiplier, and the constant and the coefficient of X.
const CUTS: &str = "\
6 3/2=9 -3/2
6 1=6 -1
6 2=not good
6 -1=not good
170141183460469231731687303715884105727 3/2=passes
";

/// By how much the row's end rises, the version then, and the constant of the repair.
const REPAIRS: &str = "\
4 1=15
-6 1=0
4 2=none
1E38 1=150000000000000000000000000000000000009
15E37 1=passes
";

/// The two numbers of a row, with a blank between them, and what is expected of them.
fn parts(row: &str) -> Result<(&str, &str, &str), Fail> {
    let (words, expected) = row.split_once('=').ok_or("no answer")?;
    let (first, second) = words.split_once(' ').ok_or("one number")?;
    Ok((first, second, expected))
}

fn number(alloc: Global, value: Frac) -> Result<Vec<u8>, Memory> {
    let mut out = Vec::new(alloc);
    print(alloc, value, &mut out)?;
    Ok(out)
}

/// The constant and the coefficient of X.
fn described(alloc: Global, cut: &Cut) -> Result<Vec<u8>, Memory> {
    let mut out = number(alloc, cut.constant())?;
    write(alloc, cut.form().get(0), &mut out)?;
    Ok(out)
}

fn word(alloc: Global, text: &str) -> Result<Vec<u8>, Memory> {
    let mut out = Vec::new(alloc);
    out.extend_from_slice(text.as_bytes())?;
    Ok(out)
}

/// The constant and the coefficient of X, or why there is no cut.
fn cut_text(alloc: Global, made: &Result<Cut, CutFault>) -> Result<Vec<u8>, Fail> {
    let text = match made {
        Ok(cut) => described(alloc, cut)?,
        Err(CutFault::NotGood) => word(alloc, "not good")?,
        Err(CutFault::Passed(_)) => word(alloc, "passes")?,
        Err(CutFault::Memory) => return Err(Fail::from("memory")),
    };
    Ok(text)
}

/// What is made where the row of node 1 is at least `low`.
fn made_text(rt: &impl Abort, alloc: Global, low: Frac, multiplier: Frac) -> Result<Vec<u8>, Fail> {
    cut_text(alloc, &made(rt, alloc, low, multiplier)?)
}

/// A row about a cut holds.
fn is_made_so(rt: &impl Abort, alloc: Global, row: &str) -> Result<(), Fail> {
    let (low, multiplier, expected) = parts(row)?;
    let low = parse(low.as_bytes())?;
    let multiplier = parse(multiplier.as_bytes())?;
    let found = made_text(rt, alloc, low, multiplier)?;
    is_text(rt, &found, expected, row);
    Ok(())
}

#[test]
fn cuts(rt: HostRuntime) -> Result<(), Fail> {
    for row in CUTS.lines() {
        is_made_so(&rt, rt.alloc(), row)?;
    }
    Ok(())
}

/// The constant of the repair, or why there is none.
fn repair_text(
    alloc: Global,
    repair: &Result<Option<SharedCut>, ArithmeticFault>,
) -> Result<Vec<u8>, Fail> {
    let text = match repair {
        Ok(Some(new)) => number(alloc, new.cut().constant())?,
        Ok(None) => word(alloc, "none")?,
        Err(ArithmeticFault::Passed(_)) => word(alloc, "passes")?,
        Err(ArithmeticFault::Memory) => return Err(Fail::from("memory")),
    };
    Ok(text)
}

/// The constant of the repair where the end of the row of node 1 rises by a number, or why there is none.
fn repaired(
    rt: &impl Abort,
    alloc: Global,
    cut: &SharedCut,
    by: Frac,
    version: u32,
) -> Result<Vec<u8>, Fail> {
    assert!(rt; version > 0);
    let shift = Shift {
        node: 1,
        row: 0,
        by,
        version,
    };
    repair_text(alloc, &shifted(alloc, cut, &shift))
}

/// A row about a repair of the cut holds.
fn is_repaired_so(rt: &impl Abort, alloc: Global, cut: &SharedCut, row: &str) -> Result<(), Fail> {
    let (by, version, expected) = parts(row)?;
    let version = if version == "1" { 1 } else { 2 };
    let found = repaired(rt, alloc, cut, parse(by.as_bytes())?, version)?;
    is_text(rt, &found, expected, row);
    Ok(())
}

/// All rows about repairs of the cut hold.
fn are_repaired(rt: &impl Abort, alloc: Global, cut: &SharedCut) -> Result<(), Fail> {
    for row in REPAIRS.lines() {
        is_repaired_so(rt, alloc, cut, row)?;
    }
    Ok(())
}

#[test]
fn repairs(rt: HostRuntime) -> Result<(), Fail> {
    let cut = leaf_cut(&rt, rt.alloc())?;
    are_repaired(&rt, rt.alloc(), &cut)
}

/// The one value is this number at this row or column of node 1.
fn is_lone(rt: &impl Abort, values: &Values, place: u32, value: Frac) {
    is_count(rt, values.items().len() as u64, 1, "the values");
    is_number(rt, values.get(1, place as u64), value, "the value");
}

/// The multiplier of the child's row is 3/2, and there is no other.
fn has_dual(rt: &impl Abort, alloc: Global, cut: &Cut) -> Result<(), Fail> {
    let multiplier = parse(b"3/2")?;
    is_lone(rt, &assemble(alloc, cut)?, 0, multiplier);
    Ok(())
}

/// After a repair by 4 the root's cut is worth 6 more.
fn is_raised(rt: &impl Abort, alloc: Global, cut: &SharedCut) -> Result<(), Fail> {
    let new = repaired(rt, alloc, cut, Frac::from_int(4), 1)?;
    is_text(rt, &new, "10", "the repair of the root's cut");
    Ok(())
}

/// The cut of the root is worth 4 and rests on four versions, and what is made of it.
fn is_of_root(rt: &impl Abort, alloc: Global, shared: &SharedCut) -> Result<(), Fail> {
    let cut = shared.cut();
    is_number(rt, cut.constant(), Frac::from_int(4), "the constant");
    is_count(rt, cut.form().len() as u64, 0, "the coefficients");
    is_count(rt, cut.support().len() as u64, 4, "the support");
    has_dual(rt, alloc, cut)?;
    is_raised(rt, alloc, shared)
}

/// At X = 10 the root's cut is worth 9 and -1/2 times 10.
#[test]
fn used_cuts(rt: HostRuntime) -> Result<(), Fail> {
    let cut = root_cut(&rt, rt.alloc())?;
    is_of_root(&rt, rt.alloc(), &cut)
}

/// The dual 3/4 at node 1.
fn lone_dual(rt: &impl Abort, alloc: Global) -> Result<Values, Fail> {
    let value = parse(b"3/4")?;
    assert!(rt; !value.is_zero());
    let mut dual = Values::empty(alloc);
    assert!(rt; dual.ends_before(1, 0));
    dual.push(1, 0, value)?;
    Ok(dual)
}

/// The cut that the dual 3/4 makes for a node whose total is 1/2.
fn ground_cut_of(rt: &impl Abort, alloc: Global, datum: &NodeDatum) -> Result<SharedCut, Fail> {
    let total = parse(b"1/2")?;
    let dual = lone_dual(rt, alloc)?;
    Ok(ground_cut(alloc, datum, total, &dual, &[])?)
}

/// The cut that the dual 3/4 makes for node 1.
fn made_by_dual(rt: &impl Abort, alloc: Global) -> Result<SharedCut, Fail> {
    ground_cut_of(rt, alloc, &dear_leaf(rt, alloc, Frac::from_int(6))?)
}

/// The constant is 9, and the coefficient of X is -3/2.
fn is_described(rt: &impl Abort, alloc: Global, cut: &Cut) -> Result<(), Fail> {
    let text = described(alloc, cut)?;
    is_text(rt, &text, "9 -3/2", "the ground cut");
    Ok(())
}

/// At X = 2 the cut is worth 6.
fn is_worth_six(rt: &impl Abort, alloc: Global, cut: &Cut) -> Result<(), Fail> {
    let trial = single(rt, alloc, 0, Frac::from_int(2))?;
    let worth = cut.at(&trial)?;
    is_number(rt, worth, Frac::from_int(6), "the worth");
    Ok(())
}

/// Both hold of the cut.
fn is_ground(rt: &impl Abort, alloc: Global, cut: &Cut) -> Result<(), Fail> {
    is_described(rt, alloc, cut)?;
    is_worth_six(rt, alloc, cut)
}

/// From the dual 3/4 comes the cut at 3/2.
#[test]
fn ground(rt: HostRuntime) -> Result<(), Fail> {
    let cut = made_by_dual(&rt, rt.alloc())?;
    is_ground(&rt, rt.alloc(), cut.cut())
}

/// No point of node 0, and one of node 1.
fn points(rt: &impl Abort, alloc: Global) -> Result<Vec<Option<Form>>, Fail> {
    let point = single(rt, alloc, 3, Frac::from_int(7))?;
    let mut points = Vec::new(alloc);
    points.push(None)?;
    points.push(Some(point))?;
    Ok(points)
}

#[test]
fn policies(rt: HostRuntime) -> Result<(), Fail> {
    let points = points(&rt, rt.alloc())?;
    let policy = join_policy(rt.alloc(), &points)?;
    is_lone(&rt, &policy, 3, Frac::from_int(7));
    Ok(())
}
