// A node with a row X + Y, which costs something for each Y, and a root that decides X.
use cut_proof::{ColumnBounds, Cut, CutFault, CutKind, NodeDatum, Record, Share, SharedCut, Used};
use frac128::{Form, Frac, Memory, parse, print};
use scen_defs::NodeRow;
use std::alloc::Global;
use std::process::Abort;
use std::test::Fail;

/// The form with one value.
pub fn single(rt: &impl Abort, alloc: Global, column: u64, value: Frac) -> Result<Form, Memory> {
    assert!(rt; !value.is_zero());
    let mut form = Form::empty(alloc);
    form.push(column, value)?;
    Ok(form)
}

/// X + Y.
fn sum(rt: &impl Abort, alloc: Global) -> Result<Form, Memory> {
    let one = Frac::one();
    assert!(rt; !one.is_zero());
    let mut entries = Form::empty(alloc);
    entries.push(0, one)?;
    entries.push(1, one)?;
    Ok(entries)
}

/// X + Y, at least `low`.
fn rows(rt: &impl Abort, alloc: Global, row: u32, low: Frac) -> Result<Vec<NodeRow>, Memory> {
    let entries = sum(rt, alloc)?;
    let mut rows = Vec::new(alloc);
    rows.push(NodeRow {
        row,
        entries,
        low: Some(low),
        high: None,
    })?;
    Ok(rows)
}

/// The one child, which is certain.
fn only_child(alloc: Global) -> Result<Vec<Share>, Memory> {
    let mut shares = Vec::new(alloc);
    shares.push(Share {
        child: 1,
        share: Frac::one(),
    })?;
    Ok(shares)
}

/// The node whose number is that of its one own column, with this cost of the column.
fn datum(
    rt: &impl Abort,
    alloc: Global,
    cost: Frac,
    own: ColumnBounds,
    rows: Vec<NodeRow>,
    shares: Vec<Share>,
) -> Result<NodeDatum, Fail> {
    let mut bounds = Vec::new(alloc);
    bounds.push(own)?;
    let cost = single(rt, alloc, own.column as u64, cost)?;
    let datum = NodeDatum::try_new(own.column, 0, 0, cost, rows, bounds, shares);
    Ok(datum.ok_or("no datum")?)
}

/// Node 1, whose row is at least `low`. Its own column Y has this cost, and is at least 0 and at most `upper`.
pub fn leaf(
    rt: &impl Abort,
    alloc: Global,
    row: u32,
    low: Frac,
    cost: Frac,
    upper: Option<Frac>,
) -> Result<NodeDatum, Fail> {
    let rows = rows(rt, alloc, row, low)?;
    let own = ColumnBounds {
        column: 1,
        lower: Some(Frac::zero()),
        upper,
    };
    datum(rt, alloc, cost, own, rows, Vec::new(alloc))
}

/// Node 1, whose row 0 is at least `low`, and whose column costs 3/2.
pub fn dear_leaf(rt: &impl Abort, alloc: Global, low: Frac) -> Result<NodeDatum, Fail> {
    leaf(rt, alloc, 0, low, parse(b"3/2")?, None)
}

/// Node 0, whose column X has this cost and these bounds, and whose one child is node 1.
pub fn root(
    rt: &impl Abort,
    alloc: Global,
    cost: i64,
    lower: i64,
    upper: i64,
) -> Result<NodeDatum, Fail> {
    let shares = only_child(alloc)?;
    let own = ColumnBounds {
        column: 0,
        lower: Some(Frac::from_int(lower)),
        upper: Some(Frac::from_int(upper)),
    };
    datum(
        rt,
        alloc,
        Frac::from_int(cost),
        own,
        Vec::new(alloc),
        shares,
    )
}

/// The record of node 1 with this multiplier of its row.
fn record(rt: &impl Abort, alloc: Global, multiplier: Frac) -> Result<Record, Memory> {
    Ok(Record {
        node: 1,
        kind: CutKind::Bound,
        rows_version: 0,
        costs_version: 0,
        multipliers: single(rt, alloc, 0, multiplier)?,
        used: Vec::new(alloc),
    })
}

/// The Bound cut of a leaf with this multiplier of its row, or why there is none.
fn cut_of(
    rt: &impl Abort,
    alloc: Global,
    datum: &NodeDatum,
    multiplier: Frac,
) -> Result<Result<Cut, CutFault>, Fail> {
    Ok(Cut::of(alloc, record(rt, alloc, multiplier)?, datum))
}

/// The Bound cut of node 1 where its row is at least `low`, or why there is none.
pub fn made(
    rt: &impl Abort,
    alloc: Global,
    low: Frac,
    multiplier: Frac,
) -> Result<Result<Cut, CutFault>, Fail> {
    cut_of(rt, alloc, &dear_leaf(rt, alloc, low)?, multiplier)
}

/// A cut that is made.
fn shared(alloc: Global, made: Result<Cut, CutFault>) -> Result<SharedCut, Fail> {
    Ok(SharedCut::new(alloc, made?)?)
}

/// The Bound cut of node 1 at 3/2, where its row is at least 6.
pub fn leaf_cut(rt: &impl Abort, alloc: Global) -> Result<SharedCut, Fail> {
    let multiplier = parse(b"3/2")?;
    shared(alloc, made(rt, alloc, Frac::from_int(6), multiplier)?)
}

/// The record of node 0 that uses this cut.
fn root_record(alloc: Global, cut: SharedCut) -> Result<Record, Memory> {
    let mut used = Vec::new(alloc);
    used.push(Used {
        weight: Frac::one(),
        cut,
    })?;
    Ok(Record {
        node: 0,
        kind: CutKind::Bound,
        rows_version: 0,
        costs_version: 0,
        multipliers: Form::empty(alloc),
        used,
    })
}

/// The Bound cut of this root that uses the cut of node 1.
fn root_cut_of(rt: &impl Abort, alloc: Global, datum: &NodeDatum) -> Result<SharedCut, Fail> {
    let record = root_record(alloc, leaf_cut(rt, alloc)?)?;
    shared(alloc, Cut::of(alloc, record, datum))
}

/// The Bound cut that uses the cut of node 1, of node 0 whose column X costs 1 and is between 0 and 10.
pub fn root_cut(rt: &impl Abort, alloc: Global) -> Result<SharedCut, Fail> {
    root_cut_of(rt, alloc, &root(rt, alloc, 1, 0, 10)?)
}

/// Appends a number behind a blank.
pub fn write(alloc: Global, value: Frac, out: &mut Vec<u8>) -> Result<(), Memory> {
    out.extend_from_slice(b" ")?;
    print(alloc, value, out)
}

/// A number that was found is the one that was expected.
pub fn is_number(rt: &impl Abort, found: Frac, expected: Frac, name: &str) {
    assert_eq!(rt; found, expected, "{name}");
}

/// As many were found as were expected.
pub fn is_count(rt: &impl Abort, found: u64, expected: u64, name: &str) {
    assert_eq!(rt; found, expected, "{name}");
}

/// What was found is what was expected of a row.
pub fn is_text(rt: &impl Abort, found: &[u8], expected: &str, row: &str) {
    assert_eq!(rt; found, expected.as_bytes(), "{row}");
}
