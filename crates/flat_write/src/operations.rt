//! The operations whose values the text has.
ghost use Rattle.std.specs.Prelude.{◌≡◌, IfOk};
ghost use Rattle.rationals.specs.Rational.{zero_ℚ};
ghost use Rattle.scen_defs.specs.Lists.{is_in};
ghost use Rattle.scen_defs.specs.Program.{content, view_of, scenarios_content};
ghost use Rattle.scen_defs.specs.Walks.{total_from};
ghost use Rattle.flat_write.specs.Operations.{each_walk, or_zero, node_total, price, prices, operations};
ghost use Rattle.flat_write.specs.Operations.{span_by, span, row_span, row_spans};

use crate::lists::{columns_at, rows_at};
use frac128::{Frac, Memory, Passed};
use scen_defs::{NodeRow, Program, Scenario};
use scen_nodes::find;
use std::alloc::Global;

/// The value of an operation, 0 where it passes.
pub(crate) fn or_zero(value: Result<Frac, Passed>) -> Frac
    ensures { result ≡ or_zero value }
{
    match value {
        Ok(number) => number,
        Err(_passed) => Frac::zero(),
    }
}

/// Whether a path has the node.
fn is_on(path: &[u32], node: u64) -> bool
    ensures { result ≡ is_in node path.now }
{
    for place in path {
        if *place as u64 == node {
            return true;
        }
    }
    false
}

/// The probability of all scenarios through a node.
fn total_from(scenarios: &[Scenario], node: u64) -> Result<Frac, Passed>
    ensures { result ≡ total_from node zero_ℚ (scenarios_content scenarios.now) }
{
    let mut sum = Frac::zero();
    for scenario in scenarios {
        if is_on(&scenario.path, node) {
            sum = sum.add(scenario.probability)?;
        }
    }
    Ok(sum)
}

/// The probability of all scenarios through a node of a program.
pub(crate) fn node_total(program: &Program, node: u64) -> Result<Frac, Passed>
    ensures { result ≡ node_total (view_of (content program.now)) node }
{
    total_from(&program.scenarios, node)
}

/// What a column costs at a node, times the node's total.
pub(crate) fn price(program: &Program, total: Frac, node: u64, column: u64) -> Result<Frac, Passed>
    ensures { result ≡ price (view_of (content program.now)) total node column }
{
    match find(&program.nodes, node) {
        Some(found) => total.mul(found.cost.get(column)),
        None => total.mul(Frac::zero()),
    }
}

fn span_by(same: bool, low: Frac, high: Frac) -> Result<Frac, Passed>
    ensures { result ≡ span_by same low high }
{
    if same {
        Ok(Frac::zero())
    } else {
        high.sub(low)
    }
}

/// How far an interval reaches that has two ends, 0 where it has not.
fn span(low: Option<Frac>, high: Option<Frac>) -> Result<Frac, Passed>
    ensures { result ≡ span low high }
{
    match (low, high) {
        (Some(low), Some(high)) => span_by(low == high, low, high),
        (Some(_), None) => Ok(Frac::zero()),
        (None, _) => Ok(Frac::zero()),
    }
}

/// How far the interval of a row reaches.
pub(crate) fn row_span(row: &NodeRow) -> Result<Frac, Passed>
    ensures { result ≡ row_span row.now }
{
    span(row.low, row.high)
}

/// Takes the totals of nodes.
fn totals(program: &Program, live: &[u64]) -> Result<(), Passed>
    ensures { result ≡ each_walk (node_total (view_of (content program.now))) live.now }
{
    for node in live {
        node_total(program, *node)?;
    }
    Ok(())
}

/// Takes the costs of columns at a node.
fn prices_of(program: &Program, total: Frac, node: u64, columns: &[u64]) -> Result<(), Passed>
    ensures { result ≡ each_walk (price (view_of (content program.now)) total node) columns.now }
{
    for column in columns {
        price(program, total, node, *column)?;
    }
    Ok(())
}

/// Takes the costs of a node's columns.
fn node_prices(alloc: Global, program: &Program, node: u64) -> Result<Result<(), Passed>, Memory>
    ensures { IfOk result (λ taken. taken ≡ prices (view_of (content program.now)) node) }
{
    let columns = columns_at(alloc, program, node)?;
    let total = or_zero(node_total(program, node));
    Ok(prices_of(program, total, node, &columns))
}

/// Takes the costs of the columns of nodes.
fn prices(alloc: Global, program: &Program, live: &[u64]) -> Result<Result<(), Passed>, Memory>
    ensures { IfOk result (λ taken. taken ≡ each_walk (prices (view_of (content program.now))) live.now) }
{
    for node in live {
        match node_prices(alloc, program, *node)? {
            Ok(()) => {}
            Err(passed) => return Ok(Err(passed)),
        }
    }
    Ok(Ok(()))
}

/// Takes the spans of rows.
fn spans_of(rows: &[NodeRow]) -> Result<(), Passed>
    ensures { result ≡ each_walk row_span rows.now }
{
    for row in rows {
        row_span(row)?;
    }
    Ok(())
}

/// Takes the spans of the rows of nodes.
fn row_spans(program: &Program, live: &[u64]) -> Result<(), Passed>
    ensures { result ≡ each_walk (row_spans (view_of (content program.now))) live.now }
{
    for node in live {
        spans_of(rows_at(program, *node))?;
    }
    Ok(())
}

/// Takes all operations in their order; the first that passes ends them.
pub(crate) fn operations(
    alloc: Global,
    program: &Program,
    live: &[u64],
) -> Result<Result<(), Passed>, Memory>
    requires { live.now ≡ (view_of (content program.now)).live }
    ensures { IfOk result (λ taken. taken ≡ operations (view_of (content program.now))) }
{
    match totals(program, live) {
        Ok(()) => {}
        Err(passed) => return Ok(Err(passed)),
    }
    match prices(alloc, program, live)? {
        Ok(()) => Ok(row_spans(program, live)),
        Err(passed) => Ok(Err(passed)),
    }
}
