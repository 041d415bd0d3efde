//! The table as text for a terminal: the first decisions, then scenario by scenario.
use crate::amounts::{put, put_amount, put_whole};
use crate::parts::{name_cell, put_columns, put_rows};
use frac128::Memory;
use report_table::{
    ExpectedCost, Table, are_of_other_program, cost_lines, cost_steps, expected_cost, finding_word,
    measure_lines, print_finding, put_count, shared_text,
};
use report_values::{Amount, gap};
use scen_defs::Scenario;
use scen_nodes::find;
use std::alloc::Global;

/// So many scenarios are shown at most, and no further one once so many nodes are.
const MOST: usize = 40;

/// Said before the expected cost.
const EXPECTED: &'static str = "expected cost  ";

/// Appends a line of a word and a number.
fn put_end(alloc: Global, out: &mut Vec<u8>, word: &str, amount: Amount) -> Result<(), Memory> {
    put(out, word)?;
    put_whole(alloc, out, amount)?;
    put(out, "\n")
}

/// Appends the number of the report, its finding and its ends.
fn put_outcome(alloc: Global, out: &mut Vec<u8>, table: &Table<'_>) -> Result<(), Memory> {
    let report = table.report;
    put(out, "REPORT ")?;
    put_count(alloc, out, u64::from(report.number))?;
    put(out, " ")?;
    put(out, finding_word(report.finding))?;
    put(out, "\n")?;
    print_finding(alloc, out, report.finding)?;
    put(out, "\n")?;
    put_cost(alloc, out, table)?;
    put_extra(alloc, out, table)?;
    put_size(alloc, out, "nodes          ", report.nodes)?;
    put_size(alloc, out, "scenarios      ", report.scenarios)
}

/// Appends the expected cost, as far as the ends say it, and the ends where they aren't one number.
fn put_cost(alloc: Global, out: &mut Vec<u8>, table: &Table<'_>) -> Result<(), Memory> {
    match expected_cost(table.report) {
        ExpectedCost::Known(cost) => put_end(alloc, out, EXPECTED, Amount::Known(cost)),
        ExpectedCost::Shared(decimal) => {
            put(out, EXPECTED)?;
            out.extend_from_slice(&shared_text(alloc, decimal)?)?;
            put(out, ", the digits that both ends share\n")?;
            put_ends(alloc, out, table)
        }
        ExpectedCost::Apart => put_ends(alloc, out, table),
    }
}

/// Appends both ends, and how far they lie apart.
fn put_ends(alloc: Global, out: &mut Vec<u8>, table: &Table<'_>) -> Result<(), Memory> {
    let report = table.report;
    put_end(alloc, out, "lower end      ", Amount::of_end(report.lower))?;
    put_end(alloc, out, "upper end      ", Amount::of_end(report.upper))?;
    put_end(alloc, out, "gap            ", gap(report))
}

/// Appends what the costs of the scenarios come to, where the report has a policy.
fn put_spread(alloc: Global, out: &mut Vec<u8>, table: &Table<'_>) -> Result<(), Memory> {
    if table.report.policy.is_none() {
        return Ok(());
    }
    put(out, "\nCOSTS OF SCENARIOS:")?;
    let mut start = " ";
    let steps = cost_steps(alloc, table)?;
    for line in &cost_lines(table, &steps) {
        put(out, start)?;
        put(out, line.name)?;
        put(out, " ")?;
        put_amount(alloc, out, line.amount, "-")?;
        start = ", ";
    }
    put(out, "\n")
}

/// Appends a line of a word and how many there are.
fn put_size(alloc: Global, out: &mut Vec<u8>, word: &str, count: u32) -> Result<(), Memory> {
    put(out, word)?;
    put_count(alloc, out, u64::from(count))?;
    put(out, "\n")
}

/// Appends what the ray is worth, or the direction costs, where there is one.
fn put_extra(alloc: Global, out: &mut Vec<u8>, table: &Table<'_>) -> Result<(), Memory> {
    let report = table.report;
    if report.extra.is_none() {
        return Ok(());
    }
    let word = if report.ray.is_some() {
        "ray worth      "
    } else {
        "slope          "
    };
    put_end(alloc, out, word, Amount::of_end(report.extra))
}

/// Appends the first decisions.
fn put_first(alloc: Global, out: &mut Vec<u8>, table: &Table<'_>) -> Result<(), Memory> {
    put(out, "\nFIRST DECISIONS, period ")?;
    out.extend_from_slice(&name_cell(alloc, table.period_name(0))?)?;
    put(out, ", node 0\n")?;
    put_columns(alloc, out, table, 0)?;
    put_rows(alloc, out, table, 0)
}

/// Appends the line of a node.
fn put_node_line(
    alloc: Global,
    out: &mut Vec<u8>,
    table: &Table<'_>,
    node: u32,
) -> Result<(), Memory> {
    let Some(found) = find(&table.program.nodes, u64::from(node)) else {
        return Ok(());
    };
    put(out, "node ")?;
    put_count(alloc, out, u64::from(node))?;
    put(out, ", period ")?;
    out.extend_from_slice(&name_cell(alloc, table.period_name(found.stage))?)?;
    put(out, ", scenarios ")?;
    put_count(alloc, out, u64::from(table.values.scenarios(node)))?;
    put(out, ", probability ")?;
    put_amount(alloc, out, table.values.probability(node), "-")?;
    put(out, "\n")
}

/// Appends a node, unless it was shown; gives whether it wasn't.
fn put_node(
    alloc: Global,
    out: &mut Vec<u8>,
    table: &Table<'_>,
    shown: &mut [bool],
    node: u32,
) -> Result<bool, Memory> {
    let place = node as usize;
    if place >= shown.len() || shown[place] {
        return Ok(false);
    }
    shown[place] = true;
    put_node_line(alloc, out, table, node)?;
    put_columns(alloc, out, table, node)?;
    put_rows(alloc, out, table, node)?;
    Ok(true)
}

/// Appends the line of a scenario.
fn put_scenario_line(
    alloc: Global,
    out: &mut Vec<u8>,
    scenario: &Scenario,
    cost: Amount,
) -> Result<(), Memory> {
    put(out, "\nSCENARIO ")?;
    out.extend_from_slice(&name_cell(alloc, scenario.name.as_bytes())?)?;
    put(out, ", probability ")?;
    put_amount(alloc, out, Amount::Known(scenario.probability), "-")?;
    put(out, ", cost ")?;
    put_amount(alloc, out, cost, "-")?;
    put(out, ", nodes")?;
    for node in &scenario.path {
        put(out, " ")?;
        put_count(alloc, out, u64::from(*node))?;
    }
    put(out, "\n")
}

/// Appends a scenario with those of its nodes that weren't shown; gives how many these are.
fn put_scenario(
    alloc: Global,
    out: &mut Vec<u8>,
    table: &Table<'_>,
    shown: &mut [bool],
    scenario: &Scenario,
    cost: Amount,
) -> Result<usize, Memory> {
    put_scenario_line(alloc, out, scenario, cost)?;
    let mut count: usize = 0;
    for node in &scenario.path {
        if put_node(alloc, out, table, shown, *node)? {
            count = count.saturating_add(1);
        }
    }
    Ok(count)
}

/// How many nodes weren't shown.
fn left(table: &Table<'_>, shown: &[bool]) -> u64 {
    let mut count: u64 = 0;
    for (place, slot) in table.program.nodes.iter().enumerate() {
        if slot.is_some() && place < shown.len() && !shown[place] {
            count = count.saturating_add(1);
        }
    }
    count
}

/// Appends how many scenarios and nodes are left.
fn put_left(alloc: Global, out: &mut Vec<u8>, scenarios: u64, nodes: u64) -> Result<(), Memory> {
    put(out, "\n")?;
    put_count(alloc, out, scenarios)?;
    put(out, " more scenarios with ")?;
    put_count(alloc, out, nodes)?;
    put(
        out,
        " more nodes aren't shown; --form csv, json and html have all of them.\n",
    )
}

/// Appends the scenarios, and how much is left of a long tree.
fn put_scenarios(alloc: Global, out: &mut Vec<u8>, table: &Table<'_>) -> Result<(), Memory> {
    let mut shown = vec![in alloc; false; table.program.nodes.len()]?;
    if !shown.is_empty() {
        shown[0] = true;
    }
    let mut nodes: usize = 0;
    for (place, scenario) in table.program.scenarios.iter().enumerate() {
        if place >= MOST || nodes >= MOST {
            let rest = table.program.scenarios.len().saturating_sub(place);
            return put_left(alloc, out, rest as u64, left(table, &shown));
        }
        let cost = table.values.cost(place);
        let more = put_scenario(alloc, out, table, shown.as_mut_slice(), scenario, cost)?;
        nodes = nodes.saturating_add(more);
    }
    Ok(())
}

/// Appends what `value` printed, where that is shown: each number, and what it is.
fn put_worth(alloc: Global, out: &mut Vec<u8>, table: &Table<'_>) -> Result<(), Memory> {
    let Some(measures) = &table.measures else {
        return Ok(());
    };
    put(
        out,
        "\nVALUE OF INFORMATION, read from what value printed, not proved by this run\n",
    )?;
    if are_of_other_program(measures, table.report) {
        put(
            out,
            "of another program than this report: RP is another number than its least cost\n",
        )?;
    }
    for line in &measure_lines(measures) {
        put(out, line.name)?;
        put(out, " ")?;
        put_whole(alloc, out, line.amount)?;
        put(out, ", ")?;
        put(out, line.words)?;
        put(out, "\n")?;
    }
    Ok(())
}

/// The table as text.
pub fn print_text(alloc: Global, table: &Table<'_>) -> Result<Vec<u8>, Memory> {
    let mut out = Vec::new(alloc);
    put_outcome(alloc, &mut out, table)?;
    put_first(alloc, &mut out, table)?;
    put_spread(alloc, &mut out, table)?;
    put_worth(alloc, &mut out, table)?;
    put_scenarios(alloc, &mut out, table)?;
    Ok(out)
}
