//! The table as one JSON object, written piece by piece, so that no tree of it is kept.
use frac128::Memory;
use report_table::{
    ExpectedCost, Table, are_of_other_program, cost_lines, cost_steps, decimal_text, exact_text,
    expected_cost, finding_word, measure_lines, print_finding, put_count, row_price, shared_text,
    shown_name,
};
use report_values::{Amount, ColumnCells, RowCells, are_of_ray, gap};
use scen_defs::{Node, Report, Scenario};
use serde_json::Value;
use std::alloc::Global;

/// Appends a text.
fn put(out: &mut Vec<u8>, text: &str) -> Result<(), Memory> {
    out.extend_from_slice(text.as_bytes())?;
    Ok(())
}

/// Appends a text as a JSON string.
fn put_string(alloc: Global, out: &mut Vec<u8>, text: String) -> Result<(), Memory> {
    let quoted = Value::String(text).to_string(alloc)?;
    put(out, quoted.as_str())
}

/// A name as a JSON string.
fn quoted(alloc: Global, name: &[u8]) -> Result<Vec<u8>, Memory> {
    let shown = shown_name(alloc, name)?;
    let mut out = Vec::new(alloc);
    put_string(alloc, &mut out, shown)?;
    Ok(out)
}

/// Appends a number: an object with its decimal and its exact fraction, `null` where there is none, `"passed"` where its sum passes 128
/// bits.
fn put_amount(alloc: Global, out: &mut Vec<u8>, amount: Amount) -> Result<(), Memory> {
    match amount {
        Amount::Known(value) => {
            let exact = exact_text(alloc, value)?;
            let decimal = decimal_text(alloc, value)?;
            put(out, "{\"decimal\":")?;
            out.extend_from_slice(&decimal)?;
            put(out, ",\"exact\":\"")?;
            out.extend_from_slice(&exact)?;
            put(out, "\"}")
        }
        Amount::Absent => put(out, "null"),
        Amount::Passed => put(out, "\"passed\""),
    }
}

/// Appends a key, which needs no escapes, with a comma before it.
fn put_key(out: &mut Vec<u8>, key: &str) -> Result<(), Memory> {
    put(out, ",\"")?;
    put(out, key)?;
    put(out, "\":")
}

/// Appends a key with a number.
fn put_keyed(alloc: Global, out: &mut Vec<u8>, key: &str, amount: Amount) -> Result<(), Memory> {
    put_key(out, key)?;
    put_amount(alloc, out, amount)
}

/// Appends a comma, except before the first one.
fn put_comma(out: &mut Vec<u8>, is_first: bool) -> Result<(), Memory> {
    if is_first { Ok(()) } else { put(out, ",") }
}

/// The names of columns, rows and periods as JSON strings.
#[derive(Drop)]
struct QuotedNames {
    columns: Vec<Vec<u8>>,
    rows: Vec<Vec<u8>>,
    periods: Vec<Vec<u8>>,
}

/// The names of a table as JSON strings.
fn quoted_names(alloc: Global, table: &Table<'_>) -> Result<QuotedNames, Memory> {
    let mut columns = Vec::new(alloc);
    for column in &table.program.columns {
        columns.push(quoted(alloc, column.name.as_bytes())?)?;
    }
    let mut rows = Vec::new(alloc);
    for row in &table.program.rows {
        rows.push(quoted(alloc, row.name.as_bytes())?)?;
    }
    let mut periods = Vec::new(alloc);
    for period in &table.program.periods {
        periods.push(quoted(alloc, period.as_bytes())?)?;
    }
    Ok(QuotedNames {
        columns,
        rows,
        periods,
    })
}

/// Appends the name at a place.
fn put_name(out: &mut Vec<u8>, names: &[Vec<u8>], place: u32) -> Result<(), Memory> {
    match names.get(place as usize) {
        Some(name) => {
            out.extend_from_slice(name)?;
            Ok(())
        }
        None => put(out, "\"\""),
    }
}

/// Appends the object of a column.
fn put_column(
    alloc: Global,
    out: &mut Vec<u8>,
    names: &QuotedNames,
    cells: &ColumnCells,
) -> Result<(), Memory> {
    put(out, "{\"column\":")?;
    put_name(out, &names.columns, cells.column)?;
    put_keyed(alloc, out, "cost", Amount::Known(cells.cost))?;
    put_keyed(alloc, out, "value", cells.value)?;
    put_keyed(alloc, out, "direction", cells.direction)?;
    put_keyed(alloc, out, "lower", cells.lower)?;
    put_keyed(alloc, out, "upper", cells.upper)?;
    put_keyed(alloc, out, "reduced", cells.reduced)?;
    put(out, "}")
}

/// Appends the object of a row.
fn put_row(
    alloc: Global,
    out: &mut Vec<u8>,
    names: &QuotedNames,
    cells: &RowCells,
    price: Amount,
) -> Result<(), Memory> {
    put(out, "{\"row\":")?;
    put_name(out, &names.rows, cells.row)?;
    put_keyed(alloc, out, "activity", cells.activity)?;
    put_keyed(alloc, out, "low", cells.low)?;
    put_keyed(alloc, out, "high", cells.high)?;
    put_keyed(alloc, out, "slack", cells.slack)?;
    put_keyed(alloc, out, "multiplier", cells.multiplier)?;
    put_keyed(alloc, out, "price", price)?;
    put(out, "}")
}

/// Appends the columns of a node.
fn put_columns(
    alloc: Global,
    out: &mut Vec<u8>,
    table: &Table<'_>,
    names: &QuotedNames,
    node: u32,
) -> Result<(), Memory> {
    put(out, "[")?;
    let columns = table.columns(alloc, node)?;
    for (place, cells) in columns.iter().enumerate() {
        put_comma(out, place == 0)?;
        put_column(alloc, out, names, cells)?;
    }
    put(out, "]")
}

/// Appends the rows of a node.
fn put_rows(
    alloc: Global,
    out: &mut Vec<u8>,
    table: &Table<'_>,
    names: &QuotedNames,
    node: u32,
) -> Result<(), Memory> {
    put(out, "[")?;
    let rows = table.rows(alloc, node)?;
    for (place, cells) in rows.iter().enumerate() {
        put_comma(out, place == 0)?;
        let price = row_price(table, node, cells.multiplier);
        put_row(alloc, out, names, cells, price)?;
    }
    put(out, "]")
}

/// Appends a node's number, or `null`.
fn put_parent(alloc: Global, out: &mut Vec<u8>, parent: Option<u32>) -> Result<(), Memory> {
    match parent {
        Some(number) => put_count(alloc, out, u64::from(number)),
        None => put(out, "null"),
    }
}

/// Appends the object of a node.
fn put_node(
    alloc: Global,
    out: &mut Vec<u8>,
    table: &Table<'_>,
    names: &QuotedNames,
    number: u32,
    node: &Node,
) -> Result<(), Memory> {
    put(out, "{\"node\":")?;
    put_count(alloc, out, u64::from(number))?;
    put_key(out, "parent")?;
    put_parent(alloc, out, node.parent)?;
    put_key(out, "period")?;
    put_name(out, &names.periods, node.stage)?;
    put_key(out, "scenarios")?;
    put_count(alloc, out, u64::from(table.values.scenarios(number)))?;
    put_keyed(alloc, out, "probability", table.values.probability(number))?;
    put_key(out, "columns")?;
    put_columns(alloc, out, table, names, number)?;
    put_key(out, "rows")?;
    put_rows(alloc, out, table, names, number)?;
    put(out, "}")
}

/// Appends the nodes.
fn put_nodes(
    alloc: Global,
    out: &mut Vec<u8>,
    table: &Table<'_>,
    names: &QuotedNames,
) -> Result<(), Memory> {
    put(out, "[")?;
    let mut is_first = true;
    let mut number: u32 = 0;
    for slot in &table.program.nodes {
        if let Some(node) = slot {
            put_comma(out, is_first)?;
            put(out, "\n")?;
            put_node(alloc, out, table, names, number, node)?;
            is_first = false;
        }
        number = number.saturating_add(1);
    }
    put(out, "\n]")
}

/// Appends the nodes of a path.
fn put_path(alloc: Global, out: &mut Vec<u8>, path: &[u32]) -> Result<(), Memory> {
    put(out, "[")?;
    for (place, node) in path.iter().enumerate() {
        put_comma(out, place == 0)?;
        put_count(alloc, out, u64::from(*node))?;
    }
    put(out, "]")
}

/// Appends the object of a scenario.
fn put_scenario(
    alloc: Global,
    out: &mut Vec<u8>,
    scenario: &Scenario,
    cost: Amount,
) -> Result<(), Memory> {
    let name = quoted(alloc, scenario.name.as_bytes())?;
    put(out, "{\"scenario\":")?;
    out.extend_from_slice(&name)?;
    put_keyed(
        alloc,
        out,
        "probability",
        Amount::Known(scenario.probability),
    )?;
    put_keyed(alloc, out, "cost", cost)?;
    put_key(out, "nodes")?;
    put_path(alloc, out, &scenario.path)?;
    put(out, "}")
}

/// Appends the scenarios.
fn put_scenarios(alloc: Global, out: &mut Vec<u8>, table: &Table<'_>) -> Result<(), Memory> {
    put(out, "[")?;
    for (place, scenario) in table.program.scenarios.iter().enumerate() {
        put_comma(out, place == 0)?;
        put(out, "\n")?;
        put_scenario(alloc, out, scenario, table.values.cost(place))?;
    }
    put(out, "\n]")
}

/// The list whose numbers the multipliers are.
fn multiplier_word(table: &Table<'_>) -> &'static str {
    if table.report.dual.is_some() {
        "\"DUAL\""
    } else if are_of_ray(table.report) {
        "\"RAY\""
    } else {
        "null"
    }
}

/// Appends what the ray is worth and what the direction costs, of which a report has one at most.
fn put_extra(alloc: Global, out: &mut Vec<u8>, report: &Report) -> Result<(), Memory> {
    let extra = Amount::of_end(report.extra);
    if report.ray.is_some() {
        put_keyed(alloc, out, "value", extra)?;
        put_keyed(alloc, out, "slope", Amount::Absent)
    } else {
        put_keyed(alloc, out, "value", Amount::Absent)?;
        put_keyed(alloc, out, "slope", extra)
    }
}

/// Appends what stands on top: the finding and the ends.
fn put_outcome(alloc: Global, out: &mut Vec<u8>, table: &Table<'_>) -> Result<(), Memory> {
    let report = table.report;
    put(out, "{\"report\":")?;
    put_count(alloc, out, u64::from(report.number))?;
    put_key(out, "finding")?;
    put_string(
        alloc,
        out,
        String::from_str(alloc, finding_word(report.finding))?,
    )?;
    put_key(out, "words")?;
    put(out, "\"")?;
    print_finding(alloc, out, report.finding)?;
    put(out, "\"")?;
    put_keyed(alloc, out, "lower", Amount::of_end(report.lower))?;
    put_keyed(alloc, out, "upper", Amount::of_end(report.upper))?;
    put_keyed(alloc, out, "gap", gap(report))?;
    put_extra(alloc, out, report)?;
    put_key(out, "multipliers")?;
    put(out, multiplier_word(table))
}

/// Appends the expected cost, as far as the ends say it: exactly, or to the digits that both share.
fn put_expected(alloc: Global, out: &mut Vec<u8>, table: &Table<'_>) -> Result<(), Memory> {
    put(out, "\"expected\":")?;
    match expected_cost(table.report) {
        ExpectedCost::Known(cost) => {
            put_amount(alloc, out, Amount::Known(cost))?;
            put(out, ",\"shared\":null")
        }
        ExpectedCost::Shared(decimal) => {
            put(out, "null,\"shared\":")?;
            out.extend_from_slice(&shared_text(alloc, decimal)?)?;
            Ok(())
        }
        ExpectedCost::Apart => put(out, "null,\"shared\":null"),
    }
}

/// Appends the expected cost, and what the costs of the scenarios come to.
fn put_costs(alloc: Global, out: &mut Vec<u8>, table: &Table<'_>) -> Result<(), Memory> {
    put_key(out, "costs")?;
    put(out, "{")?;
    put_expected(alloc, out, table)?;
    let steps = cost_steps(alloc, table)?;
    for line in &cost_lines(table, &steps) {
        put_keyed(alloc, out, line.name, line.amount)?;
    }
    put(out, "}")
}

/// Appends what `value` printed, where that is shown.
fn put_measures(alloc: Global, out: &mut Vec<u8>, table: &Table<'_>) -> Result<(), Memory> {
    let Some(measures) = &table.measures else {
        return Ok(());
    };
    let is_of_other_program = if are_of_other_program(measures, table.report) {
        "true"
    } else {
        "false"
    };
    put_key(out, "measures")?;
    put(out, "{\"proved\":false,\"other_program\":")?;
    put(out, is_of_other_program)?;
    for line in &measure_lines(measures) {
        put_keyed(alloc, out, line.name, line.amount)?;
    }
    put(out, "}")
}

/// The table as one JSON object, with a line feed after it.
pub fn print_json(alloc: Global, table: &Table<'_>) -> Result<Vec<u8>, Memory> {
    let names = quoted_names(alloc, table)?;
    let mut out = Vec::new(alloc);
    put_outcome(alloc, &mut out, table)?;
    put_costs(alloc, &mut out, table)?;
    put_measures(alloc, &mut out, table)?;
    put_key(&mut out, "first")?;
    put_columns(alloc, &mut out, table, &names, 0)?;
    put_key(&mut out, "scenarios")?;
    put_scenarios(alloc, &mut out, table)?;
    put_key(&mut out, "nodes")?;
    put_nodes(alloc, &mut out, table, &names)?;
    put(&mut out, "}\n")?;
    Ok(out)
}
