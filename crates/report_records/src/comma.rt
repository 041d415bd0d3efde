//! The table as comma-separated values: a record for the report, for each column and row of each node, and for each scenario.
use csv::{Terminator, Writer, WriterBuilder};
use frac128::Memory;
use report_table::{
    CostLine, ExpectedCost, MeasureLine, Table, are_of_other_program, cost_lines, cost_steps,
    decimal_text, exact_text, expected_cost, finding_word, measure_lines, print_finding, put_count,
    row_price, shown_name,
};
use report_values::{Amount, ColumnCells, RowCells, gap};
use scen_defs::Scenario;
use std::alloc::Global;

/// The names of the fields.
const FIELDS: [&'static str; 25] = [
    "kind",
    "name",
    "node",
    "parent",
    "period",
    "scenarios",
    "probability_decimal",
    "probability",
    "value_decimal",
    "value",
    "lower_decimal",
    "lower",
    "upper_decimal",
    "upper",
    "slack_decimal",
    "slack",
    "multiplier_decimal",
    "multiplier",
    "price_decimal",
    "price",
    "reduced_decimal",
    "reduced",
    "direction_decimal",
    "direction",
    "words",
];

/// What a record begins with: its kind and name, and where it stands.
#[derive(Drop)]
struct Head<'a> {
    kind: &'static str,
    name: &'a [u8],
    node: Option<u32>,
    parent: Option<u32>,
    period: &'a [u8],
    scenarios: Option<u32>,
}

/// The numbers of a record.
#[derive(Clone, Copy, Debug)]
struct Numbers {
    probability: Amount,
    value: Amount,
    lower: Amount,
    upper: Amount,
    slack: Amount,
    multiplier: Amount,
    price: Amount,
    reduced: Amount,
    direction: Amount,
}

/// No numbers.
const NONE: Numbers = Numbers {
    probability: Amount::Absent,
    value: Amount::Absent,
    lower: Amount::Absent,
    upper: Amount::Absent,
    slack: Amount::Absent,
    multiplier: Amount::Absent,
    price: Amount::Absent,
    reduced: Amount::Absent,
    direction: Amount::Absent,
};

/// A writer of records.
type Records = Writer<Vec<u8>>;

/// Writes a field. Into memory nothing but want of memory stops it.
fn field(records: &mut Records, text: &[u8]) -> Result<(), Memory> {
    match records.write_field(text) {
        Ok(()) => Ok(()),
        Err(_) => Err(Memory),
    }
}

/// Ends a record.
fn end(records: &mut Records) -> Result<(), Memory> {
    match records.end_record() {
        Ok(()) => Ok(()),
        Err(_) => Err(Memory),
    }
}

/// Writes a whole number, or an empty field.
fn count_field(alloc: Global, records: &mut Records, count: Option<u32>) -> Result<(), Memory> {
    let mut text = Vec::new(alloc);
    if let Some(count) = count {
        put_count(alloc, &mut text, u64::from(count))?;
    }
    field(records, &text)
}

/// Writes a number in two fields: as a decimal, and exactly. Both are empty where there is none.
fn amount_fields(alloc: Global, records: &mut Records, amount: Amount) -> Result<(), Memory> {
    match amount {
        Amount::Known(value) => {
            let exact = exact_text(alloc, value)?;
            let decimal = decimal_text(alloc, value)?;
            field(records, &decimal)?;
            field(records, &exact)
        }
        Amount::Absent => {
            field(records, b"")?;
            field(records, b"")
        }
        Amount::Passed => {
            field(records, b"passed")?;
            field(records, b"passed")
        }
    }
}

/// Writes what a record begins with.
fn head_fields(alloc: Global, records: &mut Records, head: &Head<'_>) -> Result<(), Memory> {
    let name = shown_name(alloc, head.name)?;
    let period = shown_name(alloc, head.period)?;
    field(records, head.kind.as_bytes())?;
    field(records, name.as_bytes())?;
    count_field(alloc, records, head.node)?;
    count_field(alloc, records, head.parent)?;
    field(records, period.as_bytes())?;
    count_field(alloc, records, head.scenarios)
}

/// Writes the numbers of a record.
fn number_fields(alloc: Global, records: &mut Records, numbers: &Numbers) -> Result<(), Memory> {
    amount_fields(alloc, records, numbers.probability)?;
    amount_fields(alloc, records, numbers.value)?;
    amount_fields(alloc, records, numbers.lower)?;
    amount_fields(alloc, records, numbers.upper)?;
    amount_fields(alloc, records, numbers.slack)?;
    amount_fields(alloc, records, numbers.multiplier)?;
    amount_fields(alloc, records, numbers.price)?;
    amount_fields(alloc, records, numbers.reduced)?;
    amount_fields(alloc, records, numbers.direction)
}

/// Writes a record.
fn record_line(
    alloc: Global,
    records: &mut Records,
    head: &Head<'_>,
    numbers: &Numbers,
    words: &[u8],
) -> Result<(), Memory> {
    head_fields(alloc, records, head)?;
    number_fields(alloc, records, numbers)?;
    field(records, words)?;
    end(records)
}

/// Writes the record of the report: its finding, its ends, their distance, and what its ray is worth or its direction costs.
fn put_report(alloc: Global, records: &mut Records, table: &Table<'_>) -> Result<(), Memory> {
    let report = table.report;
    let mut words = Vec::new(alloc);
    print_finding(alloc, &mut words, report.finding)?;
    let head = Head {
        kind: "report",
        name: finding_word(report.finding).as_bytes(),
        node: None,
        parent: None,
        period: b"",
        scenarios: Some(report.scenarios),
    };
    let numbers = Numbers {
        value: Amount::of_end(report.extra),
        lower: Amount::of_end(report.lower),
        upper: Amount::of_end(report.upper),
        slack: gap(report),
        ..NONE
    };
    record_line(alloc, records, &head, &numbers, &words)
}

/// Writes the record of a number that the costs of the scenarios come to.
fn put_cost(alloc: Global, records: &mut Records, line: &CostLine) -> Result<(), Memory> {
    let head = Head {
        kind: "cost",
        name: line.name.as_bytes(),
        node: None,
        parent: None,
        period: b"",
        scenarios: None,
    };
    let numbers = Numbers {
        value: line.amount,
        ..NONE
    };
    record_line(alloc, records, &head, &numbers, line.words.as_bytes())
}

/// The expected cost, where both ends are one number.
fn expected_line(table: &Table<'_>) -> Option<CostLine> {
    match expected_cost(table.report) {
        ExpectedCost::Known(cost) => Some(CostLine {
            name: "expected",
            words: "both ends",
            amount: Amount::Known(cost),
        }),
        ExpectedCost::Shared(_) | ExpectedCost::Apart => None,
    }
}

/// Writes the records of the expected cost, where the ends are one number, and of what the costs of the scenarios come to, where there
/// is a policy.
fn put_costs(alloc: Global, records: &mut Records, table: &Table<'_>) -> Result<(), Memory> {
    if let Some(line) = expected_line(table) {
        put_cost(alloc, records, &line)?;
    }
    if table.report.policy.is_none() {
        return Ok(());
    }
    let steps = cost_steps(alloc, table)?;
    for line in &cost_lines(table, &steps) {
        put_cost(alloc, records, line)?;
    }
    Ok(())
}

/// Writes the record of a number that `value` printed.
fn put_measure(
    alloc: Global,
    records: &mut Records,
    line: &MeasureLine,
    source: &str,
) -> Result<(), Memory> {
    let head = Head {
        kind: "measure",
        name: line.name.as_bytes(),
        node: None,
        parent: None,
        period: b"",
        scenarios: None,
    };
    let numbers = Numbers {
        value: line.amount,
        ..NONE
    };
    let what = line.words;
    let words = format!(in alloc; "{source}: {what}")?;
    record_line(alloc, records, &head, &numbers, words.as_bytes())
}

/// Writes the records of the six numbers, where they are shown.
fn put_measures(alloc: Global, records: &mut Records, table: &Table<'_>) -> Result<(), Memory> {
    let Some(measures) = &table.measures else {
        return Ok(());
    };
    let source = if are_of_other_program(measures, table.report) {
        "read, not proved, of another program"
    } else {
        "read, not proved"
    };
    for line in &measure_lines(measures) {
        put_measure(alloc, records, line, source)?;
    }
    Ok(())
}

/// Where a node stands.
#[derive(Drop)]
struct Spot<'a> {
    node: u32,
    parent: Option<u32>,
    period: &'a [u8],
    scenarios: u32,
    probability: Amount,
}

/// What a record of a node begins with.
fn head_at<'a>(kind: &'static str, name: &'a [u8], spot: &Spot<'a>) -> Head<'a> {
    Head {
        kind,
        name,
        node: Some(spot.node),
        parent: spot.parent,
        period: spot.period,
        scenarios: Some(spot.scenarios),
    }
}

/// Writes the record of a column.
fn put_column(
    alloc: Global,
    records: &mut Records,
    name: &[u8],
    spot: &Spot<'_>,
    cells: &ColumnCells,
) -> Result<(), Memory> {
    let numbers = Numbers {
        probability: spot.probability,
        value: cells.value,
        lower: cells.lower,
        upper: cells.upper,
        reduced: cells.reduced,
        direction: cells.direction,
        ..NONE
    };
    record_line(
        alloc,
        records,
        &head_at("column", name, spot),
        &numbers,
        b"",
    )
}

/// Writes the record of a row.
fn put_row(
    alloc: Global,
    records: &mut Records,
    name: &[u8],
    spot: &Spot<'_>,
    cells: &RowCells,
    price: Amount,
) -> Result<(), Memory> {
    let numbers = Numbers {
        probability: spot.probability,
        value: cells.activity,
        lower: cells.low,
        upper: cells.high,
        slack: cells.slack,
        multiplier: cells.multiplier,
        price,
        ..NONE
    };
    record_line(alloc, records, &head_at("row", name, spot), &numbers, b"")
}

/// Writes the records of a node: its columns, then its rows.
fn put_node(
    alloc: Global,
    records: &mut Records,
    table: &Table<'_>,
    spot: &Spot<'_>,
) -> Result<(), Memory> {
    let columns = table.columns(alloc, spot.node)?;
    for cells in &columns {
        put_column(alloc, records, table.column_name(cells.column), spot, cells)?;
    }
    let rows = table.rows(alloc, spot.node)?;
    for cells in &rows {
        let price = row_price(table, spot.node, cells.multiplier);
        put_row(
            alloc,
            records,
            table.row_name(cells.row),
            spot,
            cells,
            price,
        )?;
    }
    Ok(())
}

/// Writes the records of all nodes.
fn put_nodes(alloc: Global, records: &mut Records, table: &Table<'_>) -> Result<(), Memory> {
    let mut number: u32 = 0;
    for slot in &table.program.nodes {
        if let Some(node) = slot {
            let spot = Spot {
                node: number,
                parent: node.parent,
                period: table.period_name(node.stage),
                scenarios: table.values.scenarios(number),
                probability: table.values.probability(number),
            };
            put_node(alloc, records, table, &spot)?;
        }
        number = number.saturating_add(1);
    }
    Ok(())
}

/// The last node of a scenario, and the one before it.
fn leaf(scenario: &Scenario) -> (Option<u32>, Option<u32>) {
    match scenario.path.as_slice() {
        [.., before, last] => (Some(*last), Some(*before)),
        [last] => (Some(*last), None),
        [] => (None, None),
    }
}

/// Writes the record of a scenario.
fn put_scenario(
    alloc: Global,
    records: &mut Records,
    scenario: &Scenario,
    cost: Amount,
) -> Result<(), Memory> {
    let (node, parent) = leaf(scenario);
    let head = Head {
        kind: "scenario",
        name: scenario.name.as_bytes(),
        node,
        parent,
        period: b"",
        scenarios: Some(1),
    };
    let numbers = Numbers {
        probability: Amount::Known(scenario.probability),
        value: cost,
        ..NONE
    };
    record_line(alloc, records, &head, &numbers, b"")
}

/// Writes the records of all scenarios.
fn put_scenarios(alloc: Global, records: &mut Records, table: &Table<'_>) -> Result<(), Memory> {
    for (place, scenario) in table.program.scenarios.iter().enumerate() {
        put_scenario(alloc, records, scenario, table.values.cost(place))?;
    }
    Ok(())
}

/// Writes the names of the fields.
fn put_fields(records: &mut Records) -> Result<(), Memory> {
    for name in FIELDS {
        field(records, name.as_bytes())?;
    }
    end(records)
}

/// The table as comma-separated values (RFC 4180): a record with the names of the fields, one for the report, one for each number that
/// the costs come to and that `value` printed, where these are shown, one for each column and row of each node, by node, and one for each
/// scenario.
pub fn print_csv(alloc: Global, table: &Table<'_>) -> Result<Vec<u8>, Memory> {
    let mut records = csv_writer(alloc);
    put_fields(&mut records)?;
    put_report(alloc, &mut records, table)?;
    put_costs(alloc, &mut records, table)?;
    put_measures(alloc, &mut records, table)?;
    put_nodes(alloc, &mut records, table)?;
    put_scenarios(alloc, &mut records, table)?;
    match records.into_inner() {
        Ok(text) => Ok(text),
        Err(_) => Err(Memory),
    }
}

/// A writer into memory, whose records end as RFC 4180 says.
fn csv_writer(alloc: Global) -> Records {
    WriterBuilder::new()
        .terminator(Terminator::CRLF)
        .from_writer(Vec::new(alloc))
}
