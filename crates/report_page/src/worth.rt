//! The value of information, as `value` printed it.
use crate::cells::put_amount;
use crate::escape::put;
use frac128::Memory;
use report_table::{MeasureLine, Table, are_of_other_program, measure_lines};
use std::alloc::Global;

/// Said above the numbers.
const READ: &'static str = "<h2>The value of information</h2>
<p>These numbers are read from a file that the command value printed. They are not proved by this run.</p>
";

/// Said where RP isn't the least cost of the report.
const OTHER: &'static str =
    "<p>They are of another program than this report: RP is another number than its least cost.</p>\n";

/// Appends the line of a number.
fn put_line(alloc: Global, out: &mut Vec<u8>, line: &MeasureLine) -> Result<(), Memory> {
    put(out, "<tr><td>")?;
    put(out, line.name)?;
    put(out, "<td class=n>")?;
    put_amount(alloc, out, line.amount, "none")?;
    put(out, "<td>")?;
    put(out, line.words)?;
    put(out, "</tr>\n")
}

/// Appends the six numbers, where they are shown, and what they say.
pub(crate) fn put_worth(alloc: Global, out: &mut Vec<u8>, table: &Table<'_>) -> Result<(), Memory> {
    let Some(measures) = &table.measures else {
        return Ok(());
    };
    put(out, READ)?;
    if are_of_other_program(measures, table.report) {
        put(out, OTHER)?;
    }
    put(out, "<div class=grid tabindex=0><table><tbody>\n")?;
    for line in &measure_lines(measures) {
        put_line(alloc, out, line)?;
    }
    put(out, "</tbody></table></div>\n")
}
