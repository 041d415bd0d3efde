//! The forms of a table.
use command_words::SheetForm;
use frac128::Memory;
use report_lines::print_text;
use report_page::print_page;
use report_records::{print_csv, print_json};
use report_table::Table;
use scen_defs::{Program, Report};
use std::alloc::Global;
use value_reader::StatedMeasures;

/// A report, what follows of it for its program, and what `value` printed, where that is shown, in a form.
pub(crate) fn formed(
    alloc: Global,
    program: &Program,
    report: &Report,
    measures: Option<StatedMeasures>,
    form: SheetForm,
) -> Result<Vec<u8>, Memory> {
    let table = Table::of(alloc, program, report, measures)?;
    match form {
        SheetForm::Text => print_text(alloc, &table),
        SheetForm::Csv => print_csv(alloc, &table),
        SheetForm::Json => print_json(alloc, &table),
        SheetForm::Html => print_page(alloc, &table),
    }
}
