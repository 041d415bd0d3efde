//! What standard error says of a basis that shows no report.
use crate::refusal::put_file;
use input_files::FileKind;
use smps_cli::Fetched;
use std::alloc::AllocError;

const WITHOUT_BASIS: &str =
    ": the basis isn't shown to be optimal, so the report is the one that comes without it\n";

/// Appends that a report is the one that comes without the basis.
pub fn put_without_basis(text: &mut String, fetched: &Fetched) -> Result<(), AllocError> {
    put_file(text, fetched, FileKind::Basis)?;
    text.push_str(WITHOUT_BASIS)
}
